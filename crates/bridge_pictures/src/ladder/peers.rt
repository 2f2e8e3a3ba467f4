//! The lines of a listener's peers, beside its own.
ghost use Rattle.std.specs.Prelude.{◌≡◌, ◌≤◌, ◌^◌, ◌++◌, ◌∷◌, [], min, IfOk, OnOk};
ghost use Rattle.dccp_sum.specs.declared.pseudo_header.Pseudo.TheVariants.{V4};
ghost use Rattle.bridge_pictures.specs.Peers as spec;
ghost use Rattle.bridge_pictures.specs.Places.{height_of, point};

use crate::ladder::places::{height_of, place_of};
use crate::svg::{Point, put_label, put_line, put_words};
use dccp_listener::Peer;
use dccp_sum::Pseudo;
use packet_show::Flows;
use seq_circle::NoMemory;
use std::alloc::Global;
use std::marker::Model;
use tool_jobs::put_peer;
use world_events::Side;

// The address and the port of the listener of `listen`.
const OWN_ADDRESS: [u8; 4] = [10, 0, 0, 2];

const OWN_PORT: u16 = 5001;

// The line of the first peer lies one step to the right of this, and each this far from the one before.
const ORIGIN: u64 = 700;

const STEP: u64 = 160;

// A name is this far to the left of its line, and this far above the row in which that begins.
const RISE: u64 = 5;

// A picture without peers has this width, and this much room below its last row.
const WIDTH: u64 = 1150;

const BOTTOM: u64 = 40;

// A text lies this far from its line, and its foot this far below the row's.
const GAP: u64 = 10;

const FOOT: u64 = 4;

/// The line of a peer: how far it lies from the left edge, and the row in which it begins.
#[derive(Clone, Copy)]
pub(crate) struct Lane {
    x: u64,
    top: u32,
}

/// The peers that were seen, and the line of each.
#[derive(Drop)]
pub(crate) struct Peers {
    alloc: Global,
    // Each peer has the number of its flow to the listener.
    flows: Flows,
    lanes: Vec<Lane>,
}

impl Model for Peers {
    ghost use Rattle.bridge_pictures.specs.Peers.{PeersParts};

    ghost Value = { PeersParts };

    ghost view = { λ p. record { flows = p.flows; lanes = p.lanes.items } };
}

// This many pixels, or the most that a picture has room for.
fn at_most(count: u64) -> u64
    ensures value { result ≡ min count 4294967295 }
    ensures low { result ≤ 2 ^ 32 }
{
    count.min(u64::from(u32::MAX))
}

// How far the line of the peer of this number lies from the left edge.
fn lane_at(number: u64) -> u64
    ensures value { result ≡ spec.lane_at number }
    ensures high { 700 ≤ result }
    ensures low { result ≤ 2 ^ 48 }
{
    ORIGIN + STEP * at_most(number)
}

// The addresses of a packet that a peer sends.
fn addresses_from(peer: Peer) -> Pseudo
    ensures { result ≡ V4 peer.address (10 ∷ 0 ∷ 0 ∷ 2 ∷ []) }
{
    let address = peer.address;
    Pseudo::V4 {
        from: address,
        to: OWN_ADDRESS,
    }
}

fn place_at(x: u64, row: u32) -> Point
    ensures { result ≡ point x (height_of row) }
{
    Point {
        x,
        y: height_of(row),
    }
}

impl Peers {
    /// Before the first peer. It takes no memory.
    pub(crate) fn new(alloc: Global) -> Peers
        ensures { result ≡ spec.first_peers }
    {
        Peers {
            alloc,
            flows: Flows::new(alloc),
            lanes: Vec::new(alloc),
        }
    }

    // The number of a peer that is seen now.
    fn see(&mut self, peer: Peer) -> Result<u64, NoMemory>
        ensures number { IfOk result (λ number. number ≡ spec.peer_number self.old peer) }
        ensures next { OnOk result (self.new ≡ spec.peer_seen self.old peer) }
    {
        self.flows
            .number(&addresses_from(peer), peer.port, OWN_PORT)
    }

    // The peer of this number has no line yet.
    fn is_new(&self, number: u64) -> bool
        ensures { result ≡ spec.is_new_lane self.now number }
    {
        (self.lanes.len() as u64) < number
    }

    // Puts the name of a peer, to the left of where its line begins.
    #[tactic(auto, unfolding(crate::specs::Peers::lane_name))]
    fn put_name(&self, text: &mut Vec<u8>, x: u64, row: u32, peer: Peer) -> Result<(), NoMemory>
        requires { 5 ≤ x }
        ensures { OnOk result (text.new.items ≡ text.old.items ++ spec.lane_name x row peer) }
    {
        let mut name = Vec::new(self.alloc);
        put_peer(&mut name, peer)?;
        let at = Point {
            x: x - RISE,
            y: height_of(row) - RISE,
        };
        put_words(text, b"peer", at, &name)
    }

    /// A peer is seen in this row: how far its line lies from the left edge. A new peer's line begins here, under its
    /// name. NoMemory comes if no memory was left, here and below.
    pub(crate) fn enter(
        &mut self,
        text: &mut Vec<u8>,
        peer: Peer,
        row: u32,
    ) -> Result<u64, NoMemory>
        ensures lane { IfOk result (λ x. x ≡ spec.lane_of self.old peer) }
        ensures low { IfOk result (λ x. x ≤ 2 ^ 48) }
        ensures next { OnOk result (self.new ≡ spec.peer_entered self.old peer row) }
        ensures text { OnOk result (text.new.items ≡ text.old.items ++ spec.entry self.old peer row) }
    {
        let number = self.see(peer)?;
        let x = lane_at(number);
        if !self.is_new(number) {
            return Ok(x);
        }
        self.put_name(text, x, row, peer)?;
        self.lanes.push(Lane { x, top: row })?;
        Ok(x)
    }

    /// Puts the lines of all peers down to this row.
    #[tactic(auto, unfolding(crate::specs::Peers::lanes_drawn))]
    pub(crate) fn put_lanes(&self, text: &mut Vec<u8>, row: u32) -> Result<(), NoMemory>
        ensures { OnOk result (text.new.items ≡ text.old.items ++ spec.lanes_drawn self.now row) }
    {
        for lane in &self.lanes {
            put_lane(text, row, lane)?;
        }
        Ok(())
    }

    /// The size of a listener's ladder with this many rows.
    pub(crate) fn size(&self, rows: u32) -> Point
        ensures { result ≡ spec.listener_size self.now rows }
    {
        Point {
            x: WIDTH + STEP * at_most(self.lanes.len() as u64),
            y: height_of(rows) + BOTTOM,
        }
    }
}

// Puts the line of a peer down to this row, if no phase is known.
#[tactic(auto, unfolding(crate::specs::Peers::lane_drawn))]
fn put_lane(text: &mut Vec<u8>, row: u32, lane: &Lane) -> Result<(), NoMemory>
    ensures { OnOk result (text.new.items ≡ text.old.items ++ spec.lane_drawn row lane.now) }
{
    put_line(
        text,
        b"plain",
        place_at(lane.x, lane.top),
        place_at(lane.x, row),
        b"its phases are not told",
    )
}

/// Puts the arrow of a packet that came in this row from a peer whose line lies there.
#[tactic(auto, unfolding(crate::specs::Peers::arrow_from))]
pub(crate) fn put_arrow_from(
    text: &mut Vec<u8>,
    class: &[u8],
    x: u64,
    row: u32,
    words: &[u8],
) -> Result<(), NoMemory>
    ensures { OnOk result (text.new.items ≡ text.old.items ++ spec.arrow_from class.now x row words.now) }
{
    put_line(
        text,
        class,
        place_at(x, row),
        place_of(Side::Client, row),
        words,
    )
}

/// Puts the arrow of a packet that goes to a peer whose line lies there.
#[tactic(auto, unfolding(crate::specs::Peers::arrow_to))]
pub(crate) fn put_arrow_to(
    text: &mut Vec<u8>,
    x: u64,
    row: u32,
    words: &[u8],
) -> Result<(), NoMemory>
    ensures { OnOk result (text.new.items ≡ text.old.items ++ spec.arrow_to x row words.now) }
{
    put_line(
        text,
        b"sent",
        place_of(Side::Client, row),
        place_at(x, row),
        words,
    )
}

/// Puts a text beside the line of a peer, which lies there.
#[tactic(auto, unfolding(crate::specs::Peers::text_at_lane))]
pub(crate) fn put_at_lane(
    text: &mut Vec<u8>,
    x: u64,
    row: u32,
    words: &[u8],
) -> Result<(), NoMemory>
    requires { x ≤ 2 ^ 48 }
    ensures { OnOk result (text.new.items ≡ text.old.items ++ spec.text_at_lane x row words.now) }
{
    let at = Point {
        x: x + GAP,
        y: height_of(row) + FOOT,
    };
    put_label(text, b"right", at, words)
}
