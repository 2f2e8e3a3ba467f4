//! A ladder while it is drawn, row by row.
ghost use Rattle.std.specs.Prelude.{◌≡◌, ◌≤◌, ◌^◌, ◌++◌, IfOk, OnOk};
ghost use Rattle.bridge_pictures.specs.Peers.{entry, lane_of};
ghost use Rattle.bridge_pictures.specs.Scene as spec;

use crate::ladder::peers::{Peers, put_arrow_from, put_arrow_to, put_at_lane};
use crate::ladder::phases::{Demand, Fate, phase_asked, phase_came, phase_sent};
use crate::ladder::places::{
    arrow_class, put_arrow, put_beside, put_lost, put_name, put_plain, put_segment, size_of,
};
use crate::style::{put_key, put_style};
use crate::svg::{Point, put_front};
use dccp_listener::Peer;
use dccp_packets::{Kind, PacketType};
use dccp_states::Phase;
use seq_circle::NoMemory;
use std::alloc::Global;
use std::marker::Model;
use tool_text::put;
use world_events::Side;

/// A frame that was sent: in which row, of which type if it is a packet, and whether it came.
#[derive(Clone, Copy)]
pub(crate) struct Flight {
    pub(crate) row: u32,
    pub(crate) kind: Option<PacketType>,
    pub(crate) came: bool,
}

/// The line of one end: its phase, the row up to which it is drawn, and the frames that it sent.
#[derive(Drop)]
pub(crate) struct Lifeline {
    phase: Phase,
    since: u32,
    frames: Vec<Flight>,
}

impl Model for Lifeline {
    ghost use Rattle.bridge_pictures.specs.Scene.{LifelineParts};

    ghost Value = { LifelineParts };

    ghost view = { λ l. record { phase = l.phase; since = l.since; frames = l.frames.items } };
}

impl Lifeline {
    // Before the first row.
    fn new(alloc: Global, phase: Phase) -> Lifeline
        ensures { result ≡ spec.first_lifeline phase }
    {
        Lifeline {
            phase,
            since: 0,
            frames: Vec::new(alloc),
        }
    }

    // Draws the line up to this row, from which it has another phase, or the same.
    fn turn(
        &mut self,
        text: &mut Vec<u8>,
        side: Side,
        row: u32,
        phase: Phase,
    ) -> Result<(), NoMemory>
        ensures text { OnOk result (text.new.items ≡ text.old.items ++ spec.drawn_up_to side self.old row) }
        ensures next { OnOk result (self.new ≡ spec.with_phase self.old row phase) }
    {
        self.put_up_to(text, side, row)?;
        self.phase = phase;
        self.since = row;
        Ok(())
    }

    // Draws the line up to this row.
    #[tactic(auto, unfolding(crate::specs::Scene::drawn_up_to))]
    fn put_up_to(&self, text: &mut Vec<u8>, side: Side, row: u32) -> Result<(), NoMemory>
        ensures { OnOk result (text.new.items ≡ text.old.items ++ spec.drawn_up_to side self.now row) }
    {
        put_segment(text, side, self.phase, self.since, row)
    }

    // Notes that a frame was sent.
    fn note(&mut self, row: u32, kind: Option<PacketType>) -> Result<(), NoMemory>
        ensures { OnOk result (self.new ≡ spec.noted self.old row kind) }
    {
        self.frames.push(Flight {
            row,
            kind,
            came: false,
        })?;
        Ok(())
    }

    // The frame of this index, which comes now.
    fn come(&mut self, index: u64) -> Option<Flight>
        ensures flight { result ≡ spec.flight_of self.old index }
        ensures next { self.new ≡ spec.with_come self.old index }
    {
        let place = index as usize;
        let flight = self.frames.get(place).copied()?;
        self.frames[place] = Flight {
            came: true,
            ..flight
        };
        Some(flight)
    }

    // Puts the arrows of the frames that never came.
    #[tactic(auto, unfolding(crate::specs::Scene::losses_of))]
    fn put_losses(&self, text: &mut Vec<u8>, side: Side) -> Result<(), NoMemory>
        ensures { OnOk result (text.new.items ≡ text.old.items ++ spec.losses_of side self.now) }
    {
        for flight in &self.frames {
            put_loss(text, side, flight)?;
        }
        Ok(())
    }
}

// Puts the arrow of a frame, if it never came.
fn put_loss(text: &mut Vec<u8>, side: Side, flight: &Flight) -> Result<(), NoMemory>
    ensures { OnOk result (text.new.items ≡ text.old.items ++ spec.loss side flight.now) }
{
    if flight.came {
        return Ok(());
    }
    put_lost(text, side, flight.row)
}

/// Whose lines a ladder has.
#[derive(Clone, Copy)]
pub(crate) enum Subject {
    /// Both ends of a connection.
    BothEnds,
    /// A single end: its peer is not seen, and its phases are not known.
    OneEnd,
    /// A listener and its peers: phases are not known.
    Listener,
}

/// A ladder while it is drawn.
#[derive(Drop)]
pub(crate) struct Ladder {
    rows: u32,
    subject: Subject,
    client: Lifeline,
    server: Lifeline,
    peers: Peers,
    body: Vec<u8>,
}

impl Model for Ladder {
    ghost use Rattle.bridge_pictures.specs.Scene.{Drawing};

    ghost Value = { Drawing };

    ghost view = { λ l. record { rows = l.rows; subject = l.subject; client = l.client; server = l.server; peers = l.peers; body = l.body.items } };
}

// Puts what the lines are called.
fn put_names(text: &mut Vec<u8>, subject: Subject) -> Result<(), NoMemory>
    ensures { OnOk result (text.new.items ≡ text.old.items ++ spec.names subject) }
{
    match subject {
        Subject::BothEnds => {
            put_key(text)?;
            put_name(text, Side::Client, b"client")?;
            put_name(text, Side::Server, b"server")
        }
        Subject::OneEnd => {
            put_name(text, Side::Client, b"this end")?;
            put_name(text, Side::Server, b"its peer")
        }
        Subject::Listener => put_name(text, Side::Client, b"listener"),
    }
}

impl Ladder {
    /// Before the first row.
    pub(crate) fn new(alloc: Global) -> Ladder
        ensures { result ≡ spec.first_drawing }
    {
        Ladder {
            rows: 0,
            subject: Subject::BothEnds,
            client: Lifeline::new(alloc, Phase::Closed),
            server: Lifeline::new(alloc, Phase::Listen),
            peers: Peers::new(alloc),
            body: Vec::new(alloc),
        }
    }

    /// Whether the left line is a single end.
    pub(crate) fn is_one_end(&self) -> bool
        ensures { result ≡ spec.is_one_end self.now.subject }
    {
        match self.subject {
            Subject::OneEnd => true,
            Subject::BothEnds | Subject::Listener => false,
        }
    }

    /// The lines are of these ends.
    pub(crate) fn set_subject(&mut self, subject: Subject)
        ensures { self.new ≡ spec.drawn_of subject self.old }
    {
        self.subject = subject;
    }

    /// Begins a row, with this text beside a side's line. NoMemory comes if no memory was left, here and below.
    #[tactic(auto, unfolding(crate::specs::Scene::row_told))]
    pub(crate) fn tell(&mut self, side: Side, words: &[u8]) -> Result<(), NoMemory>
        ensures { OnOk result (self.new ≡ spec.row_told self.old side words.now) }
    {
        self.rows = self.rows.saturating_add(1);
        put_beside(&mut self.body, side, self.rows, words)
    }

    /// The phase of a side.
    pub(crate) fn phase(&self, side: Side) -> Phase
        ensures { result ≡ (spec.lifeline_of self.now side).phase }
    {
        match side {
            Side::Client => self.client.phase,
            Side::Server => self.server.phase,
        }
    }

    /// A side has this phase from this row on.
    #[tactic(auto, unfolding(crate::specs::Scene::turned_to))]
    pub(crate) fn turn(&mut self, side: Side, phase: Phase) -> Result<(), NoMemory>
        ensures { OnOk result (self.new ≡ spec.turned_to self.old side phase) }
    {
        match side {
            Side::Client => self.client.turn(&mut self.body, side, self.rows, phase),
            Side::Server => self.server.turn(&mut self.body, side, self.rows, phase),
        }
    }

    /// A side was asked for something.
    #[tactic(auto, unfolding(crate::specs::Scene::asked_at))]
    pub(crate) fn ask(&mut self, side: Side, asked: Demand, words: &[u8]) -> Result<(), NoMemory>
        ensures { OnOk result (self.new ≡ spec.asked_at self.old side asked words.now) }
    {
        self.tell(side, words)?;
        self.turn(side, phase_asked(self.phase(side), asked))
    }

    // The frame of this side and index, which comes now.
    fn come(&mut self, from: Side, index: u64) -> Option<Flight>
        ensures flight { result ≡ spec.flight_of (spec.lifeline_of self.old from) index }
        ensures next { self.new ≡ spec.come_from self.old from index }
    {
        match from {
            Side::Client => self.client.come(index),
            Side::Server => self.server.come(index),
        }
    }

    // A frame came that this side had sent.
    fn arrive(
        &mut self,
        from: Side,
        flight: Flight,
        came: Fate,
        words: &[u8],
    ) -> Result<(), NoMemory>
        ensures { OnOk result (self.new ≡ spec.arrow_arrived self.old from flight came words.now) }
    {
        let class = arrow_class(came, flight.came);
        put_arrow(&mut self.body, class, from, flight.row, self.rows, words)?;
        let to = from.other();
        match flight.kind {
            Some(kind) => self.turn(to, phase_came(self.phase(to), kind, came)),
            None => Ok(()),
        }
    }

    /// The frame of this side and index came, and this became of it.
    #[tactic(auto, unfolding(crate::specs::Scene::delivered))]
    pub(crate) fn deliver(
        &mut self,
        from: Side,
        index: u64,
        came: Fate,
        words: &[u8],
    ) -> Result<(), NoMemory>
        ensures { OnOk result (self.new ≡ spec.delivered self.old from index came words.now) }
    {
        self.tell(from.other(), words)?;
        match self.come(from, index) {
            Some(flight) => self.arrive(from, flight, came, words),
            None => Ok(()),
        }
    }

    // Notes that a side sent a frame.
    fn note(&mut self, side: Side, kind: Option<PacketType>) -> Result<(), NoMemory>
        ensures { OnOk result (self.new ≡ spec.noted_at self.old side kind) }
    {
        match side {
            Side::Client => self.client.note(self.rows, kind),
            Side::Server => self.server.note(self.rows, kind),
        }
    }

    /// A side sent a frame, which is a packet of this kind or none.
    #[tactic(auto, unfolding(crate::specs::Scene::frame_sent))]
    pub(crate) fn send(
        &mut self,
        side: Side,
        kind: Option<Kind>,
        words: &[u8],
    ) -> Result<(), NoMemory>
        ensures { OnOk result (self.new ≡ spec.frame_sent self.old side kind words.now) }
    {
        self.tell(side, words)?;
        match &kind {
            Some(kind) => {
                self.note(side, Some(kind.packet_type()))?;
                self.turn(side, phase_sent(self.phase(side), kind))
            }
            None => self.note(side, None),
        }
    }

    /// A frame goes between the lines in one row, as one that is seen on the wire does, or one of a single end.
    #[tactic(auto, unfolding(crate::specs::Scene::gone_straight))]
    pub(crate) fn pass(&mut self, from: Side, class: &[u8], words: &[u8]) -> Result<(), NoMemory>
        ensures { OnOk result (self.new ≡ spec.gone_straight self.old from class.now words.now) }
    {
        put_arrow(&mut self.body, class, from, self.rows, self.rows, words)
    }

    // A peer is seen in this row: how far its line lies from the left edge.
    fn enter(&mut self, peer: Peer) -> Result<u64, NoMemory>
        ensures lane { IfOk result (λ x. x ≡ lane_of self.old.peers peer) }
        ensures low { IfOk result (λ x. x ≤ 2 ^ 48) }
        ensures next { OnOk result (self.new ≡ spec.entered_in_row self.old peer) }
    {
        self.peers.enter(&mut self.body, peer, self.rows)
    }

    /// A listener was asked for something, or lists its flows.
    #[tactic(auto, unfolding(crate::specs::Scene::listener_told))]
    pub(crate) fn tell_of_listener(&mut self, words: &[u8]) -> Result<(), NoMemory>
        ensures { OnOk result (self.new ≡ spec.listener_told self.old words.now) }
    {
        self.set_subject(Subject::Listener);
        self.tell(Side::Client, words)
    }

    /// A packet of a peer came to a listener. Its look shows what became of it.
    #[tactic(auto, unfolding(crate::specs::Scene::peer_heard))]
    pub(crate) fn hear(&mut self, peer: Peer, class: &[u8], words: &[u8]) -> Result<(), NoMemory>
        ensures { OnOk result (self.new ≡ spec.peer_heard self.old peer class.now words.now) }
    {
        self.tell_of_listener(words)?;
        let x = self.enter(peer)?;
        put_arrow_from(&mut self.body, class, x, self.rows, words)
    }

    /// A listener sends a packet to a peer.
    #[tactic(auto, unfolding(crate::specs::Scene::peer_answered))]
    pub(crate) fn answer(&mut self, peer: Peer, words: &[u8]) -> Result<(), NoMemory>
        ensures { OnOk result (self.new ≡ spec.peer_answered self.old peer words.now) }
    {
        self.tell_of_listener(words)?;
        let x = self.enter(peer)?;
        put_arrow_to(&mut self.body, x, self.rows, words)
    }

    /// Puts what a packet says that came in the latest row: from a peer, or from the other end.
    #[tactic(auto, unfolding(crate::specs::Scene::arrival_drawn_beside))]
    pub(crate) fn tell_arrival(&mut self, peer: Option<Peer>, words: &[u8]) -> Result<(), NoMemory>
        ensures { OnOk result (self.new ≡ spec.arrival_drawn_beside self.old peer words.now) }
    {
        match peer {
            Some(peer) => {
                let x = self.enter(peer)?;
                put_at_lane(&mut self.body, x, self.rows, words)
            }
            None => put_beside(&mut self.body, Side::Server, self.rows, words),
        }
    }

    // Puts both lines to the bottom, and the frames that never came.
    fn put_both_ends(&self, text: &mut Vec<u8>, bottom: u32) -> Result<(), NoMemory>
        requires { bottom ≡ spec.next_row self.now.rows }
        ensures { OnOk result (text.new.items ≡ text.old.items ++ spec.two_ends_rest self.now) }
    {
        self.client.put_up_to(text, Side::Client, bottom)?;
        self.server.put_up_to(text, Side::Server, bottom)?;
        self.client.put_losses(text, Side::Client)?;
        self.server.put_losses(text, Side::Server)
    }

    // Puts the parts that are drawn at the end.
    #[tactic(auto, unfolding(crate::specs::Scene::last_parts))]
    fn put_rest(&self, text: &mut Vec<u8>) -> Result<(), NoMemory>
        ensures { OnOk result (text.new.items ≡ text.old.items ++ spec.last_parts self.now) }
    {
        let bottom = self.rows.saturating_add(1);
        match self.subject {
            Subject::BothEnds => self.put_both_ends(text, bottom),
            Subject::OneEnd => {
                put_plain(text, Side::Client, bottom)?;
                put_plain(text, Side::Server, bottom)
            }
            Subject::Listener => {
                put_plain(text, Side::Client, bottom)?;
                self.peers.put_lanes(text, bottom)
            }
        }
    }

    // The size of the picture.
    fn size(&self) -> Point
        ensures { result ≡ spec.size_by self.now.subject self.now }
    {
        match self.subject {
            Subject::BothEnds | Subject::OneEnd => size_of(self.rows),
            Subject::Listener => self.peers.size(self.rows),
        }
    }

    /// Puts the picture: its size, its style, what the lines are called, and all that was drawn.
    #[tactic(auto, unfolding(crate::specs::Scene::picture))]
    pub(crate) fn put_picture(&self, text: &mut Vec<u8>) -> Result<(), NoMemory>
        ensures { OnOk result (text.new.items ≡ text.old.items ++ spec.picture self.now) }
    {
        put_front(text, self.size())?;
        put_style(text)?;
        put_names(text, self.subject)?;
        put(text, &self.body)?;
        self.put_rest(text)?;
        put(text, b"</svg>\n")
    }
}
