//! A walk over the packets of one flow of a capture: which side sent each, and whether its number is later than those
//! before.
ghost use Rattle.std.specs.Prelude.{◌≡◌, ◌++◌, IfOk, OnOk};
ghost use Rattle.capture_reader.specs.Records.{entry_of};
ghost use Rattle.packet_show.specs.Flows.{flow_of, from_end};
ghost use Rattle.packet_show.specs.Network.{carried_by};
ghost use Rattle.bridge_pictures.specs.Walk as spec;

use bridge_records::RAW_IP;
use capture_reader::Record;
use dccp_packets::{Header, PacketType};
use packet_show::{Datagram, FlowEnd, Flows, from_end};
use seq_circle::{NoMemory, Seq48};
use std::alloc::Global;
use std::marker::Model;
use world_events::Side;

// Numbers that are ahead by less than this are later ones (RFC 4340, section 7.1).
const HALF: u64 = 1 << 47;

/// The ends of a flow of a capture (own): the one that was seen to send first, and whether it is the client.
#[derive(Clone, Copy)]
pub struct FlowEnds {
    pub first: FlowEnd,
    pub is_client: bool,
}

/// A packet of the flow: the side that sent it, and how far its number is ahead of that side's latest one; for a first
/// number, 1.
#[derive(Clone, Copy)]
pub(crate) struct FlowStep {
    pub(crate) from: Side,
    pub(crate) ahead: u64,
}

/// A walk over the packets of one flow.
#[derive(Drop)]
pub(crate) struct Walk {
    flow: u64,
    flows: Flows,
    ends: Option<FlowEnds>,
    // The latest numbers of both sides.
    client: Option<Seq48>,
    server: Option<Seq48>,
}

impl Model for Walk {
    ghost use Rattle.bridge_pictures.specs.Walk.{WalkParts};

    ghost Value = { WalkParts };

    ghost view = { λ w. record { flow = w.flow; flows = w.flows; ends = w.ends; client = w.client; server = w.server } };
}

/// The number is a later one, by how far it is ahead (RFC 4340, section 7.1).
pub(crate) fn is_later(ahead: u64) -> bool
    ensures { result ≡ spec.is_later ahead }
{
    0 < ahead && ahead < HALF
}

/// The ends of a flow at a packet of this type that came from there (own): the sender of the first packet is the
/// client, unless the packet is a Response or a CloseReq, which only a server sends (RFC 4340, sections 8.1.3 and 8.3).
pub fn ends_by(ends: Option<FlowEnds>, from: FlowEnd, kind: PacketType) -> FlowEnds
    ensures { result ≡ spec.ends_by ends from kind }
{
    match ends {
        Some(ends) => ends,
        None => FlowEnds {
            first: from,
            is_client: !matches!(kind, PacketType::Response | PacketType::CloseReq),
        },
    }
}

/// The side that sends from there.
pub fn side_from(ends: &FlowEnds, from: FlowEnd) -> Side
    ensures { result ≡ spec.side_from ends.now from }
{
    let by_first = from.0 == ends.first.0 && from.1 == ends.first.1;
    if by_first == ends.is_client {
        return Side::Client;
    }
    Side::Server
}

/// A record as it is after `unwrap`, which finds this IP packet in it.
pub fn record_of_ip<'a>(item: &Record<'a>, ip: &'a [u8]) -> Record<'a>
    ensures { entry_of result ≡ spec.record_of_ip (entry_of item.now) ip.now }
{
    Record {
        link: RAW_IP,
        bytes: ip,
        ..*item
    }
}

impl Walk {
    /// Before the first record.
    pub(crate) fn new(alloc: Global, flow: u64) -> Walk
        ensures { result ≡ spec.first_walk flow }
    {
        Walk {
            flow,
            flows: Flows::new(alloc),
            ends: None,
            client: None,
            server: None,
        }
    }

    // The full number of a packet, and how far it is ahead of its sender's latest one; for a first number, 1.
    fn step_of(&self, side: Side, header: &Header) -> (Seq48, u64)
        ensures { result ≡ spec.step_of (spec.latest_of self.now side) header.now }
    {
        let latest = match side {
            Side::Client => self.client,
            Side::Server => self.server,
        };
        match latest {
            Some(latest) => {
                let number = header.number.near(latest);
                (number, latest.distance(number))
            }
            None => (header.number.value(), 1),
        }
    }

    // Notes the number of a side, if it is a later one.
    fn note_number(&mut self, side: Side, number: Seq48, ahead: u64)
        ensures { self.new ≡ spec.number_noted self.old side number ahead }
    {
        if HALF <= ahead {
            return;
        }
        match side {
            Side::Client => self.client = Some(number),
            Side::Server => self.server = Some(number),
        }
    }

    // A packet of the flow, which this side sent.
    #[tactic(auto, unfolding(crate::specs::Walk::side_walked, crate::specs::Walk::side_step))]
    fn go_by_side(&mut self, from: Side, header: &Header) -> FlowStep
        ensures next { self.new ≡ spec.side_walked self.old from header.now }
        ensures step { result ≡ spec.side_step self.old from header.now }
    {
        let (number, ahead) = self.step_of(from, header);
        self.note_number(from, number, ahead);
        FlowStep { from, ahead }
    }

    // A packet of the flow, which came from there.
    #[tactic(auto, unfolding(crate::specs::Walk::sender_walked, crate::specs::Walk::sender_step))]
    fn go_by_sender(&mut self, from: FlowEnd, header: &Header) -> FlowStep
        ensures next { self.new ≡ spec.sender_walked self.old from header.now }
        ensures step { result ≡ spec.sender_step self.old from header.now }
    {
        let ends = ends_by(self.ends, from, header.kind.packet_type());
        self.ends = Some(ends);
        self.go_by_side(side_from(&ends, from), header)
    }

    /// A packet, whose flow is numbered as `show` numbers it: who sent it, if it is of the flow, or None if it is of
    /// another. NoMemory means that no memory was left.
    #[tactic(auto, unfolding(crate::specs::Walk::flow_walked, crate::specs::Walk::step_in_flow))]
    pub(crate) fn go(
        &mut self,
        there: &Datagram<'_>,
        header: &Header,
    ) -> Result<Option<FlowStep>, NoMemory>
        ensures next { OnOk result (self.new ≡ spec.flow_walked self.old (carried_by there.now) header.now) }
        ensures step { IfOk result (λ step. step ≡ spec.step_in_flow self.old (carried_by there.now) header.now) }
    {
        let number = self.flows.number(&there.pseudo, header.from, header.to)?;
        if number != self.flow {
            return Ok(None);
        }
        Ok(Some(self.go_by_sender(from_end(&there.pseudo, header.from), header)))
    }
}
