//! Flows, and the lines of their packets.
ghost use Rattle.std.specs.Prelude.{◌≡◌, ◌+◌, ◌≤◌, ◌<◌, ◌^◌, length, [], None, IfOk, OnOk, OnErr, true};
ghost use Rattle.byteorder.specs.Endian.{big_number};
ghost use Rattle.capture_reader.specs.Records.{entry_of};
ghost use Rattle.packet_show.specs.Network.{carried_by};
ghost use Rattle.packet_show.specs.Flows.{version_of, from_end, to_end, is_lesser_end, flow_between, flow_of, flow_number, number_if_seen, with_flow};
ghost use Rattle.packet_show.specs.Lines.{shows, shows_packet, shows_malformed, parts_by, Shows};
ghost use Rattle.tool_text.specs.Text.{SameText};

use crate::further_flows::FurtherFlows;
use crate::network::{Datagram, carried};
use crate::packet::{put_malformed, put_packet};
use byteorder::{BigEndian, ByteOrder};
use capture_reader::Record;
use dccp_packets::{Malformed, Packet, decode};
use dccp_sum::Pseudo;
use indexmap::IndexSet;
use seq_circle::NoMemory;
use std::alloc::Global;
use std::marker::Model;

/// Whether a record has a line.
#[derive(Clone, Copy, PartialEq, Eq)]
pub enum Shown {
    /// Its line was written.
    Line,
    /// It carries no DCCP, or not enough of it, and nothing was written.
    Skipped,
}

/// One end of a flow (own): its address as a number, and its port.
pub type FlowEnd = (u128, u16);

/// A flow: the version of IP, and both ends, the lesser first.
pub(crate) type Flow = (u8, FlowEnd, FlowEnd);

// The most flows in the set of the first ones.
const MOST_FIRST: usize = 4_096;

/// The flows that were seen, in the order in which they were first seen (own). A flow is the pair of both ends, in
/// either direction. Contracts see the list of flows.
///
/// The first 4,096 are in a set with a public hash. So an attacker who chooses the ends can make a look-up compare all
/// of these, but no more. Further flows are in an ordered map.
#[derive(Drop)]
pub struct Flows {
    first: IndexSet<Flow>,
    further: FurtherFlows,
}

impl Model for Flows {
    ghost use Rattle.std.specs.Prelude.{List, ◌++◌};
    ghost use Rattle.packet_show.specs.Flows.{Flow, IsSplit};

    ghost Value = { List Flow };

    ghost view = { λ f. f.first.keys ++ f.further };

    ghost invariant = { λ f. IsSplit f.first.keys f.further };
}

fn v4_number(address: [u8; 4]) -> u128
    ensures { result ≡ big_number 4 address }
{
    u128::from(BigEndian::read_u32(&address))
}

fn v6_number(address: [u8; 16]) -> u128
    ensures { result ≡ big_number 16 address }
{
    BigEndian::read_u128(&address)
}

fn version_of(pseudo: &Pseudo) -> u8
    ensures { result ≡ version_of pseudo.now }
{
    match pseudo {
        Pseudo::V4 { .. } => 4,
        Pseudo::V6 { .. } => 6,
    }
}

/// The end that sends a packet with these addresses and this source port (own).
pub fn from_end(pseudo: &Pseudo, port: u16) -> FlowEnd
    ensures { result ≡ from_end pseudo.now port }
{
    match *pseudo {
        Pseudo::V4 { from, .. } => (v4_number(from), port),
        Pseudo::V6 { from, .. } => (v6_number(from), port),
    }
}

fn to_end(pseudo: &Pseudo, port: u16) -> FlowEnd
    ensures { result ≡ to_end pseudo.now port }
{
    match *pseudo {
        Pseudo::V4 { to, .. } => (v4_number(to), port),
        Pseudo::V6 { to, .. } => (v6_number(to), port),
    }
}

fn is_lesser_end(a: FlowEnd, b: FlowEnd) -> bool
    ensures { result ≡ is_lesser_end a b }
{
    a.0 < b.0 || (a.0 == b.0 && a.1 < b.1)
}

fn flow_between(version: u8, a: FlowEnd, b: FlowEnd) -> Flow
    ensures { result ≡ flow_between version a b }
{
    if is_lesser_end(b, a) {
        return (version, b, a);
    }
    (version, a, b)
}

// The flow of a packet between these addresses and ports.
fn flow_of(pseudo: &Pseudo, from: u16, to: u16) -> Flow
    ensures { result ≡ flow_of pseudo.now from to }
{
    flow_between(
        version_of(pseudo),
        from_end(pseudo, from),
        to_end(pseudo, to),
    )
}

impl Flows {
    /// No flow yet. It takes no memory.
    pub fn new(alloc: Global) -> Flows
        ensures { result ≡ [] }
    {
        Flows {
            first: IndexSet::new(alloc),
            further: FurtherFlows::new(alloc),
        }
    }

    /// How many flows were numbered.
    pub fn count(&self) -> u64
        ensures value { result ≡ length self.now }
        ensures fits { result < 2 ^ 63 + 4097 }
    {
        self.first.len() as u64 + self.further.len()
    }

    // The number of a flow that was seen.
    #[tactic(auto, using(crate::proofs::Numbered::number_in_first, crate::proofs::Numbered::number_past_first))]
    fn number_if_seen(&self, flow: &Flow) -> Option<u64>
        ensures { result ≡ number_if_seen flow.now self.now }
    {
        match self.first.get_index_of(flow) {
            Some(place) => Some(place as u64 + 1),
            None => self.further.number_if_seen(flow),
        }
    }

    // The number of a flow, if it was seen, and the number that its next packet has in any case.
    #[tactic(auto, using(crate::proofs::Numbered::numbered_so, crate::proofs::Numbered::next_so))]
    fn look_up(&self, flow: &Flow) -> (Option<u64>, u64)
        ensures known { result.0 ≡ number_if_seen flow.now self.now }
        ensures number { result.1 ≡ flow_number flow.now self.now }
    {
        match self.number_if_seen(flow) {
            Some(number) => (Some(number), number),
            None => (None, self.count() + 1),
        }
    }

    // Notes that a flow was seen, which had this number if it was seen before.
    #[tactic(auto, using(crate::proofs::Numbered::noted_before))]
    fn note(&mut self, flow: Flow, known: Option<u64>) -> Result<(), NoMemory>
        requires { known ≡ number_if_seen flow self.old }
        ensures ok { OnOk result (self.new ≡ with_flow flow self.old) }
        ensures unchanged { OnErr result (self.new ≡ self.old) }
    {
        match known {
            Some(_) => Ok(()),
            None => self.add(flow),
        }
    }

    // Notes a flow that was not seen before.
    fn add(&mut self, flow: Flow) -> Result<(), NoMemory>
        requires { number_if_seen flow self.old ≡ None }
        ensures ok { OnOk result (self.new ≡ with_flow flow self.old) }
        ensures unchanged { OnErr result (self.new ≡ self.old) }
    {
        if self.first.len() < MOST_FIRST {
            match self.first.insert(flow) {
                Ok(_) => Ok(()),
                Err(_) => Err(NoMemory),
            }
        } else {
            self.further.add(flow)
        }
    }

    /// The number of the flow between these addresses and ports, in either direction, from 1 in the order in which
    /// flows were seen; a flow that was not seen before has the next one, and is noted. After NoMemory the flows are as
    /// before.
    pub fn number(&mut self, pseudo: &Pseudo, from: u16, to: u16) -> Result<u64, NoMemory>
        ensures number { IfOk result (λ number. number ≡ flow_number (flow_of pseudo.now from to) self.old) }
        ensures noted { OnOk result (self.new ≡ with_flow (flow_of pseudo.now from to) self.old) }
        ensures unchanged { OnErr result (self.new ≡ self.old) }
    {
        let flow = flow_of(pseudo, from, to);
        let (known, number) = self.look_up(&flow);
        self.note(flow, known)?;
        Ok(number)
    }

    // Writes the line of a packet.
    fn show_packet(
        &mut self,
        item: &Record<'_>,
        there: &Datagram<'_>,
        packet: &Packet<'_>,
        to: &mut Vec<u8>,
    ) -> Result<Shown, NoMemory>
        requires low { 8 ≤ length there.now.bytes.now }
        requires high { length there.now.bytes.now ≤ 65535 }
        requires options { length packet.now.options.now ≤ 1008 }
        ensures ok { IfOk result (λ shown. Shows (shows_packet self.old (entry_of item.now) (carried_by there.now) (parts_by packet.now)
            (flow_of there.now.pseudo packet.now.header.from packet.now.header.to)) to.old.items to.new.items self.new shown) }
        ensures unchanged { OnErr result (self.new ≡ self.old) }
        ensures text_unchanged { OnErr result (SameText to.old to.new) }
    {
        let flow = flow_of(&there.pseudo, packet.header.from, packet.header.to);
        let (known, number) = self.look_up(&flow);
        let start = to.len();
        if put_packet(to, item, there, packet, number).is_err() || self.note(flow, known).is_err() {
            to.truncate(start);
            return Err(NoMemory);
        }
        Ok(Shown::Line)
    }

    // Writes the line of bytes that are no packet.
    fn show_malformed(
        &self,
        item: &Record<'_>,
        fault: Malformed,
        to: &mut Vec<u8>,
    ) -> Result<Shown, NoMemory>
        ensures ok { IfOk result (λ shown. Shows (shows_malformed self.now (entry_of item.now) true fault) to.old.items to.new.items self.now shown) }
        ensures text_unchanged { OnErr result (SameText to.old to.new) }
    {
        let start = to.len();
        if put_malformed(to, item, fault).is_err() {
            to.truncate(start);
            return Err(NoMemory);
        }
        Ok(Shown::Line)
    }

    /// Writes the line of a record at the text's end: of a DCCP packet over IPv4 or IPv6, or of bytes that are complete
    /// to the IP length but no packet. It is skipped, and nothing is written, exactly if there is no such packet: the
    /// record is no IP, is a fragment, is of another protocol, has no whole IP header, or has one that contradicts
    /// itself; or bytes are missing to the IP length, and those that are there are no packet. A packet's line has the
    /// number of its flow, which is the next one if the flow was not seen before. After NoMemory flows and text are as
    /// before.
    pub fn show(&mut self, item: &Record<'_>, to: &mut Vec<u8>) -> Result<Shown, NoMemory>
        ensures ok { IfOk result (λ shown. Shows (shows self.old (entry_of item.now)) to.old.items to.new.items self.new shown) }
        ensures unchanged { OnErr result (self.new ≡ self.old) }
        ensures text_unchanged { OnErr result (SameText to.old to.new) }
    {
        let Some(there) = carried(item.link, item.bytes) else {
            return Ok(Shown::Skipped);
        };
        match decode(there.bytes) {
            Ok(packet) => self.show_packet(item, &there, &packet, to),
            Err(fault) => {
                if there.whole {
                    self.show_malformed(item, fault, to)
                } else {
                    Ok(Shown::Skipped)
                }
            }
        }
    }
}
