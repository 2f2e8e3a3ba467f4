//! The two calls of a listener, over its configuration and its flows.
ghost use Rattle.std.specs.Prelude.{◌≡◌, ◌≤◌, ◌+◌, ◌↔◌, None, Ok, IfOk, IsErr, IsTrue, OnErr, false, length};
ghost use Rattle.ccid_two.specs.Kinds.{at_first, kinds_control};
ghost use Rattle.dccp_endpoint.specs.Controlled.{begins};
ghost use Rattle.dccp_endpoint.specs.Feeding.{receiving};
ghost use Rattle.dccp_endpoint.specs.Incoming.{parts_of_packet};
ghost use Rattle.dccp_packets.specs.Grammar.{decoded};
ghost use Rattle.dccp_listener.specs.Calls.{Arrived, IsStep, seen_if};
ghost use Rattle.dccp_listener.specs.Chain.{Arrives, Calls, asked};
ghost use Rattle.dccp_listener.specs.Greeting.{greets_by};
ghost use Rattle.dccp_listener.specs.Listens.{listens};
ghost use Rattle.dccp_listener.specs.Moves.{IsTakenIn};
ghost use Rattle.dccp_listener.specs.Peers.{end_of_peer, is_peer};
ghost use Rattle.dccp_listener.specs.Runs.{Stepped, told_of};

use crate::config::config_for;
use crate::flows::FlowTable;
use crate::greeting::{greet, refuse_packet};
use crate::{Heard, ListenConfig, NoFlow, Peer};
use ccid_two::Kinds;
use dccp_endpoint::{
    Config, DecodedDatagram, Endpoint, NoMemory, Outbox, Outcome, ResetCode, Seen, Seq48, UserCall,
    Why, answer_stranger,
};
use dccp_packets::Packet;
use std::alloc::Global;

// A fresh end hears the datagram, and the peer, which has none, gets it.
fn admit(
    alloc: Global,
    config: &Config,
    flows: &mut FlowTable,
    peer: Peer,
    packet: &Packet<'_>,
    bytes: &[u8],
    out: &mut Outbox,
) -> Result<Outcome, NoMemory>
    requires none { end_of_peer flows.old peer ≡ None }
    requires empty { out.old ≡ None }
    requires short { length bytes.now ≤ 2044 }
    requires read { decoded bytes.now ≡ Ok (parts_of_packet packet.now) }
    requires options { length packet.now.options.now ≤ 1008 }
    ensures admitted { IfOk result (λ outcome. IsTakenIn (receiving kinds_control (begins kinds_control config.now at_first) bytes.now) flows.old flows.new peer out.new outcome) }
    ensures others { (other : Peer) → is_peer peer other ≡ false
        → end_of_peer flows.new other ≡ end_of_peer flows.old other }
    ensures count { length flows.new ≤ length flows.old + 1 }
    ensures unchanged { OnErr result ((flows.new ≡ flows.old) × (out.new ≡ None)) }
{
    let (end, outcome) = greet(alloc, config, packet, bytes, out)?;
    match flows.open(alloc, peer, end) {
        Ok(()) => Ok(outcome),
        Err(fault) => {
            out.clear();
            Err(fault)
        }
    }
}

// Whether there are as many flows as the limit allows.
fn is_full(config: &ListenConfig, flows: &FlowTable) -> bool
    ensures { IsTrue result ↔ (config.now.most ≤ length flows.now) }
{
    config.most as usize <= flows.len()
}

// A packet of a peer that has no flow: it is answered, refused, or heard by a fresh end.
fn meet(
    alloc: Global,
    config: &ListenConfig,
    flows: &mut FlowTable,
    peer: Peer,
    iss: Seq48,
    packet: &Packet<'_>,
    bytes: &[u8],
    out: &mut Outbox,
) -> Result<Heard, NoMemory>
    requires none { end_of_peer flows.old peer ≡ None }
    requires empty { out.old ≡ None }
    requires short { length bytes.now ≤ 2044 }
    requires read { decoded bytes.now ≡ Ok (parts_of_packet packet.now) }
    requires options { length packet.now.options.now ≤ 1008 }
    ensures arrived { Arrived (record { config = config.now; flows = flows.old }) (record { config = config.now; flows = flows.new }) peer iss bytes.now out.new result }
    ensures listens { IfOk result (λ heard. record { flows = flows.new; frame = out.new; told = told_of (Ok heard) } ≡ listens (record { config = config.now; flows = flows.old }) peer (Arrives iss bytes.now)) }
    ensures room { length flows.old ≤ config.now.most → length flows.new ≤ config.now.most }
{
    let own = config_for(config, peer, iss, packet, bytes);
    if let Some(outcome) = answer_stranger(&own, packet, bytes, out) {
        return Ok(Heard::Flow(outcome));
    }
    if is_full(config, flows) {
        refuse_packet(&own, packet, bytes, ResetCode::TooBusy.number(), out);
        return Ok(Heard::Busy);
    }
    let outcome = admit(alloc, &own, flows, peer, packet, bytes, out)?;
    Ok(Heard::Flow(outcome))
}

/// A datagram of a peer.
#[tactic(auto, unfolding(dccp_endpoint::specs::Receiving::receives))]
pub(crate) fn arrive(
    alloc: Global,
    config: &ListenConfig,
    flows: &mut FlowTable,
    peer: Peer,
    iss: Seq48,
    datagram: &DecodedDatagram<'_>,
    out: &mut Outbox,
) -> Result<Heard, NoMemory>
    requires { length datagram.now ≤ 2044 }
    ensures arrived { Arrived (record { config = config.now; flows = flows.old }) (record { config = config.now; flows = flows.new }) peer iss datagram.now out.new result }
    ensures listens { IfOk result (λ heard. record { flows = flows.new; frame = out.new; told = told_of (Ok heard) } ≡ listens (record { config = config.now; flows = flows.old }) peer (Arrives iss datagram.now)) }
    ensures room { length flows.old ≤ config.now.most → length flows.new ≤ config.now.most }
{
    out.clear();
    if let Some(outcome) = flows.take(peer, datagram, out) {
        return Ok(Heard::Flow(outcome));
    }
    match datagram.packet() {
        Ok(packet) => meet(
            alloc,
            config,
            flows,
            peer,
            iss,
            packet,
            datagram.bytes(),
            out,
        ),
        Err(fault) => Ok(Heard::Flow(Outcome::Dropped(Why::Malformed(*fault)))),
    }
}

/// A fresh end hears a datagram that was decoded, and goes.
pub(crate) fn greet_packet(
    alloc: Global,
    config: &ListenConfig,
    peer: Peer,
    iss: Seq48,
    packet: &Packet<'_>,
    bytes: &[u8],
    out: &mut Outbox,
) -> Result<Outcome, NoMemory>
    requires empty { out.old ≡ None }
    requires short { length bytes.now ≤ 2044 }
    requires read { decoded bytes.now ≡ Ok (parts_of_packet packet.now) }
    requires options { length packet.now.options.now ≤ 1008 }
    ensures met { IfOk result (λ outcome. (out.new ≡ (greets_by config.now peer iss bytes.now).frame) × (outcome ≡ (greets_by config.now peer iss bytes.now).answer)) }
    ensures unmet { OnErr result (out.new ≡ None) }
{
    let own = config_for(config, peer, iss, packet, bytes);
    let (_, outcome) = greet(alloc, &own, packet, bytes, out)?;
    Ok(outcome)
}

/// A call of a peer's end. Only the clauses look at the configuration.
pub(crate) fn perform(
    config: &ListenConfig,
    flows: &mut FlowTable,
    peer: Peer,
    call: UserCall<'_>,
    out: &mut Outbox,
) -> Result<Seen, NoFlow>
    ensures step { IsStep (record { config = config.now; flows = flows.old }) (record { config = config.now; flows = flows.new }) peer (Calls (asked call.entry)) out.new (seen_if result) }
    ensures listens { record { flows = flows.new; frame = out.new; told = Stepped (seen_if result) } ≡ listens (record { config = config.now; flows = flows.old }) peer (Calls (asked call.entry)) }
    ensures no_flow { IsErr result ↔ (end_of_peer flows.old peer ≡ None) }
    ensures refused { OnErr result ((flows.new ≡ flows.old) × (out.new ≡ None)) }
    ensures count { length flows.new ≤ length flows.old }
{
    let _ = config;
    out.clear();
    match flows.take(peer, &call, out) {
        Some(seen) => Ok(seen),
        None => Err(NoFlow),
    }
}
