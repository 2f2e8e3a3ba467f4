//! The listener.
ghost use Rattle.std.specs.Prelude.{◌≡◌};

use crate::flows::FlowTable;
use crate::meeting::{arrive, greet_packet, perform};
use crate::{Act, Heard, ListenConfig, NoFlow, Peer};
use ccid_two::Kinds;
use dccp_endpoint::{
    DecodedDatagram, Endpoint, Feature, NoMemory, Outbox, Outcome, Place, Seen, Seq48, UserCall,
    Why,
};
use dccp_packets::decode;
use std::alloc::Global;
use std::marker::Model;

/// A server that serves many peers at one address and port: each peer gets exactly what an end for it alone would have
/// given it, whatever the others do. It has no socket and no clock, as an end has none.
///
/// # The order of calls
///
/// `new` makes it. After that, in any order, call `arrive` for each datagram, with the peer that it came from and an
/// initial sequence number that nobody can guess (RFC 4340, section 7.2), which a fresh end would have; and call `act`
/// for each call of a peer's end and each of its timers that has run out. Each call that takes an Outbox empties it
/// first and leaves at most one frame there, which goes to the peer of the call.
///
/// # Flows
///
/// A peer's flow begins when its datagram takes a fresh end out of LISTEN, and ends when its end is CLOSED. There are
/// at most `most` at a time. A datagram that would open one more is answered with a Reset that says so, and `Busy`.
///
/// # Sizes
///
/// A flow takes the blocks of its end and of its congestion control, about 87 KB, besides 16 bytes of a list in the order
/// of peers: 1,024 take 89 MB. An end is made only if it stays: any other datagram of a peer that has no flow is answered
/// without one, takes no memory, and costs a binary search of the list, whose steps grow with the logarithm of the number
/// of flows, whatever peers an attacker chooses. A flow that begins or ends moves the 16 bytes of those after it.
#[derive(Drop)]
pub struct Listener {
    alloc: Global,
    config: ListenConfig,
    flows: FlowTable,
}

impl Model for Listener {
    ghost use Rattle.dccp_listener.specs.Peers.{ListenerState};
    ghost use Rattle.dccp_listener.specs.Standing.{IsSoundListener};

    ghost Value = { ListenerState };

    ghost view = { λ l. record { config = l.config; flows = l.flows } };

    ghost invariant = { λ l. IsSoundListener l.config l.flows };
}

impl Listener {
    ghost use Rattle.std.specs.Prelude.{◌≡◌, ◌≤◌, ◌<◌, ◌↔◌, [], None, Some, Ok, IfOk, IfSome, IsErr, IsNone, OnErr, OnOk, MatchOption, length, slice_get};
    ghost use Rattle.std.specs.Map.{keys_of};
    ghost use Rattle.dccp_listener.specs.Calls.{Arrived, IsStep, seen_if};
    ghost use Rattle.dccp_listener.specs.Chain.{Arrives, Calls, asked, call_of};
    ghost use Rattle.dccp_listener.specs.Greeting.{greets};
    ghost use Rattle.dccp_listener.specs.Listens.{AreInOrder, listens};
    ghost use Rattle.dccp_listener.specs.Peers.{end_of_peer};
    ghost use Rattle.dccp_listener.specs.Runs.{IsTurn, Stepped, arrival, call_turn, told_of};
    ghost use Rattle.dccp_listener.specs.Standing.{IsListening, IsFlowOf, unoffering};

    /// A listener without flows, whose ends make no offers, even if the lists have some. It takes no memory.
    pub fn new(alloc: Global, config: ListenConfig) -> Listener
        requires { IsListening config }
        ensures { result ≡ record { config = unoffering config; flows = [] } }
    {
        let mut config = config;
        config.lists.plain();
        Listener::offering(alloc, config)
    }

    /// A listener without flows, whose ends make the offers of the lists from their Response on, as a single end would
    /// (own). It takes no memory.
    pub fn offering(alloc: Global, config: ListenConfig) -> Listener
        requires { IsListening config }
        ensures { result ≡ record { config = config; flows = [] } }
    {
        // Reading a wish gives the prover that the lists are sound.
        let _wish = config.lists.wish(Feature::Ccid, Place::Here);
        Listener {
            alloc,
            config,
            flows: FlowTable::new(alloc),
        }
    }

    /// A datagram of a peer has arrived, at most 2,044 bytes. `iss` is the first sequence number of an end that is made
    /// for it.
    ///
    /// The peer's end hears it, or else a fresh one. Busy comes exactly if the peer has no flow, there are `most`
    /// flows, and the fresh end would stay: nothing changes, and a Reset with the code Too Busy goes to the peer (RFC
    /// 4340, section 5.6). NoMemory comes only if the datagram would open a flow and one more is allowed; then nothing
    /// changes and nothing goes out.
    pub fn arrive(
        &mut self,
        peer: Peer,
        iss: Seq48,
        bytes: &[u8],
        out: &mut Outbox,
    ) -> Result<Heard, NoMemory>
        requires { length bytes.now ≤ 2044 }
        ensures arrived { Arrived self.old self.new peer iss bytes.now out.new result }
        ensures turn { IsTurn self.old self.new (arrival peer iss bytes.now out.new result) }
        ensures computed { IfOk result (λ heard. record { flows = self.new.flows; frame = out.new; told = told_of (Ok heard) } ≡ listens self.old peer (Arrives iss bytes.now)) }
    {
        self.arrive_decoded(peer, iss, &DecodedDatagram::new(bytes), out)
    }

    /// The same for a datagram that its owner has decoded.
    pub fn arrive_decoded(
        &mut self,
        peer: Peer,
        iss: Seq48,
        datagram: &DecodedDatagram<'_>,
        out: &mut Outbox,
    ) -> Result<Heard, NoMemory>
        requires { length datagram.now ≤ 2044 }
        ensures arrived { Arrived self.old self.new peer iss datagram.now out.new result }
        ensures turn { IsTurn self.old self.new (arrival peer iss datagram.now out.new result) }
        ensures computed { IfOk result (λ heard. record { flows = self.new.flows; frame = out.new; told = told_of (Ok heard) } ≡ listens self.old peer (Arrives iss datagram.now)) }
    {
        arrive(
            self.alloc,
            &self.config,
            &mut self.flows,
            peer,
            iss,
            datagram,
            out,
        )
    }

    /// The owner calls a peer's end. NoFlow comes exactly if the peer has none, and then nothing changes and nothing
    /// goes out. It takes no memory.
    pub fn act(&mut self, peer: Peer, act: Act<'_>, out: &mut Outbox) -> Result<Seen, NoFlow>
        ensures step { IsStep self.old self.new peer (Calls (call_of act.entry)) out.new (seen_if result) }
        ensures turn { IsTurn self.old self.new (call_turn peer (call_of act.entry) out.new result) }
        ensures computed { record { flows = self.new.flows; frame = out.new; told = Stepped (seen_if result) } ≡ listens self.old peer (Calls (call_of act.entry)) }
        ensures no_flow { IsErr result ↔ (end_of_peer self.old.flows peer ≡ None) }
        ensures refused { OnErr result ((self.new ≡ self.old) × (out.new ≡ None)) }
    {
        match act {
            Act::Send(payload) => self.ask(peer, UserCall::Send(payload), out),
            Act::Timer(timer) => self.ask(peer, UserCall::Timer(timer), out),
            Act::Close => self.ask(peer, UserCall::Close, out),
            Act::Abort => self.ask(peer, UserCall::Abort, out),
        }
    }

    /// The owner calls a peer's end by any call of an end, `Endpoint::prefer` included (own). NoFlow comes exactly if
    /// the peer has none, and then nothing changes and nothing goes out. It takes no memory.
    pub fn ask(&mut self, peer: Peer, call: UserCall<'_>, out: &mut Outbox) -> Result<Seen, NoFlow>
        ensures step { IsStep self.old self.new peer (Calls (asked call.entry)) out.new (seen_if result) }
        ensures turn { IsTurn self.old self.new (call_turn peer (asked call.entry) out.new result) }
        ensures computed { record { flows = self.new.flows; frame = out.new; told = Stepped (seen_if result) } ≡ listens self.old peer (Calls (asked call.entry)) }
        ensures no_flow { IsErr result ↔ (end_of_peer self.old.flows peer ≡ None) }
        ensures refused { OnErr result ((self.new ≡ self.old) × (out.new ≡ None)) }
    {
        perform(&self.config, &mut self.flows, peer, call, out)
    }

    /// How a fresh end answers a datagram of a peer, at most 2,044 bytes. The end hears the datagram and goes, so
    /// nothing is kept, whether the peer has a flow or not (own). NoMemory if there is none for the end, and then
    /// nothing goes out.
    #[tactic(auto, unfolding(dccp_endpoint::specs::Receiving::receives))]
    pub fn greet(
        &self,
        peer: Peer,
        iss: Seq48,
        bytes: &[u8],
        out: &mut Outbox,
    ) -> Result<Outcome, NoMemory>
        requires { length bytes.now ≤ 2044 }
        ensures sent { OnOk result (out.new ≡ (greets self.now peer iss bytes.now).frame) }
        ensures told { IfOk result (λ outcome. outcome ≡ (greets self.now peer iss bytes.now).answer) }
        ensures unmet { OnErr result (out.new ≡ None) }
    {
        out.clear();
        match decode(bytes) {
            Ok(packet) => greet_packet(self.alloc, &self.config, peer, iss, &packet, bytes, out),
            Err(fault) => Ok(Outcome::Dropped(Why::Malformed(fault))),
        }
    }

    /// The peer's flow is at hand from now on: the next calls for the peer find it without a search.
    pub fn seek(&mut self, peer: Peer)
        ensures { self.new ≡ self.old }
    {
        self.flows.seek(peer);
    }

    /// A peer's end, or None exactly if it has none. It was made for this peer, and is neither CLOSED nor in LISTEN.
    pub fn flow(&self, peer: Peer) -> Option<&Endpoint<Kinds>>
        ensures value { MatchOption result (end_of_peer self.now.flows peer ≡ None) (λ end. end_of_peer self.now.flows peer ≡ Some end.now) }
        ensures stands { IfSome result (λ end. IsFlowOf self.now.config peer end.now) }
    {
        self.flows.get(peer)
    }

    /// Its configuration; its ends make the offers of these lists.
    pub fn config(&self) -> &ListenConfig
        ensures { result.now ≡ self.now.config }
    {
        &self.config
    }

    /// How many flows there are, at most `most`.
    pub fn flows(&self) -> u16
        ensures value { result ≡ length self.now.flows }
        ensures fits { result ≤ self.now.config.most }
    {
        let most = self.config.most;
        let count = self.flows.len();
        if most as usize <= count {
            most
        } else {
            count as u16
        }
    }

    /// The peer at this place, from 0, among those that have a flow, in their order; None exactly if the place is not
    /// below `flows`.
    pub fn peer(&self, place: u16) -> Option<Peer>
        ensures value { result ≡ slice_get (keys_of self.now.flows) place }
        ensures none { IsNone result ↔ (length self.now.flows ≤ place) }
        ensures ordered { AreInOrder self.now.flows }
    {
        self.flows.peer(place as usize)
    }
}
