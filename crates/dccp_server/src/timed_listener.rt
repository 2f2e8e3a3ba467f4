//! A listener with the timers of its flows and the rules of their paths.
ghost use Rattle.std.specs.Prelude.{◌≡◌};

use crate::happening::{FlowHappening, arrived_so, called_so};
use crate::serving::{arrange, ask, count, due_of_flow, obey_at, sight_at, soonest, upkeep_at};
use ccid_two::Kinds;
use dccp_endpoint::{DecodedDatagram, Endpoint, NoMemory, Outbox, Outcome, Seen, Seq48, UserCall};
use dccp_listener::{Heard, ListenConfig, Listener, NoFlow, Peer};
use dccp_uses::{Due, Pace, Reader, Upkeep, admit, due_rule, is_silent};
use server_peers::Register;
use std::alloc::Global;
use std::marker::Model;

/// A listener with what its owner keeps of its flows: their timers, and the rules of their paths. Each call takes the
/// time, in milliseconds since any moment, and leaves at most one frame in the Outbox, which goes to the peer of the
/// call. Each flow does what a single end with its timers would do (`TimedEnd` of dccp_uses).
///
/// `admits` counts a datagram, and if it says so, `arrive` hears it; the owner's calls go into `ask`. Once
/// `until_first` has passed, do what is `due`: a timer by `ask`, the rules by `follow`.
#[derive(Drop)]
pub struct TimedListener {
    listener: Listener,
    pace: Pace,
    upkeeps: Register<Upkeep>,
}

impl Model for TimedListener {
    ghost use Rattle.dccp_server.specs.Serving.{IsTied, ServedListener, served};

    ghost Value = { ServedListener };

    ghost view = { λ s. served s.listener s.pace s.upkeeps };

    ghost invariant = { λ s. IsTied (served s.listener s.pace s.upkeeps) };
}

impl TimedListener {
    ghost use Rattle.std.specs.Prelude.{◌≡◌, ◌≤◌, Ok, IfOk, OnOk, OnErr, MatchOption, None, Some, length};
    ghost use Rattle.dccp_listener.specs.Calls.{seen_if};
    ghost use Rattle.dccp_listener.specs.Chain.{Arrives, Calls, asked};
    ghost use Rattle.dccp_listener.specs.Greeting.{greets};
    ghost use Rattle.dccp_listener.specs.Listens.{listens};
    ghost use Rattle.dccp_listener.specs.Peers.{end_of_peer};
    ghost use Rattle.dccp_listener.specs.Runs.{Stepped, told_of};
    ghost use Rattle.dccp_listener.specs.Standing.{IsListening};
    ghost use Rattle.dccp_server.specs.Serving.{WantsMemory, call_due, deed_served, first_due_flow, rule_followed, frame_if, is_admitted, least_wait, serving_begins, served_counted, upkeep_at};

    /// A listener without flows, whose ends make the offers of its lists, and follow these rules. It takes no memory.
    pub fn new(alloc: Global, config: ListenConfig, pace: Pace) -> TimedListener
        requires { IsListening config }
        ensures { result ≡ serving_begins config pace }
    {
        TimedListener {
            listener: Listener::offering(alloc, config),
            pace,
            upkeeps: Register::new(alloc),
        }
    }

    /// Counts a datagram of a peer, which takes a token if its numbers would have a Sync answer it. False if there was
    /// none: then it is left out, and no number is used (RFC 4340, section 7.5.4; own). The datagrams of peers without
    /// a flow are not counted.
    pub fn admits(&mut self, peer: Peer, datagram: &DecodedDatagram<'_>, now: u64) -> bool
        ensures counted { self.new ≡ served_counted now self.old peer datagram.now }
        ensures heard { result ≡ is_admitted now self.old peer datagram.now }
    {
        match self.listener.flow(peer) {
            Some(end) => count(end, &mut self.upkeeps, peer, datagram, self.pace, now),
            None => true,
        }
    }

    /// What `admits` would return; nothing is counted.
    pub fn would_admit(&self, peer: Peer, datagram: &DecodedDatagram<'_>, now: u64) -> bool
        ensures { result ≡ is_admitted now self.now peer datagram.now }
    {
        match self.listener.flow(peer) {
            Some(end) => {
                let mut path = self.upkeep(peer).path;
                admit(end, &mut path, datagram, now)
            }
            None => true,
        }
    }

    /// A datagram of a peer has arrived, at most 2,044 bytes: `Listener::arrive`, and what is kept of its flow goes on.
    /// NoMemory comes only if the peer has no flow, or no place for that; then nothing changes.
    pub fn arrive(
        &mut self,
        peer: Peer,
        iss: Seq48,
        datagram: &DecodedDatagram<'_>,
        now: u64,
        out: &mut Outbox,
    ) -> Result<Heard, NoMemory>
        requires { length datagram.now ≤ 2044 }
        ensures after { OnOk result (self.new ≡ deed_served now self.old peer (Arrives iss datagram.now)) }
        ensures sent { OnOk result (out.new ≡ (listens self.old.listening peer (Arrives iss datagram.now)).frame) }
        ensures told { IfOk result (λ heard. told_of (Ok heard) ≡ (listens self.old.listening peer (Arrives iss datagram.now)).told) }
        ensures unchanged { OnErr result (self.new ≡ self.old) }
        ensures wanting { OnErr result (WantsMemory self.old peer (Arrives iss datagram.now)) }
    {
        let was = sight_at(&self.listener, peer);
        let upkeep = upkeep_at(&self.upkeeps, self.pace, peer);
        let had = self.upkeeps.place_for(peer, upkeep)?;
        match self.listener.arrive_decoded(peer, iss, datagram, out) {
            Ok(heard) => {
                let happening = arrived_so(was, &heard, is_silent(out));
                arrange(
                    &self.listener,
                    &mut self.upkeeps,
                    peer,
                    &upkeep,
                    &happening,
                    self.pace,
                    now,
                );
                Ok(heard)
            }
            Err(fault) => {
                self.upkeeps.take_back(peer, had);
                Err(fault)
            }
        }
    }

    /// The owner calls a peer's end: `Listener::ask`, and what is kept of its flow goes on. NoFlow comes exactly if the
    /// peer has none. It takes no memory, and a refused call changes nothing (`refused_calls_change_nothing`).
    pub fn ask(
        &mut self,
        peer: Peer,
        call: UserCall<'_>,
        now: u64,
        out: &mut Outbox,
    ) -> Result<Seen, NoFlow>
        ensures after { self.new ≡ deed_served now self.old peer (Calls (asked call.entry)) }
        ensures sent { out.new ≡ (listens self.old.listening peer (Calls (asked call.entry))).frame }
        ensures told { Stepped (seen_if result) ≡ (listens self.old.listening peer (Calls (asked call.entry))).told }
    {
        let upkeep = upkeep_at(&self.upkeeps, self.pace, peer);
        let answer = ask(&mut self.listener, peer, call, out);
        let happening = called_so(call, &answer);
        arrange(
            &self.listener,
            &mut self.upkeeps,
            peer,
            &upkeep,
            &happening,
            self.pace,
            now,
        );
        answer
    }

    /// The first rule of a peer's path that is due makes its end do something. It takes no memory.
    pub fn follow(&mut self, peer: Peer, now: u64, out: &mut Outbox)
        ensures after { self.new ≡ rule_followed now self.old peer }
        ensures sent { out.new ≡ frame_if self.old.listening peer (call_due now self.old peer) }
    {
        let upkeep = upkeep_at(&self.upkeeps, self.pace, peer);
        let rule = due_rule(&upkeep.path, now);
        obey_at(&mut self.listener, peer, rule, upkeep.path.aim, out);
        arrange(
            &self.listener,
            &mut self.upkeeps,
            peer,
            &upkeep,
            &FlowHappening::Ruled(rule),
            self.pace,
            now,
        );
    }

    /// The peer at whose flow something has been due for longest, and the first thing that is due there; of two peers
    /// the first in their order.
    pub fn due(&self, now: u64) -> Option<(Peer, Due)>
        ensures { result ≡ first_due_flow now self.now.upkeeps }
    {
        match soonest(&self.upkeeps) {
            Some(ticket) => due_of_flow(&self.upkeeps, ticket.peer, now),
            None => None,
        }
    }

    /// In how many milliseconds something is due at any flow; 2^64 - 1 if nothing will be.
    pub fn until_first(&self, now: u64) -> u64
        ensures { result ≡ least_wait now self.now.upkeeps }
    {
        match soonest(&self.upkeeps) {
            Some(ticket) => ticket.time.saturating_sub(now),
            None => u64::MAX,
        }
    }

    /// How a fresh end answers a datagram of a peer: `Listener::greet`. Nothing is kept.
    pub fn greet(
        &self,
        peer: Peer,
        iss: Seq48,
        bytes: &[u8],
        out: &mut Outbox,
    ) -> Result<Outcome, NoMemory>
        requires { length bytes.now ≤ 2044 }
        ensures sent { OnOk result (out.new ≡ (greets self.now.listening peer iss bytes.now).frame) }
        ensures told { IfOk result (λ outcome. outcome ≡ (greets self.now.listening peer iss bytes.now).answer) }
        ensures unmet { OnErr result (out.new ≡ None) }
    {
        self.listener.greet(peer, iss, bytes, out)
    }

    /// Keeps what is known of a peer's flow at hand from now on, so that it is found without a search.
    pub(crate) fn seek(&mut self, peer: Peer)
        ensures { self.new ≡ self.old }
    {
        self.listener.seek(peer);
        self.upkeeps.seek(peer);
    }

    /// A peer's end, or None exactly if it has none.
    pub fn flow(&self, peer: Peer) -> Option<&Endpoint<Kinds>>
        ensures { MatchOption result (end_of_peer self.now.listening.flows peer ≡ None) (λ end. end_of_peer self.now.listening.flows peer ≡ Some end.now) }
    {
        self.listener.flow(peer)
    }

    /// What is kept of a peer's flow. If the peer has no flow, it is what is kept of one that begins.
    pub fn upkeep(&self, peer: Peer) -> Upkeep
        ensures { result ≡ upkeep_at self.now.pace self.now.upkeeps peer }
    {
        upkeep_at(&self.upkeeps, self.pace, peer)
    }

    /// What is known of the application that reads a peer's data.
    pub fn reader(&self, peer: Peer) -> Reader
        ensures { result ≡ (upkeep_at self.now.pace self.now.upkeeps peer).path.reader }
    {
        match self.upkeeps.get(peer) {
            Some(upkeep) => upkeep.path.reader,
            None => Upkeep::begins(self.pace).path.reader,
        }
    }

    /// The configuration from which it was made.
    pub fn config(&self) -> &ListenConfig
        ensures { result.now ≡ self.now.listening.config }
    {
        self.listener.config()
    }

    /// How many flows there are.
    pub fn flows(&self) -> u16
        ensures { result ≡ length self.now.listening.flows }
    {
        self.listener.flows()
    }
}
