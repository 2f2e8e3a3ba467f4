//! The flows of a listener: each peer with its end, in the order of peers, and what one deed does to them.
ghost use Rattle.std.specs.Prelude.{◌≡◌};

use crate::{Peer, PeerList};
use ccid_two::Kinds;
use dccp_endpoint::{DecodedDatagram, Endpoint, NoMemory, Outbox, Outcome, Seen, UserCall};
use std::alloc::Global;

/// What a flow's end takes: a datagram, or a call of its user (own).
pub(crate) trait FlowInput {
    ghost use Rattle.dccp_endpoint.specs.Controlled.{EndStep};
    ghost use Rattle.ccid_two.specs.Kinds.{Both};
    ghost use Rattle.dccp_listener.specs.Peers.{FlowEnd};

    /// The end's answer.
    type Answer;

    // An end can take it.
    ghost Fits: { Self → Type 0 };

    // The step of an end that takes it.
    ghost step: { Self → FlowEnd → EndStep Both Self.Answer };

    /// An end takes it.
    fn give_to(&self, end: &mut Endpoint<Kinds>, out: &mut Outbox) -> Self::Answer
        requires { Fits self.now }
        ensures after { end.new ≡ (step self.now end.old).after }
        ensures sent { out.new ≡ (step self.now end.old).frame }
        ensures answered { result ≡ (step self.now end.old).answer };
}

impl FlowInput for UserCall<'_> {
    ghost use Rattle.dccp_listener.specs.Chain.{Calls, asked};
    ghost use Rattle.dccp_listener.specs.Moves.{seen_step};

    type Answer = Seen;

    ghost Fits = { λ call. Unit {0} };

    ghost step = { λ call e. seen_step e (Calls (asked call)) };

    fn give_to(&self, end: &mut Endpoint<Kinds>, out: &mut Outbox) -> Seen {
        end.act(*self, out)
    }
}

impl FlowInput for DecodedDatagram<'_> {
    ghost use Rattle.std.specs.Prelude.{◌≤◌, length};
    ghost use Rattle.ccid_two.specs.Kinds.{kinds_control};
    ghost use Rattle.dccp_endpoint.specs.Feeding.{receiving};

    type Answer = Outcome;

    ghost Fits = { λ bytes. length bytes ≤ 2044 };

    ghost step = { λ bytes e. receiving kinds_control e bytes };

    fn give_to(&self, end: &mut Endpoint<Kinds>, out: &mut Outbox) -> Outcome {
        self.reach(end, out)
    }
}

/// The flows of a listener: each peer with its end.
pub(crate) type FlowTable = PeerList<Endpoint<Kinds>>;

impl PeerList<Endpoint<Kinds>> {
    ghost use Rattle.std.specs.Prelude.{◌≡◌, ◌≤◌, ◌+◌, None, Some, OnOk, OnErr, length, false, if◌then◌else◌};
    ghost use Rattle.std.specs.BTreeMap.{insert_entry};
    ghost use Rattle.std.specs.Map.{remove_entry};
    ghost use Rattle.dccp_listener.specs.Moves.{FlowMoves, FlowSteps};
    ghost use Rattle.dccp_listener.specs.Peers.{end_of_peer, is_peer, peer_cmp};

    // The peer's end takes this in its place: its answer, and whether the end is over.
    fn advance<I: FlowInput>(
        &mut self,
        peer: Peer,
        input: &I,
        out: &mut Outbox,
    ) -> Option<(I::Answer, bool)>
        requires empty { out.old ≡ None }
        requires fits { I.Fits input.now }
        ensures moves { FlowMoves (I.step input.now) (end_of_peer self.old peer) (end_of_peer self.new peer) self.old self.new peer out.new result }
        ensures others { (other : Peer) → is_peer peer other ≡ false
            → end_of_peer self.new other ≡ end_of_peer self.old other }
        ensures count { length self.new ≡ length self.old }
    {
        match self.place_of(peer) {
            Ok(place) => {
                let end = &mut self.entries[place].value;
                let answer = input.give_to(end, out);
                let over = end.phase().is_closed();
                Some((answer, over))
            }
            Err(_) => None,
        }
    }

    // The peer's end goes if it is over.
    fn settle(&mut self, peer: Peer, over: bool)
        ensures own { end_of_peer self.new peer ≡ (if over then None else end_of_peer self.old peer) }
        ensures others { (other : Peer) → is_peer peer other ≡ false
            → end_of_peer self.new other ≡ end_of_peer self.old other }
        ensures entries { self.new ≡ (if over then remove_entry (is_peer peer) self.old else self.old) }
        ensures count { length self.new ≤ length self.old }
    {
        if over {
            self.remove(peer);
        }
    }

    /// The peer's end takes a datagram or a call, and goes if it is over. None if the peer has no end.
    #[tactic(auto, using(crate::proofs::Removing::removed))]
    pub(crate) fn take<I: FlowInput>(
        &mut self,
        peer: Peer,
        input: &I,
        out: &mut Outbox,
    ) -> Option<I::Answer>
        requires empty { out.old ≡ None }
        requires fits { I.Fits input.now }
        ensures steps { FlowSteps (I.step input.now) (end_of_peer self.old peer) (end_of_peer self.new peer) self.old self.new peer out.new result }
        ensures others { (other : Peer) → is_peer peer other ≡ false
            → end_of_peer self.new other ≡ end_of_peer self.old other }
        ensures count { length self.new ≤ length self.old }
    {
        let Some((answer, over)) = self.advance(peer, input, out) else {
            return None;
        };
        self.settle(peer, over);
        Some(answer)
    }

    /// The peer, which has none, gets this end. NoMemory if there is none for it, and then nothing changes.
    pub(crate) fn open(
        &mut self,
        alloc: Global,
        peer: Peer,
        end: Endpoint<Kinds>,
    ) -> Result<(), NoMemory>
        requires { end_of_peer self.old peer ≡ None }
        ensures own { OnOk result (end_of_peer self.new peer ≡ Some end) }
        ensures others { (other : Peer) → is_peer peer other ≡ false
            → end_of_peer self.new other ≡ end_of_peer self.old other }
        ensures entries { OnOk result (self.new ≡ insert_entry peer_cmp self.old peer end) }
        ensures unchanged { OnErr result (self.new ≡ self.old) }
        ensures count { length self.new ≤ length self.old + 1 }
    {
        self.insert(alloc, peer, end)
    }
}
