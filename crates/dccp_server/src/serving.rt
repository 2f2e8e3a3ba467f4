//! The calls of a listener, with what is kept of its flows.
ghost use Rattle.std.specs.Prelude.{◌≡◌, [], ◌∷◌, None, IsSome};
ghost use Rattle.std.specs.BTreeMap.{insert_entry};
ghost use Rattle.std.specs.Map.{lookup};
ghost use Rattle.dccp_listener.specs.Calls.{seen_if};
ghost use Rattle.dccp_listener.specs.Chain.{Calls, Prefers, asked};
ghost use Rattle.dccp_listener.specs.Listens.{listening_after, listens};
ghost use Rattle.dccp_listener.specs.Peers.{end_of_peer, is_peer, peer_cmp};
ghost use Rattle.dccp_listener.specs.Runs.{Stepped};
ghost use Rattle.dccp_uses.specs.Syncs.{admitted};
ghost use Rattle.server_peers.specs.Places.{HasPlaceIf};
ghost use Rattle.dccp_server.specs.Serving.{IsDone, due_of_flow, frame_if, listening_if, soonest, upkeep_at, upkeep_counted, upkeeps_then};
ghost use Rattle.dccp_server.specs.Upkeeps.{call_for_rule, ratio_held, rule_call, sight_if};

use crate::happening::FlowHappening;
use ccid_two::Kinds;
use dccp_endpoint::{DecodedDatagram, Endpoint, Feature, Outbox, Place, Seen, Timer, UserCall};
use dccp_listener::{Listener, NoFlow, Peer};
use dccp_uses::{Due, Pace, Rule, Sight, Upkeep, admit};
use server_peers::{Register, Ticket};

/// What the rules see of a peer's end, if it has one.
pub(crate) fn sight_at(listener: &Listener, peer: Peer) -> Option<Sight>
    ensures { result ≡ sight_if (end_of_peer listener.now.flows peer) }
{
    match listener.flow(peer) {
        Some(end) => Some(Sight::of(end)),
        None => None,
    }
}

/// What is kept of a peer.
pub(crate) fn upkeep_at(upkeeps: &Register<Upkeep>, pace: Pace, peer: Peer) -> Upkeep
    ensures { result ≡ upkeep_at pace upkeeps.now peer }
{
    match upkeeps.get(peer) {
        Some(upkeep) => *upkeep,
        None => Upkeep::begins(pace),
    }
}

/// What is kept of the peer goes on from this with its end, and ends with it.
pub(crate) fn arrange(
    listener: &Listener,
    upkeeps: &mut Register<Upkeep>,
    peer: Peer,
    upkeep: &Upkeep,
    happening: &FlowHappening,
    pace: Pace,
    now: u64,
)
    requires { HasPlaceIf (end_of_peer listener.now.flows peer) upkeeps.old peer }
    ensures { upkeeps.new ≡ upkeeps_then now pace upkeeps.old peer (end_of_peer listener.now.flows peer) upkeep.now happening.now }
{
    match listener.flow(peer) {
        Some(end) => {
            let mut next = *upkeep;
            happening.tell(&mut next, end, pace, now);
            upkeeps.put(peer, &next);
        }
        None => {
            upkeeps.remove(peer);
        }
    }
}

/// The listener takes a call of a peer's end.
pub(crate) fn ask(
    listener: &mut Listener,
    peer: Peer,
    call: UserCall<'_>,
    out: &mut Outbox,
) -> Result<Seen, NoFlow>
    ensures { IsDone listener.old listener.new peer (Calls (asked call.entry)) out.new (Stepped (seen_if result)) }
{
    listener.ask(peer, call, out)
}

/// The ticket of the flow at which something is due first.
pub(crate) fn soonest(upkeeps: &Register<Upkeep>) -> Option<Ticket>
    ensures { result ≡ soonest upkeeps.now }
{
    upkeeps.first_in(0)
}

/// The first thing that is due at a peer's flow, by what is kept of it.
pub(crate) fn due_of_flow(upkeeps: &Register<Upkeep>, peer: Peer, now: u64) -> Option<(Peer, Due)>
    ensures { result ≡ due_of_flow now peer (lookup (is_peer peer) upkeeps.now) }
{
    match upkeeps.get(peer) {
        Some(upkeep) => match upkeep.first_due(now) {
            Some(due) => Some((peer, due)),
            None => None,
        },
        None => None,
    }
}

/// Counts a datagram of a flow, which takes a token if its numbers would have a Sync answer it. Returns whether it is to be
/// heard.
pub(crate) fn count(
    end: &Endpoint<Kinds>,
    upkeeps: &mut Register<Upkeep>,
    peer: Peer,
    datagram: &DecodedDatagram<'_>,
    pace: Pace,
    now: u64,
) -> bool
    requires { IsSome (lookup (is_peer peer) upkeeps.old) }
    ensures counted { upkeeps.new ≡ insert_entry peer_cmp upkeeps.old peer (upkeep_counted now datagram.now (upkeep_at pace upkeeps.old peer) end.now) }
    ensures heard { result ≡ (admitted end.now.state (upkeep_at pace upkeeps.old peer).path datagram.now now).heard }
{
    let mut upkeep = upkeep_at(upkeeps, pace, peer);
    let heard = admit(end, &mut upkeep.path, datagram, now);
    upkeeps.put(peer, &upkeep);
    heard
}

// The Ack Ratio is asked for.
fn ask_ratio(listener: &mut Listener, peer: Peer, ratio: u64, out: &mut Outbox)
    ensures after { listener.new ≡ listening_after listener.old peer (Calls (Prefers Feature.AckRatio Place.Here (ratio ∷ []))) }
    ensures sent { out.new ≡ (listens listener.old peer (Calls (Prefers Feature.AckRatio Place.Here (ratio ∷ [])))).frame }
{
    let call = UserCall::Prefer {
        feature: Feature::AckRatio,
        place: Place::Here,
        values: &[ratio],
    };
    let _ = ask(listener, peer, call, out);
}

// The peer's end does what a rule says; `held` is its Ack Ratio, and `aim` the one that is wanted.
fn obey(listener: &mut Listener, peer: Peer, rule: Rule, held: u64, aim: u64, out: &mut Outbox)
    ensures after { listener.new ≡ listening_if listener.old peer (rule_call rule held aim) }
    ensures sent { out.new ≡ frame_if listener.old peer (rule_call rule held aim) }
{
    match rule {
        Rule::Nothing => out.clear(),
        Rule::GiveUp => {
            let _ = ask(listener, peer, UserCall::Abort, out);
        }
        Rule::TimeOut => {
            let _ = ask(listener, peer, UserCall::Timer(Timer::Rto), out);
        }
        Rule::Probe | Rule::Ask => ask_ratio(listener, peer, held, out),
        Rule::Ratio => ask_ratio(listener, peer, aim, out),
    }
}

// The Ack Ratio of a peer's end, if it has one.
fn held_at(listener: &Listener, peer: Peer) -> Option<u64>
    ensures { result ≡ ratio_held (end_of_peer listener.now.flows peer) }
{
    match listener.flow(peer) {
        Some(end) => Some(end.held(Feature::AckRatio, Place::Here).value),
        None => None,
    }
}

/// The peer's end, if it has one, does what a rule says; `aim` is the Ack Ratio that is wanted.
pub(crate) fn obey_at(listener: &mut Listener, peer: Peer, rule: Rule, aim: u64, out: &mut Outbox)
    ensures after { listener.new ≡ listening_if listener.old peer (call_for_rule rule aim (end_of_peer listener.old.flows peer)) }
    ensures sent { out.new ≡ frame_if listener.old peer (call_for_rule rule aim (end_of_peer listener.old.flows peer)) }
{
    match held_at(listener, peer) {
        Some(held) => obey(listener, peer, rule, held, aim, out),
        None => out.clear(),
    }
}
