//! The calls of a listener, with what is kept of its flows and with their lives.
ghost use Rattle.std.specs.Prelude.{◌≡◌, ◌≤◌, None, Some, Ok, IfOk, OnOk, OnErr, length};
ghost use Rattle.dccp_listener.specs.Calls.{seen_if};
ghost use Rattle.dccp_listener.specs.Chain.{Arrives, Calls, asked};
ghost use Rattle.dccp_listener.specs.Listens.{listens};
ghost use Rattle.dccp_listener.specs.Runs.{Stepped, told_of};
ghost use Rattle.server_peers.specs.Lives.{life_of};
ghost use Rattle.dccp_server.specs.Rooms.{HasArrived, HasHeard, IsJudged, IsLiving, IsRoomMade, as_room, counted_room, forgets, heard_or_fault, is_crowded, is_to_be_heard, room_does, unless_fault, who_leaves};
ghost use Rattle.dccp_server.specs.Serving.{Does, Follows, doing_frame};

use crate::anew::{begins_anew, refuses_last_sync, signs_noted};
use crate::lives::{go_on, life_of};
use crate::timed_listener::TimedListener;
use dccp_endpoint::{DecodedDatagram, NoMemory, Outbox, Seen, Seq48, Timer, UserCall};
use dccp_listener::{Heard, NoFlow, Peer};
use server_peers::{
    Life, Register, Rules, Signs, is_crowd, makes_way, signs_answered, signs_heard, signs_in,
};

/// The result of a datagram (own).
#[derive(Clone, Copy)]
pub struct ArrivalResult {
    /// What became of it, or None if it was left out, since it would have been answered by one Sync too many. NoMemory
    /// if it would have opened a flow and there was no memory.
    pub heard: Result<Option<Heard>, NoMemory>,
    /// The peer whose flow made room for it.
    pub evicted: Option<Peer>,
    /// Whether the flow that the peer had was ended, since the peer has connected again.
    pub anew: bool,
}

// The result of a datagram that was heard.
#[derive(Clone, Copy)]
pub(crate) struct HearingResult {
    pub(crate) heard: Result<Heard, NoMemory>,
    pub(crate) evicted: Option<Peer>,
    pub(crate) anew: bool,
}

/// A datagram of a peer with this life is heard, without any rule.
pub(crate) fn hear(
    timed: &mut TimedListener,
    lives: &mut Register<Life>,
    life: &Life,
    peer: Peer,
    iss: Seq48,
    datagram: &DecodedDatagram<'_>,
    now: u64,
    out: &mut Outbox,
) -> Result<Heard, NoMemory>
    requires short { length datagram.now ≤ 2044 }
    requires living { IsLiving (as_room timed.old lives.old) }
    requires known { life.now ≡ life_of lives.old peer }
    ensures after { OnOk result (as_room timed.new lives.new ≡ room_does now (as_room timed.old lives.old) peer (Does (Arrives iss datagram.now))) }
    ensures sent { OnOk result (out.new ≡ (listens timed.old.listening peer (Arrives iss datagram.now)).frame) }
    ensures told { IfOk result (λ heard. told_of (Ok heard) ≡ (listens timed.old.listening peer (Arrives iss datagram.now)).told) }
    ensures living { IsLiving (as_room timed.new lives.new) }
    ensures unchanged { OnErr result (as_room timed.new lives.new ≡ as_room timed.old lives.old) }
{
    let had = lives.place_for(peer, Life::none())?;
    match timed.arrive(peer, iss, datagram, now, out) {
        Ok(heard) => {
            let signs = signs_noted(datagram, signs_heard(&heard));
            go_on(timed, lives, peer, life, signs, now);
            Ok(heard)
        }
        Err(fault) => {
            lives.take_back(peer, had);
            Err(fault)
        }
    }
}

/// The owner calls a peer's end. Each flow has a life.
pub(crate) fn ask(
    timed: &mut TimedListener,
    lives: &mut Register<Life>,
    peer: Peer,
    call: UserCall<'_>,
    now: u64,
    out: &mut Outbox,
) -> Result<Seen, NoFlow>
    requires { IsLiving (as_room timed.old lives.old) }
    ensures living { IsLiving (as_room timed.new lives.new) }
    ensures after { as_room timed.new lives.new ≡ room_does now (as_room timed.old lives.old) peer (Does (Calls (asked call.entry))) }
    ensures sent { out.new ≡ (listens timed.old.listening peer (Calls (asked call.entry))).frame }
    ensures told { Stepped (seen_if result) ≡ (listens timed.old.listening peer (Calls (asked call.entry))).told }
{
    let life = life_of(lives, peer);
    let answer = timed.ask(peer, call, now, out);
    let signs = signs_answered(&answer);
    go_on(timed, lives, peer, &life, signs, now);
    answer
}

/// The first rule of a peer's path that is due makes its end do something.
pub(crate) fn follow(
    timed: &mut TimedListener,
    lives: &mut Register<Life>,
    peer: Peer,
    now: u64,
    out: &mut Outbox,
)
    requires { IsLiving (as_room timed.old lives.old) }
    ensures living { IsLiving (as_room timed.new lives.new) }
    ensures after { as_room timed.new lives.new ≡ room_does now (as_room timed.old lives.old) peer Follows }
    ensures sent { out.new ≡ doing_frame now timed.old peer Follows }
{
    let life = life_of(lives, peer);
    timed.follow(peer, now, out);
    go_on(timed, lives, peer, &life, Signs::none(), now);
}

/// A peer's flow is forgotten, and nothing is sent.
pub(crate) fn forget(
    timed: &mut TimedListener,
    lives: &mut Register<Life>,
    peer: Peer,
    now: u64,
    out: &mut Outbox,
)
    requires { IsLiving (as_room timed.old lives.old) }
    ensures living { IsLiving (as_room timed.new lives.new) }
    ensures after { as_room timed.new lives.new ≡ forgets now (as_room timed.old lives.old) peer }
    ensures sent { out.new ≡ None }
{
    let _ = ask(timed, lives, peer, UserCall::Abort, now, out);
    let _ = ask(
        timed,
        lives,
        peer,
        UserCall::Timer(Timer::TimeWait),
        now,
        out,
    );
    out.clear();
}

// A datagram found the listener busy: this flow leaves, and the datagram is heard once more.
fn make_room(
    timed: &mut TimedListener,
    lives: &mut Register<Life>,
    leaving: Peer,
    peer: Peer,
    iss: Seq48,
    datagram: &DecodedDatagram<'_>,
    now: u64,
    out: &mut Outbox,
) -> Result<Heard, NoMemory>
    requires short { length datagram.now ≤ 2044 }
    requires living { IsLiving (as_room timed.old lives.old) }
    ensures living { IsLiving (as_room timed.new lives.new) }
    ensures made { IsRoomMade now (as_room timed.old lives.old) (as_room timed.new lives.new) peer iss datagram.now (Some leaving) out.old out.new result }
{
    forget(timed, lives, leaving, now, out);
    let life = life_of(lives, peer);
    hear(timed, lives, &life, peer, iss, datagram, now, out)
}

/// Whether more flows are half open than places are free.
pub(crate) fn is_crowded(timed: &TimedListener, lives: &Register<Life>) -> bool
    ensures { result ≡ is_crowded (as_room timed.now lives.now) }
{
    is_crowd(lives, timed.config().most)
}

/// The peer whose flow makes room, if there is one.
pub(crate) fn who_leaves(
    timed: &TimedListener,
    lives: &Register<Life>,
    rules: &Rules,
    now: u64,
) -> Option<Peer>
    ensures { result ≡ who_leaves now rules.now (as_room timed.now lives.now) }
{
    makes_way(rules, is_crowded(timed, lives), lives, now)
}

// A datagram that was heard is judged by the rules.
fn judge(
    timed: &mut TimedListener,
    lives: &mut Register<Life>,
    rules: &Rules,
    life: &Life,
    heard: Heard,
    peer: Peer,
    iss: Seq48,
    datagram: &DecodedDatagram<'_>,
    now: u64,
    out: &mut Outbox,
) -> HearingResult
    requires short { length datagram.now ≤ 2044 }
    requires living { IsLiving (as_room timed.old lives.old) }
    ensures living { IsLiving (as_room timed.new lives.new) }
    ensures judged { IsJudged now rules.now life.now (as_room timed.old lives.old) (as_room timed.new lives.new) peer iss datagram.now heard out.old out.new result.heard result.evicted result.anew }
{
    match heard {
        Heard::Busy => match who_leaves(timed, lives, rules, now) {
            Some(leaving) => HearingResult {
                heard: make_room(timed, lives, leaving, peer, iss, datagram, now, out),
                evicted: Some(leaving),
                anew: false,
            },
            None => HearingResult {
                heard: Ok(Heard::Busy),
                evicted: None,
                anew: false,
            },
        },
        Heard::Flow(outcome) => {
            let anew = begins_anew(rules, life, datagram, signs_in(&outcome));
            // The Sync is not sent then.
            if anew {
                forget(timed, lives, peer, now, out);
            }
            HearingResult {
                heard: Ok(Heard::Flow(outcome)),
                evicted: None,
                anew,
            }
        }
    }
}

// A datagram that is heard, by these rules.
fn hear_by(
    timed: &mut TimedListener,
    lives: &mut Register<Life>,
    rules: &Rules,
    life: &Life,
    peer: Peer,
    iss: Seq48,
    datagram: &DecodedDatagram<'_>,
    now: u64,
    out: &mut Outbox,
) -> HearingResult
    requires short { length datagram.now ≤ 2044 }
    requires living { IsLiving (as_room timed.old lives.old) }
    requires known { life.now ≡ life_of lives.old peer }
    ensures living { IsLiving (as_room timed.new lives.new) }
    ensures heard { HasHeard now rules.now (as_room timed.old lives.old) (as_room timed.new lives.new) peer iss datagram.now out.new result.heard result.evicted result.anew }
{
    match hear(timed, lives, life, peer, iss, datagram, now, out) {
        Ok(heard) => judge(
            timed, lives, rules, life, heard, peer, iss, datagram, now, out,
        ),
        Err(fault) => HearingResult {
            heard: Err(fault),
            evicted: None,
            anew: false,
        },
    }
}

// Counts a datagram. Returns whether it is to be heard.
fn count(
    timed: &mut TimedListener,
    lives: &Register<Life>,
    rules: &Rules,
    life: &Life,
    peer: Peer,
    datagram: &DecodedDatagram<'_>,
    now: u64,
) -> bool
    requires living { IsLiving (as_room timed.old lives.now) }
    requires known { life.now ≡ life_of lives.now peer }
    ensures living { IsLiving (as_room timed.new lives.now) }
    ensures room { as_room timed.new lives.now ≡ counted_room now rules.now (as_room timed.old lives.now) peer datagram.now }
    ensures heard { result ≡ is_to_be_heard now rules.now (as_room timed.old lives.now) peer datagram.now }
{
    if refuses_last_sync(rules, life, datagram) {
        return true;
    }
    timed.admits(peer, datagram, now)
}

// The result of a datagram that was heard, as one that might have been left out. Nothing goes out if there was no
// memory.
fn as_arrival(judged: &HearingResult, out: &mut Outbox) -> ArrivalResult
    ensures heard { result.heard ≡ heard_or_fault judged.now.heard }
    ensures evicted { result.evicted ≡ judged.now.evicted }
    ensures anew { result.anew ≡ judged.now.anew }
    ensures frame { out.new ≡ unless_fault judged.now.heard out.old }
{
    let heard = match judged.heard {
        Ok(heard) => Ok(Some(heard)),
        Err(fault) => {
            out.clear();
            Err(fault)
        }
    };
    ArrivalResult {
        heard,
        evicted: judged.evicted,
        anew: judged.anew,
    }
}

/// A datagram of a peer, by these rules.
pub(crate) fn arrive(
    timed: &mut TimedListener,
    lives: &mut Register<Life>,
    rules: &Rules,
    peer: Peer,
    iss: Seq48,
    datagram: &DecodedDatagram<'_>,
    now: u64,
    out: &mut Outbox,
) -> ArrivalResult
    requires short { length datagram.now ≤ 2044 }
    requires living { IsLiving (as_room timed.old lives.old) }
    ensures living { IsLiving (as_room timed.new lives.new) }
    ensures arrived { HasArrived now rules.now (as_room timed.old lives.old) (as_room timed.new lives.new) peer iss datagram.now out.new result.heard result.evicted result.anew }
{
    let life = life_of(lives, peer);
    if !count(timed, lives, rules, &life, peer, datagram, now) {
        out.clear();
        return ArrivalResult {
            heard: Ok(None),
            evicted: None,
            anew: false,
        };
    }
    let judged = hear_by(timed, lives, rules, &life, peer, iss, datagram, now, out);
    as_arrival(&judged, out)
}
