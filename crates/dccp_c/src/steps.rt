//! What each call does to an end of C: one step of it, after which its timers go on.
ghost use Rattle.std.specs.Prelude.{◌≡◌, ◌≤◌, [], IfOk, length};
ghost use Rattle.ccid_two.specs.Kinds.{at_first, kinds_control};
ghost use Rattle.dccp_listener.specs.Chain.{asked};
ghost use Rattle.dccp_uses.specs.Session.{is_listening};
ghost use Rattle.dccp_uses.specs.Timed.{timed_begins};
ghost use Rattle.dccp_uses.specs.Holding.{holding_frame};
ghost use Rattle.dccp_c.specs.Doing.{c_end};
ghost use Rattle.dccp_c.specs.Making.{c_begins};
ghost use Rattle.dccp_c.specs.Stepping.{c_acts, c_receives, c_told, done, record_heard, timed_acts};

use crate::codes::{called_code, send_code, timer_code, wish_code};
use crate::held::OwnedEnd;
use crate::making::Care;
use ccid_two::Kinds;
use data_dropped::Intake;
use dccp_endpoint::{Config, DecodedDatagram, NoMemory, Outbox, Phase, Refusal, UserCall};
use dccp_uses::{ClientCookie, DropRecord, Due, Pace, Reading, TimedEnd, settle_heard};
use std::alloc::Global;

/// A new end, for which no timer runs. NoMemory if there is no memory.
pub(crate) fn new_end(alloc: Global, config: Config, care: &Care) -> Result<Box<OwnedEnd>, NoMemory>
    requires { care.now.most_held ≤ 1024 }
    ensures end { IfOk result (λ held. c_end held.value ≡ c_begins care.now config) }
    ensures drops { IfOk result (λ held. held.value.drops ≡ []) }
{
    let intake = Intake::new(alloc, care.most_held)?;
    match begun(alloc, config, care.pace) {
        Ok(timed) => boxed(alloc, timed, intake),
        Err(fault) => Err(fault),
    }
}

fn begun(alloc: Global, config: Config, pace: Pace) -> Result<TimedEnd<Kinds>, NoMemory>
    ensures { IfOk result (λ timed. timed ≡ timed_begins kinds_control config at_first pace) }
{
    let congestion = Kinds::new(alloc)?;
    TimedEnd::new(alloc, config, congestion, pace)
}

// An end in a box.
fn boxed(alloc: Global, timed: TimedEnd<Kinds>, intake: Intake) -> Result<Box<OwnedEnd>, NoMemory>
    ensures timed { IfOk result (λ held. held.value.timed ≡ timed) }
    ensures cookie { IfOk result (λ held. held.value.cookie ≡ []) }
    ensures intake { IfOk result (λ held. held.value.intake ≡ intake) }
    ensures drops { IfOk result (λ held. held.value.drops ≡ []) }
{
    let drops = DropRecord::new(alloc)?;
    in_box(
        alloc,
        OwnedEnd {
            timed,
            intake,
            out: Outbox::new(),
            cookie: ClientCookie::none(),
            drops,
        },
    )
}

// Puts an end into its box; a proof follows each field of what a function owns, so this is apart.
fn in_box(alloc: Global, held: OwnedEnd) -> Result<Box<OwnedEnd>, NoMemory>
    ensures { IfOk result (λ it. it.value ≡ held) }
{
    match Box::new(alloc, held) {
        Ok(held) => Ok(held),
        Err(_) => Err(NoMemory),
    }
}

// Adds what the inbox has to say, and the cookie, to the frame that the end has left.
fn speak(held: &mut OwnedEnd)
    ensures frame { held.new.out ≡ holding_frame (c_end held.old) held.old.out }
    ensures timed { held.new.timed ≡ held.old.timed }
    ensures intake { held.new.intake ≡ held.old.intake }
    ensures cookie { held.new.cookie ≡ held.old.cookie }
    ensures drops { held.new.drops ≡ held.old.drops }
{
    dccp_uses::speak(&held.intake, &held.timed, &mut held.out);
    dccp_uses::give_back(&held.cookie, &held.timed, &mut held.out);
}

// A call of an end by its owner. Returns its code.
fn act_alone(timed: &mut TimedEnd<Kinds>, call: UserCall<'_>, now: u64, out: &mut Outbox) -> u32
    ensures { record { timed = timed.new; frame = out.new; answer = result } ≡ timed_acts (asked call.entry) now timed.old }
{
    match call {
        UserCall::Open => called_code(&timed.open(now, out), Refusal::NotFresh),
        UserCall::Send(payload) | UserCall::SendEarly(payload) => {
            send_code(&timed.send(payload, now, out))
        }
        UserCall::Prefer {
            feature,
            place,
            values,
        } => wish_code(&timed.prefer(feature, place, values, now, out)),
        UserCall::Close => called_code(&timed.close(now, out), Refusal::NotOpen),
        UserCall::Abort => called_code(&timed.abort(now, out), Refusal::NotLive),
        UserCall::Timer(timer) => timer_code(timed.timer(timer, now, out)),
    }
}

/// A call of an end by its owner at `now`, in milliseconds as in each call, whose frame stays here. Returns its code; a
/// refused call changes nothing and leaves no frame.
pub(crate) fn act(held: &mut OwnedEnd, call: UserCall<'_>, now: u64) -> u32
    ensures step { done held.new.timed held.new.intake held.new.cookie held.new.out result ≡ c_acts (asked call.entry) now (c_end held.old) }
    ensures drops { held.new.drops ≡ held.old.drops }
{
    let code = act_alone(&mut held.timed, call, now, &mut held.out);
    speak(held);
    code
}

/// Does what is due. False if the end has nothing to do.
pub(crate) fn tell_due(held: &mut OwnedEnd, due: Due, now: u64) -> bool
    ensures step { done held.new.timed held.new.intake held.new.cookie held.new.out result ≡ c_told due now (c_end held.old) }
    ensures drops { held.new.drops ≡ held.old.drops }
{
    let answer = held.timed.tell(due, now, &mut held.out);
    speak(held);
    answer
}

/// A datagram of at most 2,044 bytes has arrived. The drops that it is the first to report are recorded.
pub(crate) fn receive(held: &mut OwnedEnd, datagram: &[u8], now: u64) -> Reading
    requires { length datagram.now ≤ 2044 }
    ensures step { done held.new.timed held.new.intake held.new.cookie held.new.out result ≡ c_receives datagram.now now (c_end held.old) }
    ensures drops { held.new.drops ≡ record_heard datagram.now held.old.timed held.new.timed held.old.drops }
{
    let decoded = DecodedDatagram::new(datagram);
    let before = held.timed.path().reader;
    let was = held.timed.end().phase();
    let heard = held.timed.receive(&decoded, now, &mut held.out);
    held.cookie.keep(was, held.timed.end().phase(), &decoded);
    let after = held.timed.path().reader;
    held.drops.heard(&before, &after, &decoded);
    let arrival = settle_heard(&mut held.intake, &held.timed, datagram, &heard);
    speak(held);
    Reading { heard, arrival }
}

/// Whether it still waits for a Request.
pub(crate) fn is_listening(held: &OwnedEnd) -> bool
    ensures { result ≡ is_listening held.now.timed.end.state.phase }
{
    matches!(held.timed.end().phase(), Phase::Listen)
}
