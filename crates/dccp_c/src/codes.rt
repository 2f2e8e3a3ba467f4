//! The codes that the calls return, and the numbers by which C names a feature and a timer.
ghost use Rattle.std.specs.Prelude.{◌≡◌};
ghost use Rattle.feature_lists.specs.Features.{feature_numbered};
ghost use Rattle.dccp_c.specs.Codes.{called_code, place_by, refusal_code, restraint_code, stand_code, timer_coded, timer_code, unsent_code, unwished_code};

use dccp_endpoint::{Feature, Place, PreferFault, Refusal, Stand, Timer};
use dccp_uses::{Restraint, SendRefusal};

/// The call was done.
pub const DONE: u32 = 0;

/// There is no end or listener: it was not made, or was freed.
pub const NOT_MADE: u32 = 1;

/// There was no memory.
pub const NO_MEMORY: u32 = 2;

/// The end is a server's, or was opened before.
pub const NOT_FRESH: u32 = 3;

/// The connection is in a phase in which the call is not allowed.
pub const NOT_OPEN: u32 = 4;

/// The data or the datagram are too long.
pub const TOO_LONG: u32 = 5;

/// The peer sends no Ack Vectors yet.
pub const NOT_NEGOTIATED: u32 = 6;

/// As many data packets are in flight as the window allows.
pub const WINDOW_FULL: u32 = 7;

/// There are no values or too many, two are equal, or one is not permitted.
pub const BAD_LIST: u32 = 8;

/// Only the peer may set the feature.
pub const NOT_OURS: u32 = 9;

/// There is no connection to abort.
pub const NOT_LIVE: u32 = 10;

/// No feature has this number.
pub const NO_FEATURE: u32 = 11;

/// The timer has nothing to do, or none has run out.
pub const NOTHING_DUE: u32 = 12;

/// The datagram opens no connection.
pub const NO_CONNECTION: u32 = 13;

/// A listener has as many flows as its limit allows, and the datagram would open one more.
pub const BUSY: u32 = 14;

/// The peer has no flow.
pub const NO_FLOW: u32 = 15;

/// No timer has this number.
pub const NO_TIMER: u32 = 16;

/// The number of a first packet is not below 2^48.
pub const NO_NUMBER: u32 = 17;

/// A listener cannot be of IPv6, or have this many flows or these Service Codes.
pub const NO_SUCH_LISTENER: u32 = 18;

/// A tick has given a flow up.
pub const GAVE_UP: u32 = 19;

/// A struct begins with a size that is not the library's, but that of another header.
pub const OTHER_SIZE: u32 = 20;

/// The listener takes no new flows, and the datagram would open one.
pub const REFUSED: u32 = 21;

/// The last call has no further event.
pub const NO_EVENT: u32 = 22;

/// The peer's application no longer listens: no further data will reach it.
pub const NOT_LISTENING: u32 = 23;

pub(crate) fn refusal_code(refusal: Refusal) -> u32
    ensures { result ≡ refusal_code refusal }
{
    match refusal {
        Refusal::NotFresh => NOT_FRESH,
        Refusal::NotOpen => NOT_OPEN,
        Refusal::TooLong => TOO_LONG,
        Refusal::NotNegotiated => NOT_NEGOTIATED,
        Refusal::WindowFull => WINDOW_FULL,
        Refusal::BadList => BAD_LIST,
        Refusal::NotOurs => NOT_OURS,
        Refusal::NotLive => NOT_LIVE,
    }
}

// The code of a call that has this one refusal.
pub(crate) fn called_code<F: Copy>(answer: &Result<(), F>, refusal: Refusal) -> u32
    ensures { result ≡ called_code (λ fault. refusal_code refusal) answer.now }
{
    match answer {
        Ok(()) => DONE,
        Err(_) => refusal_code(refusal),
    }
}

pub(crate) fn restraint_code(restraint: &Restraint) -> u32
    ensures { result ≡ restraint_code restraint.now }
{
    match restraint {
        Restraint::NotListening => NOT_LISTENING,
        Restraint::Full => WINDOW_FULL,
    }
}

pub(crate) fn send_code(answer: &Result<(), SendRefusal>) -> u32
    ensures { result ≡ called_code unsent_code answer.now }
{
    match answer {
        Ok(()) => DONE,
        Err(SendRefusal::Held(restraint)) => restraint_code(restraint),
        Err(SendRefusal::Refused(fault)) => refusal_code(Refusal::from(*fault)),
    }
}

pub(crate) fn wish_code(answer: &Result<(), PreferFault>) -> u32
    ensures { result ≡ called_code unwished_code answer.now }
{
    match answer {
        Ok(()) => DONE,
        Err(fault) => refusal_code(Refusal::from(*fault)),
    }
}

pub(crate) fn timer_code(applies: bool) -> u32
    ensures { result ≡ timer_code applies }
{
    if applies { DONE } else { NOTHING_DUE }
}

// The feature of a number, 1 to 9.
pub(crate) fn feature_of(number: u32) -> Option<Feature>
    ensures { result ≡ feature_numbered number }
{
    if 9 < number {
        return None;
    }
    Feature::of(number as u8)
}

pub(crate) fn place_of(at_peer: bool) -> Place
    ensures { result ≡ place_by at_peer }
{
    if at_peer { Place::There } else { Place::Here }
}

// The timer of a number, 0 to 5.
pub(crate) fn timer_of(number: u32) -> Option<Timer>
    ensures { result ≡ timer_coded number }
{
    match number {
        0 => Some(Timer::Request),
        1 => Some(Timer::Ack),
        2 => Some(Timer::Negotiate),
        3 => Some(Timer::Rto),
        4 => Some(Timer::Close),
        5 => Some(Timer::TimeWait),
        _ => None,
    }
}

pub(crate) fn stand_code(stand: Stand) -> u32
    ensures { result ≡ stand_code stand }
{
    match stand {
        Stand::Stable => 0,
        Stand::Changing => 1,
        Stand::Unstable => 2,
    }
}
