//! The phases of an end, from what it is seen to do (RFC 4340, section 8.5; the tables of dccp_states).
ghost use Rattle.std.specs.Prelude.{◌≡◌};
ghost use Rattle.bridge_pictures.specs.Phases as spec;

use dccp_packets::{Kind, PacketType};
use dccp_states::{Phase, after};

/// What became of a frame that came, as far as a phase depends on it.
#[derive(Clone, Copy)]
pub(crate) enum Fate {
    /// It was taken.
    Took,
    /// It was dropped.
    Dropped,
    /// It was answered by a Sync.
    Synced,
    /// It is a valid Reset.
    WasReset,
    /// It was answered by a Reset.
    SentReset,
}

/// What an end was asked for, as far as its phase depends on it.
#[derive(Clone, Copy)]
pub(crate) enum Demand {
    /// To give up, and it did.
    GivenUp,
    /// Its retransmission timer ran out.
    TimedOut,
    /// Anything else.
    Other,
}

/// The word for a phase, as end lines have it.
pub(crate) fn phase_name(phase: Phase) -> &'static [u8]
    ensures { result.now ≡ spec.phase_class phase }
{
    match phase {
        Phase::Closed => b"CLOSED",
        Phase::Listen => b"LISTEN",
        Phase::Request => b"REQUEST",
        Phase::Respond => b"RESPOND",
        Phase::PartOpen => b"PARTOPEN",
        Phase::Open => b"OPEN",
        Phase::CloseReq => b"CLOSEREQ",
        Phase::Closing => b"CLOSING",
        Phase::TimeWait => b"TIMEWAIT",
    }
}

// The phase of an end that sent a Reset of this code: the connection ends, except by Packet Error in REQUEST.
fn phase_reset(phase: Phase, code: u8) -> Phase
    ensures { result ≡ spec.phase_reset phase code }
{
    match phase {
        Phase::Closed | Phase::Listen | Phase::TimeWait => phase,
        Phase::Request if code == 4 => phase,
        Phase::Request
        | Phase::Respond
        | Phase::PartOpen
        | Phase::Open
        | Phase::CloseReq
        | Phase::Closing => Phase::Closed,
    }
}

/// The phase of an end that sent a packet.
pub(crate) fn phase_sent(phase: Phase, kind: &Kind) -> Phase
    ensures { result ≡ spec.phase_sent phase kind.now }
{
    match *kind {
        Kind::Request { .. } => Phase::Request,
        Kind::Response { .. } => Phase::Respond,
        Kind::CloseReq { .. } => Phase::CloseReq,
        Kind::Close { .. } => Phase::Closing,
        Kind::Reset { code, .. } => phase_reset(phase, code),
        Kind::Data
        | Kind::Ack { .. }
        | Kind::DataAck { .. }
        | Kind::Sync { .. }
        | Kind::SyncAck { .. } => phase,
    }
}

/// The phase of an end to which a packet of this type came.
pub(crate) fn phase_came(phase: Phase, kind: PacketType, came: Fate) -> Phase
    ensures { result ≡ spec.phase_came phase kind came }
{
    match came {
        Fate::Took => after(phase, kind).0,
        Fate::WasReset => Phase::TimeWait,
        Fate::Dropped | Fate::Synced | Fate::SentReset => phase,
    }
}

/// The phase of an end that was asked for something.
pub(crate) fn phase_asked(phase: Phase, asked: Demand) -> Phase
    ensures { result ≡ spec.phase_asked phase asked }
{
    match asked {
        Demand::GivenUp => Phase::Closed,
        Demand::TimedOut | Demand::Other => phase,
    }
}
