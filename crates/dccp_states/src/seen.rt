//! The results of all that an end does, in one type.
use crate::{Outcome, SendFault};
use feature_lists::PreferFault;

/// Why an end refused a call, by the name of its fault.
#[derive(Clone, Copy, Debug, PartialEq, Eq)]
pub enum Refusal {
    /// `open`: the end is a server, or was opened before.
    NotFresh,
    /// `prefer` and `close`: the phase is neither PARTOPEN nor OPEN. `send`: it is not OPEN. `send_early`: not
    /// PARTOPEN.
    NotOpen,
    /// `send`, `send_early`: the data are longer than 1,024 bytes.
    TooLong,
    /// `send`, `send_early`: CCID here is 2, and the peer sends no Ack Vectors.
    NotNegotiated,
    /// `send`, `send_early`: as many data packets are in flight as the window allows.
    WindowFull,
    /// `prefer`: there are no values or too many, two are equal, or one is not permitted for the feature.
    BadList,
    /// `prefer`: the feature is non-negotiable and located at the peer.
    NotOurs,
    /// `abort`: the phase is CLOSED, LISTEN or TIMEWAIT.
    NotLive,
}

impl From<SendFault> for Refusal {
    ghost use Rattle.std.specs.Prelude.{◌≡◌};
    ghost use Rattle.dccp_states.specs.Refusals.{send_refusal_of};

    ghost from_gives = { λ fault refusal. refusal ≡ send_refusal_of fault };

    fn from(fault: SendFault) -> Refusal {
        match fault {
            SendFault::NotOpen => Refusal::NotOpen,
            SendFault::TooLong => Refusal::TooLong,
            SendFault::NotNegotiated => Refusal::NotNegotiated,
            SendFault::WindowFull => Refusal::WindowFull,
        }
    }
}

impl From<PreferFault> for Refusal {
    ghost use Rattle.std.specs.Prelude.{◌≡◌};
    ghost use Rattle.dccp_states.specs.Refusals.{refusal_of};

    ghost from_gives = { λ fault refusal. refusal ≡ refusal_of fault };

    fn from(fault: PreferFault) -> Refusal {
        match fault {
            PreferFault::NotOpen => Refusal::NotOpen,
            PreferFault::BadList => Refusal::BadList,
            PreferFault::NotOurs => Refusal::NotOurs,
        }
    }
}

/// The result of a call, a timer or a packet that arrived.
#[derive(Clone, Copy, Debug, PartialEq, Eq)]
pub enum Seen {
    /// A call, and whether its end refused it.
    Called(Result<(), Refusal>),
    /// A timer, and whether it had something to do.
    Fired(bool),
    /// What became of the frame that arrived.
    Received(Outcome),
}
