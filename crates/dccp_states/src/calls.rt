//! The calls of an end, why they are refused, and its timers.
use feature_lists::{Feature, Place};

/// Why `open` was refused. The end is unchanged.
#[derive(Clone, Copy, Debug, PartialEq, Eq)]
pub enum OpenFault {
    /// The end is a server, or was opened before (own).
    NotFresh,
}

/// Why `send` or `send_early` was refused, each reason before the next. The end is unchanged.
#[derive(Clone, Copy, Debug, PartialEq, Eq)]
pub enum SendFault {
    /// The phase is not OPEN, or for `send_early` not PARTOPEN (RFC 4340, section 8.1.5).
    NotOpen,
    /// The data are longer than 1,024 bytes (own).
    TooLong,
    /// CCID here is 2, and the peer sends no Ack Vectors (RFC 4341, section 4).
    NotNegotiated,
    /// As many data packets are in flight as the window allows (RFC 4341, section 5).
    WindowFull,
}

/// Why `close` was refused. The end is unchanged.
#[derive(Clone, Copy, Debug, PartialEq, Eq)]
pub enum CloseFault {
    /// The phase is neither PARTOPEN nor OPEN (own).
    NotOpen,
}

/// Why `abort` was refused. The end is unchanged.
#[derive(Clone, Copy, Debug, PartialEq, Eq)]
pub enum AbortFault {
    /// The phase is CLOSED, LISTEN or TIMEWAIT: there is no connection (own).
    NotLive,
}

/// A call of an end by its user, as one value (own; the calls are those of RFC 4340). Each variant has the arguments of
/// the call that it names, and that call's refusals.
#[derive(Clone, Copy, Debug, PartialEq, Eq)]
pub enum UserCall<'a> {
    /// `Endpoint::open`: the client asks for its service (RFC 4340, section 8.1.1).
    Open,
    /// `Endpoint::send`: these data are to go to the peer, at most 1,024 bytes.
    Send(&'a [u8]),
    /// `Endpoint::send_early`: the data of a client that speaks first, at most 1,024 bytes (section 8.1.5).
    SendEarly(&'a [u8]),
    /// `Endpoint::prefer`: these values are wanted for a feature at a place, best first (section 6).
    Prefer {
        feature: Feature,
        place: Place,
        values: &'a [u64],
    },
    /// `Endpoint::close`: the connection is to end in order (section 8.3).
    Close,
    /// `Endpoint::abort`: the connection is to end at once (section 8.3).
    Abort,
    /// `Endpoint::timer`: a timer has run out.
    Timer(Timer),
}

/// The timers of an end. The user keeps their times, and calls the end when one has run out.
#[derive(Clone, Copy, Debug, PartialEq, Eq)]
pub enum Timer {
    /// No answer to the Request has come (RFC 4340, section 8.1.1).
    Request,
    /// An acknowledgement is due (RFC 4340, sections 8.1.5 and 11.3).
    Ack,
    /// A Change is not confirmed (RFC 4340, section 6.6.3).
    Negotiate,
    /// Data is not acknowledged (RFC 4341, section 5).
    Rto,
    /// A Close or CloseReq is not answered (RFC 4340, section 8.3).
    Close,
    /// Two maximum segment lifetimes have gone by in TIMEWAIT (RFC 4340, section 8.3).
    TimeWait,
}
