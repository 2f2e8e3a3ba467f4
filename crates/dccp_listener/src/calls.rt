//! The calls of a listener, and its answers.
use dccp_endpoint::{Outcome, Timer};

/// A call of a peer's end (own; the calls are the end's, RFC 4340).
#[derive(Clone, Copy, Debug)]
pub enum Act<'a> {
    /// These data are to go to the peer, at most 1,024 bytes (`Endpoint::send`).
    Send(&'a [u8]),
    /// A timer of the peer's end has run out (`Endpoint::timer`).
    Timer(Timer),
    /// The connection is to end in order (`Endpoint::close`).
    Close,
    /// The connection is to end at once (`Endpoint::abort`).
    Abort,
}

/// What became of a datagram (own).
#[derive(Clone, Copy, Debug, PartialEq, Eq)]
pub enum Heard {
    /// An end answered: the peer's own, or a fresh one, which stays if it has left LISTEN and is not CLOSED.
    Flow(Outcome),
    /// The peer has no flow, the datagram would open one, and there are as many flows as the limit allows. A Reset with
    /// the code Too Busy goes to the peer (RFC 4340, section 5.6).
    Busy,
}

/// The peer has no flow, and nothing was done (own).
#[derive(Clone, Copy, Debug, PartialEq, Eq)]
pub struct NoFlow;
