//! The two roles, and the phases of a connection.

/// Which end of the connection it is.
#[derive(Clone, Copy, Debug, PartialEq, Eq)]
pub enum Role {
    /// Opens the connection with a Request.
    Client,
    /// Waits for a Request.
    Server,
}

/// The states of an end (RFC 4340, section 8.4). `docs/PROTOCOL.md` has a picture of them, under "The phases": its
/// arrows are the packets that an end takes, with the reply (`after`), and the end's calls and timers, which are not in
/// the tables of this crate.
#[derive(Clone, Copy, Debug, PartialEq, Eq)]
pub enum Phase {
    /// Not opened, or given up.
    Closed,
    /// A server that waits for a Request.
    Listen,
    /// A client that has sent its Request.
    Request,
    /// A server that has sent its Response.
    Respond,
    /// A client that has its Response, and does not know yet whether the server knows that.
    PartOpen,
    /// Data may be sent and is delivered.
    Open,
    /// A server that has asked for a Close.
    CloseReq,
    /// An end that has sent its Close.
    Closing,
    /// An end that keeps the connection's numbers after a Reset.
    TimeWait,
}

impl Phase {
    ghost use Rattle.std.specs.Prelude.{◌≡◌};
    ghost use Rattle.dccp_states.specs.Phases.{is_closed};

    /// The connection is over, or was never begun.
    pub fn is_closed(self) -> bool
        ensures { result ≡ is_closed self }
    {
        matches!(self, Phase::Closed)
    }
}
