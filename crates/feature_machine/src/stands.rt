//! The stand of a row, and what is known of its feature.

/// Where the negotiation of a feature is at an end (RFC 4340, section 6.6.2).
#[derive(Clone, Copy, Debug, PartialEq, Eq)]
pub enum Stand {
    /// Nothing is asked here: the value holds. This says nothing about the other end, which may wait for a Confirm and
    /// hold another value. If both are Stable, they hold the same value.
    Stable,
    /// The row has opened: its Change was sent, or is due in this step, and its Confirm has not come. The end still
    /// answers the peer's Changes.
    Changing,
    /// A Change is under way, and the end has a new wish since, which it has not sent yet.
    Unstable,
}

/// A feature's value at an end, and the stand of its negotiation.
#[derive(Clone, Copy, Debug, PartialEq, Eq)]
pub struct Held {
    /// The value that holds until another is settled on.
    pub value: u64,
    /// The state of the negotiation.
    pub stand: Stand,
}

/// Which end of the connection it is: the server's list decides the order (RFC 4340, section 6.3.1).
#[derive(Clone, Copy, Debug, PartialEq, Eq)]
pub enum Role2 {
    /// The peer's list is the server's.
    Client,
    /// The end's own list is the server's.
    Server,
}
