//! What becomes of data that arrive.
use dccp_endpoint::Outcome;

/// What became of data.
#[derive(Clone, Copy, Debug, PartialEq, Eq)]
pub enum Arrival {
    /// They are held, and can be taken.
    Kept,
    /// They were dropped, for the reason of this Drop Code (RFC 4340, section 11.7): 1, the application is no longer
    /// listening; 2, the receive buffer is full.
    Dropped(u8),
}

/// What became of bytes that arrived at an end with an inbox.
#[derive(Clone, Copy, Debug, PartialEq, Eq)]
pub struct Got {
    /// What the end answers.
    pub outcome: Outcome,
    /// What became of the data that it delivered, or None if it delivered none.
    pub arrival: Option<Arrival>,
}
