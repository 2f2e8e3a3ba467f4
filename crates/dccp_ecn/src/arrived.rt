//! How a packet came.

/// How a packet came, by the ECN bits of its IP header (RFC 4340, section 12.2). A packet that was marked on its way
/// has lost its nonce.
#[derive(Clone, Copy, Debug, PartialEq, Eq)]
pub enum Arrived {
    /// Unmarked, with the nonce that its sender gave it.
    Nonce(bool),
    /// Marked: congestion was experienced.
    Marked,
}
