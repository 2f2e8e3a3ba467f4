//! What the calls answer.

use arrayvec::ArrayVec;

/// The answer to a Change.
#[derive(Debug, Drop)]
pub enum Answer {
    /// This Confirm is due on a packet that acknowledges the Change's.
    Confirm(ConfirmOut),
    /// The Change is passed over, and all rows stay.
    Ignored,
    /// The packet is answered by a Reset with code 6, Mandatory Error, and all rows stay.
    Fatal,
}

/// A Confirm option to be sent.
#[derive(Debug, Drop)]
pub struct ConfirmOut {
    /// Whether it is Confirm L (type 33) or Confirm R (type 35).
    pub left: bool,
    /// The feature number, as the Change had it.
    pub feature: u8,
    /// The data after the feature number: empty; a value and the confirmer's list; or the value alone.
    pub body: ArrayVec<u8, 9>,
}

/// The answer to a Confirm.
#[derive(Clone, Copy, Debug, PartialEq, Eq)]
pub enum Settling {
    /// The row is STABLE now.
    Settled,
    /// The Confirm is passed over, and all rows stay.
    Ignored,
    /// The packet is answered by a Reset with code 5, Option Error, and all rows stay.
    Fatal,
}

/// When the Change of a new wish goes out.
#[derive(Clone, Copy, Debug, PartialEq, Eq)]
pub enum Opening {
    /// In this step.
    Now,
    /// On a later packet, since a Change of the row is under way.
    Later,
}
