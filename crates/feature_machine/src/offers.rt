//! What an end wants and offers when the connection starts.

use feature_lists::{Feature, Place, Wanted};

/// The Change of a row that an end is to send by itself when the connection starts.
#[derive(Clone, Copy, Debug, PartialEq, Eq)]
pub enum Offer {
    /// None, or it was made.
    Nothing,
    /// A Change without Mandatory.
    Plain,
    /// A Change after Mandatory.
    Mandatory,
}

/// What an end starts with for a feature at a place.
#[derive(Clone, Copy, Debug)]
pub struct RowSetup {
    pub feature: Feature,
    pub place: Place,
    /// The wish; None for a non-negotiable feature at the peer.
    pub wish: Option<Wanted>,
    pub offer: Offer,
}
