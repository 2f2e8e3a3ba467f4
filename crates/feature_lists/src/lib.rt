//! DCCP's features, the preference lists that two ends hold for them, and the value that two lists settle on (RFC 4340,
//! section 6), with the lists and ranges of this profile.
//!
//! Nothing here takes memory, and nothing here is sent: the negotiation decides who says what, and when.
#![tactic(auto)]

mod features;
mod laws;
mod prefs;
mod reconciliation;
mod wishes;

pub use crate::features::{Feature, Place, initial};
pub use crate::laws::{
    allowed_lists, numbers_name_features, reconciliation_is_the_first_shared, wishes_are_given,
};
pub use crate::prefs::Prefs;
pub use crate::reconciliation::reconcile;
pub use crate::wishes::{PreferFault, Wanted, usual, wish};
