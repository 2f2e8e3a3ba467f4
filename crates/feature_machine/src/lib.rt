//! Feature negotiation as one end sees it (RFC 4340, section 6): a row for each of the nine features at each place, and
//! what Changes, Confirms and the end's own wishes make of it. The rules are this profile's own where RFC 4340, section
//! 6.6, says otherwise.
//!
//! Nothing here takes memory, reads a packet or sends one, and no row is changed by another row's event.
#![tactic(auto)]

mod answers;
mod due;
mod judging;
mod laws;
mod lists;
mod negotiation;
mod offers;
mod row;
mod rows;
mod stands;
mod values;

pub use crate::answers::{Answer, ConfirmOut, Opening, Settling};
pub use crate::due::DueRows;
pub use crate::laws::{
    both_ends_reconcile_alike, causes_of_resets, changes_move_no_stand, late_confirms_are_ignored,
    only_its_confirm_settles, openings_keep_their_number, refusals_change_nothing,
    rows_stand_apart, rows_stay_sound, values_are_lawful,
};
pub use crate::lists::Lists;
pub use crate::negotiation::Negotiation;
pub use crate::rows::{
    due_rows_are_those_that_ask, lists_stand_apart, rows_begin_fresh, rows_keep_their_role,
    turns_are_of_their_rows,
};
pub use crate::stands::{Held, Role2, Stand};
pub use crate::values::put_value;
