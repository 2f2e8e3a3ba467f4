//! Why the two ends of a connection agree on a feature: laws on its pair of rows (own; the negotiation is that of RFC
//! 4340, section 6, as this profile restricts it).
//!
//! No code runs here: the functions have empty bodies, and their contracts are the laws. They say nothing about phases
//! or windows, and never that a negotiation settles.
//!
//! Since there is no code, there are no tests and no must-fail edits. Wrong moves and wrong lines of the table were
//! tried in a copy, and the proofs refuse them: a Change that settles the row; a Confirm from before the last opening;
//! a Confirm whose value is adopted although nothing is shared, or is not looked at; frames that are not newest; an
//! opening that keeps the old opening's mark; the client's order at the server.

mod counts;
mod each_feature;
mod laws;
mod lines;
mod packets;

pub use crate::features::counts::numbers_count_frames;
pub use crate::features::each_feature::{
    every_feature_agrees, row_steps_reach, row_steps_stay_reachable, values_were_given,
};
pub use crate::features::laws::{
    exchanges_settle, location_decides, negotiating_stays_reachable, reachable_sides_agree,
    reachable_sides_are_truthful, remote_rows_confirm_what_was_told,
    where_nothing_is_shared_the_value_stays,
};
pub use crate::features::lines::{
    offering_is_a_move, preferring_is_a_move, rows_stay_begun, sending_is_a_move,
    taking_a_change_is_a_move, taking_a_confirm_is_a_move, valid_changes_are_understood,
    what_rows_say_is_whole, whole_confirms_have_lists,
};
pub use crate::features::packets::{hearing_keeps_a_row, taking_a_packet_is_moves};
