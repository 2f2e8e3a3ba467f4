//! Two ends of one connection and all frames that they ever sent, as a world in which any frame may arrive at any time,
//! repeatedly, in any order, or never (own; the ends are those of RFC 4340).
//!
//! Both ends negotiate features, as configured and as their owners wish later, and send data as their congestion
//! controls allow. For every schedule and every congestion control the world is safe. If both ends call a feature
//! settled, they hold the same value, and each value was given to them. Their Ack Vectors report what was processed,
//! and what an end believes received, the other one processed. Nothing is said about progress or time, and no frame is
//! altered on its way. The laws for this are in the modules `features` and `marks`, over a pair of sides; no code runs
//! there. A world keeps every frame, so events take memory; if there is none, nothing changes.
#![tactic(auto)]

mod facts;
mod far;
mod features;
mod frames;
mod half;
mod laws;
mod marks;
mod sides;
mod world;

pub use crate::facts::{
    frames_are_numbered_in_order, frames_say_one_thing_of_a_feature, records_are_of_own_frames,
    resets_move_nothing, sets_hold_what_was_processed, the_newest_acknowledgement_was_processed,
    what_is_heard_was_sent,
};
pub use crate::features::{
    every_feature_agrees, exchanges_settle, hearing_keeps_a_row, location_decides,
    negotiating_stays_reachable, numbers_count_frames, offering_is_a_move, preferring_is_a_move,
    reachable_sides_agree, reachable_sides_are_truthful, remote_rows_confirm_what_was_told,
    row_steps_reach, row_steps_stay_reachable, rows_stay_begun, sending_is_a_move,
    taking_a_change_is_a_move, taking_a_confirm_is_a_move, taking_a_packet_is_moves,
    valid_changes_are_understood, values_were_given, what_rows_say_is_whole,
    where_nothing_is_shared_the_value_stays, whole_confirms_have_lists,
};
pub use crate::frames::{FrameBytes, SentFrame};
pub use crate::laws::{
    delivered_data_are_those_of_their_frame, few_frames_are_never_far, frames_spell_their_numbers,
    last_lists_are_active, no_number_is_processed_again, settled_features_are_alike,
    values_change_by_shared_lists, values_come_from_both_sides, vectors_tell_what_was_processed,
    what_is_reported_arrived, what_none_asked_for_stays, what_none_told_is_far_below,
    what_was_asked_last_is_wanted,
};
pub use crate::marks::{
    acknowledged_frames_were_taken, each_frame_is_processed_once, exchanges_tell,
    marking_stays_reachable, marks_are_what_was_processed, sets_follow_moves, vectors_are_truthful,
    what_falls_below_the_floor_is_settled, what_is_reported_was_processed,
};
pub use crate::world::{
    World, data_are_delivered_once, every_run_is_safe, every_run_numbers_its_frames,
};
pub use world_events::{Event, Payload, Refusal, Seen, Side, Values, WorldFault};
