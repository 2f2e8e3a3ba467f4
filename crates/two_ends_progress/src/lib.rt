//! How every world of two ends can go on: as far as these laws go, no world is a dead end (own). One more law looks
//! back, and says where an end's greatest number received came from.
//!
//! A law says that from a world, whatever led to it, a short list of timers and deliveries leads to a goal. It does not
//! say that these events happen: it assumes that the frames of the list arrive, and that its timers fire.
#![tactic(auto)]

mod laws;

pub use crate::laws::{
    a_number_that_is_not_processed_was_answered_by_a_sync, a_sender_lacks_reports_by_agreement,
    closing_ends_both, closing_takes_seven_events, data_get_through, negotiations_settle,
    openings_end_in_open, openings_get_through, openings_take_four_events, senders_are_never_stuck,
    sending_takes_six_events, settling_takes_twenty_four_events,
    the_greatest_number_was_processed_or_refused,
};
