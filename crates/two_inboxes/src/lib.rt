//! What holds of two ends with inboxes (own): their frames go out, and arrive, with what the inboxes have to say.
#![tactic(auto)]

mod laws;

pub use crate::laws::{
    ends_with_inboxes_run_as_alone, frames_tell_of_what_was_taken, longer_frames_are_taken_alike,
};
