//! The windows of valid sequence and acknowledgement numbers, the verdict on a packet's numbers, and what a valid
//! packet raises (RFC 4340, section 7.5).
//!
//! Nothing here knows phases, options or the checksum, and nothing takes memory.
#![tactic(auto)]

mod laws;
mod marks;
mod verdict;

pub use crate::laws::{
    marks_stay_sound, sound_marks_are_whole_numbers, verdicts_are_those_of_whole_numbers,
    windows_are_intervals_of_counts,
};
pub use crate::marks::{Marks, Windows};
pub use crate::verdict::Verdict;
