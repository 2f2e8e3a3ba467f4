//! `run`: a schedule's lines, played on the two ends of a world, and the lines of what the ends did (own).

mod laws;
mod play;
mod transcript;
mod world_lines;

pub use crate::run::laws::{
    every_schedule_is_a_run, no_schedule_fills_a_world, no_schedule_meets_a_far_frame,
    the_first_line_says_the_version,
};
pub use crate::run::transcript::{Schedule, run_schedule};
