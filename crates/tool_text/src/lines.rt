//! The one loop for every job of the tool that reads lines (own): an input's lines are judged one by one, what they do
//! is written, and the first line that is refused ends the job with a line that names the place and the cause.
//!
//! A job says what a line does and what is written at the end. The loop does the rest: the limits of lines and inputs,
//! the numbers of the lines, the line of a refusal, and text that goes out in blocks and before each read.

mod error;
mod job;
mod loops;
mod refusals;
mod turns;

pub use crate::lines::error::LineError;
pub use crate::lines::job::{LineJob, MOST_EVENTS};
pub use crate::lines::loops::{LinesEnd, run_lines, run_lines_apart};
pub use crate::lines::refusals::{LineRefusal, put_refusal};
