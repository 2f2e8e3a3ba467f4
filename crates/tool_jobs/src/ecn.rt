//! `ecn`: an input's lines, each an event between an ECN-capable sender and an ECN-capable receiver, and the lines of
//! their results (own).

mod laws;
mod names;
mod play;
mod playing;
mod reading;
mod seen_text;

pub use crate::ecn::laws::{ecn_lines_are_their_forms, the_first_fault_of_an_ecn_line_is_answered};
pub use crate::ecn::playing::play_nonces;
