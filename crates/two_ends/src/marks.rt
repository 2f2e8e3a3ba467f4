//! What two ends know of each other's packets by their marks and Ack Vectors (RFC 4340, section 11.4; the marks and
//! their floor are own): laws on the pair of sides, with frames by their counts.
//!
//! No code runs here: the functions have empty bodies, and their contracts are the laws. They say nothing about
//! packets, phases or windows.
//!
//! The world's proofs use the lemma that each move keeps the facts of a pair (`move_keeps` of
//! `proofs/OfMarks/MarkSteps`), and not that the sides were reached. The facts are the same from either side, so they
//! need not say which of the two is the client.

mod laws;
mod numbers;

pub use crate::marks::laws::{
    acknowledged_frames_were_taken, each_frame_is_processed_once, exchanges_tell,
    marking_stays_reachable, marks_are_what_was_processed, vectors_are_truthful,
    what_falls_below_the_floor_is_settled, what_is_reported_was_processed,
};
pub use crate::marks::numbers::sets_follow_moves;
