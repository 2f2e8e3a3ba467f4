//! The tool's jobs over ends: each reads an input's lines, does what they say, and writes a line for each result (own).
//!
//! `replay` hands frames to one end, `run` plays a schedule on the two ends of a world, `listen` hands what peers send
//! to one listener, and `ecn` plays events between an ECN-capable sender and receiver. Each is a `LineJob` under the
//! one loop of tool_text. They use no socket and no clock, and take memory for the ends and for the text.
#![tactic(auto)]

mod ecn;
mod ends;
mod listen;
mod replay;
mod run;

pub use crate::ecn::{
    ecn_lines_are_their_forms, play_nonces, the_first_fault_of_an_ecn_line_is_answered,
};
pub use crate::ends::{arriving, put_end_rows, role_of};
pub use crate::listen::{
    each_peer_is_answered_by_its_chain, lines_of_peers_are_their_forms, listen_to_peers, peer_of,
    put_peer, the_first_fault_of_a_peer_line_is_answered,
};
pub use crate::replay::{replay_at_buffer, replay_frames};
pub use crate::run::{
    Schedule, every_schedule_is_a_run, no_schedule_fills_a_world, no_schedule_meets_a_far_frame,
    run_schedule, the_first_line_says_the_version,
};
