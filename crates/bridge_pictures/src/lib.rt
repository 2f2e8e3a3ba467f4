//! Pictures of what the tool writes and of captures (own; SVG 1.1): a ladder of packets, and the windows of both ends.
//!
//! Each picture is one text, written at the input's end. Memory is taken for what is drawn. Nothing here decides what
//! an end does: the crate reads lines and packets, and plays a schedule as `run` does.
#![tactic(auto)]

mod flow_pictures;
mod ladder;
mod stamps;
mod style;
mod svg;
mod walk;
mod windows;

pub use crate::ladder::{ladder_of_flow, ladder_of_transcript, without_colon};
pub use crate::walk::{FlowEnds, ends_by, record_of_ip, side_from};
pub use crate::windows::{windows_of_flow, windows_of_schedule};
