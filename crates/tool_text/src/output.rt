//! How the tool's jobs end, and their texts, which go out in blocks (own). A job knows only the counts of its source
//! and its sink.

mod blocks;
mod status;

pub use crate::output::blocks::{cut_off, flush, flush_if_due, flush_if_full};
pub use crate::output::status::{JobEnd, Status, answered};
