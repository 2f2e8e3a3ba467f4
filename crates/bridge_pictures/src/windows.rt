//! The windows of both ends: a column for each event or packet, with the window, what is in flight, where the window
//! fell, and the values of features (own).

mod bars;
mod chart;
mod flow;
mod graph;
mod look;
mod schedule;
mod senders;
mod trace;

pub use crate::windows::flow::windows_of_flow;
pub use crate::windows::schedule::windows_of_schedule;
