//! The tool as one call: it does what the words ask for, over a source and a sink (own).
//!
//! It plays the two ends of a world as a schedule's lines say; it hands the frames of a replay to one end; it shows the
//! packets of a capture; it hands what many peers send to one listener; and it runs campaigns, the only job for which
//! it starts threads. It uses no file, socket or clock, and reads and writes only the source and the sink that it is
//! lent. The jobs and the words take memory; if there is none, the status says so.
#![tactic(auto)]

mod campaigning;
mod top;

pub use crate::top::dccp;
pub use fault_campaign::{Gate, OpenGate};
pub use tool_forms::{Campaign, Form};
pub use tool_text::Status;
