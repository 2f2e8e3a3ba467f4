//! What may happen to two ends of a connection, and its results (own). two_ends plays these events, and schedule_text
//! is their text; neither needs the other. An event and its data take no memory: their room is in the value.
#![tactic(auto)]

mod event;
mod payload;

pub use crate::event::{Event, Side, Values, WorldFault};
pub use crate::payload::Payload;
pub use dccp_states::{Refusal, Seen};
