//! One end of a DCCP connection: what it does with each packet that arrives and with each call, how it negotiates
//! features (RFC 4340, sections 6 and 8), and what its congestion control hears (section 10).
//!
//! An [`Endpoint`] is made from a [`Config`], which has its wishes and offers, and a congestion control of any kind,
//! and serves one connection. Its calls put at most one frame into an `Outbox`, which they empty first; a refused call
//! leaves the end unchanged and the box empty. It has no socket and no clock, and takes no memory once it is made.
//! Frames that arrive go to `receive`, in any order. The comment at [`Endpoint`] has the order of its calls, and what
//! is left to its owner.
//!
//! This crate also exports the types of its calls, so that one crate is enough to import, beside that of a congestion
//! control.
#![tactic(auto)]

mod acting;
mod config;
mod connection;
mod datagram;
mod endpoint;
mod exit;
mod faults;
mod feeding;
mod heeding;
mod incoming;
mod laws;
mod lengthening;
mod outgoing;
mod sealing;
mod speaking;
mod strangers;

pub use crate::config::{Config, Ports};
pub use crate::connection::{MOST_DATA_BYTES, applies_in, reported_from};
pub use crate::datagram::DecodedDatagram;
pub use crate::endpoint::Endpoint;
pub(crate) use crate::exit::Exit;
pub use crate::feeding::feed;
pub use crate::laws::{
    every_step_has_one_effect, frames_are_read_in_full, own_frames_are_read,
    own_packets_say_one_thing_of_a_row, own_packets_speak_once, packets_say_one_thing_to_a_row,
    reading_stops_at_the_first_fault, told_numbers_are_spelled, valid_numbers_are_near,
};
pub use crate::lengthening::lengthen;
pub use crate::outgoing::put_reset;
pub use crate::sealing::seal_frame;
pub use crate::strangers::answer_stranger;
pub use ack_vectors::Vectors;
pub use congestion_trait::{Congestion, Standing};
pub use dccp_packets::{Frame, MOST_FRAME_BYTES, Malformed, Numbers, Outbox, ResetCode, Sent};
pub use dccp_states::{
    AbortFault, CloseFault, Fault, OpenFault, Outcome, Phase, Refusal, Role, Seen, SendFault,
    Timer, UserCall, Why,
};
pub use dccp_sum::{Pseudo, SumFault};
pub use feature_lists::{Feature, Place, PreferFault};
pub use feature_machine::{Held, Lists, Stand};
pub use seq_circle::{NoMemory, Seq48};
pub use validity_windows::Marks;
