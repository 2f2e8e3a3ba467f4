//! CCID 2, TCP-like congestion control, and the choice between it and the fixed window of CCID 248 (RFC 4341, section
//! 5).
//!
//! It has no clock and no socket: timeouts are handed in, and the Ack Ratio is the caller's. It does not adapt the Ack
//! Ratio. Only the constructors take memory.
#![tactic(auto)]

mod kinds;
mod laws;
mod window;

pub use crate::kinds::{ControlKind, Kinds};
pub use crate::laws::{
    kinds_know_two_and_248, one_mark_one_halving, only_losses_past_the_mark_halve,
    window_stays_in_range,
};
pub use crate::window::Ccid2;
