//! Congestion control of a DCCP sender: what every kind has in common, the flight list that it counts in, and the fixed
//! window of CCID 248 (RFC 4340, section 10; RFC 4341, section 5).
//!
//! It has no clock and no socket: timeouts are handed in. Only the constructors take memory.
#![tactic(auto)]

mod congestion;
mod cursor;
mod fixed;
mod flight;
mod laws;
mod walk;

pub use crate::congestion::{Congestion, LARGEST_WINDOW};
pub use crate::fixed::FixedWindow;
pub use crate::flight::{Flight, FlightEntry, FlightNews, Standing};
pub use crate::laws::{
    every_entry_was_sent, in_flight_falls_once, numbers_reported_are_reported, only_reports_report,
    only_sending_puts_out, standings_after_calls, timeouts_let_send, windows_never_close,
};
