//! `unwrap`: a capture of any of fifteen link types, classic or pcapng, as a classic one of raw IP, record for record
//! (own).
//!
//! `unwrap` finds the IP packet of a record after the header of its link and up to two VLAN tags, and looks no further
//! into it.

mod laws;
mod unwrapping;

pub use crate::unwrap::laws::{each_record_is_unwrapped, what_show_shows_stays};
pub(crate) use crate::unwrap::unwrapping::{fault_name, unwrap_capture};
