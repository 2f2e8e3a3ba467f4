//! The records of a classic packet capture (the savefile format of libpcap), one after another, from a source that may
//! give its bytes in any pieces.
//!
//! All memory is taken when a reader is made: one block of 262,144 bytes. A record is lent from that block, and is
//! given whole however the reads were cut. Nothing here looks into a record's bytes.
#![tactic(auto)]

mod captures;
mod fault;
mod format;
mod gather;
mod laws;
mod record;

pub use crate::captures::Captures;
pub use crate::fault::{CaptureFault, FormatFault};
pub use crate::format::{Format, MICROSECONDS, NANOSECONDS, Order};
pub use crate::laws::{a_capture_has_one_list_of_records, cut_short_comes_before_too_large};
pub use crate::record::{MOST_CAPTURE_BYTES, MOST_CAPTURED, Record, RecordHeader, rest_after};
