//! A bounded receive buffer (own). An end with one reports to its peer which data it dropped and why, by Data Dropped,
//! and that it is slow, by Slow Receiver (RFC 4340, sections 11.6 and 11.7).
//!
//! An [`Inbox`] holds the data that an application has not read yet, and knows what it dropped. A [`BufferedEnd`] is an
//! end with an inbox: data that it delivers go there, and its acknowledgements report the drops. An [`Intake`] is an
//! inbox for any end, or none. A [`DropReport`] reads what a packet reports. Nothing here resends anything or slows a
//! sender down, and no memory is taken once an inbox is made.
#![tactic(auto)]

mod answers;
mod appending;
mod blocks;
mod buffered_end;
mod delivery;
mod drops;
mod inbox;
mod intake;
mod item;
mod laws;
mod report;
mod writing;

pub use crate::answers::{Arrival, Got};
pub use crate::buffered_end::BufferedEnd;
pub use crate::drops::{DropBytes, DropEntry};
pub use crate::inbox::{BoundedInbox, DROP_BUFFER_FULL, DROP_NOT_LISTENING, Inbox, LongInbox};
pub use crate::intake::Intake;
pub use crate::laws::{
    a_frame_is_read_as_its_drops, a_report_of_drops_reads_back, every_frame_tells_its_drops,
    the_latest_drop_counts, what_an_end_keeps_is_taken, what_is_kept_is_taken,
};
pub use crate::report::DropReport;
