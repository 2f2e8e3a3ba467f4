//! Captures as the second program reads and writes them (own; the savefile format of libpcap and
//! draft-ietf-opsawg-pcapng): the records of a classic or pcapng capture that is read, and the bytes of a capture that
//! is written.
//!
//! A capture of any of fifteen link types is read in pieces whose lengths are known beforehand, and so is a pcapng file
//! of any interfaces. Blocks of sections, interfaces and packets are read, and all others are skipped and counted. Each
//! record is handed to a job. One block of the input, 524,288 bytes, and the interfaces of one section, 256 at most,
//! are kept. The captures that are written are classic captures of raw IP. Nothing here looks into a record's bytes.
#![tactic(auto)]

mod blocks;
mod content;
mod interfaces;
mod links;
mod packets;
mod pieces;
mod reading;
mod recording;
mod skips;
mod writing;

pub use crate::content::Content;
pub use crate::links::is_known_link;
pub use crate::pieces::PieceFault;
pub use crate::recording::{CaptureRefusal, RecordJob, RecordsEnd, run_records};
pub use crate::skips::{Skips, Tally};
pub use crate::writing::{
    RAW_IP, put_file_header, put_record_header, put_u16, what_is_written_is_read,
};
