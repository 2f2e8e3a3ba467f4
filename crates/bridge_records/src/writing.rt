//! The bytes of a classic capture of link type 101, raw IP (the savefile format of libpcap): its file header and the
//! headers of its records, put after a text. The most significant byte comes first.
//!
//! What is written is read again by capture_reader.

mod headers;
mod laws;

pub use crate::writing::headers::{RAW_IP, put_file_header, put_record_header, put_u16};
pub use crate::writing::laws::what_is_written_is_read;
