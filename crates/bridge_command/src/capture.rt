//! `capture`: the frames of a transcript, as a capture (own; the savefile format of libpcap).
//!
//! It reads what `run` and `replay` write. Each frame goes out as it is, after an IPv4 header (RFC 791, section 3.1);
//! nothing here looks into a frame.

mod capturing;
mod laws;
mod lines;
mod records;

pub(crate) use crate::capture::capturing::capture_frames;
pub use crate::capture::laws::{
    a_capture_has_each_frame, a_frame_stands_in_its_record, addresses_are_the_usual_ones,
};
