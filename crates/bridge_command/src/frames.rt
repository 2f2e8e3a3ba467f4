//! `frames`: the packets of a captured flow that go to one of its sides, as lines of a replay (own; the fields by RFC
//! 4340, section 5).
//!
//! `frames` reads captures as `unwrap` does and shows packets as `show` does. It plays nothing: `replay` shows what the
//! usual end of that side answers to the frames.

mod framing;
mod laws;
mod lines;
mod mapping;

pub(crate) use crate::frames::framing::frame_flow;
pub use crate::frames::laws::{
    a_frame_is_its_packet, acknowledgements_keep_their_distance, each_packet_reads_back,
    lines_read_back,
};
