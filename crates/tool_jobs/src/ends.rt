//! What the jobs over an end share: the role of a side's end, the frame that arrives by a line, and the lines of frames
//! that were sent and of ends.

mod frames;
mod lines;

pub(crate) use crate::ends::frames::put_arriving;
pub use crate::ends::frames::{arriving, role_of};
pub use crate::ends::lines::put_end_rows;
pub(crate) use crate::ends::lines::{phase_name, put_end_line, put_frame_line};
