//! DCCP packets as bytes: the ten types with both forms of sequence numbers, read and written (RFC 4340, section 5).
//!
//! Nothing here takes memory, and the checksum and the options are carried without being judged.
#![tactic(auto)]

mod fields;
mod forms;
mod frame;
mod header;
mod kinds;
mod laws;
mod reading;
mod reset_code;
mod writing;

pub use crate::frame::{Frame, MOST_FRAME_BYTES, Numbers, Outbox, Sent};
pub use crate::header::{Header, Kind, Number, PacketType};
pub use crate::laws::{
    numbers_in_a_form_are_read_in_full, one_spelling_has_no_reserved_bit,
    the_first_fault_is_answered, what_is_read_is_the_table, what_is_spelled_is_read,
    what_is_spelled_is_read_in_widths,
};
pub use crate::reading::{Malformed, Packet, decode};
pub use crate::reset_code::ResetCode;
pub use crate::writing::{OptionsTooLong, begin, encode, finish};
