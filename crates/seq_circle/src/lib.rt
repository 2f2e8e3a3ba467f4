//! Sequence numbers of DCCP as points of a circle: 48-bit numbers, their 24-bit short forms, and the order between
//! numbers less than half the circle apart (RFC 4340, sections 3.1, 7.1 and 7.6).
//!
//! Nothing here takes memory, and no number is refused once it is made.
#![tactic(auto)]

mod circle;
mod laws;
mod memory;
mod short;

pub use crate::circle::Seq48;
pub use crate::laws::{
    before_is_the_order_of_counts, down_is_the_way_back, extension_finds_the_number,
    from_is_the_order_of_counts, numbers_count_packets,
};
pub use crate::memory::NoMemory;
pub use crate::short::{Seq24, extend};
