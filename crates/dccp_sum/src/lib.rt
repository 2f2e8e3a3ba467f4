//! The checksum of DCCP packets: the pseudo-headers of IPv4 and IPv6, the coverage of the field CsCov, and the ones'
//! complement sum over both (RFC 4340, section 9; RFC 1071).
//!
//! Nothing here takes memory, decodes a packet or looks at the Data Checksum option (RFC 4340, section 9.3). Two laws
//! say what the sum means in RFC 1071's terms.
#![tactic(auto)]

mod laws;
mod packet_sum;
mod pseudo_header;
mod words;

pub use crate::laws::{equal_checksums_are_congruent, ones_complement_sum_is_congruent};
pub use crate::packet_sum::{SumFault, check, checksum, covered, seal};
pub use crate::pseudo_header::Pseudo;
