//! Where the IP packet of a captured record is, by the link type (the link-layer header types of libpcap).
//!
//! This crate looks at the header of the link, at VLAN tags, PPPoE and the labels of MPLS, at the packet's version, and
//! at the extension headers of IPv6. If these lead to DCCP they are removed, and only that takes memory.
#![tactic(auto)]

mod ether_types;
mod extensions;
mod labels;
mod links;
mod logs;
mod numbers;
mod packets;
mod starts;
mod wireless;

pub use crate::extensions::{Upper, upper_of};
pub use crate::numbers::read_u16;
pub use crate::packets::{IpPacket, ip_packet};
