//! The lines of a capture: for each record that carries a DCCP packet, what the packet says; and last, how many records
//! there were, or why they end early (RFC 4340; the lines are own).
//!
//! It finds DCCP in Ethernet, IPv4 and IPv6, and plays no end. Memory is taken for flows that were not seen before, and
//! for the text, which grows in place.
#![tactic(auto)]

mod capture_lines;
mod flows;
mod further_flows;
mod laws;
mod names;
mod network;
mod numbers;
mod options;
mod packet;
mod show;

pub use crate::flows::{FlowEnd, Flows, Shown, from_end};
pub use crate::laws::a_flow_has_both_directions;
pub use crate::names::{option_name, sum_name, type_name};
pub use crate::network::{Datagram, carried};
pub use crate::numbers::{put_from, put_to};
pub use crate::options::{put_mark, put_option};
pub use crate::packet::{put_packet, put_words};
pub use crate::show::show_capture;
