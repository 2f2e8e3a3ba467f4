//! What an end has received, its Ack Vectors, and the records of those that it sent (RFC 4340, section 11.4; the floor
//! and the records are own).
//!
//! All memory is taken in `Received::new`. Nothing here reads a packet or decides when an acknowledgement is sent, and
//! it writes no state but received and not yet received.
#![tactic(auto)]

mod laws;
mod received;
mod room;
mod writing;

pub use crate::laws::{
    a_vector_fits_its_options, a_vector_looks_between_floor_and_acknowledgement,
    a_vector_reads_back, a_whole_vector_tells_all, acknowledging_raises_the_floor,
    only_members_are_heard, received_stays_sound, records_only_forget,
    the_newest_whole_record_counts, the_options_of_a_vector_hold_it, two_options_tell_more,
    what_is_told_was_there,
};
pub use crate::received::{Received, VectorRecord};
pub use crate::room::{VectorBytes, Vectors};
