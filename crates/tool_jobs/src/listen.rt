//! `listen`: the frames of peers and the calls of their ends, handed to one listener, and the lines of the results
//! (own).
//!
//! A line names a peer and says what happens to it. The listener serves each peer by an end; nothing here acts in place
//! of an end, and nothing uses a socket or a clock. It takes memory when a peer gets an end, and for the text.

mod calls;
mod exchanges;
mod flow_lines;
mod laws;
mod listening;
mod peers;
mod serving;
mod telling;

pub use crate::listen::laws::{
    each_peer_is_answered_by_its_chain, lines_of_peers_are_their_forms,
    the_first_fault_of_a_peer_line_is_answered,
};
pub use crate::listen::listening::listen_to_peers;
pub use crate::listen::peers::{peer_of, put_peer};
