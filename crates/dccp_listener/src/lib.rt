//! A server with many flows: one value that serves up to 1,024 peers at one address and port, with an end for each
//! (own; the ends are those of RFC 4340).
//!
//! A datagram is handed in with the peer that it came from. Each peer gets exactly what a server's end for it alone
//! would have given it, whatever the others do, except that others may fill the table. It has no socket and no clock,
//! and takes memory only if a peer has no flow.
#![tactic(auto)]

mod calls;
mod config;
mod flows;
mod greeting;
mod laws;
mod listener;
mod meeting;
mod peer;
mod peer_list;

pub use crate::calls::{Act, Heard, NoFlow};
pub use crate::config::{ListenConfig, config_for, requested};
pub use crate::greeting::refuse_packet;
pub use crate::laws::{
    busy_answers_requests, each_peer_has_its_own_chain, ends_of_peers_stand,
    peers_are_found_at_their_places, what_is_computed_is_a_run, what_is_greeted_is_opened,
};
pub use crate::listener::Listener;
pub use crate::peer::Peer;
pub use crate::peer_list::PeerList;
pub use dccp_states::{Refusal, Seen};
