//! A server: a listener of many peers with the timers of its flows, and rules by which it makes room and gives flows up
//! (own; the flows are those of RFC 4340).
//!
//! A [`TimedListener`] does with a listener what a [`TimedEnd`](dccp_uses::TimedEnd) does with one end: it keeps the
//! timers that the owner would have to keep for each flow, and follows the rules of its path. A [`Server`] also follows
//! [`Rules`]. There is no socket here and no clock.
#![tactic(auto)]

mod anew;
mod duty;
mod event_server;
mod flow_drops;
mod flow_inboxes;
mod happening;
mod laws;
mod lives;
mod meeting;
mod room;
mod server;
mod serving;
mod timed_listener;

pub use crate::duty::Duty;
pub use crate::event_server::{EventServer, NoNewFlows, room_maker};
pub use crate::flow_drops::{FlowDrop, FlowDropRecord};
pub use crate::flow_inboxes::{FlowInboxes, event_kept};
pub use crate::happening::FlowHappening;
pub use crate::laws::{
    calls_are_a_run, flows_are_timed_ends, forgotten_peers_have_no_flow, inboxes_stay_few,
    meetings_are_deeds, no_flow_is_passed_over, only_strangers_want_memory,
    refused_calls_change_nothing, rules_are_deeds, ticks_of_a_listener_end,
    walks_name_each_peer_once,
};
pub use crate::meeting::{Meeting, Way};
pub use crate::room::ArrivalResult;
pub use crate::server::Server;
pub use crate::timed_listener::TimedListener;
pub use server_peers::{CookieUse, EndCause, EndReason, EventKind, FlowEvent, Life, Rules};
