//! What a server knows of its peers besides their ends and timers, and the rules by which it gives a flow up or makes
//! room (own; the flows are those of RFC 4340).
//!
//! A [`Register`] keeps something of each peer, and finds what is due first. A [`Life`] is what is known of a flow
//! besides its end, and [`Rules`] say how long a flow may last. A stranger's datagram is a [`DatagramRequest`], or it is
//! refused ([`refuse`]). [`stand_in`] names a peer, [`keyed_number`] draws the first number of its flow, and
//! [`FlowEvents`] are what the owner hears about it. Only the register takes memory.
#![tactic(auto)]

mod asking;
mod cookie_use;
mod first_number;
mod flow_event;
mod life;
mod naming;
mod queue;
mod refusal;
mod register;
mod rules;
mod stage;
mod strangers;

pub use crate::asking::{DatagramKind, DatagramRequest, asking_of, entry_by, opening_of, route_of};
pub use crate::cookie_use::{
    CookieUse, append_cookie, hurried, is_ever_in_use, is_half_open, is_in_use, rekeyed,
};
pub use crate::first_number::keyed_number;
pub use crate::flow_event::{
    EndCause, EndReason, EventKind, FlowEvent, FlowEvents, FlowState, aborted_end, data_told,
    ending_heard, event_if, events_between, is_ended, seen_flow, silent_end,
};
pub use crate::life::{Life, Signs, lives_on, rank_of, signs_answered, signs_heard, signs_in};
pub use crate::naming::{stand_in, stand_ins_are_read_as_their_peers};
pub use crate::queue::Ticket;
pub use crate::refusal::{refuse, refuse_stranger};
pub use crate::register::{Register, is_peer};
pub use crate::rules::{
    Rules, answers_to_strangers, first_given_up, is_crowd, least_left, makes_way,
};
pub use crate::stage::Stage;
pub use crate::strangers::{StrangerAnswer, Strangers, answer_spared, spare};
