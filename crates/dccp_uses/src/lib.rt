//! The loop around one `Endpoint`, for a voice, game or streaming transport (own; the end is that of RFC 4340).
//!
//! A [`TimedEnd`] is an end with the timers that its owner keeps for it, and with the rules by which it uses its path
//! well without overloading it. Its calls take what happens, each with the time: a datagram that arrived, data to send,
//! a feature's new value, the end of the connection, and what is due. A [`Session`] is a `TimedEnd` over a [`Network`],
//! to which each frame is handed; it may hold the data that arrive in an inbox. A server calls [`accept`] for a
//! datagram of a peer that it does not know. There is no socket here and no clock, and no memory is taken once an end
//! is made.
//!
//! A [`Pace`] says which rules are followed, and [`Path`] is what is kept of the path for them. The rules' formulas are
//! those of path_rules. The rules make an end do only what a caller or a timer may (`rules_are_inputs`). If none is
//! followed, a `TimedEnd` is an end with only its timers (`classic_is_the_session`). An owner that keeps ends in
//! another way has an [`Upkeep`] for each: its timers and its path.
//!
//! It has two kinds of congestion control, [`OneAtATime`] and [`AdditiveWindow`]. This crate is an example to read and
//! to copy from; dccp_greeting is a program over it.
#![tactic(auto)]

mod additive_window;
mod alarms;
mod anew;
mod client_cookie;
mod drop_record;
mod holding;
mod judgement;
mod laws;
mod listening;
mod network;
mod news;
mod notice;
mod offers;
mod one_at_a_time;
mod pace;
mod path;
mod reader;
mod rule;
mod session;
mod sight;
mod syncs;
mod timed_end;
mod upkeep;
mod waits;

pub use crate::additive_window::AdditiveWindow;
pub use crate::alarms::{Alarm, Alarms, Condition, has_run_out, sooner, starting_wait};
pub use crate::anew::{refuses_sync, sync_refused};
pub use crate::client_cookie::ClientCookie;
pub use crate::drop_record::{DropLog, DropMark, DropRecord, MOST_DROPS, last_code, record_heard};
pub use crate::holding::{Reading, give_back, settle_heard, speak};
pub use crate::laws::{classic_is_the_session, rules_are_inputs};
pub use crate::listening::accept;
pub use crate::network::Network;
pub use crate::news::{News, is_taken};
pub use crate::notice::{Drops, Notice, new_reach};
pub use crate::offers::widened;
pub use crate::one_at_a_time::OneAtATime;
pub use crate::pace::Pace;
pub use crate::path::{Path, TimedPacket};
pub use crate::reader::{Reader, Restraint, SendRefusal, restraint_of};
pub use crate::rule::{Rule, due_rule, obey};
pub use crate::session::Session;
pub use crate::sight::Sight;
pub use crate::syncs::admit;
pub use crate::timed_end::{Due, TimedEnd, is_silent};
pub use crate::upkeep::{HeardDatagram, Upkeep};
pub use crate::waits::Waits;
