//! The phases of an end, and what a packet's type does in each of them: the tables of RFC 4340, section 8.5, steps 2 to
//! 4, 7 and 9 to 15, under this project's profile. Then the types of what became of a packet, of the calls of an end's
//! user, of the timers, and of the refusals of calls (sections 7 and 8).
//!
//! Nothing here looks at a packet's numbers or options, sends anything or takes memory: each function is one table.
//! Calls and answers are only types here, so that a crate that reads or prints them needs no end.
#![tactic(auto)]

mod calls;
mod entrance;
mod laws;
mod misplaced;
mod outcome;
mod phase;
mod reply;
mod seen;

pub use crate::calls::{AbortFault, CloseFault, OpenFault, SendFault, Timer, UserCall};
pub use crate::entrance::{Entrance, gate};
pub use crate::laws::{
    a_reset_tears_every_phase_down, opens_from_respond_and_part_open_alone, what_stays_silent_stays,
};
pub use crate::misplaced::unexpected;
pub use crate::outcome::{Fault, Outcome, Why};
pub use crate::phase::{Phase, Role};
pub use crate::reply::{Reply, after};
pub use crate::seen::{Refusal, Seen};
