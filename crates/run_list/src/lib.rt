//! A set of sequence numbers with a floor, kept as runs: what an end has processed, as its Ack Vectors report it (RFC
//! 4340, section 11.4; the floor and its rule are own).
//!
//! All memory is taken in `RunList::new`. The set spans at most 2,048 successive numbers, so it has at most 1,024 runs,
//! and no call after that one takes any. Nothing here knows of packets, vectors or acknowledgements.
#![tactic(auto)]

mod answers;
mod hints;
mod laws;
mod linked;
mod list;
mod nodes;
mod plain;
mod plain_edits;
mod runs;
mod walking;

pub use crate::answers::Marked;
pub use crate::laws::{
    a_set_is_known_by_its_numbers, floors_go_by_counts, floors_never_fall, marking_adds_one_number,
    marking_moves_the_floor, members_go_by_counts, raising_keeps_the_rest, raising_moves_the_floor,
    sets_stay_sound, stretches_are_maximal_runs,
};
pub use crate::list::RunList;
pub use crate::plain::PlainRuns;
pub use crate::runs::{RunCall, Runs, replay_runs};
pub use crate::walking::{Stretch, Walk};
