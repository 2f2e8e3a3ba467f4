//! `seed`: the schedule of a campaign's seed, as `run` reads it (own).
//!
//! Which event is drawn depends on how many frames there are, so the seed is run as `campaign` runs it, and each event
//! is written as a line. A schedule holds all that a seed draws: its ends are the usual ones except for their initial
//! sequence numbers, so it has no line for a list or an offer.

mod laws;
mod telling;

pub use crate::seed::laws::a_schedule_is_the_run_of_its_seed;
pub(crate) use crate::seed::telling::tell_seed;
