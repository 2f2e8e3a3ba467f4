//! Campaigns (own): runs of two ends whose events are drawn from a seed, by any number of threads, and what is counted
//! of them.
//!
//! `run_seed` runs one seed: two usual ends whose initial sequence numbers and events are drawn from it, among them
//! frames that are lost, repeated and reordered; `OngoingRun` does the same event by event. `campaign` runs the given
//! number of seeds, each once, and adds their reports: the answer is the same for every number of workers and whatever
//! they wait for. Nothing is said about which worker runs which seed, nor about how long it takes. A run takes memory
//! as its world does.
#![tactic(auto)]

mod draws;
mod laws;
mod report;
mod run;
mod workers;

pub use crate::draws::initial_numbers;
pub use crate::laws::{
    drawn_events_happen, draws_that_no_count_shows, parts_of_a_campaign_add_up,
    reports_count_little, seeded_runs_are_safe,
};
pub use crate::report::Report;
pub use crate::run::{OngoingRun, run_seed};
pub use crate::workers::campaign;
pub use campaign_claims::{Gate, OpenGate};
