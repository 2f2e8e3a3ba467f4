//! What the words after the tool's name ask for, and the settings of the second program's words (own). Reading settings
//! takes memory, which is given back; `NoMemory` means that there was not enough.
#![tactic(auto)]

mod bridge_words;
mod campaign_words;
mod commands;
mod settings;
mod words;

pub use crate::bridge_words::{
    FlowSide, SeedRange, SeedRun, flow_side_of, seed_range_of, seed_run_of,
};
pub use crate::campaign_words::Campaign;
pub use crate::words::{Form, USAGE, form_of, is_word};
