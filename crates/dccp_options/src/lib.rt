//! The options of DCCP packets: reading and writing an option area, and the states that its Ack Vectors report (RFC
//! 4340, sections 5.8 and 11.4).
//!
//! Nothing here takes memory, and nothing checks an option beyond its length: its meaning is up to its reader.
//!
//! `OptList`, `AckReport` and `ReportRuns` are `Clone` and not `Copy`, since contracts see them as lists and a report.
#![tactic(auto)]

mod cursor;
mod joined;
pub mod kinds;
mod laws;
mod list;
mod option;
mod report;
mod writer;

pub use crate::laws::{
    a_cut_option_ends_the_list, a_report_is_what_was_written, a_written_vector_is_reported,
    an_area_has_one_list, entries_keep_what_was_written, runs_give_the_states,
    vectors_continue_each_other, written_options_are_listed, zeros_part_options,
};
pub use crate::list::{OptList, options};
pub use crate::option::{MOST_OPTION_BYTES, Opt, OptFault};
pub use crate::report::{AckReport, ReportRuns, Run};
pub use crate::writer::{OptFull, OptWriter};
