//! The second tool as one call: it does what the words ask for, over a source and a sink (own).
//!
//! The tool makes captures from what the first tool writes; captures of raw IP, lines, objects and pictures from
//! captures; and the schedules and the objects of seeds, which it runs as `campaign` does. It opens no file, socket or
//! clock, and reads and writes only the source and the sinks that it is lent. It takes memory for words and text, for a
//! table of flows, for the values of a record and for the run of a seed.
#![tactic(auto)]

mod capture;
mod complaints;
mod frames;
mod json;
mod seed;
mod seeds;
mod top;
mod unwrap;
mod words;

pub use crate::capture::{
    a_capture_has_each_frame, a_frame_stands_in_its_record, addresses_are_the_usual_ones,
};
pub use crate::frames::{
    a_frame_is_its_packet, acknowledgements_keep_their_distance, each_packet_reads_back,
    lines_read_back,
};
pub use crate::json::{
    each_record_is_told, each_record_told_is_unwrapped, what_show_shows_is_told,
};
pub use crate::seed::a_schedule_is_the_run_of_its_seed;
pub use crate::top::bridge;
pub use crate::unwrap::{each_record_is_unwrapped, what_show_shows_stays};
pub use crate::words::{BridgeForm, Picture, USAGE, form_of};
pub use tool_forms::{FlowSide, SeedRange, SeedRun};
pub use tool_text::Status;
