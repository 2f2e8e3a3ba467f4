//! The lines of schedules and replays as text: what each says, where it is wrong, and how an event and its result are
//! printed (own).
//!
//! Each line is read by itself: nothing here knows the lines before it, the limits of a whole input, or what the ends
//! do. Reading takes no memory.
#![tactic(auto)]

mod frames;
mod kinds;
mod laws;
mod line;
mod names;
mod numbers;
mod printing;
mod reading;

pub use crate::frames::{FrameWords, read_frame};
pub use crate::kinds::TimerWord;
pub use crate::laws::{
    frames_are_their_forms, lines_are_their_forms, printed_events_are_read,
    the_first_fault_is_answered, the_first_fault_of_a_frame_is_answered,
};
pub use crate::line::{FrameDigits, FrameLine, Line};
pub use crate::printing::{
    print_event, print_result, print_seen, put_result, side_letter, side_name,
};
pub use crate::reading::{payload_of, read_line, read_line_into};
pub use dccp_states::Timer;
pub use tool_text::{LineFault, LineWhy, words_stand_at_their_columns};
pub use world_events::{Event, Payload, Refusal, Seen, Values};
