//! What the tool writes and reads as text (own): numbers, digits and names, the words of lines, output in blocks, and
//! jobs over lines.
//!
//! Each function that puts a piece appends it to a text. After NoMemory the text still begins with all that it had
//! before, so that the writer of a whole line can cut it back to that.
#![tactic(auto)]

mod hexadecimal;
mod lines;
mod names;
mod numbers;
mod output;
mod text;
mod words;

pub use crate::lines::{
    LineError, LineJob, LineRefusal, LinesEnd, MOST_EVENTS, put_refusal, run_lines, run_lines_apart,
};
pub use crate::names::malformed_name;
pub use crate::numbers::number_up_to;
pub use crate::output::{JobEnd, Status, answered, cut_off, flush, flush_if_due, flush_if_full};
pub use crate::text::{
    is_text, put, put_counted, put_hex, put_hex_or_dash, put_named, put_number, put_v4,
};
pub use crate::words::{
    Below, Digits, Flag, Flaw, Hex, HexOrDash, LineFault, LineWhy, MaybeFlag, Name, NameWord, Word,
    WordKind, WordRow, Words, clean, first_piece, found_or, line_why_name, read_line, read_word,
    says_nothing, whole_line, words_stand_at_their_columns,
};
