//! The words of lines, and what may be wrong with a line, for every grammar of lines that the tool reads (own).
//!
//! A grammar is a [`WordRow`] of kinds of words, put together from tuples, and [`read_line`] reads a line by it. Reading
//! takes no memory.

mod blocks;
mod digits;
mod faults;
mod kinds;
mod laws;
mod lines;
mod rows;
mod split;

pub use crate::words::digits::Digits;
pub use crate::words::faults::{LineFault, LineWhy, line_why_name, whole_line};
pub use crate::words::kinds::{
    Below, Flaw, Hex, HexOrDash, Name, NameWord, WordKind, found_or, read_word,
};
pub use crate::words::laws::words_stand_at_their_columns;
pub use crate::words::lines::{clean, read_line, says_nothing};
pub use crate::words::rows::{Flag, MaybeFlag, WordRow};
pub use crate::words::split::{Word, Words, first_piece};
