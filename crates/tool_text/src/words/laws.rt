//! A law above the definitions.
ghost use Rattle.std.specs.Prelude.{ℕ, List};
ghost use Rattle.tool_text.specs.Columns.{AreWordsOf};
ghost use Rattle.tool_text.specs.Words.{words_of};

/// A line's words, separated by one space, are the line. Each is in the line at its column, in bytes from 1. An absent
/// word would follow the line and a space, at the line's length plus 2 (own).
pub fn words_stand_at_their_columns()
    ensures { (line : List ℕ) → AreWordsOf line (words_of line) }
{}
