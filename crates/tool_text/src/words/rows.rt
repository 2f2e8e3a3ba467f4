//! Rows of words.
ghost use Rattle.std.specs.Prelude.{◌≡◌, ℕ, List, Bool, Result};
ghost use Rattle.std.specs.Str.{bytes_eq};
ghost use Rattle.tool_text.specs.declared.words.faults.LineFault.{LineFault};
ghost use Rattle.tool_text.specs.Words.{WordsLeft};
ghost use Rattle.tool_text.specs.Left.{left_of};
ghost use Rattle.tool_text.specs.Rows as spec;

use crate::words::faults::{LineFault, LineWhy};
use crate::words::kinds::{Flaw, WordKind, read_word};
use crate::words::split::Words;

/// A row of words, read from the left (own): a tuple of kinds that ends in `()`, such as
/// `(SideWord, (NumberWord, ()))`, or a type that a grammar makes from such rows.
pub trait WordRow<'a> {
    /// What the words say.
    type Said: Drop;

    ghost said: { WordsLeft → Result Self.Said LineFault };

    /// What the words that are left say, or the first of their faults from the left.
    fn read(words: &mut Words<'a>) -> Result<Self::Said, LineFault>
        ensures value { result ≡ said (left_of words.old) };
}

/// The row without words: Trailing, at the first word that is left.
impl<'a> WordRow<'a> for () {
    type Said = ();

    ghost said = { spec.ended };

    fn read(words: &mut Words<'a>) -> Result<(), LineFault> {
        if words.is_over() {
            return Ok(());
        }
        Err(LineFault {
            column: words.next_word().column,
            why: LineWhy::Trailing,
        })
    }
}

/// A word of this kind, and then the row after it.
impl<'a, K: WordKind<'a>, R: WordRow<'a>> WordRow<'a> for (K, R) {
    type Said = (K::Read, R::Said);

    ghost said = { spec.then_row K.reads R.said };

    fn read(words: &mut Words<'a>) -> Result<(K::Read, R::Said), LineFault> {
        let read = read_word::<K>(words.next_word())?;
        let rest = R::read(words)?;
        Ok((read, rest))
    }
}

/// A word that may be in the last place of a row (own).
pub trait Flag {
    ghost name: { List ℕ };

    /// Whether a word is this one.
    fn is_name(word: &[u8]) -> bool
        ensures { result ≡ bytes_eq word.now name };
}

/// The end of a row, in which this word may be (own): UnknownWord for another word, and Trailing if a word follows it.
pub struct MaybeFlag<F>(F);

// The word for a flag, as a kind of words.
struct FlagWord<F>(F);

impl<'a, F: Flag> WordKind<'a> for FlagWord<F> {
    type Read = ();

    ghost reads = { spec.flag_read F.name };

    fn read(word: &'a [u8]) -> Result<(), Flaw> {
        if F::is_name(word) {
            return Ok(());
        }
        Err(Flaw {
            place: 0,
            why: LineWhy::UnknownWord,
        })
    }
}

impl<'a, F: Flag> WordRow<'a> for MaybeFlag<F> {
    type Said = bool;

    ghost said = { λ left. spec.flag_said F.name left.words };

    fn read(words: &mut Words<'a>) -> Result<bool, LineFault> {
        if words.is_over() {
            return Ok(false);
        }
        read_word::<FlagWord<F>>(words.next_word())?;
        <() as WordRow>::read(words)?;
        Ok(true)
    }
}
