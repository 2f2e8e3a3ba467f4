//! Kinds of words.
ghost use Rattle.std.specs.Prelude.{◌≡◌, ◌≤◌, ◌<◌, ℕ, List, Option, Result, length, IfErr};
ghost use Rattle.tool_text.specs.Numbers.{number_below};
ghost use Rattle.tool_text.specs.declared.words.kinds.Flaw.{Flaw};
ghost use Rattle.tool_text.specs.declared.words.faults.LineWhy.TheVariants as why;
ghost use Rattle.tool_text.specs.Kinds as spec;
ghost use Rattle.tool_text.specs.Digits.{digits_flaw};
ghost use Rattle.tool_text.specs.Left.{word_of};

use crate::numbers::number_up_to;
use crate::text::is_text;
use crate::words::digits::{Digits, flaw_in_digits};
use crate::words::faults::{LineFault, LineWhy};
use crate::words::split::Word;

/// What is wrong with a word, and how many of its bytes come before that (own).
#[derive(Clone, Copy)]
pub struct Flaw {
    pub place: u32,
    pub why: LineWhy,
}

/// A kind of words: what a word of a line is read as, or what is wrong with it (own).
pub trait WordKind<'a> {
    /// What a word of this kind is read as.
    type Read: Drop;

    ghost reads: { List ℕ → Result Self.Read Flaw };

    /// What this word, which is neither empty nor absent, is read as.
    fn read(word: &'a [u8]) -> Result<Self::Read, Flaw>
        requires short { length word.now ≤ 4096 }
        ensures value { result ≡ reads word.now }
        ensures within { IfErr result (λ flaw. flaw.place ≤ length word.now) };
}

/// What a word is read as, or its fault: Missing at its column if it is empty or absent, and otherwise its flaw, at the
/// column of that (own).
pub fn read_word<'a, K: WordKind<'a>>(word: Word<'a>) -> Result<K::Read, LineFault>
    requires short { length word.text.now ≤ 4096 }
    requires begins { word.column ≤ 4098 }
    ensures { result ≡ spec.word_read K.reads (word_of word.entry) }
{
    if word.text.is_empty() {
        return Err(LineFault {
            column: word.column,
            why: LineWhy::Missing,
        });
    }
    K::read(word.text).map_err(|flaw| LineFault {
        column: flaw.place + word.column,
        why: flaw.why,
    })
}

/// The value that was found in a word, or a flaw of this cause at its first byte (own).
pub fn found_or<T: Drop>(why: LineWhy, found: Option<T>) -> Result<T, Flaw>
    ensures value { result ≡ spec.found_or why found }
    ensures within { IfErr result (λ flaw. flaw.place ≡ 0) }
{
    match found {
        Some(value) => Ok(value),
        None => Err(Flaw { place: 0, why }),
    }
}

/// Decimal numbers below this one, without sign or leading zero (own); every other word is BadNumber.
pub struct Below<const LIMIT: u64>;

impl<'a, const LIMIT: u64> WordKind<'a> for Below<LIMIT> {
    type Read = u64;

    ghost reads = { λ text. spec.found_or why.BadNumber (number_below LIMIT text) };

    fn read(word: &'a [u8]) -> Result<u64, Flaw> {
        found_or(LineWhy::BadNumber, number_under(LIMIT, word))
    }
}

// The number that a word spells, if it is one below the limit.
fn number_under(limit: u64, word: &[u8]) -> Option<u64>
    ensures { result ≡ number_below limit word.now }
{
    number_up_to(limit.checked_sub(1)?, word)
}

/// A type whose values have names that are words (own).
pub trait Name: Drop {
    ghost named: { List ℕ → Option Self };

    /// The value that this word names, if it names one.
    fn of_name(word: &[u8]) -> Option<Self>
        ensures { result ≡ named word.now };
}

/// The names of a type; every other word is UnknownWord (own).
pub struct NameWord<T>(T);

impl<'a, T: Name> WordKind<'a> for NameWord<T> {
    type Read = T;

    ghost reads = { λ text. spec.found_or why.UnknownWord (T.named text) };

    fn read(word: &'a [u8]) -> Result<T, Flaw> {
        found_or(LineWhy::UnknownWord, T::of_name(word))
    }
}

/// Digits of bytes in hexadecimal, in either case, of one byte at least (own). BadHex comes at the first byte that is
/// no digit, and otherwise after an odd number of digits.
pub struct Hex;

impl<'a> WordKind<'a> for Hex {
    type Read = Digits<'a>;

    ghost reads = { λ text. spec.digits_or_bad text (digits_flaw text) };

    fn read(word: &'a [u8]) -> Result<Digits<'a>, Flaw> {
        if let Some(place) = flaw_in_digits(word) {
            return Err(Flaw {
                place: place as u32,
                why: LineWhy::BadHex,
            });
        }
        Ok(Digits::of(word))
    }
}

/// The same, or a dash for no bytes (own).
pub struct HexOrDash;

impl<'a> WordKind<'a> for HexOrDash {
    type Read = Digits<'a>;

    ghost reads = { spec.dash_kind.reads };

    fn read(word: &'a [u8]) -> Result<Digits<'a>, Flaw> {
        if is_text(word, b"-") {
            return Ok(Digits::none());
        }
        Hex::read(word)
    }
}
