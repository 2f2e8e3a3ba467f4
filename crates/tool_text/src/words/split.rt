//! The words of a line.
ghost use Rattle.std.specs.Prelude.{◌≡◌, ◌==◌, ◌+◌, ◌≤◌, ◌∷◌, length};
ghost use Rattle.tool_text.specs.Words.{parted_by};
ghost use Rattle.tool_text.specs.Rest.{pieces_left, rest_length};

use crate::words::blocks::{ByteSearch, first_near};

/// A word of a line, and the column of its first byte, from 1 (own). It has no bytes if the line has no such word.
#[derive(Clone, Copy)]
pub struct Word<'a> {
    pub column: u32,
    pub text: &'a [u8],
}

// The byte that separates the pieces of a text.
#[derive(Drop)]
struct Mark {
    byte: u8,
}

impl ByteSearch for Mark {
    ghost sought = { λ mark byte. byte == mark.byte };

    fn is_sought(&self, byte: u8) -> bool {
        byte == self.byte
    }
}

/// The first piece of a text whose pieces this byte separates, and what follows that byte, if it is there (own).
#[tactic(auto, using(crate::proofs::Pieces::parted, crate::proofs::Pieces::not_parted))]
pub fn first_piece(mark: u8, text: &[u8]) -> (&[u8], Option<&[u8]>)
    ensures pieces { parted_by mark text.now ≡ result.0.now ∷ pieces_left mark result.1 }
    ensures whole { length result.0.now + rest_length result.1 ≡ length text.now }
{
    match first_near(&Mark { byte: mark }, text) {
        Some(end) => (&text[..end], Some(&text[end + 1..])),
        None => (text, None),
    }
}

/// The words of a line that are still to be read (own).
#[derive(Clone, Copy)]
pub struct Words<'a> {
    // What follows, or None after the last word.
    rest: Option<&'a [u8]>,
    // The column of the next word.
    column: u32,
    ghost begins: { 1 ≤ column },
    ghost fits: { column + rest_length rest ≤ 4098 },
}

impl<'a> Words<'a> {
    ghost use Rattle.tool_text.specs.Words.{words_of, first_word, later, word_at, is_over};
    ghost use Rattle.tool_text.specs.Left.{word_of, left_of};

    /// All words of a line of at most 4,096 bytes (own).
    pub fn of(line: &'a [u8]) -> Words<'a>
        requires { length line.now ≤ 4096 }
        ensures { left_of result ≡ words_of line.now }
    {
        Words {
            rest: Some(line),
            column: 1,
        }
    }

    /// Whether no word is left (own).
    #[tactic(auto, using(crate::proofs::Pieces::some_left))]
    pub fn is_over(&self) -> bool
        ensures { result ≡ is_over (left_of self.now).words }
    {
        match self.rest {
            None => true,
            Some(_) => false,
        }
    }

    /// The next word, which then counts as read (own). It has no bytes if the line is over.
    pub fn next_word(&mut self) -> Word<'a>
        ensures first { word_of result ≡ first_word (left_of self.old) }
        ensures rest { left_of self.new ≡ later (left_of self.old) }
        ensures short { length result.text.now ≤ 4096 }
        ensures begins { result.column ≤ 4098 }
    {
        let column = self.column;
        let Some(rest) = self.rest else {
            return Word { column, text: &[] };
        };
        let (text, after) = first_piece(b' ', rest);
        self.rest = after;
        self.column = column + text.len() as u32 + 1;
        Word { column, text }
    }
    /// The column of the word at this place among those that are left, from 0, or of one that is absent there (own).
    #[tactic(auto, using(crate::proofs::Pieces::one_further))]
    pub fn column_of(&self, place: usize) -> u32
        ensures { result ≡ (word_at place (left_of self.now)).column }
    {
        let mut words = *self;
        let mut before = place;
        while 0 < before {
            words.next_word();
            before -= 1;
        }
        words.next_word().column
    }
}
