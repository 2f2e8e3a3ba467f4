//! Digits of a word in hexadecimal, and the bytes that they spell.
ghost use Rattle.std.specs.Prelude.{◌≡◌, ◌+◌, ◌*◌, ◌≤◌, ◌<◌, ◌==◌, not, None, [], length, slice_index, IfSome};
ghost use Rattle.hex.specs.Hex.{is_hex_digit};
ghost use Rattle.tool_text.specs.Digits.{digits_flaw, digit_value, bytes_of_digits, ArePairs};

use crate::words::blocks::{ByteSearch, first_far};
use dccp_packets::{Frame, MOST_FRAME_BYTES};
use std::marker::Model;

// A digit is one of 0 to 9, or of a to f in either case. This form tests many bytes side by side with few operations.
fn is_hex_digit(byte: u8) -> bool
    ensures { result ≡ is_hex_digit byte }
{
    let past_figures = byte.wrapping_sub(b'0').saturating_sub(9);
    let past_letters = (byte | 32).wrapping_sub(b'a').saturating_sub(5);
    past_figures.min(past_letters) == 0
}

// Bytes that are no digits.
#[derive(Drop)]
struct NoDigit;

impl ByteSearch for NoDigit {
    ghost sought = { λ s byte. not (is_hex_digit byte) };

    fn is_sought(&self, byte: u8) -> bool {
        !is_hex_digit(byte)
    }
}

/// The place of the first byte that is no digit, or the place after an odd number of digits (own).
pub(crate) fn flaw_in_digits(word: &[u8]) -> Option<usize>
    ensures value { result ≡ digits_flaw word.now }
    ensures within { IfSome result (λ place. place ≤ length word.now) }
{
    match first_far(&NoDigit, word) {
        Some(place) => Some(place),
        None if word.len() % 2 == 1 => Some(word.len()),
        None => None,
    }
}

// The byte of two digits, the high one first. Their values are found side by side, in the two halves of one number.
fn byte_of(pair: [u8; 2]) -> u8
    requires high { digit_value (slice_index pair 0) < 16 }
    requires low { digit_value (slice_index pair 1) < 16 }
    ensures { result ≡ 16 * digit_value (slice_index pair 0) + digit_value (slice_index pair 1) }
{
    let both = 256 * u16::from(pair[1]) + u16::from(pair[0]);
    let values = (both & 0x0f0f) + 9 * ((both / 64) & 0x0101);
    (16 * (values % 256) + values / 256) as u8
}

#[tactic(auto, using(crate::proofs::Decoding::bytes_length, crate::proofs::Decoding::all_decoded))]
fn decode(text: &[u8], room: &mut [u8])
    requires pairs { ArePairs text.now }
    requires sized { length text.now ≡ 2 * length room.old }
    ensures { room.new ≡ bytes_of_digits text.now }
{
    let (pairs, _) = text.as_chunks::<2>();
    let mut place = 0;
    while place < room.len() {
        room[place] = byte_of(pairs[place]);
        place += 1;
    }
}

/// The bytes that digits of a line spell, which are decoded when they are put (own). There are at most 2,048 of them.
#[derive(Drop)]
pub struct Digits<'a> {
    text: &'a [u8],
}

impl<'a> Model for Digits<'a> {
    ghost use Rattle.std.specs.Prelude.{ℕ, ◌≤◌, List, length};
    ghost use Rattle.tool_text.specs.Digits.{bytes_of_digits, ArePairs};

    ghost Value = { List ℕ };

    ghost view = { λ d. bytes_of_digits d.text.now };

    ghost invariant = { λ d. ArePairs d.text.now × (length d.text.now ≤ 4096) };
}

impl<'a> Digits<'a> {
    /// No bytes (own).
    pub fn none() -> Digits<'a>
        ensures { result ≡ [] }
    {
        Digits { text: &[] }
    }

    // The bytes of digits without a flaw.
    #[tactic(auto, using(crate::proofs::DigitLaws::flawless_pairs))]
    pub(crate) fn of(text: &'a [u8]) -> Digits<'a>
        requires flawless { digits_flaw text.now ≡ None }
        requires short { length text.now ≤ 4096 }
        ensures { result ≡ bytes_of_digits text.now }
    {
        Digits { text }
    }

    /// How many bytes there are (own).
    #[tactic(auto, using(crate::proofs::Decoding::bytes_length))]
    pub fn len(&self) -> usize
        ensures value { result ≡ length self.now }
        ensures fits { result ≤ 2048 }
    {
        self.text.len() / 2
    }

    /// Whether there are no bytes (own).
    #[tactic(auto, using(crate::proofs::Decoding::bytes_length))]
    pub fn is_empty(&self) -> bool
        ensures { result ≡ (length self.now == 0) }
    {
        self.text.is_empty()
    }

    /// Puts the bytes into the room for them (own).
    #[tactic(auto, using(crate::proofs::Decoding::bytes_length))]
    pub fn put(&self, room: &mut [u8])
        requires { length room.old ≡ length self.now }
        ensures { room.new ≡ self.now }
    {
        decode(self.text, room)
    }

    /// The frame of the bytes, if they are not too many for one (own).
    pub fn frame(&self) -> Frame
        requires { length self.now ≤ 2044 }
        ensures { result ≡ self.now }
    {
        let mut bytes = [0; MOST_FRAME_BYTES];
        let room = &mut bytes[..self.len()];
        self.put(room);
        match Frame::of(room) {
            Some(frame) => frame,
            None => unreachable!(),
        }
    }
}
