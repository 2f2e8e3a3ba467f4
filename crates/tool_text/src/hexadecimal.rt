//! Bytes as digits in hexadecimal.
#![tactic(auto)]

ghost use Rattle.std.specs.Prelude.{◌≡◌, ◌*◌, ◌+◌, ◌<◌, ◌≤◌, ◌++◌, nat_lt, if◌then◌else◌, length, map, slice_index, take};
ghost use Rattle.std.specs.Simd.Lanes.{Each1};
ghost use Rattle.hex.specs.Hex.{encode_lower, lower_digits};

use std::simd::prelude::*;

// How many bytes are between the digits 0 to 9 and the letters.
const GAP: u8 = b'a' - b'9' - 1;

// How far a value's digit comes after that of 0.
fn gap(value: u8) -> u8
    ensures { result ≡ (if nat_lt value 10 then 0 else 39) }
{
    if value < 10 { 0 } else { GAP }
}

// The digit of a value.
#[tactic(auto, using(crate::proofs::HexText::digit_of))]
fn digit(value: u8) -> u8
    requires { value < 16 }
    ensures { result ≡ slice_index lower_digits value }
{
    value + b'0' + gap(value)
}

fn encode_singly(bytes: &[u8], room: &mut [u8])
    requires { length room.old ≡ 2 * length bytes.now }
    ensures { room.new ≡ encode_lower bytes.now }
{
    let mut place = 0;
    while place < bytes.len() {
        let byte = bytes[place];
        room[2 * place] = digit(byte / 16);
        room[2 * place + 1] = digit(byte % 16);
        place += 1;
    }
}

// How many bytes are written at a time.
const BLOCK: usize = 16;

// The digits of values. They are computed side by side, and not looked up in a table as in the toolchain's `hex`.
fn digits_of(values: u8x16) -> u8x16
    requires { Each1 (λ value. value < 16) values }
    ensures { result ≡ map (λ value. slice_index lower_digits value) values }
{
    let letters = values.simd_gt(u8x16::splat(9));
    values + u8x16::splat(b'0') + letters.select(u8x16::splat(GAP), u8x16::splat(0))
}

// The digits of a block's bytes, in two halves.
fn halves_of(bytes: u8x16) -> (u8x16, u8x16)
    ensures value { result.0 ++ result.1 ≡ encode_lower bytes }
    ensures first { length result.0 ≡ 16 }
    ensures second { length result.1 ≡ 16 }
{
    let highs = digits_of(bytes >> u8x16::splat(4));
    let lows = digits_of(bytes & u8x16::splat(15));
    highs.interleave(lows)
}

// Writes the digits of the block at a place, if those of all bytes before it are written.
fn encode_block(bytes: &[u8], room: &mut [u8], place: usize)
    requires fits { place + 16 ≤ length bytes.now }
    requires sized { length room.old ≡ 2 * length bytes.now }
    requires before { take (2 * place) room.old ≡ encode_lower (take place bytes.now) }
    ensures sized { length room.new ≡ 2 * length bytes.now }
    ensures written { take (2 * (place + 16)) room.new ≡ encode_lower (take (place + 16) bytes.now) }
{
    let (first, second) = halves_of(u8x16::from_slice(&bytes[place..]));
    first.copy_to_slice(&mut room[2 * place..]);
    second.copy_to_slice(&mut room[2 * place + BLOCK..]);
}

// Writes the digits of a block or more. The last block ends where the bytes do: it may overlap the one before, whose
// digits are then written again.
fn encode_blocks(bytes: &[u8], room: &mut [u8])
    requires some { 16 ≤ length bytes.now }
    requires sized { length room.old ≡ 2 * length bytes.now }
    ensures { room.new ≡ encode_lower bytes.now }
{
    let last = bytes.len() - BLOCK;
    let mut done = 0;
    while done < last {
        encode_block(bytes, room, done);
        done += BLOCK;
    }
    encode_block(bytes, room, last);
}

/// Writes bytes as digits in lower case into the room for them (own).
pub(crate) fn encode(bytes: &[u8], room: &mut [u8])
    requires { length room.old ≡ 2 * length bytes.now }
    ensures { room.new ≡ encode_lower bytes.now }
{
    if bytes.len() < BLOCK {
        encode_singly(bytes, room);
    } else {
        encode_blocks(bytes, room);
    }
}
