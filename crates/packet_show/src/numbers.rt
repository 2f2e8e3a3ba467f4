//! Numbers and addresses as text.
#![tactic(auto, using(tool_text::proofs::Keeping::keeps_itself, tool_text::proofs::Keeping::keeps_on))]

ghost use Rattle.std.specs.Prelude.{◌≡◌, ◌≤◌, ◌++◌, decimal, OnOk};
ghost use Rattle.tool_text.specs.Text.{Keeps};
ghost use Rattle.packet_show.specs.Text.{zeros_before, fraction_text, group_text, without_zeros, groups_text, v6_text, from_text, to_text, number_text};

use dccp_packets::Number;
use dccp_sum::Pseudo;
use itoa::Buffer;
use seq_circle::NoMemory;
use tool_text::{put, put_counted, put_named, put_v4};

const MICROSECOND_DIGITS: usize = 6;

const NANOSECOND_DIGITS: usize = 9;

const ZEROS: &[u8] = b"000000000";

// The leading zeros of these digits, up to `width` digits.
fn zeros_before(width: usize, digits: &[u8]) -> &'static [u8]
    requires { width ≤ 9 }
    ensures { result.now ≡ zeros_before width digits.now }
{
    &ZEROS[..width.saturating_sub(digits.len())]
}

// Puts a number in decimal, with leading zeros up to `width` digits.
fn put_padded(text: &mut Vec<u8>, width: usize, number: u32) -> Result<(), NoMemory>
    requires { width ≤ 9 }
    ensures ok { OnOk result (text.new.items ≡ text.old.items ++ zeros_before width (decimal number) ++ decimal number) }
    ensures front { Keeps text.old.items text.new.items }
{
    let mut buffer = Buffer::new();
    let digits = buffer.format(number).as_bytes();
    put_named(text, zeros_before(width, digits), digits)
}

/// Puts a fraction of a second: six digits of microseconds, or nine of nanoseconds.
pub(crate) fn put_fraction(text: &mut Vec<u8>, nanos: bool, fraction: u32) -> Result<(), NoMemory>
    ensures ok { OnOk result (text.new.items ≡ text.old.items ++ fraction_text nanos fraction) }
    ensures front { Keeps text.old.items text.new.items }
{
    if nanos {
        return put_padded(text, NANOSECOND_DIGITS, fraction);
    }
    put_padded(text, MICROSECOND_DIGITS, fraction)
}

// Hexadecimal digits without leading zeros; at least one digit stays.
fn without_zeros(digits: &[u8]) -> &[u8]
    ensures { result.now ≡ without_zeros digits.now }
{
    let mut rest = digits;
    while let [b'0', tail @ ..] = rest
        && !tail.is_empty()
    {
        rest = tail;
    }
    rest
}

// Puts a group of 16 bits in lower-case hexadecimal.
fn put_group(text: &mut Vec<u8>, high: u8, low: u8) -> Result<(), NoMemory>
    ensures ok { OnOk result (text.new.items ≡ text.old.items ++ group_text high low) }
    ensures front { Keeps text.old.items text.new.items }
{
    let mut digits = [0; 4];
    match hex::encode_to_slice([high, low], &mut digits) {
        Ok(()) => put(text, without_zeros(&digits)),
        Err(_) => unreachable!(),
    }
}

// Puts groups, each after a colon.
#[tactic(auto, using(tool_text::proofs::Keeping::keeps_itself, tool_text::proofs::Keeping::keeps_on, tool_text::proofs::Keeping::keeps_more, tool_text::proofs::Keeping::keeps_through))]
fn put_groups(text: &mut Vec<u8>, bytes: &[u8]) -> Result<(), NoMemory>
    ensures ok { OnOk result (text.new.items ≡ text.old.items ++ groups_text bytes.now) }
    ensures front { Keeps text.old.items text.new.items }
{
    let mut rest = bytes;
    while let [high, low, tail @ ..] = rest {
        put(text, b":")?;
        put_group(text, *high, *low)?;
        rest = tail;
    }
    Ok(())
}

// Puts an address of IPv6: eight groups, separated by colons and never shortened.
fn put_v6(text: &mut Vec<u8>, address: [u8; 16]) -> Result<(), NoMemory>
    ensures ok { OnOk result (text.new.items ≡ text.old.items ++ v6_text address) }
    ensures front { Keeps text.old.items text.new.items }
{
    put_group(text, address[0], address[1])?;
    put_groups(text, &address[2..])
}

/// Puts the source address of a packet (own): four decimal numbers separated by dots, or eight groups in lower-case
/// hexadecimal separated by colons. NoMemory comes if the text could not grow; then a prefix of the address may be
/// there.
pub fn put_from(text: &mut Vec<u8>, pseudo: &Pseudo) -> Result<(), NoMemory>
    ensures ok { OnOk result (text.new.items ≡ text.old.items ++ from_text pseudo.now) }
    ensures front { Keeps text.old.items text.new.items }
{
    match *pseudo {
        Pseudo::V4 { from, .. } => put_v4(text, from),
        Pseudo::V6 { from, .. } => put_v6(text, from),
    }
}

/// Puts the destination address of a packet (own), as `put_from` does, NoMemory included.
pub fn put_to(text: &mut Vec<u8>, pseudo: &Pseudo) -> Result<(), NoMemory>
    ensures ok { OnOk result (text.new.items ≡ text.old.items ++ to_text pseudo.now) }
    ensures front { Keeps text.old.items text.new.items }
{
    match *pseudo {
        Pseudo::V4 { to, .. } => put_v4(text, to),
        Pseudo::V6 { to, .. } => put_v6(text, to),
    }
}

/// Puts a sequence or acknowledgement number after its word, in the form that it has.
#[inline(always)]
pub(crate) fn put_sequence(text: &mut Vec<u8>, word: &[u8], number: Number) -> Result<(), NoMemory>
    ensures ok { OnOk result (text.new.items ≡ text.old.items ++ (word.now ++ number_text number)) }
    ensures front { Keeps text.old.items text.new.items }
{
    match number {
        Number::Long(number) => put_counted(text, word, number.get()),
        Number::Short(number) => put_counted(text, word, u64::from(number.get())),
    }
}
