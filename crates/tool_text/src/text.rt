//! Text as it is put together, piece by piece.
#![tactic(auto, using(crate::proofs::Keeping::keeps_itself, crate::proofs::Keeping::keeps_on, crate::proofs::Keeping::keeps_through))]

ghost use Rattle.std.specs.Prelude.{◌≡◌, ◌<◌, ◌≤◌, ◌++◌, codes, decimal, length, OnOk, OnErr};
ghost use Rattle.std.specs.Str.{bytes_eq};
ghost use Rattle.hex.specs.Hex.{encode_lower};
ghost use Rattle.tool_text.specs.Text.{Keeps, SameText, hex_or_dash, labelled_number, v4_text};

use crate::hexadecimal::encode;
use itoa::Buffer;
use seq_circle::NoMemory;

// How many bytes are put as digits at a time.
const BLOCK: usize = 128;

// Up to this many bytes get a small room for their digits, since a room is cleared before it is used.
const FEW: usize = 32;

/// Whether bytes are just this text (own).
pub fn is_text(bytes: &[u8], text: &[u8]) -> bool
    ensures { result ≡ bytes_eq bytes.now text.now }
{
    bytes.len() == text.len() && bytes == text
}

/// Puts a piece at the text's end (own). NoMemory means that the text could not grow; it is then as it was.
pub fn put(text: &mut Vec<u8>, piece: &[u8]) -> Result<(), NoMemory>
    ensures ok { OnOk result (text.new.items ≡ text.old.items ++ piece.now) }
    ensures err { OnErr result (SameText text.old text.new) }
    ensures front { Keeps text.old.items text.new.items }
{
    text.extend_from_slice(piece)?;
    Ok(())
}

// Puts a number of one digit.
#[tactic(auto, using(std::proofs::lemmas::Fmt::decimal_digit, crate::proofs::Keeping::keeps_itself, crate::proofs::Keeping::keeps_more))]
fn put_digit(text: &mut Vec<u8>, number: u8) -> Result<(), NoMemory>
    requires { number < 10 }
    ensures ok { OnOk result (text.new.items ≡ text.old.items ++ decimal number) }
    ensures err { OnErr result (SameText text.old text.new) }
    ensures front { Keeps text.old.items text.new.items }
{
    text.push(b'0' + number)?;
    Ok(())
}

/// Puts a number in decimal (own). NoMemory means that the text could not grow; it is then as it was.
pub fn put_number(text: &mut Vec<u8>, number: u64) -> Result<(), NoMemory>
    ensures ok { OnOk result (text.new.items ≡ text.old.items ++ decimal number) }
    ensures err { OnErr result (SameText text.old text.new) }
    ensures front { Keeps text.old.items text.new.items }
{
    if number < 10 {
        return put_digit(text, number as u8);
    }
    let mut buffer = Buffer::new();
    put(text, buffer.format(number).as_bytes())
}

/// Puts a name after a word such as `refused ` (own). NoMemory means that the text could not grow; then only the word
/// may be there.
// The word is mostly a literal of the caller: inlined, it is put as a known number of bytes.
#[inline(always)]
pub fn put_named(text: &mut Vec<u8>, what: &[u8], name: &[u8]) -> Result<(), NoMemory>
    ensures ok { OnOk result (text.new.items ≡ text.old.items ++ (what.now ++ name.now)) }
    ensures front { Keeps text.old.items text.new.items }
{
    put(text, what)?;
    put(text, name)
}

/// Puts a number in decimal after its word (own). NoMemory means that the text could not grow; then only the word may
/// be there.
// Inlined as `put_named` is.
#[inline(always)]
pub fn put_counted(text: &mut Vec<u8>, word: &[u8], number: u64) -> Result<(), NoMemory>
    ensures ok { OnOk result (text.new.items ≡ text.old.items ++ labelled_number word.now number) }
    ensures front { Keeps text.old.items text.new.items }
{
    put(text, word)?;
    put_number(text, number)
}

// Puts few bytes in lower-case hexadecimal.
#[tactic(auto, using(crate::proofs::Keeping::keeps_itself, crate::proofs::Keeping::keeps_more))]
fn put_few_hex(text: &mut Vec<u8>, bytes: &[u8]) -> Result<(), NoMemory>
    requires { length bytes.now ≤ 32 }
    ensures ok { OnOk result (text.new.items ≡ text.old.items ++ encode_lower bytes.now) }
    ensures front { Keeps text.old.items text.new.items }
{
    let mut digits = [0u8; 2 * FEW];
    let room = &mut digits[..2 * bytes.len()];
    encode(bytes, room);
    put(text, room)
}

/// Puts bytes in lower-case hexadecimal, and nothing for none (own). NoMemory means that the text could not grow; then
/// the digits of the first bytes may be there.
pub fn put_hex(text: &mut Vec<u8>, bytes: &[u8]) -> Result<(), NoMemory>
    ensures ok { OnOk result (text.new.items ≡ text.old.items ++ encode_lower bytes.now) }
    ensures front { Keeps text.old.items text.new.items }
{
    if bytes.len() <= FEW {
        return put_few_hex(text, bytes);
    }
    let mut digits = [0u8; 2 * BLOCK];
    for block in bytes.chunks(BLOCK) {
        let room = &mut digits[..2 * block.len()];
        encode(block, room);
        put(text, room)?;
    }
    Ok(())
}

/// Puts bytes in lower-case hexadecimal, or a dash for none (own). NoMemory comes as from `put_hex`.
pub fn put_hex_or_dash(text: &mut Vec<u8>, bytes: &[u8]) -> Result<(), NoMemory>
    ensures ok { OnOk result (text.new.items ≡ text.old.items ++ hex_or_dash bytes.now) }
    ensures front { Keeps text.old.items text.new.items }
{
    match bytes {
        [] => put(text, b"-"),
        _ => put_hex(text, bytes),
    }
}

// Puts a number of at most two digits.
#[tactic(auto, using(crate::proofs::Keeping::keeps_itself, crate::proofs::Keeping::keeps_more, crate::proofs::Keeping::keeps_through))]
fn put_pair(text: &mut Vec<u8>, number: u8) -> Result<(), NoMemory>
    requires { number < 100 }
    ensures ok { OnOk result (text.new.items ≡ text.old.items ++ decimal number) }
    ensures front { Keeps text.old.items text.new.items }
{
    if number < 10 {
        return put_digit(text, number);
    }
    put_digit(text, number / 10)?;
    text.push(b'0' + number % 10)?;
    Ok(())
}

// Puts a byte's number. It has at most three digits, which is faster one by one than through a buffer.
#[tactic(auto, using(crate::proofs::Keeping::keeps_itself, crate::proofs::Keeping::keeps_more, crate::proofs::Keeping::keeps_through))]
fn put_byte(text: &mut Vec<u8>, number: u8) -> Result<(), NoMemory>
    ensures ok { OnOk result (text.new.items ≡ text.old.items ++ decimal number) }
    ensures front { Keeps text.old.items text.new.items }
{
    if number < 100 {
        return put_pair(text, number);
    }
    put_pair(text, number / 10)?;
    text.push(b'0' + number % 10)?;
    Ok(())
}

// Puts the number of a byte of an address after its dot.
fn put_dotted(text: &mut Vec<u8>, number: u8) -> Result<(), NoMemory>
    ensures ok { OnOk result (text.new.items ≡ text.old.items ++ labelled_number (codes ".") number) }
    ensures front { Keeps text.old.items text.new.items }
{
    put(text, b".")?;
    put_byte(text, number)
}

/// Puts an address of IPv4: four numbers, separated by dots (own). NoMemory means that the text could not grow; then
/// the first numbers may be there.
pub fn put_v4(text: &mut Vec<u8>, address: [u8; 4]) -> Result<(), NoMemory>
    ensures ok { OnOk result (text.new.items ≡ text.old.items ++ v4_text address) }
    ensures front { Keeps text.old.items text.new.items }
{
    put_byte(text, address[0])?;
    put_dotted(text, address[1])?;
    put_dotted(text, address[2])?;
    put_dotted(text, address[3])?;
    Ok(())
}
