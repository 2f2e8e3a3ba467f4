//! The bytes of a report of drops.
ghost use Rattle.std.specs.Prelude.{◌≡◌, ◌+◌, ◌<◌, ◌≤◌, [], nat_le, None, get_or, length, take};
ghost use Rattle.data_dropped.specs.Drops.{drop_bytes, most_numbers, tells_all};
ghost use Rattle.data_dropped.specs.Writing.{IsRunAt, bytes_from};

use crate::blocks::{drop_byte, is_same, most_numbers};
use crate::drops::{DropBytes, DropEntry, count_to_last, fill};
use circular_buffer::HeapCircularBuffer;
use seq_circle::Seq48;

// How many codes from this place on are the same, up to as many as one byte covers.
fn run_at(codes: &[Option<u8>], place: usize) -> usize
    requires { place < length codes.now }
    ensures some { 1 ≤ result }
    ensures few { result ≤ most_numbers (get_or codes.now place None) }
    ensures within { place + result ≤ length codes.now }
    ensures run { IsRunAt codes.now place result }
{
    let code = codes[place];
    let most = most_numbers(code).min(codes.len() - place);
    for count in 1..most {
        if !is_same(codes[place + count], code) {
            return count;
        }
    }
    most
}

// Writes the bytes of these codes, as many as there is room for. True exactly if there was room for all.
fn put_codes(out: &mut DropBytes, codes: &[Option<u8>]) -> bool
    requires { out.old.items ≡ [] }
    ensures bytes { out.new.items ≡ take 253 (bytes_from codes.now 0) }
    ensures whole { result ≡ nat_le (length (bytes_from codes.now 0)) 253 }
{
    let mut place = 0;
    while place < codes.len() {
        let count = run_at(codes, place);
        if out.is_full() {
            return false;
        }
        out.push(drop_byte(codes[place], count));
        place += count;
    }
    true
}

/// Writes the report of these drops at this number, in place of what was there. True exactly if nothing was cut off.
pub(crate) fn write_drops(
    drops: &HeapCircularBuffer<DropEntry>,
    out: &mut DropBytes,
    ack: Seq48,
) -> bool
    ensures bytes { out.new.items ≡ drop_bytes drops.now.items ack }
    ensures whole { result ≡ tells_all drops.now.items ack }
{
    out.clear();
    if drops.is_empty() {
        return true;
    }
    let table = fill(drops, ack);
    let count = count_to_last(&table);
    put_codes(out, &table[..count])
}
