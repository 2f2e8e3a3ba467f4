//! Which data were dropped, and the codes of the numbers that a report covers.
ghost use Rattle.std.specs.Prelude.{◌≡◌, ◌^◌, ◌<◌, ◌≤◌, Some, length, slice_set, take};
ghost use Rattle.seq_circle.specs.Circle.{distance};
ghost use Rattle.data_dropped.specs.Drops.{code_table, up_to_last_code};

use arrayvec::ArrayVec;
use circular_buffer::HeapCircularBuffer;
use dccp_options::MOST_OPTION_BYTES;
use seq_circle::Seq48;

/// The bytes of a Data Dropped option: at most 253 (RFC 4340, section 5.8).
pub type DropBytes = ArrayVec<u8, MOST_OPTION_BYTES>;

/// How many drops count, and how many numbers a report covers at most (own).
pub(crate) const SPAN: usize = 2048;

/// Data that were dropped. No call gives one out; contracts speak of them.
#[derive(Clone, Copy)]
pub struct DropEntry {
    /// The number of the packet whose data they were.
    pub number: Seq48,
    /// The Drop Code (RFC 4340, section 11.7).
    pub code: u8,
}

// Notes one more drop: its number has this code from now on, if the number is in the table.
fn note(table: &mut [Option<u8>; SPAN], entry: &DropEntry, ack: Seq48)
    ensures noted { table.new ≡ slice_set table.old (distance entry.now.number ack) (Some entry.now.code) }
    ensures number_fits { entry.now.number < 2 ^ 48 }
    ensures ack_fits { ack < 2 ^ 48 }
{
    // `get` gives the prover that the numbers are below 2^48.
    let _ack = ack.get();
    let number = entry.number;
    let _number = number.get();
    let below = number.distance(ack);
    if below < SPAN as u64 {
        table[below as usize] = Some(entry.code);
    }
}

/// The codes of the numbers from this one downwards. The oldest drop is noted first, so that the latest of a number
/// counts. Each drop and each number is looked at once.
pub(crate) fn fill(drops: &HeapCircularBuffer<DropEntry>, ack: Seq48) -> [Option<u8>; SPAN]
    ensures { result ≡ code_table drops.now.items ack }
{
    let mut table = [None; SPAN];
    for index in 0..drops.len() {
        if let Some(entry) = drops.get(index) {
            note(&mut table, entry, ack);
        }
    }
    table
}

/// How many codes there are up to the last one that is there.
pub(crate) fn count_to_last(codes: &[Option<u8>]) -> usize
    ensures within { result ≤ length codes.now }
    ensures codes { take result codes.now ≡ up_to_last_code codes.now }
{
    let mut count = codes.len();
    while 0 < count && codes[count - 1].is_none() {
        count -= 1;
    }
    count
}
