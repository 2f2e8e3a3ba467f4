//! The bytes of a vector, run by run.
ghost use Rattle.std.specs.Prelude.{◌≡◌, ◌+◌, ◌<◌, ◌≤◌, ◌++◌, nat_le, length, take};
ghost use Rattle.std.specs.Bool.{OnTrue, OnFalse};
ghost use Rattle.arrayvec.specs.ArrayVec.{array_vec_len};
ghost use Rattle.run_list.specs.Runs.{AreLaid};
ghost use Rattle.ack_vectors.specs.Vector.{pieces};
ghost use Rattle.ack_vectors.specs.ByRuns.{bytes_by_runs};

use arrayvec::ArrayVec;
use run_list::Walk;
use seq_circle::Seq48;

// The states of an Ack Vector that are written (RFC 4340, section 11.4).
const RECEIVED: u8 = 0;

const MISSING: u8 = 3;

// How many numbers a byte covers at most.
const MOST: u64 = 64;

// Appends the bytes of a run up to `room` bytes in all. Returns whether there was room for all of them.
fn put_pieces<const N: usize>(out: &mut ArrayVec<u8, N>, room: usize, state: u8, count: u64) -> bool
    requires known { state < 4 }
    requires within { room ≤ N }
    requires begun { length out.old.items ≤ room }
    ensures whole { OnTrue result (out.new.items ≡ out.old.items ++ pieces state count) }
    ensures fits { length out.new.items ≤ room }
    ensures cut { OnFalse result (out.new.items ≡ take room (out.old.items ++ pieces state count)) }
    ensures long { OnFalse result (room < length (out.old.items ++ pieces state count)) }
{
    let mut left = count;
    while left > 0 {
        if out.len() == room {
            return false;
        }
        let length = left.min(MOST);
        out.push(state * 64 + (length - 1) as u8);
        left -= length;
    }
    true
}

// The same. Most runs are one byte for which there is room.
#[tactic(auto, using(crate::proofs::Pieces::one_piece))]
fn put_run<const N: usize>(out: &mut ArrayVec<u8, N>, room: usize, state: u8, count: u64) -> bool
    requires known { state < 4 }
    requires within { room ≤ N }
    requires begun { length out.old.items ≤ room }
    ensures whole { OnTrue result (out.new.items ≡ out.old.items ++ pieces state count) }
    ensures fits { length out.new.items ≤ room }
    ensures cut { OnFalse result (out.new.items ≡ take room (out.old.items ++ pieces state count)) }
    ensures long { OnFalse result (room < length (out.old.items ++ pieces state count)) }
{
    if count == 0 || MOST < count || out.len() == room {
        return put_pieces(out, room, state, count);
    }
    out.push(state * 64 + (count - 1) as u8);
    true
}

// Appends the bytes of missing numbers and of the received ones below them. Returns whether there was room for all.
fn put_both<const N: usize>(
    out: &mut ArrayVec<u8, N>,
    room: usize,
    missing: u64,
    received: u64,
) -> bool
    requires within { room ≤ N }
    requires begun { length out.old.items ≤ room }
    ensures whole { OnTrue result (out.new.items ≡ out.old.items ++ (pieces 3 missing ++ pieces 0 received)) }
    ensures fits { length out.new.items ≤ room }
    ensures cut { OnFalse result (out.new.items ≡ take room (out.old.items ++ (pieces 3 missing ++ pieces 0 received))) }
    ensures long { OnFalse result (room < length (out.old.items ++ (pieces 3 missing ++ pieces 0 received))) }
{
    if !put_run(out, room, MISSING, missing) {
        return false;
    }
    put_run(out, room, RECEIVED, received)
}

// Appends the bytes of `left` numbers from the floor up, by the runs that were received, up to `room` bytes in all.
// Returns whether there was room for all.
pub(crate) fn put_runs<const N: usize>(
    out: &mut ArrayVec<u8, N>,
    room: usize,
    runs: Walk<'_>,
    floor: Seq48,
    left: u64,
) -> bool
    requires within { room ≤ N }
    requires begun { length out.old.items ≤ room }
    requires laid { AreLaid floor 2048 runs }
    ensures bytes { out.new.items ≡ take room (out.old.items ++ bytes_by_runs floor left runs.entry) }
    ensures fits { length out.new.items ≤ room }
    ensures whole { result ≡ nat_le (length (out.old.items ++ bytes_by_runs floor left runs.entry)) room }
{
    let mut left = left;
    for run in runs {
        let top = floor.distance(run.hi) + 1;
        let bottom = top - u64::from(run.count);
        if bottom < left {
            let top = top.min(left);
            if !put_both(out, room, left - top, top - bottom) {
                return false;
            }
            left = bottom;
        }
    }
    put_run(out, room, MISSING, left)
}
