//! The bytes of a vector by the states of numbers, from the acknowledgement down.
ghost use Rattle.std.specs.Prelude.{◌≡◌, ◌≢◌, ◌<◌, ◌≤◌, length, replicate};
ghost use Rattle.seq_circle.specs.Circle.{down};
ghost use Rattle.ack_vectors.specs.Vector.{states_down};
ghost use Rattle.dccp_ecn.specs.EcnVector.{ecn_bytes, ecn_states, is_ecn_whole};

use crate::EcnReceived;
use ack_vectors::VectorBytes;
use dccp_options::MOST_OPTION_BYTES;
use seq_circle::Seq48;

// How many numbers a byte covers at most (RFC 4340, section 11.4).
const MOST: u64 = 64;

// How many numbers from `top` down have its state, up to `most`.
fn alike(received: &EcnReceived, top: Seq48, state: u8, most: u64) -> u64
    requires some { 1 ≤ most }
    requires state { state ≡ ecn_states received.now top }
    ensures some { 1 ≤ result }
    ensures few { result ≤ most }
    ensures alike { states_down (ecn_states received.now) result top ≡ replicate result state }
    ensures other { result < most → ecn_states received.now (down top result) ≢ state }
{
    for count in 1..most {
        if received.state(top.sub(count)) != state {
            return count;
        }
    }
    most
}

/// Puts the bytes of the vector from `ack` down to the floor in place of what `out` had, up to 253 of them. Returns
/// whether there was room for all.
pub(crate) fn put_states(out: &mut VectorBytes, received: &EcnReceived, ack: Seq48) -> bool
    ensures bytes { out.new.items ≡ ecn_bytes received.now ack }
    ensures fits { length out.new.items ≤ 253 }
    ensures whole { result ≡ is_ecn_whole received.now ack }
{
    out.clear();
    let floor = received.floor();
    if !ack.is_from(floor) {
        return true;
    }
    let mut top = ack;
    let mut left = floor.distance(ack) + 1;
    while left > 0 {
        if out.len() == MOST_OPTION_BYTES {
            return false;
        }
        let state = received.state(top);
        let count = alike(received, top, state, left.min(MOST));
        out.push(state * 64 + (count - 1) as u8);
        top = top.sub(count);
        left -= count;
    }
    true
}
