//! The exclusive or of the nonces that a vector reports (RFC 4340, section 12.2): one reading of a vector's bytes, for
//! the end that writes them and for the one that checks them.
ghost use Rattle.std.specs.Prelude.{◌≡◌, ◌<◌, ◌≤◌, ◌^◌, ℕ, Bool, Option};
ghost use Rattle.dccp_options.specs.Vectors.{run_length, state_of};
ghost use Rattle.run_list.specs.Runs.{downwards};
ghost use Rattle.dccp_ecn.specs.Nonces.{kind_of_sum, nonce_xor, sum_of, zeros_in, zeros_of_run};

use dccp_options::kinds::{ACK_VECTOR_0, ACK_VECTOR_1};
use seq_circle::Seq48;

// A byte of state 0 is its run length alone.
const STATE_0_END: u8 = 64;

/// The nonces that are known of numbers.
pub(crate) trait Nonces {
    /// The nonce of each number, which only contracts see.
    ghost nonce_of: { Self → ℕ → Option Bool };

    /// The nonce of a number, or None if it is not known.
    fn nonce(&self, n: Seq48) -> Option<bool>
        ensures { result ≡ nonce_of self.now n };
}

// The exclusive or of two nonces.
fn xor(one: bool, other: bool) -> bool
    ensures { result ≡ nonce_xor one other }
{
    if one { !other } else { other }
}

// The exclusive or of the nonces of `count` numbers from one down.
fn sum_down<N: Nonces>(nonces: &N, n: Seq48, count: u8) -> Option<bool>
    ensures { result ≡ sum_of (N.nonce_of nonces.now) (downwards count n) }
{
    let mut sum = false;
    let mut n = n;
    let mut left = count;
    while left > 0 {
        sum = xor(sum, nonces.nonce(n)?);
        n = n.sub(1);
        left -= 1;
    }
    Some(sum)
}

// How many numbers a byte covers.
fn run_length(byte: u8) -> u8
    ensures length { result ≡ run_length byte }
    ensures few { result ≤ 64 }
{
    byte % 64 + 1
}

// The exclusive or of the nonces of the numbers that a byte reports with state 0, from one down.
fn sum_of_byte<N: Nonces>(nonces: &N, hi: Seq48, byte: u8) -> Option<bool>
    ensures { result ≡ sum_of (N.nonce_of nonces.now) (zeros_of_run (record { hi = hi; count = run_length byte; state = state_of byte })) }
{
    if byte < STATE_0_END {
        sum_down(nonces, hi, run_length(byte))
    } else {
        Some(false)
    }
}

/// The exclusive or of the nonces of the numbers that the bytes of a vector report with state 0, or None if the nonce
/// of one of them is not known.
pub(crate) fn sum_of<N: Nonces>(nonces: &N, ack: Seq48, bytes: &[u8]) -> Option<bool>
    ensures { result ≡ sum_of (N.nonce_of nonces.now) (zeros_in ack bytes.now) }
{
    let mut sum = false;
    let mut hi = ack;
    for byte in bytes {
        sum = xor(sum, sum_of_byte(nonces, hi, *byte)?);
        hi = hi.sub(u64::from(run_length(*byte)));
    }
    Some(sum)
}

/// The type of a vector with this exclusive or.
pub(crate) fn kind_of_sum(sum: Option<bool>) -> u8
    ensures { result ≡ kind_of_sum sum }
{
    match sum {
        Some(true) => ACK_VECTOR_1,
        Some(false) | None => ACK_VECTOR_0,
    }
}
