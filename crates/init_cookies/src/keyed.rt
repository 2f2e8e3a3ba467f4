//! A keyed hash.
ghost use Rattle.std.specs.Prelude.{◌≡◌, map, bit_xor};
ghost use Rattle.init_cookies.specs.Keyed.{hash_after, keyed_hash, masked_key};

use arrayvec::ArrayVec;
use sha2::{Digest, Sha256};

// How many zeros fill a key of 32 bytes to a block of 64.
const FILLED: usize = 32;

const INNER: u8 = 0x36;

const OUTER: u8 = 0x5c;

// The key, each of its bytes combined with this one by an exclusive or.
fn masked_key(key: &[u8; 32], mask: u8) -> ArrayVec<u8, 32>
    ensures { result.items ≡ masked_key mask key.now }
{
    let mut masked = ArrayVec::new();
    for byte in key.iter().copied() {
        let _ = masked.try_push(byte ^ mask);
    }
    masked
}

// The hash of a block that is made of the key and this byte, and of a text.
fn hash_after(key: &[u8; 32], mask: u8, text: &[u8]) -> [u8; 32]
    ensures { result ≡ hash_after mask key.now text.now }
{
    let mut hasher = Sha256::new();
    hasher.update(masked_key(key, mask).as_slice());
    hasher.update(&[mask; FILLED]);
    hasher.update(text);
    hasher.finalize()
}

/// The keyed hash of a text (RFC 2104, HMAC over SHA-256).
pub fn keyed_hash(key: &[u8; 32], text: &[u8]) -> [u8; 32]
    ensures { result ≡ keyed_hash key.now text.now }
{
    hash_after(key, OUTER, &hash_after(key, INNER, text))
}
