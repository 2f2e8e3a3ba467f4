//! How many options carry the vector of a packet, and the bytes that these have room for.
ghost use Rattle.std.specs.Prelude.{◌≡◌};
ghost use Rattle.ack_vectors.specs.Vector.{room_of};

use arrayvec::ArrayVec;
use dccp_options::MOST_OPTION_BYTES;

// The bytes that two options have room for.
const MOST_ROOM: usize = 506;

// The bytes of the longest option, with those of its type and its length.
pub(crate) const MOST_OPTION: usize = 255;

/// The bytes of the Ack Vector of one packet: one option has room for 253 of them, two for 506 (RFC 4340, section 5.8).
pub type VectorBytes = ArrayVec<u8, MOST_ROOM>;

/// How many Ack Vector options a packet carries at most (own). The standard sets no limit, and several in a packet are
/// read as one, joined in their order (RFC 4340, section 11.4).
#[derive(Clone, Copy, Debug, PartialEq, Eq)]
pub enum Vectors {
    /// One option: vectors are cut after 253 bytes.
    One,
    /// Two options: vectors are cut after 506 bytes. A vector of at most 253 bytes is still one option.
    Two,
}

// The bytes that these options have room for.
pub(crate) fn room_of(vectors: Vectors) -> usize
    ensures { result ≡ room_of vectors }
{
    match vectors {
        Vectors::One => MOST_OPTION_BYTES,
        Vectors::Two => MOST_ROOM,
    }
}
