//! The part of the sum that comes from no byte of the packet.
ghost use Rattle.std.specs.Prelude.{◌≡◌, ◌+◌, ◌%◌, ◌<◌, ◌≤◌, ◌^◌, length};
ghost use Rattle.dccp_sum.specs.Words.{word_sum, IsSameSum};
ghost use Rattle.dccp_sum.specs.Checksum.{pseudo_header};

use crate::words::add_words;

// The number of DCCP among the protocols over IP (RFC 4340, section 9.1).
const PROTOCOL: u64 = 33;

/// The addresses between which a packet travels. With the packet's length and the protocol number 33 they make the
/// pseudo-header that its checksum covers (RFC 4340, section 9.1; RFC 8200, section 8.1).
#[derive(Clone, Copy, Debug, PartialEq, Eq)]
pub enum Pseudo {
    /// Addresses of IPv4, the source first.
    V4 { from: [u8; 4], to: [u8; 4] },
    /// Addresses of IPv6, the source first.
    V6 { from: [u8; 16], to: [u8; 16] },
}

impl Pseudo {
    ghost use Rattle.std.specs.Prelude.{◌≡◌};
    ghost use Rattle.dccp_sum.specs.Checksum.{reversed};

    /// The addresses of the packets that go back.
    pub fn reversed(&self) -> Pseudo
        ensures { result ≡ reversed self.now }
    {
        match *self {
            Pseudo::V4 { from, to } => Pseudo::V4 { from: to, to: from },
            Pseudo::V6 { from, to } => Pseudo::V6 { from: to, to: from },
        }
    }
}

// The sum of the words of two addresses of IPv4.
fn add_v4(from: [u8; 4], to: [u8; 4]) -> u64
    ensures value { IsSameSum result (word_sum from + word_sum to) }
    ensures bound { result ≤ 2 ^ 46 }
    ensures from_length { length from ≡ 4 }
    ensures to_length { length to ≡ 4 }
{
    add_words(add_words(0, &from), &to)
}

// The sum of the words of two addresses of IPv6.
fn add_v6(from: [u8; 16], to: [u8; 16]) -> u64
    ensures value { IsSameSum result (word_sum from + word_sum to) }
    ensures bound { result ≤ 2 ^ 46 }
    ensures from_length { length from ≡ 16 }
    ensures to_length { length to ≡ 16 }
{
    add_words(add_words(0, &from), &to)
}

// The sum of the words of the pseudo-header, for a packet of that many bytes.
pub(crate) fn add_pseudo_header(pseudo: &Pseudo, size: u64) -> u64
    requires { size < 2 ^ 16 }
    ensures value { IsSameSum result (word_sum (pseudo_header pseudo.now size)) }
    ensures bound { result ≤ 2 ^ 47 }
    ensures whole_words { length (pseudo_header pseudo.now size) % 2 ≡ 0 }
{
    let addresses = match *pseudo {
        Pseudo::V4 { from, to } => add_v4(from, to),
        Pseudo::V6 { from, to } => add_v6(from, to),
    };
    addresses + PROTOCOL + size
}
