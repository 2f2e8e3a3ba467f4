//! The name under which a listener of IPv4 knows a peer whose packets travel between other addresses.
ghost use Rattle.std.specs.Prelude.{◌≡◌, ◌≤◌, ◌+◌, ◌*◌, ◌^◌, length};
ghost use Rattle.dccp_sum.specs.Words.{word_sum};
ghost use Rattle.server_peers.specs.Naming.{EqualSumsReadAlike, StandInsCountAlike, address_words, missing_word, stand_in};

use dccp_listener::Peer;
use dccp_sum::Pseudo;

// The sum of the words of an address.
fn word_sum(address: &[u8]) -> u64
    requires { length address.now ≤ 16 }
    ensures value { result ≡ word_sum address.now }
    ensures bound { result ≤ 16 * 65536 }
{
    let mut sum = 0;
    let mut rest = address;
    while let [high, low, tail @ ..] = rest {
        sum += u64::from(*high) * 256 + u64::from(*low);
        rest = tail;
    }
    if let [last] = rest {
        sum += u64::from(*last) * 256;
    }
    sum
}

// The sum of the words of two addresses of IPv4.
fn words_v4(from: [u8; 4], to: [u8; 4]) -> u64
    ensures value { result ≡ word_sum from + word_sum to }
    ensures bound { result ≤ 32 * 65536 }
{
    word_sum(&from) + word_sum(&to)
}

// The sum of the words of two addresses of IPv6.
fn words_v6(from: [u8; 16], to: [u8; 16]) -> u64
    ensures value { result ≡ word_sum from + word_sum to }
    ensures bound { result ≤ 32 * 65536 }
{
    word_sum(&from) + word_sum(&to)
}

// The sum of the words of both addresses.
fn address_words(path: &Pseudo) -> u64
    ensures value { result ≡ address_words path.now }
    ensures bound { result ≤ 32 * 65536 }
{
    match *path {
        Pseudo::V4 { from, to } => words_v4(from, to),
        Pseudo::V6 { from, to } => words_v6(from, to),
    }
}

fn missing_word(wanted: u64, held: u64) -> u16
    requires { wanted ≤ 2 ^ 32 }
    ensures { result ≡ missing_word wanted held }
{
    ((wanted + (65535 - held % 65535)) % 65535) as u16
}

/// A name for the peer of this path, which goes from the owner's address to the peer's, at a listener of IPv4 at the
/// address `own`. Each turn gives another name. The port is that of the peer's packets. Between `own` and the name,
/// packets have the same checksums as on the path, since both pairs of addresses count the same in the checksum (RFC
/// 4340, section 9.1; own). The owner keeps the table of names, and gives each peer one that no other has.
pub fn stand_in(own: [u8; 4], path: &Pseudo, port: u16, turn: u16) -> Peer
    ensures { result ≡ stand_in own path.now port turn }
{
    let word = missing_word(address_words(path), word_sum(&own) + u64::from(turn));
    let [first, second] = turn.to_be_bytes();
    let [third, fourth] = word.to_be_bytes();
    Peer {
        address: [first, second, third, fourth],
        port,
    }
}

/// Packets between addresses with the same sum have the same verdict and get the same checksum, and a stand-in has the
/// sum of its peer's path. So a listener treats the packets of a stand-in as it would treat those of the peer (own; RFC
/// 1071).
pub fn stand_ins_are_read_as_their_peers()
    ensures alike { EqualSumsReadAlike }
    ensures counted { StandInsCountAlike }
{}
