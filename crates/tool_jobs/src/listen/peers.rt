//! Peers, as lines have them.
ghost use Rattle.std.specs.Prelude.{◌≡◌, ◌++◌, OnOk};
ghost use Rattle.tool_text.specs.Numbers.{number_below};
ghost use Rattle.tool_text.specs.Words.{parted_by};
ghost use Rattle.tool_jobs.specs.Peers as spec;

use dccp_listener::Peer;
use seq_circle::NoMemory;
use tool_text::{
    Flaw, LineWhy, WordKind, first_piece, found_or, number_up_to, put_counted, put_v4,
};

// A number of an address.
fn byte_of(text: &[u8]) -> Option<u8>
    ensures { result ≡ number_below 256 text.now }
{
    let number = number_up_to(255, text)?;
    Some(number as u8)
}

fn port_of(text: &[u8]) -> Option<u16>
    ensures { result ≡ number_below 65536 text.now }
{
    let number = number_up_to(65_535, text)?;
    Some(number as u16)
}

// The numbers of an address, if each is one.
fn bytes_of(first: &[u8], second: &[u8], third: &[u8], fourth: &[u8]) -> Option<[u8; 4]>
    ensures { result ≡ spec.all_four (number_below 256 first.now) (number_below 256 second.now) (number_below 256 third.now) (number_below 256 fourth.now) }
{
    let first = byte_of(first)?;
    let second = byte_of(second)?;
    let third = byte_of(third)?;
    let fourth = byte_of(fourth)?;
    Some([first, second, third, fourth])
}

#[tactic(auto, using(crate::proofs::Parts::five_parts))]
fn address_of(text: &[u8]) -> Option<[u8; 4]>
    ensures { result ≡ spec.address_of_parts (parted_by 46 text.now) }
{
    let (first, rest) = first_piece(b'.', text);
    let (second, rest) = first_piece(b'.', rest?);
    let (third, rest) = first_piece(b'.', rest?);
    let (fourth, rest) = first_piece(b'.', rest?);
    match rest {
        None => bytes_of(first, second, third, fourth),
        Some(_) => None,
    }
}

/// The peer that a word such as `10.0.0.1:40000` spells, or None if it spells none (own): an address and a port in
/// decimal, without leading zeros.
#[tactic(auto, using(crate::proofs::Parts::three_parts))]
pub fn peer_of(word: &[u8]) -> Option<Peer>
    ensures { result ≡ spec.peer_of word.now }
{
    let (address, rest) = first_piece(b':', word);
    let (port, rest) = first_piece(b':', rest?);
    match rest {
        None => {
            let address = address_of(address)?;
            let port = port_of(port)?;
            Some(Peer { address, port })
        }
        Some(_) => None,
    }
}

/// A peer: its address and its port in decimal, as `10.0.0.1:40000`.
pub(crate) struct PeerWord;

impl<'a> WordKind<'a> for PeerWord {
    type Read = Peer;

    ghost reads = { spec.peer_kind.reads };

    fn read(word: &'a [u8]) -> Result<Peer, Flaw> {
        found_or(LineWhy::BadPeer, peer_of(word))
    }
}

/// Puts a peer as it is in its line (own). NoMemory means that no memory was left.
#[tactic(auto, unfolding(crate::specs::Peers::peer_text))]
pub fn put_peer(text: &mut Vec<u8>, peer: Peer) -> Result<(), NoMemory>
    ensures { OnOk result (text.new.items ≡ text.old.items ++ spec.peer_text peer) }
{
    put_v4(text, peer.address)?;
    put_counted(text, b":", u64::from(peer.port))
}
