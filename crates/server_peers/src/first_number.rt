//! The first number of a flow, drawn from a key.
ghost use Rattle.std.specs.Prelude.{◌≡◌, ◌+◌, ◌≤◌, ◌++◌, length};
ghost use Rattle.byteorder.specs.Endian.{big_bytes};
ghost use Rattle.server_peers.specs.FirstNumbers.{keyed_number, named_ends};

use arrayvec::ArrayVec;
use byteorder::{BigEndian, ByteOrder};
use dccp_endpoint::Seq48;
use dccp_listener::Peer;
use init_cookies::keyed_hash;

// The addresses and ports of both ends.
type Ends = ArrayVec<u8, 12>;

// An address and its port.
fn put_end(address: [u8; 4], port: u16, out: &mut Ends)
    requires { length out.old.items ≤ 6 }
    ensures value { out.new.items ≡ (out.old.items ++ address) ++ big_bytes 2 port }
    ensures long { length out.new.items ≤ length out.old.items + 6 }
{
    let mut bytes = [0; 2];
    BigEndian::write_u16(&mut bytes, port);
    let _ = out.try_extend_from_slice(&address);
    let _ = out.try_extend_from_slice(&bytes);
}

// The text from which the first number of a connection between these ends is drawn, besides the key.
fn named_ends(own_address: [u8; 4], own_port: u16, peer: Peer) -> Ends
    ensures { result.items ≡ named_ends own_address own_port peer }
{
    let mut ends = ArrayVec::new();
    put_end(own_address, own_port, &mut ends);
    put_end(peer.address, peer.port, &mut ends);
    ends
}

/// The first number of a flow of this peer that begins now, in milliseconds (RFC 4340, section 7.2; own): 48 bits of a keyed
/// hash of the addresses and ports of both ends, plus a clock of four microseconds (RFC 1948). Nobody without the key
/// can guess it, and a later connection of the same ends begins higher.
pub fn keyed_number(
    key: &[u8; 32],
    own_address: [u8; 4],
    own_port: u16,
    peer: Peer,
    now: u64,
) -> Seq48
    ensures { result ≡ keyed_number key.now own_address own_port peer now }
{
    let ends = named_ends(own_address, own_port, peer);
    let hash = keyed_hash(key, ends.as_slice());
    match Seq48::new(BigEndian::read_u48(&hash)) {
        Some(drawn) => drawn.add(now % (1 << 48) * 250),
        None => unreachable!(),
    }
}
