//! Numbers with the most significant byte first.
ghost use Rattle.std.specs.Prelude.{◌≡◌, ◌+◌, ◌≤◌, length};
ghost use Rattle.dccp_packets.specs.Grammar.{number_at};

use byteorder::{BigEndian, ByteOrder};

/// The number of 16 bits that is there, the most significant byte first.
pub fn read_u16(bytes: &[u8], place: usize) -> u16
    requires { place + 2 ≤ length bytes.now }
    ensures { result ≡ number_at place 2 bytes.now }
{
    BigEndian::read_u16(&bytes[place..])
}
