//! More options in a packet that goes out.
//!
//! A packet that was read is written again with a longer option area. So no byte is moved by hand, and its own options
//! read as before: they are padded with zeros, which list nothing.
ghost use Rattle.std.specs.Prelude.{◌≡◌, ◌≤◌, IsTrue, length};
ghost use Rattle.std.specs.Bool.{OnTrue};
ghost use Rattle.dccp_endpoint.specs.Incoming.{parts_of_packet};
ghost use Rattle.dccp_endpoint.specs.Lengthening.{lengthened, says_more};
ghost use Rattle.dccp_packets.specs.Grammar.{HeaderFits, is_valid};

use crate::connection::MOST_DATA_BYTES;
use crate::sealing::seal_frame;
use arrayvec::ArrayVec;
use dccp_packets::{Frame, Packet, encode};
use dccp_sum::Pseudo;

// An option area with what is said after it.
type Area = ArrayVec<u8, 1264>;

/// Writes the packet with more options after its own, if there are any and it has room, and sets its checksum again: a
/// Data Offset counts 1,020 bytes at most (RFC 4340, section 5.1). True exactly if it did.
pub fn lengthen(packet: &Packet<'_>, more: &[u8], pseudo: &Pseudo, longer: &mut Frame) -> bool
    requires valid { IsTrue (is_valid packet.now.header) }
    requires area { length packet.now.options.now ≤ 1008 }
    requires short { length more.now ≤ 256 }
    ensures says { result ≡ says_more (parts_of_packet packet.now) more.now }
    ensures written { OnTrue result (longer.new ≡ lengthened pseudo.now (parts_of_packet packet.now) more.now) }
{
    if more.is_empty() || MOST_DATA_BYTES < packet.payload.len() {
        return false;
    }
    let mut area = Area::new();
    let _ = area.try_extend_from_slice(packet.options);
    let _ = area.try_extend_from_slice(more);
    let Ok(()) = encode(&packet.header, area.as_slice(), packet.payload, longer) else {
        return false;
    };
    seal_frame(pseudo, longer);
    true
}
