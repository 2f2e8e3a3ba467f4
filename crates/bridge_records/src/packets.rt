//! What the records of a pcapng file's packets say.
ghost use Rattle.std.specs.Prelude.{◌≡◌, ◌≤◌, length};
ghost use Rattle.bridge_records.specs.Packets as spec;

use crate::interfaces::{Interface, fraction_of, seconds_of, units_of};
use capture_reader::{Order, RecordHeader};

// The time of a packet, in units of its interface.
fn ticks_in(order: Order, bytes: &[u8]) -> u64
    requires { 8 ≤ length bytes.now }
    ensures { result ≡ spec.ticks_in order bytes.now }
{
    u64::from(order.read_u32(bytes, 0)) * (1 << 32) + u64::from(order.read_u32(bytes, 4))
}

/// What the record of a packet of this interface says, from the bytes after the interface's number. None means that the
/// interface counts time in too many units.
pub(crate) fn enhanced_head(
    interface: &Interface,
    nanos: bool,
    order: Order,
    bytes: &[u8],
) -> Option<RecordHeader>
    requires { 16 ≤ length bytes.now }
    ensures { result ≡ spec.enhanced_head interface.now nanos order bytes.now }
{
    let Some(units) = units_of(interface.resolution) else {
        return None;
    };
    let ticks = ticks_in(order, bytes);
    Some(RecordHeader {
        seconds: seconds_of(units, interface.offset, ticks),
        fraction: fraction_of(nanos, units, ticks),
        captured: order.read_u32(bytes, 8),
        original: order.read_u32(bytes, 12),
    })
}

/// What the record of a packet without a time says.
pub(crate) fn simple_head(most: u32, original: u32) -> RecordHeader
    ensures { result ≡ spec.simple_head most original }
{
    let captured = if most == 0 {
        original
    } else {
        original.min(most)
    };
    RecordHeader {
        seconds: 0,
        fraction: 0,
        captured,
        original,
    }
}
