//! What the first and last bytes of a pcapng file's blocks say.
ghost use Rattle.std.specs.Prelude.{◌≡◌, ◌+◌, ◌%◌, ◌<◌, ◌≤◌, length, None, IsTrue};
ghost use Rattle.bridge_records.specs.Blocks.{block_head, block_order, ends_block, is_needed_block, is_passed_over, is_read_block, is_section_version, length_fault, section_order};

use crate::pieces::PieceFault;
use capture_reader::Order;

/// What the first twelve bytes of a block say.
#[derive(Clone, Copy)]
pub(crate) struct BlockHead {
    /// Its type.
    pub(crate) kind: u32,
    /// How many bytes it has.
    pub(crate) total: u32,
    /// The first number of its body; if it has no body, its length again.
    pub(crate) first: u32,
}

/// The first block of a section.
pub(crate) const SECTION: u32 = 0x0a0d_0d0a;

/// An interface.
pub(crate) const INTERFACE: u32 = 1;

/// A packet with its interface and time, in the older form of some writers.
pub(crate) const PACKET: u32 = 2;

/// A packet of the first interface, without a time.
pub(crate) const SIMPLE: u32 = 3;

/// A packet with its interface and time.
pub(crate) const ENHANCED: u32 = 6;

const BYTE_ORDER: u32 = 0x1a2b_3c4d;

/// The most bytes of a block that is read.
pub(crate) const MOST_BLOCK: u32 = 524_288;

/// A block of this type is read, and not skipped.
pub(crate) fn is_read_block(kind: u32) -> bool
    ensures { result ≡ is_read_block kind }
{
    matches!(kind, SECTION | INTERFACE | PACKET | SIMPLE | ENHANCED)
}

/// The byte order of a section, from its first twelve bytes, if it has one.
pub(crate) fn section_order(bytes: &[u8]) -> Option<Order>
    requires { 12 ≤ length bytes.now }
    ensures { result ≡ section_order bytes.now }
{
    if Order::Big.read_u32(bytes, 8) == BYTE_ORDER {
        return Some(Order::Big);
    }
    if Order::Little.read_u32(bytes, 8) == BYTE_ORDER {
        return Some(Order::Little);
    }
    None
}

/// The version of a section is there, and is one that is known.
pub(crate) fn is_section_version(order: Order, place: usize, bytes: &[u8]) -> bool
    requires { place + 4 ≤ length bytes.now }
    ensures { result ≡ is_section_version order place bytes.now }
{
    let minor = order.read_u16(bytes, place + 2);
    order.read_u16(bytes, place) == 1 && (minor == 0 || minor == 2)
}

/// What is wrong with the length of a block that has at least this many bytes.
pub(crate) fn length_fault(least: u32, total: u32) -> Option<PieceFault>
    ensures value { result ≡ length_fault least total }
    ensures fits { result ≡ None → (least ≤ total) × (total ≤ 524288) × (total % 4 ≡ 0) }
{
    if total < least || total % 4 != 0 {
        return Some(PieceFault::BadBlock);
    }
    if MOST_BLOCK < total {
        return Some(PieceFault::TooLong);
    }
    None
}

// Blocks of this type say how others are read.
fn is_needed_block(kind: u32) -> bool
    ensures { result ≡ is_needed_block kind }
{
    matches!(kind, SECTION | INTERFACE)
}

/// The block is not needed, and is longer than a block may be that is read: it is skipped piece by piece.
pub(crate) fn is_passed_over(head: &BlockHead) -> bool
    ensures value { result ≡ is_passed_over head.now }
    ensures fits { IsTrue result → (524288 < head.now.total) × (head.now.total % 4 ≡ 0) }
{
    MOST_BLOCK < head.total && head.total % 4 == 0 && !is_needed_block(head.kind)
}

/// The byte order of a block of a section of this one: a further section has its own.
pub(crate) fn block_order(order: Order, bytes: &[u8]) -> Option<Order>
    requires { 12 ≤ length bytes.now }
    ensures { result ≡ block_order order bytes.now }
{
    if order.read_u32(bytes, 0) == SECTION {
        return section_order(bytes);
    }
    Some(order)
}

/// What the first twelve bytes of a block say.
pub(crate) fn block_head(order: Order, bytes: &[u8]) -> BlockHead
    requires { 12 ≤ length bytes.now }
    ensures { result ≡ block_head order bytes.now }
{
    BlockHead {
        kind: order.read_u32(bytes, 0),
        total: order.read_u32(bytes, 4),
        first: order.read_u32(bytes, 8),
    }
}

/// The length of a block is repeated at its end.
pub(crate) fn ends_block(order: Order, total: u32, bytes: &[u8]) -> bool
    requires { 4 ≤ length bytes.now }
    ensures { result ≡ ends_block order total bytes.now }
{
    order.read_u32(bytes, bytes.len() - 4) == total
}
