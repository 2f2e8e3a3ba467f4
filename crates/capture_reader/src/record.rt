//! Records, and how many bytes they need.
ghost use Rattle.std.specs.Prelude.{◌≡◌, ◌≢◌, ◌+◌, ◌≤◌, ◌<◌, ◌^◌, [], drop, length, IfOk, IfErr, IfSome};
ghost use Rattle.capture_reader.specs.State.{IsOfRecords};
ghost use Rattle.capture_reader.specs.Records.{missing, record_header, header_in};
ghost use Rattle.capture_reader.specs.declared.fault.CaptureFault.TheVariants.{ReadFault};

use crate::{CaptureFault, Order};

/// One record of a capture, with its bytes lent from the reader's block until the next record is asked for.
#[derive(Clone, Copy)]
pub struct Record<'a> {
    /// The record's number, counted from 1.
    pub number: u64,
    /// When it was captured, in seconds since 1970.
    pub seconds: u32,
    /// The microseconds or nanoseconds after these seconds, as they are in the capture.
    pub fraction: u32,
    /// Whether `fraction` counts nanoseconds.
    pub nanos: bool,
    /// The link type: 1 for Ethernet, 101 for raw IP.
    pub link: u32,
    /// How many bytes the packet had on its link.
    pub original: u32,
    /// The bytes that were captured, at most 262,144.
    pub bytes: &'a [u8],
}

/// What a record's header says (the savefile format of libpcap).
#[derive(Clone, Copy)]
pub struct RecordHeader {
    /// When it was captured, in seconds since 1970.
    pub seconds: u32,
    /// The microseconds or nanoseconds after these seconds.
    pub fraction: u32,
    /// How many bytes were captured.
    pub captured: u32,
    /// How many bytes the packet had.
    pub original: u32,
}

impl RecordHeader {
    /// What the 16 bytes of a header in this byte order say.
    pub fn read(order: Order, bytes: &[u8]) -> RecordHeader
        requires { 16 ≤ length bytes.now }
        ensures { result ≡ record_header order bytes.now }
    {
        RecordHeader {
            seconds: order.read_u32(bytes, SECONDS),
            fraction: order.read_u32(bytes, FRACTION),
            captured: order.read_u32(bytes, CAPTURED),
            original: order.read_u32(bytes, ORIGINAL),
        }
    }
}

/// The bytes after the first `count` (own).
pub fn rest_after(bytes: &[u8], count: usize) -> &[u8]
    requires { count ≤ length bytes.now }
    ensures { result.now ≡ drop count bytes.now }
{
    &bytes[count..]
}

/// The bytes of a record's header.
pub(crate) const RECORD_HEADER: usize = 16;

/// The most bytes of a record that a reader gives.
pub const MOST_CAPTURED: usize = 262_144;

/// The most bytes of a capture that count.
pub const MOST_CAPTURE_BYTES: u64 = 4_294_967_296;

const SECONDS: usize = 0;

const FRACTION: usize = 4;

const CAPTURED: usize = 8;

const ORIGINAL: usize = 12;

// What is wrong if `count` bytes are needed, `size` are there, and only the next `room` are within the limit.
pub(crate) fn missing(count: usize, room: u64, size: usize) -> Option<CaptureFault>
    requires { count ≤ 2 ^ 32 }
    ensures value { result ≡ missing count room size }
    ensures fits { result ≡ None → (count ≤ size) × (count ≤ room) }
    ensures of_records { IfSome result (λ why. IsOfRecords why × (why ≢ ReadFault)) }
{
    if (size as u64) < (count as u64).min(room) {
        return Some(CaptureFault::CutShort);
    }
    if room < count as u64 {
        return Some(CaptureFault::TooLarge);
    }
    None
}

// The header of the record that begins here, if `room` bytes count; None if nothing begins.
pub(crate) fn header_in(
    order: Order,
    room: u64,
    bytes: &[u8],
) -> Result<Option<RecordHeader>, CaptureFault>
    ensures value { result ≡ header_in order room bytes.now }
    ensures fits { IfOk result (λ header. IfSome header (λ _. (16 ≤ length bytes.now) × (16 ≤ room))) }
    ensures none { IfOk result (λ header. header ≡ None → bytes.now ≡ []) }
    ensures of_records { IfErr result (λ why. IsOfRecords why × (why ≢ ReadFault)) }
{
    if bytes.is_empty() {
        return Ok(None);
    }
    match missing(RECORD_HEADER, room, bytes.len()) {
        Some(fault) => Err(fault),
        None => Ok(Some(RecordHeader::read(order, bytes))),
    }
}
