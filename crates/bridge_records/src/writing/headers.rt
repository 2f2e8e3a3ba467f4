//! The headers of a capture and of its records.
ghost use Rattle.std.specs.Prelude.{◌≡◌, ◌++◌, OnOk};
ghost use Rattle.byteorder.specs.Endian.{big_bytes};
ghost use Rattle.bridge_records.specs.Writing.{file_header, magic, record_head};

use byteorder::{BigEndian, ByteOrder};
use capture_reader::{MICROSECONDS, NANOSECONDS, RecordHeader};
use seq_circle::NoMemory;
use tool_text::put;

const VERSION: [u8; 4] = [0, 2, 0, 4];

// The most captured bytes that a record may have for a reader of captures.
const SNAP_LENGTH: u32 = 262_144;

/// The link type of raw IP (the link-layer header types of libpcap).
pub const RAW_IP: u32 = 101;

/// Puts a number of 16 bits. NoMemory comes if the text could not grow.
pub fn put_u16(text: &mut Vec<u8>, value: u16) -> Result<(), NoMemory>
    ensures { OnOk result (text.new.items ≡ text.old.items ++ big_bytes 2 value) }
{
    let mut piece = [0; 2];
    BigEndian::write_u16(&mut piece, value);
    put(text, &piece)
}

fn put_u32(text: &mut Vec<u8>, value: u32) -> Result<(), NoMemory>
    ensures { OnOk result (text.new.items ≡ text.old.items ++ big_bytes 4 value) }
{
    let mut piece = [0; 4];
    BigEndian::write_u32(&mut piece, value);
    put(text, &piece)
}

fn magic(nanos: bool) -> u32
    ensures { result ≡ magic nanos }
{
    if nanos { NANOSECONDS } else { MICROSECONDS }
}

/// Puts the file header of a capture whose fractions are nanoseconds or microseconds: version 2.4, no zone and no
/// accuracy, records of up to 262,144 bytes, and raw IP. NoMemory comes if the text could not grow; then its first
/// bytes may be there.
pub fn put_file_header(text: &mut Vec<u8>, nanos: bool) -> Result<(), NoMemory>
    ensures { OnOk result (text.new.items ≡ text.old.items ++ file_header nanos) }
{
    put_u32(text, magic(nanos))?;
    put(text, &VERSION)?;
    put_u32(text, 0)?;
    put_u32(text, 0)?;
    put_u32(text, SNAP_LENGTH)?;
    put_u32(text, RAW_IP)
}

/// Puts the header of a record. NoMemory comes if the text could not grow; then its first bytes may be there.
pub fn put_record_header(text: &mut Vec<u8>, header: &RecordHeader) -> Result<(), NoMemory>
    ensures { OnOk result (text.new.items ≡ text.old.items ++ record_head header.now) }
{
    put_u32(text, header.seconds)?;
    put_u32(text, header.fraction)?;
    put_u32(text, header.captured)?;
    put_u32(text, header.original)
}
