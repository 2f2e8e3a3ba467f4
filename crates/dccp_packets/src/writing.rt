//! A packet's bytes from its parts, and the one reason to refuse them.
//!
//! The contract of `encode` says also that its frame is read back. So no caller has to know the widths of fields after
//! a reference.
ghost use Rattle.std.specs.Prelude.{◌≡◌, ◌+◌, ◌*◌, ◌/◌, ◌%◌, ◌-◌, ◌^◌, ◌<◌, ◌≤◌, ◌↔◌, ◌∷◌, [], ◌++◌, List, ℕ, length, replicate, IsTrue, IsErr, OnOk, OnErr};
ghost use Rattle.byteorder.specs.Endian.{big_bytes};
ghost use Rattle.dccp_packets.specs.declared.header.Header.{Header};
ghost use Rattle.dccp_packets.specs.Beginning.{Begins};
ghost use Rattle.dccp_packets.specs.Grammar.{is_valid, HeaderFits, decoded, header_length, type_byte, number_bytes, long_ack_bytes, ack_bytes, kind_bytes, common_bytes, header_bytes, padded, spelling};

use crate::fields::{
    CHECKSUM, COVERAGE, DATA_OFFSET, DESTINATION_PORT, NIBBLE, SOURCE_PORT, TYPE, WORD, X,
};
use crate::header::detail_has_three;
use crate::{Frame, Header, Kind, Number};
use byteorder::{BigEndian, ByteOrder};
use seq_circle::Seq48;

/// The fixed part and the padded options pass 1,020 bytes, the most that a Data Offset of 8 bits can count (RFC 4340,
/// section 5.1).
#[derive(Clone, Copy, Debug, PartialEq, Eq)]
pub struct OptionsTooLong;

const RESERVED: u8 = 0;

// 255 words, the most that a Data Offset counts, in bytes.
const LONGEST_HEADER: usize = 1020;

/// Writes the packet into `out`, and replaces what was there: the header, the options with zeros up to a multiple of
/// four bytes, and the data. The header must be valid (`Header::valid`), and the data at most 1,024 bytes. Reserved
/// bits are zero, and the checksum is the header's (RFC 4340, section 5). OptionsTooLong comes exactly if the fixed
/// part and the padded options pass 1,020 bytes; then `out` is unchanged.
pub fn encode(
    header: &Header,
    options: &[u8],
    payload: &[u8],
    out: &mut Frame,
) -> Result<(), OptionsTooLong>
    requires valid { IsTrue (is_valid header.now) }
    requires short { length payload.now ≤ 1024 }
    ensures refused { IsErr result ↔ (1020 < header_length header.now + length (padded options.now)) }
    ensures unchanged { OnErr result (out.new ≡ out.old) }
    ensures written { OnOk result (out.new ≡ spelling header.now options.now payload.now) }
    ensures read_back { OnOk result (decoded out.new
        ≡ Ok (record { header = header.now; options = padded options.now; payload = payload.now })) }
    ensures fits { OnOk result (length out.new ≤ 2044) }
{
    let fixed = header.length();
    let filled = options.len() + padding(options);
    if LONGEST_HEADER < fixed + filled {
        return Err(OptionsTooLong);
    }
    header.known_to_fit();
    out.clear();
    put_header(header, ((fixed + filled) / WORD) as u8, out);
    put_padded(options, out);
    out.append(payload);
    Ok(())
}

/// Begins a packet in place of what `out` had: its header, whose Data Offset is still zero. `Frame::append` then writes
/// its options, and `finish` the rest. The header must be valid (`Header::valid`), and its reserved bits are zero (RFC
/// 4340, section 5).
#[inline(always)]
pub fn begin(header: &Header, out: &mut Frame)
    requires { IsTrue (is_valid header.now) }
    ensures begun { Begins header.now [] out.new }
    ensures least { 12 ≤ length out.new }
    ensures most { length out.new ≤ 28 }
{
    header.known_to_fit();
    out.clear();
    put_header(header, 0, out);
}

/// Finishes a packet that has its header and its options, at most 1,020 bytes: zeros up to a multiple of four bytes, the
/// Data Offset, and the data, at most 1,024 bytes. It then has the bytes that `encode` writes (RFC 4340, section 5.1).
pub fn finish(payload: &[u8], out: &mut Frame)
    requires begun { 12 ≤ length out.old }
    requires fits { length out.old ≤ 1020 }
    requires short { length payload.now ≤ 1024 }
    ensures written { (header : Header) (options : List ℕ) → Begins header options out.old → out.new ≡ spelling header options payload.now }
    ensures least { 12 ≤ length out.new }
{
    fill(out);
    let words = (out.bytes().len() / WORD) as u8;
    out.set(DATA_OFFSET, words);
    out.append(payload);
}

// Appends the zeros that fill a packet's header and options up to a word.
fn fill(out: &mut Frame)
    requires { length out.old ≤ 1020 }
    ensures filled { out.new ≡ padded out.old }
    ensures fits { length out.new ≤ 1020 }
    ensures more { length out.old ≤ length out.new }
{
    match padding(out.bytes()) {
        0 => {}
        1 => out.append(&[0]),
        2 => out.append(&[0, 0]),
        _ => out.append(&[0, 0, 0]),
    }
}

// How many zeros fill the options up to a word.
fn padding(options: &[u8]) -> usize
    ensures value { result ≡ (4 - length options.now % 4) % 4 }
    ensures filled { length (padded options.now) ≡ length options.now + result }
{
    (WORD - options.len() % WORD) % WORD
}

fn put_padded(options: &[u8], out: &mut Frame)
    requires { length out.old + length (padded options.now) ≤ 2044 }
    ensures { out.new ≡ out.old ++ padded options.now }
{
    out.append(options);
    out.append(&[0; WORD][..padding(options)]);
}

fn put_u32(value: u32, out: &mut Frame)
    requires { length out.old + 4 ≤ 2044 }
    ensures { out.new ≡ out.old ++ big_bytes 4 value }
{
    let mut piece = [0; 4];
    BigEndian::write_u32(&mut piece, value);
    out.append(&piece);
}

#[inline(always)]
fn put_number(number: &Number, out: &mut Frame)
    requires { length out.old + 7 ≤ 2044 }
    ensures { out.new ≡ out.old ++ number_bytes number.now }
{
    match *number {
        Number::Long(number) => {
            let mut piece = [RESERVED; 7];
            BigEndian::write_u48(&mut piece[1..], number.get());
            out.append(&piece);
        }
        Number::Short(number) => {
            let mut piece = [0; 3];
            BigEndian::write_u24(&mut piece, number.get());
            out.append(&piece);
        }
    }
}

#[inline(always)]
fn put_long_ack(ack: Seq48, out: &mut Frame)
    requires { length out.old + 8 ≤ 2044 }
    ensures { out.new ≡ out.old ++ long_ack_bytes ack }
{
    let mut piece = [RESERVED; 8];
    BigEndian::write_u48(&mut piece[2..], ack.get());
    out.append(&piece);
}

#[inline(always)]
fn put_ack(ack: &Number, out: &mut Frame)
    requires { length out.old + 8 ≤ 2044 }
    ensures { out.new ≡ out.old ++ ack_bytes ack.now }
{
    match *ack {
        Number::Long(ack) => put_long_ack(ack, out),
        Number::Short(ack) => {
            let mut piece = [RESERVED; 4];
            BigEndian::write_u24(&mut piece[1..], ack.get());
            out.append(&piece);
        }
    }
}

#[inline(always)]
fn put_kind(kind: &Kind, out: &mut Frame)
    requires { length out.old + 12 ≤ 2044 }
    ensures { out.new ≡ out.old ++ kind_bytes kind.now }
{
    match *kind {
        Kind::Request { service } => put_u32(service, out),
        Kind::Response { ack, service } => {
            put_long_ack(ack, out);
            put_u32(service, out);
        }
        Kind::Data => {}
        Kind::Ack { ack } | Kind::DataAck { ack } => put_ack(&ack, out),
        Kind::CloseReq { ack } | Kind::Close { ack } | Kind::Sync { ack } | Kind::SyncAck { ack } =>
            put_long_ack(ack, out),
        Kind::Reset { ack, code, detail } => {
            detail_has_three(detail);
            put_long_ack(ack, out);
            out.append(&[code]);
            out.append(&detail);
        }
    }
}

// The nine bytes before the sequence number.
#[inline(always)]
fn common_bytes(header: &Header, words: u8) -> [u8; 9]
    requires { IsTrue (is_valid header.now) }
    ensures { result ≡ common_bytes header.now words }
{
    let mut bytes = [0; 9];
    BigEndian::write_u16(&mut bytes[SOURCE_PORT..], header.from);
    BigEndian::write_u16(&mut bytes[DESTINATION_PORT..], header.to);
    bytes[DATA_OFFSET] = words;
    bytes[COVERAGE] = header.ccval * NIBBLE + header.cscov;
    BigEndian::write_u16(&mut bytes[CHECKSUM..], header.checksum);
    bytes[TYPE] = type_byte(header);
    bytes
}

#[inline(always)]
fn put_header(header: &Header, words: u8, out: &mut Frame)
    requires valid { IsTrue (is_valid header.now) }
    requires fits { HeaderFits header.now }
    requires empty { out.old ≡ [] }
    ensures value { out.new ≡ header_bytes header.now words }
    ensures long { length out.new ≡ header_length header.now }
{
    out.append(&common_bytes(header, words));
    put_number(&header.number, out);
    put_kind(&header.kind, out);
}

// The type above X, which is 1 with long numbers.
fn type_byte(header: &Header) -> u8
    ensures { result ≡ type_byte header.now }
{
    let x = if header.number.is_long() { 1 } else { 0 };
    header.kind.packet_type().code() * X + x
}
