//! The places of the fields, and their readers (RFC 4340, section 5).
ghost use Rattle.std.specs.Prelude.{true, ◌≡◌, ◌+◌, ◌*◌, ◌/◌, ◌%◌, ◌^◌, ◌<◌, ◌≤◌, IsTrue, length, slice_index};
ghost use Rattle.dccp_packets.specs.declared.header.PacketType.TheVariants as types;
ghost use Rattle.dccp_packets.specs.Grammar.{HoldsHeader, ack_in, data_offset_bytes, has_long_numbers, header_of, kind_of, long_ack, number_at, number_in, type_code};

use crate::{Header, Kind, Number, PacketType};
use byteorder::{BigEndian, ByteOrder};
use seq_circle::{Seq24, Seq48};

pub(crate) const SOURCE_PORT: usize = 0;

pub(crate) const DESTINATION_PORT: usize = 2;

pub(crate) const DATA_OFFSET: usize = 4;

pub(crate) const COVERAGE: usize = 5;

pub(crate) const CHECKSUM: usize = 6;

pub(crate) const TYPE: usize = 8;

// Long numbers follow reserved bytes, and so does a short acknowledgement.
const SHORT_NUMBER: usize = 9;

const LONG_NUMBER: usize = 10;

const SHORT_ACK: usize = 13;

const LONG_ACK: usize = 18;

const REQUEST_SERVICE: usize = 16;

const RESPONSE_SERVICE: usize = 24;

const RESET_CODE: usize = 24;

const RESET_DETAIL: usize = 25;

// CCVal and CsCov, and the code of the type, are numbers of four bits.
pub(crate) const NIBBLE: u8 = 16;

// X is the lowest bit of its byte, below the type.
pub(crate) const X: u8 = 2;

// The Data Offset counts words of 32 bits.
pub(crate) const WORD: usize = 4;

// The place where the options end and the data begin.
pub(crate) fn data_offset_bytes(bytes: &[u8]) -> usize
    requires { 12 ≤ length bytes.now }
    ensures value { result ≡ data_offset_bytes bytes.now }
{
    usize::from(bytes[DATA_OFFSET]) * WORD
}

// The code of the type, 0 to 15.
pub(crate) fn type_code(bytes: &[u8]) -> u8
    requires { 12 ≤ length bytes.now }
    ensures { result ≡ type_code bytes.now }
{
    bytes[TYPE] / X % NIBBLE
}

// Whether X is 1.
pub(crate) fn has_long_numbers(bytes: &[u8]) -> bool
    requires { 12 ≤ length bytes.now }
    ensures { result ≡ has_long_numbers bytes.now }
{
    bytes[TYPE] % X == 1
}

fn long_at(bytes: &[u8], place: usize) -> Seq48
    requires { place + 6 ≤ length bytes.now }
    ensures { result ≡ number_at place 6 bytes.now }
{
    match Seq48::new(BigEndian::read_u48(&bytes[place..])) {
        Some(number) => number,
        None => unreachable!(),
    }
}

fn short_at(bytes: &[u8], place: usize) -> Seq24
    requires { place + 3 ≤ length bytes.now }
    ensures { result ≡ number_at place 3 bytes.now }
{
    match Seq24::new(BigEndian::read_u24(&bytes[place..])) {
        Some(number) => number,
        None => unreachable!(),
    }
}

fn number(long: bool, bytes: &[u8]) -> Number
    requires { HoldsHeader long types.Data bytes.now }
    ensures { result ≡ number_in long bytes.now }
{
    if long {
        Number::Long(long_at(bytes, LONG_NUMBER))
    } else {
        Number::Short(short_at(bytes, SHORT_NUMBER))
    }
}

fn ack(long: bool, bytes: &[u8]) -> Number
    requires { HoldsHeader long types.Ack bytes.now }
    ensures { result ≡ ack_in long bytes.now }
{
    if long {
        Number::Long(long_at(bytes, LONG_ACK))
    } else {
        Number::Short(short_at(bytes, SHORT_ACK))
    }
}

// What a Reset carries.
fn reset(bytes: &[u8]) -> Kind
    requires { 28 ≤ length bytes.now }
    ensures { result ≡ kind_of types.Reset true bytes.now }
{
    Kind::Reset {
        ack: long_at(bytes, LONG_ACK),
        code: bytes[RESET_CODE],
        detail: [
            bytes[RESET_DETAIL],
            bytes[RESET_DETAIL + 1],
            bytes[RESET_DETAIL + 2],
        ],
    }
}

fn kind(packet_type: PacketType, long: bool, bytes: &[u8]) -> Kind
    requires { HoldsHeader long packet_type bytes.now }
    ensures { result ≡ kind_of packet_type long bytes.now }
{
    match packet_type {
        PacketType::Request => Kind::Request {
            service: BigEndian::read_u32(&bytes[REQUEST_SERVICE..]),
        },
        PacketType::Response => Kind::Response {
            ack: long_at(bytes, LONG_ACK),
            service: BigEndian::read_u32(&bytes[RESPONSE_SERVICE..]),
        },
        PacketType::Data => Kind::Data,
        PacketType::Ack => Kind::Ack {
            ack: ack(long, bytes),
        },
        PacketType::DataAck => Kind::DataAck {
            ack: ack(long, bytes),
        },
        PacketType::CloseReq => Kind::CloseReq {
            ack: long_at(bytes, LONG_ACK),
        },
        PacketType::Close => Kind::Close {
            ack: long_at(bytes, LONG_ACK),
        },
        PacketType::Reset => reset(bytes),
        PacketType::Sync => Kind::Sync {
            ack: long_at(bytes, LONG_ACK),
        },
        PacketType::SyncAck => Kind::SyncAck {
            ack: long_at(bytes, LONG_ACK),
        },
    }
}

// The header of a packet that has its whole fixed part.
pub(crate) fn header(packet_type: PacketType, long: bool, bytes: &[u8]) -> Header
    requires { HoldsHeader long packet_type bytes.now }
    ensures { result ≡ header_of packet_type long bytes.now }
{
    Header {
        from: BigEndian::read_u16(&bytes[SOURCE_PORT..]),
        to: BigEndian::read_u16(&bytes[DESTINATION_PORT..]),
        ccval: bytes[COVERAGE] / NIBBLE,
        cscov: bytes[COVERAGE] % NIBBLE,
        checksum: BigEndian::read_u16(&bytes[CHECKSUM..]),
        number: number(long, bytes),
        kind: kind(packet_type, long, bytes),
    }
}
