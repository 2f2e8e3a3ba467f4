//! The record of a frame.
ghost use Rattle.std.specs.Prelude.{◌≡◌, ◌+◌, ◌/◌, ◌%◌, ◌≤◌, ◌++◌, length, OnOk};
ghost use Rattle.bridge_command.specs.FrameReading.{travels};
ghost use Rattle.bridge_records.specs.Writing.{header_for, raw_record};
ghost use Rattle.bridge_command.specs.FrameRecords as spec;

use bridge_records::{put_record_header, put_u16};
use byteorder::{BigEndian, ByteOrder};
use capture_reader::RecordHeader;
use dccp_listener::Peer;
use dccp_sum::Pseudo;
use seq_circle::NoMemory;
use tool_text::{Digits, put};
use world_events::Side;

const IP_HEADER: u16 = 20;

// 10.0.0.1 and 10.0.0.2.
const CLIENT: u32 = 167_772_161;

const SERVER: u32 = 167_772_162;

// Version 4, a header of five words, and no type of service.
const IP_BEGIN: [u8; 2] = [0x45, 0];

// No identification, Don't Fragment, 64 hops, and DCCP.
const IP_MIDDLE: [u8; 6] = [0, 0, 0x40, 0, 64, 33];

// The sum of all words of the header except the length, the checksum and the addresses.
const SUM_ALONE: u32 = 0xc521;

/// The way of a frame: the addresses that it travels between, as numbers.
#[derive(Clone, Copy)]
pub(crate) struct Travel {
    from: u32,
    to: u32,
}

// The address of a side.
fn address(side: Side) -> u32
    ensures { result ≡ spec.address side }
{
    match side {
        Side::Client => CLIENT,
        Side::Server => SERVER,
    }
}

// The address of a peer.
fn peer_address(peer: Peer) -> u32
    ensures { result ≡ spec.peer_address peer }
{
    BigEndian::read_u32(&peer.address)
}

impl Travel {
    /// From a side to the other.
    pub(crate) fn of(from: Side) -> Travel
        ensures { result ≡ spec.travel_of from }
    {
        Travel {
            from: address(from),
            to: address(from.other()),
        }
    }

    /// From a listener to a peer.
    pub(crate) fn to(peer: Peer) -> Travel
        ensures { result ≡ spec.travel_to peer }
    {
        Travel {
            from: SERVER,
            to: peer_address(peer),
        }
    }

    /// From a peer to a listener.
    pub(crate) fn from(peer: Peer) -> Travel
        ensures { result ≡ spec.travel_from peer }
    {
        Travel {
            from: peer_address(peer),
            to: SERVER,
        }
    }

    /// The addresses that a checksum of the frame counts.
    pub(crate) fn pseudo(self) -> Pseudo
        ensures { result ≡ travels self }
    {
        Pseudo::V4 {
            from: self.from.to_be_bytes(),
            to: self.to.to_be_bytes(),
        }
    }
}

// The sum of both words of an address.
fn words_of(address: u32) -> u32
    ensures value { result ≡ address / 65536 + address % 65536 }
    ensures low { result ≤ 131070 }
{
    address / 0x1_0000 + address % 0x1_0000
}

// The checksum of the header of an IPv4 packet of this many bytes.
#[tactic(auto, using(crate::proofs::HeaderSum::header_sum))]
fn ip_checksum(travel: Travel, total: u16) -> u16
    requires { total ≤ 2068 }
    ensures { result ≡ spec.ip_checksum travel total }
{
    let sum = SUM_ALONE + u32::from(total) + words_of(travel.from) + words_of(travel.to);
    0xffff - (1 + (sum - 1) % 0xffff) as u16
}

// Puts the header of an IPv4 packet in front of its addresses.
fn put_ip_front(text: &mut Vec<u8>, sum: u16, total: u16) -> Result<(), NoMemory>
    ensures { OnOk result (text.new.items ≡ text.old.items ++ spec.ip_front sum total) }
{
    put(text, &IP_BEGIN)?;
    put_u16(text, total)?;
    put(text, &IP_MIDDLE)?;
    put_u16(text, sum)
}

// Puts both addresses of a packet.
fn put_addresses(text: &mut Vec<u8>, travel: Travel) -> Result<(), NoMemory>
    ensures { OnOk result (text.new.items ≡ text.old.items ++ spec.both_addresses travel) }
{
    put(text, &travel.from.to_be_bytes())?;
    put(text, &travel.to.to_be_bytes())
}

// Puts the header of an IPv4 packet of this many bytes.
fn put_ip_header(text: &mut Vec<u8>, travel: Travel, total: u16) -> Result<(), NoMemory>
    requires { total ≤ 2068 }
    ensures { OnOk result (text.new.items ≡ text.old.items ++ spec.ip_header travel total) }
{
    put_ip_front(text, ip_checksum(travel, total), total)?;
    put_addresses(text, travel)
}

// The header of the record of a frame that is given as digits.
#[tactic(auto, using(crate::proofs::FrameCarrying::packet_length))]
fn frame_header(seconds: u32, travel: Travel, frame: &Digits<'_>) -> RecordHeader
    ensures { result ≡ header_for (spec.frame_record (record { seconds = seconds; travel = travel; frame = frame.now })) }
{
    let size = u32::from(IP_HEADER) + frame.len() as u32;
    RecordHeader {
        seconds,
        fraction: 0,
        captured: size,
        original: size,
    }
}

// The header of the record of a frame.
#[tactic(auto, using(crate::proofs::FrameCarrying::packet_length))]
fn frame_header_of(seconds: u32, travel: Travel, frame: &[u8]) -> RecordHeader
    requires { length frame.now ≤ 2044 }
    ensures { result ≡ header_for (spec.frame_record (record { seconds = seconds; travel = travel; frame = frame.now })) }
{
    let size = u32::from(IP_HEADER) + frame.len() as u32;
    RecordHeader {
        seconds,
        fraction: 0,
        captured: size,
        original: size,
    }
}

// Puts the bytes that these digits are: they are decoded in the text.
fn put_digits(text: &mut Vec<u8>, digits: &Digits<'_>) -> Result<(), NoMemory>
    ensures { OnOk result (text.new.items ≡ text.old.items ++ digits.now) }
{
    let begin = text.len();
    text.resize(begin + digits.len(), 0)?;
    digits.put(&mut text[begin..]);
    Ok(())
}

// Puts the packet of a frame that is given as digits.
#[tactic(auto, unfolding(crate::specs::FrameRecords::ip_packet))]
fn put_packet(text: &mut Vec<u8>, travel: Travel, frame: &Digits<'_>) -> Result<(), NoMemory>
    ensures { OnOk result (text.new.items ≡ text.old.items ++ spec.ip_packet travel frame.now) }
{
    put_ip_header(text, travel, IP_HEADER + frame.len() as u16)?;
    put_digits(text, frame)
}

// Puts the packet of a frame.
#[tactic(auto, unfolding(crate::specs::FrameRecords::ip_packet))]
fn put_packet_of(text: &mut Vec<u8>, travel: Travel, frame: &[u8]) -> Result<(), NoMemory>
    requires { length frame.now ≤ 2044 }
    ensures { OnOk result (text.new.items ≡ text.old.items ++ spec.ip_packet travel frame.now) }
{
    put_ip_header(text, travel, IP_HEADER + frame.len() as u16)?;
    put(text, frame)
}

/// Puts the record of a frame that was sent this way at this time: a packet of IPv4, captured whole. NoMemory comes if
/// no memory was left, here and below.
pub(crate) fn put_record(
    text: &mut Vec<u8>,
    seconds: u32,
    travel: Travel,
    frame: &Digits<'_>,
) -> Result<(), NoMemory>
    ensures { OnOk result (text.new.items ≡ text.old.items ++ raw_record (spec.frame_record (record { seconds = seconds; travel = travel; frame = frame.now }))) }
{
    let header = frame_header(seconds, travel, frame);
    put_record_header(text, &header)?;
    put_packet(text, travel, frame)
}

/// Puts the record of a frame that came this way at this time.
pub(crate) fn put_record_of(
    text: &mut Vec<u8>,
    seconds: u32,
    travel: Travel,
    frame: &[u8],
) -> Result<(), NoMemory>
    requires { length frame.now ≤ 2044 }
    ensures { OnOk result (text.new.items ≡ text.old.items ++ raw_record (spec.frame_record (record { seconds = seconds; travel = travel; frame = frame.now }))) }
{
    let header = frame_header_of(seconds, travel, frame);
    put_record_header(text, &header)?;
    put_packet_of(text, travel, frame)
}
