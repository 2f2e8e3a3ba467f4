//! The extension headers of IPv6 before DCCP (RFC 8200, section 4).
ghost use Rattle.std.specs.Prelude.{◌≡◌, ◌++◌, ◌+◌, ◌≤◌, length, option_map, true, IfOk, IfSome, OnOk};
ghost use Rattle.byteorder.specs.Endian.{big_bytes};
ghost use Rattle.dccp_packets.specs.Grammar.{number_at};
ghost use Rattle.capture_reader.specs.Records.{bytes_at};
ghost use Rattle.bridge_links.specs.Extensions as spec;

use crate::numbers::read_u16;
use byteorder::{BigEndian, ByteOrder};
use capture_reader::rest_after;
use seq_circle::NoMemory;
use std::alloc::Global;
use tool_text::put;

/// The header after the extension headers of an IPv6 packet.
#[derive(Clone, Copy)]
pub struct Upper {
    /// Its protocol.
    pub kind: u8,
    /// Where it begins.
    pub place: usize,
    /// Where the address of the packet's last destination begins.
    pub to: usize,
}

const IPV6_HEADER: usize = 40;

const NEXT_HEADER: usize = 6;

const PAYLOAD_LENGTH: usize = 4;

const HOP_LIMIT: usize = 7;

const DESTINATION: usize = 24;

const ADDRESS: usize = 16;

// The headers that are skipped.
const HOP_BY_HOP: u8 = 0;

const ROUTING: u8 = 43;

const DESTINATION_OPTIONS: u8 = 60;

// The types of Routing headers that have whole addresses.
const SOURCE_ROUTE: u8 = 0;

const HOME_ADDRESS: u8 = 2;

const SEGMENT_LIST: u8 = 4;

const DCCP: u8 = 33;

// The most extension headers that are skipped.
const MOST_EXTENSIONS: u8 = 16;

fn is_extension(kind: u8) -> bool
    ensures { result ≡ spec.is_extension kind }
{
    kind == HOP_BY_HOP || kind == ROUTING || kind == DESTINATION_OPTIONS
}

// The bytes of the extension header at a place.
fn extension_size(place: usize, bytes: &[u8]) -> usize
    requires { place + 2 ≤ length bytes.now }
    ensures value { result ≡ spec.extension_size place bytes.now }
    ensures fits { result ≤ 2048 }
{
    8 + 8 * usize::from(bytes[place + 1])
}

// The place of the last address of a Routing header, if it has room for one.
fn last_address(place: usize, to: usize, bytes: &[u8]) -> usize
    requires room { place + 8 ≤ length bytes.now }
    requires long { 24 ≤ spec.extension_size place bytes.now }
    requires before { to + 16 ≤ place }
    ensures value { result ≡ spec.last_address place to bytes.now }
    ensures inside { result + 16 ≤ place + spec.extension_size place bytes.now }
{
    match bytes[place + 2] {
        SEGMENT_LIST => place + 8,
        SOURCE_ROUTE | HOME_ADDRESS => place + extension_size(place, bytes) - ADDRESS,
        _ => to,
    }
}

// The place of the packet's last destination, after this header.
fn destination_after(kind: u8, place: usize, to: usize, bytes: &[u8]) -> usize
    requires room { place + 8 ≤ length bytes.now }
    requires before { to + 16 ≤ place }
    ensures value { result ≡ spec.destination_after kind place to bytes.now }
    ensures inside { result + 16 ≤ place + spec.extension_size place bytes.now }
{
    if kind != ROUTING || bytes[place + 3] == 0 || bytes[place + 1] == 0 || bytes[place + 1] == 1 {
        return to;
    }
    last_address(place, to, bytes)
}

// The header at this place, if all before it was captured and it is not one to skip.
fn upper_at(kind: u8, place: usize, to: usize, bytes: &[u8]) -> Option<Upper>
    ensures { result ≡ spec.upper_at kind place to bytes.now }
{
    if is_extension(kind) || bytes.len() < place {
        return None;
    }
    Some(Upper { kind, place, to })
}

/// The header after the extension headers of an IPv6 packet, of which at most 16 are skipped. None means that they were
/// not captured whole, or are more.
pub fn upper_of(bytes: &[u8]) -> Option<Upper>
    requires { 40 ≤ length bytes.now }
    ensures value { result ≡ spec.upper_of bytes.now }
    ensures inside { IfSome result (λ u. (40 ≤ u.place) × (u.to + 16 ≤ u.place) × (u.place ≤ length bytes.now)) }
{
    let mut kind = bytes[NEXT_HEADER];
    let mut place = IPV6_HEADER;
    let mut to = DESTINATION;
    let mut left = MOST_EXTENSIONS;
    while 0 < left && is_extension(kind) && place + 8 <= bytes.len() {
        let next = bytes[place];
        to = destination_after(kind, place, to, bytes);
        place += extension_size(place, bytes);
        kind = next;
        left -= 1;
    }
    upper_at(kind, place, to, bytes)
}

/// The packet is IPv6, and has an extension header after its own.
pub(crate) fn is_extended(ip: &[u8]) -> bool
    ensures value { result ≡ spec.is_extended ip.now }
    ensures long { result ≡ true → 40 ≤ length ip.now }
{
    IPV6_HEADER <= ip.len() && ip[0] / 16 == 6 && is_extension(ip[NEXT_HEADER])
}

// DCCP is there, and the packet's length includes all before it.
fn holds_dccp(upper: &Upper, ip: &[u8]) -> bool
    requires { 40 ≤ length ip.now }
    ensures value { result ≡ spec.holds_dccp upper.now ip.now }
    ensures before { result ≡ true → upper.now.place ≤ 40 + number_at 4 2 ip.now }
{
    upper.kind == DCCP && upper.place <= IPV6_HEADER + usize::from(read_u16(ip, PAYLOAD_LENGTH))
}

// Puts a number of 16 bits.
fn put_u16(text: &mut Vec<u8>, value: u16) -> Result<(), NoMemory>
    ensures { OnOk result (text.new.items ≡ text.old.items ++ big_bytes 2 value) }
{
    let mut piece = [0; 2];
    BigEndian::write_u16(&mut piece, value);
    put(text, &piece)
}

// This many bytes from a place on.
fn bytes_at(bytes: &[u8], place: usize, count: usize) -> &[u8]
    requires { place + count ≤ length bytes.now }
    ensures { result.now ≡ bytes_at place count bytes.now }
{
    &bytes[place..place + count]
}

// The payload length of the packet without its extension headers.
fn plain_length(upper: &Upper, ip: &[u8]) -> u16
    requires long { 40 ≤ length ip.now }
    requires after { 40 ≤ upper.now.place }
    requires before { upper.now.place ≤ 40 + number_at 4 2 ip.now }
    ensures { result ≡ spec.plain_length upper.now ip.now }
{
    let length = usize::from(read_u16(ip, PAYLOAD_LENGTH));
    (length - (upper.place - IPV6_HEADER)) as u16
}

// The packet whose header of DCCP is at this place, with nothing between the two headers, and with its last
// destination.
#[tactic(auto, unfolding(crate::specs::Extensions::without_extensions))]
fn without_extensions(alloc: Global, upper: &Upper, ip: &[u8]) -> Result<Vec<u8>, NoMemory>
    requires long { 40 ≤ length ip.now }
    requires after { 40 ≤ upper.now.place }
    requires before { upper.now.place ≤ 40 + number_at 4 2 ip.now }
    requires to { upper.now.to + 16 ≤ upper.now.place }
    requires inside { upper.now.place ≤ length ip.now }
    ensures { IfOk result (λ plain. plain.items ≡ spec.without_extensions upper.now ip.now) }
{
    let mut plain = Vec::new(alloc);
    put(&mut plain, bytes_at(ip, 0, PAYLOAD_LENGTH))?;
    put_u16(&mut plain, plain_length(upper, ip))?;
    put(&mut plain, &[DCCP])?;
    put(&mut plain, bytes_at(ip, HOP_LIMIT, DESTINATION - HOP_LIMIT))?;
    put(&mut plain, bytes_at(ip, upper.to, ADDRESS))?;
    put(&mut plain, rest_after(ip, upper.place))?;
    Ok(plain)
}

/// An IPv6 packet without the extension headers before DCCP, or None if it has none that lead to DCCP. NoMemory means
/// that no memory was left.
#[tactic(auto, using(crate::proofs::Lengths::without_fits))]
pub(crate) fn shortened(alloc: Global, ip: &[u8]) -> Result<Option<Vec<u8>>, NoMemory>
    requires { 40 ≤ length ip.now }
    ensures value { IfOk result (λ plain. spec.plain_or (option_map (λ text. text.items) plain) ip.now ≡ spec.plain_by (spec.upper_of ip.now) ip.now) }
    ensures fits { IfOk result (λ plain. IfSome plain (λ text. length text.items ≤ length ip.now)) }
{
    match upper_of(ip) {
        Some(upper) if holds_dccp(&upper, ip) => Ok(Some(without_extensions(alloc, &upper, ip)?)),
        Some(_) | None => Ok(None),
    }
}
