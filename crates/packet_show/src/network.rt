//! DCCP in captured records: Ethernet, IPv4 (RFC 791, section 3.1) and IPv6 (RFC 8200, section 3).
ghost use Rattle.std.specs.Prelude.{◌≡◌, ◌+◌, ◌≤◌, length, take, IfSome};
ghost use Rattle.capture_reader.specs.Records.{bytes_at};
ghost use Rattle.packet_show.specs.Network.{FitsIp, after_v4, after_v6, carried, carried_by, in_ethernet, in_frame, in_ip, in_v4, in_v6, is_unfragmented, is_v4, is_v6, parts_in, v4_header, v4_total, v6_payload, version};
ghost use Rattle.dccp_packets.specs.Grammar.{number_at};

use byteorder::{BigEndian, ByteOrder};
use capture_reader::rest_after;
use dccp_sum::Pseudo;

/// A DCCP packet in a record, as far as it was captured (own).
#[derive(Clone, Copy)]
pub struct Datagram<'a> {
    /// The addresses between which it travels.
    pub pseudo: Pseudo,
    /// Those of its bytes that were captured, at most 65,535.
    pub bytes: &'a [u8],
    /// Whether these are all that the IP length leaves.
    pub whole: bool,
}

const ETHERNET: u32 = 1;

const RAW_IP: u32 = 101;

const ETHERNET_HEADER: usize = 14;

const ETHERNET_TYPE: usize = 12;

const TYPE_IPV4: u16 = 0x0800;

const TYPE_IPV6: u16 = 0x86dd;

const IPV4_SHORTEST: usize = 20;

const IPV6_HEADER: usize = 40;

// The low 14 bits of the field for fragments: More Fragments and the offset.
const FRAGMENT: u16 = 1 << 14;

const DCCP: u8 = 33;

const WORD: usize = 4;

// The number of 16 bits that is there.
fn read_u16(bytes: &[u8], place: usize) -> u16
    requires { place + 2 ≤ length bytes.now }
    ensures { result ≡ number_at place 2 bytes.now }
{
    BigEndian::read_u16(&bytes[place..])
}

// The address of IPv4 that is there.
fn v4_address(bytes: &[u8], place: usize) -> [u8; 4]
    requires { place + 4 ≤ length bytes.now }
    ensures { result ≡ bytes_at place 4 bytes.now }
{
    let mut address = [0; 4];
    address.copy_from_slice(&bytes[place..place + 4]);
    address
}

// The address of IPv6 that is there.
fn v6_address(bytes: &[u8], place: usize) -> [u8; 16]
    requires { place + 16 ≤ length bytes.now }
    ensures { result ≡ bytes_at place 16 bytes.now }
{
    let mut address = [0; 16];
    address.copy_from_slice(&bytes[place..place + 16]);
    address
}

// The first `count` bytes, or all if there are fewer.
fn front(bytes: &[u8], count: usize) -> &[u8]
    ensures { result.now ≡ take count bytes.now }
{
    &bytes[..count.min(bytes.len())]
}

fn version(bytes: &[u8]) -> u8
    requires { 1 ≤ length bytes.now }
    ensures { result ≡ version bytes.now }
{
    bytes[0] / 16
}

fn v4_header(bytes: &[u8]) -> usize
    requires { 1 ≤ length bytes.now }
    ensures { result ≡ v4_header bytes.now }
{
    usize::from(bytes[0] % 16) * WORD
}

fn v4_total(bytes: &[u8]) -> usize
    requires { 4 ≤ length bytes.now }
    ensures value { result ≡ v4_total bytes.now }
    ensures fits { result ≤ 65535 }
{
    usize::from(read_u16(bytes, 2))
}

fn is_unfragmented(bytes: &[u8]) -> bool
    requires { 8 ≤ length bytes.now }
    ensures { result ≡ is_unfragmented bytes.now }
{
    read_u16(bytes, 6) % FRAGMENT == 0
}

fn is_v4(bytes: &[u8]) -> bool
    ensures { result ≡ is_v4 bytes.now }
{
    IPV4_SHORTEST <= bytes.len()
        && version(bytes) == 4
        && IPV4_SHORTEST <= v4_header(bytes)
        && v4_header(bytes) <= bytes.len()
        && v4_header(bytes) <= v4_total(bytes)
        && is_unfragmented(bytes)
        && bytes[9] == DCCP
}

fn after_v4(bytes: &[u8]) -> Datagram<'_>
    requires captured { 20 ≤ length bytes.now }
    requires header { v4_header bytes.now ≤ length bytes.now }
    requires total { v4_header bytes.now ≤ v4_total bytes.now }
    ensures value { carried_by result ≡ after_v4 bytes.now }
    ensures fits { FitsIp result }
{
    let header = v4_header(bytes);
    let total = v4_total(bytes);
    let from = v4_address(bytes, 12);
    let to = v4_address(bytes, 16);
    Datagram {
        pseudo: Pseudo::V4 { from, to },
        bytes: front(rest_after(bytes, header), total - header),
        whole: total <= bytes.len(),
    }
}

fn in_v4(bytes: &[u8]) -> Option<Datagram<'_>>
    ensures value { parts_in result ≡ in_v4 bytes.now }
    ensures fits { IfSome result FitsIp }
{
    if !is_v4(bytes) {
        return None;
    }
    Some(after_v4(bytes))
}

fn v6_payload(bytes: &[u8]) -> usize
    requires { 6 ≤ length bytes.now }
    ensures value { result ≡ v6_payload bytes.now }
    ensures fits { result ≤ 65535 }
{
    usize::from(read_u16(bytes, 4))
}

fn is_v6(bytes: &[u8]) -> bool
    ensures { result ≡ is_v6 bytes.now }
{
    IPV6_HEADER <= bytes.len() && version(bytes) == 6 && bytes[6] == DCCP
}

fn after_v6(bytes: &[u8]) -> Datagram<'_>
    requires { 40 ≤ length bytes.now }
    ensures value { carried_by result ≡ after_v6 bytes.now }
    ensures fits { FitsIp result }
{
    let payload = v6_payload(bytes);
    let from = v6_address(bytes, 8);
    let to = v6_address(bytes, 24);
    Datagram {
        pseudo: Pseudo::V6 { from, to },
        bytes: front(rest_after(bytes, IPV6_HEADER), payload),
        whole: IPV6_HEADER + payload <= bytes.len(),
    }
}

fn in_v6(bytes: &[u8]) -> Option<Datagram<'_>>
    ensures value { parts_in result ≡ in_v6 bytes.now }
    ensures fits { IfSome result FitsIp }
{
    if !is_v6(bytes) {
        return None;
    }
    Some(after_v6(bytes))
}

fn in_ip(bytes: &[u8]) -> Option<Datagram<'_>>
    ensures value { parts_in result ≡ in_ip bytes.now }
    ensures fits { IfSome result FitsIp }
{
    if is_v4(bytes) {
        return in_v4(bytes);
    }
    in_v6(bytes)
}

fn in_frame(kind: u16, bytes: &[u8]) -> Option<Datagram<'_>>
    ensures value { parts_in result ≡ in_frame kind bytes.now }
    ensures fits { IfSome result FitsIp }
{
    match kind {
        TYPE_IPV4 => in_v4(bytes),
        TYPE_IPV6 => in_v6(bytes),
        _ => None,
    }
}

fn in_ethernet(bytes: &[u8]) -> Option<Datagram<'_>>
    ensures value { parts_in result ≡ in_ethernet bytes.now }
    ensures fits { IfSome result FitsIp }
{
    if bytes.len() < ETHERNET_HEADER {
        return None;
    }
    in_frame(
        read_u16(bytes, ETHERNET_TYPE),
        rest_after(bytes, ETHERNET_HEADER),
    )
}

/// The DCCP packet in a record of this link type, 1 (Ethernet) or 101 (raw IP), or None exactly if there is none: the
/// record is not IPv4 or IPv6 of protocol 33, is a fragment, or has an IP header that was not captured whole or
/// contradicts itself (RFC 791, section 3.1; RFC 8200, section 3).
pub fn carried(link: u32, bytes: &[u8]) -> Option<Datagram<'_>>
    ensures value { parts_in result ≡ carried link bytes.now }
    ensures fits { IfSome result FitsIp }
{
    match link {
        ETHERNET => in_ethernet(bytes),
        RAW_IP => in_ip(bytes),
        _ => None,
    }
}
