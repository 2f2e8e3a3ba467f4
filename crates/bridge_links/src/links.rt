//! Where the IP packet of a record begins, by the link type.
ghost use Rattle.std.specs.Prelude.{◌≡◌, ◌+◌, ◌≤◌, ◌<◌, length, IfSome};
ghost use Rattle.bridge_links.specs.Links as spec;
ghost use Rattle.bridge_links.specs.Links.{captured_ip, ip_at_first, ip_by_type, ip_in_inner, ip_in_loop, ip_in_null, ip_in_ppp, ip_of_family, ip_of_later_link, ip_of_link, ip_start};

use crate::ether_types::{ip_after_tags, ip_of_protocol};
use crate::labels::ip_in_labels;
use crate::logs::ip_in_log;
use crate::numbers::read_u16;
use crate::starts::{ip_at, ip_at_either, start_after};
use crate::wireless::{ip_after_radio, ip_in_wireless};
use byteorder::{BigEndian, ByteOrder, LittleEndian};
use capture_reader::{Order, rest_after};

// The address and the control byte that may come before a protocol of PPP.
const PPP_CONTROL: u16 = 0xff03;

// A record that may have another record in it.
const OUTER: u32 = 258;

// The number that says that it has one.
const HAS_INNER: u32 = 1;

// IP of either version begins with the record.
fn ip_at_first(bytes: &[u8]) -> Option<usize>
    ensures value { result ≡ ip_at_first bytes.now }
    ensures within { IfSome result (λ n. n < length bytes.now) }
{
    ip_at_either(0, bytes)
}

// A frame of PPP.
fn ip_in_ppp(bytes: &[u8]) -> Option<usize>
    ensures value { result ≡ ip_in_ppp bytes.now }
    ensures within { IfSome result (λ n. n < length bytes.now) }
{
    if bytes.len() < 4 {
        return None;
    }
    match read_u16(bytes, 0) {
        PPP_CONTROL => ip_of_protocol(read_u16(bytes, 2), 4, bytes),
        protocol => ip_of_protocol(protocol, 2, bytes),
    }
}

// The type is at one place of the link's header, and its packet is after the header.
fn ip_by_type(place: usize, header: usize, bytes: &[u8]) -> Option<usize>
    requires place { place + 2 ≤ header }
    requires header { header ≤ 32 }
    ensures value { result ≡ ip_by_type place header bytes.now }
    ensures within { IfSome result (λ n. n < length bytes.now) }
{
    if bytes.len() < header {
        return None;
    }
    ip_after_tags(read_u16(bytes, place), header, bytes)
}

// The address families of IP: 2 of IPv4, and 10, 24, 28 or 30 of IPv6, by the system that captured.
fn ip_of_family(family: u32, bytes: &[u8]) -> Option<usize>
    ensures value { result ≡ ip_of_family family bytes.now }
    ensures within { IfSome result (λ n. n < length bytes.now) }
{
    match family {
        2 => ip_at(4, 4, bytes),
        10 | 24 | 28 | 30 => ip_at(6, 4, bytes),
        _ => None,
    }
}

// The family comes first, with the most significant byte first.
fn ip_in_loop(bytes: &[u8]) -> Option<usize>
    ensures value { result ≡ ip_in_loop bytes.now }
    ensures within { IfSome result (λ n. n < length bytes.now) }
{
    if bytes.len() < 4 {
        return None;
    }
    ip_of_family(BigEndian::read_u32(bytes), bytes)
}

// The family comes first, in the byte order of the system that captured.
fn ip_in_null(bytes: &[u8]) -> Option<usize>
    ensures value { result ≡ ip_in_null bytes.now }
    ensures within { IfSome result (λ n. n < length bytes.now) }
{
    if bytes.len() < 4 {
        return None;
    }
    match ip_of_family(BigEndian::read_u32(bytes), bytes) {
        Some(start) => Some(start),
        None => ip_of_family(LittleEndian::read_u32(bytes), bytes),
    }
}

// Where the IP packet begins in a record without another in it, or None if it has none.
fn ip_of_link(link: u32, bytes: &[u8]) -> Option<usize>
    ensures value { result ≡ ip_of_link link bytes.now }
    ensures within { IfSome result (λ n. n < length bytes.now) }
{
    match link {
        0 => ip_in_null(bytes),
        1 => ip_by_type(12, 14, bytes),
        9 => ip_in_ppp(bytes),
        12 | 101 => ip_at_first(bytes),
        105 => ip_in_wireless(bytes),
        108 => ip_in_loop(bytes),
        _ => ip_of_later_link(link, bytes),
    }
}

// Where the IP packet begins in a record of a link type from 113 on, or None if it has none.
#[tactic(auto, unfolding(crate::specs::Links::ip_of_later_link))]
fn ip_of_later_link(link: u32, bytes: &[u8]) -> Option<usize>
    ensures value { result ≡ ip_of_later_link link bytes.now }
    ensures within { IfSome result (λ n. n < length bytes.now) }
{
    match link {
        113 => ip_by_type(14, 16, bytes),
        127 => ip_after_radio(bytes),
        219 => ip_in_labels(0, bytes),
        228 => ip_at(4, 0, bytes),
        229 => ip_at(6, 0, bytes),
        239 => ip_in_log(bytes),
        276 => ip_by_type(0, 20, bytes),
        _ => None,
    }
}

// How many bytes come before the inner record.
fn outer_bytes(bytes: &[u8]) -> usize
    requires { 12 ≤ length bytes.now }
    ensures { result ≡ spec.outer_bytes bytes.now }
{
    Order::Little.read_u32(bytes, 0) as usize
}

// Where the IP packet begins in the inner record, or None if it has none.
#[tactic(auto, unfolding(crate::specs::Links::ip_in_inner))]
fn ip_in_inner(bytes: &[u8]) -> Option<usize>
    ensures value { result ≡ ip_in_inner bytes.now }
    ensures within { IfSome result (λ n. n < length bytes.now) }
{
    if bytes.len() < 12 {
        return None;
    }
    let size = outer_bytes(bytes);
    if Order::Little.read_u32(bytes, 4) != HAS_INNER || bytes.len() < size {
        return None;
    }
    let link = Order::Little.read_u32(bytes, 8);
    start_after(size, ip_of_link(link, rest_after(bytes, size)), bytes)
}

// Where the IP packet begins in a record of this link type, or None if it has none.
fn ip_start(link: u32, bytes: &[u8]) -> Option<usize>
    ensures value { result ≡ ip_start link bytes.now }
    ensures within { IfSome result (λ n. n < length bytes.now) }
{
    match link {
        OUTER => ip_in_inner(bytes),
        _ => ip_of_link(link, bytes),
    }
}

/// The IP packet in a record of this link type as it was captured, or no bytes if there is none.
pub(crate) fn captured_ip(link: u32, bytes: &[u8]) -> &[u8]
    ensures value { result.now ≡ captured_ip link bytes.now }
    ensures fits { length result.now ≤ length bytes.now }
{
    match ip_start(link, bytes) {
        Some(start) => &bytes[start..],
        None => &[],
    }
}
