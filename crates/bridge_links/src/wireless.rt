//! Where IP begins in a frame of a wireless network (IEEE 802.11, sections 9.2 and 9.3.2; radiotap).
ghost use Rattle.std.specs.Prelude.{◌≡◌, ◌+◌, ◌≤◌, ◌<◌, length, IfSome};
ghost use Rattle.bridge_links.specs.Wireless as spec;

use crate::ether_types::ip_after_tags;
use crate::numbers::read_u16;
use crate::starts::start_after;
use byteorder::{BigEndian, ByteOrder};
use capture_reader::{Order, rest_after};

// What the first bytes say: version 0 and type 2 in four bits, and in the subtype the bit for no data and the bit for
// quality of service.
const DATA: u8 = 8;

const NO_DATA: u8 = 64;

const QUALITY: u8 = 128;

// The flags of a frame from one access point to another, and the flag for four bytes more.
const BETWEEN: u8 = 3;

const ORDER: u8 = 128;

// The flag of several packets, in the first byte of quality of service.
const AGGREGATE: u8 = 128;

// aaaa03 and a zero: the first of the bytes before a type of Ethernet.
const SNAP: u32 = 0xaaaa_0300;

// The least bytes of a frame with a type of Ethernet.
const LEAST: usize = 32;

// The frame carries data.
fn is_data_frame(bytes: &[u8]) -> bool
    requires { 32 ≤ length bytes.now }
    ensures { result ≡ spec.is_data_frame bytes.now }
{
    bytes[0] % 16 == DATA && bytes[0] / NO_DATA % 2 == 0
}

fn has_quality(bytes: &[u8]) -> bool
    requires { 32 ≤ length bytes.now }
    ensures { result ≡ spec.has_quality bytes.now }
{
    QUALITY <= bytes[0]
}

// How many bytes there are up to the last address.
fn front_bytes(bytes: &[u8]) -> usize
    requires { 32 ≤ length bytes.now }
    ensures value { result ≡ spec.front_bytes bytes.now }
    ensures fits { result ≤ 30 }
{
    if bytes[1] % 4 == BETWEEN { 30 } else { 24 }
}

// How many bytes come after them, before what the frame carries.
fn quality_bytes(bytes: &[u8]) -> usize
    requires { 32 ≤ length bytes.now }
    ensures value { result ≡ spec.quality_bytes bytes.now }
    ensures fits { result ≤ 6 }
{
    if !has_quality(bytes) {
        return 0;
    }
    if ORDER <= bytes[1] { 6 } else { 2 }
}

// How many bytes come before the first of several packets.
fn aggregate_bytes(bytes: &[u8]) -> usize
    requires { 32 ≤ length bytes.now }
    ensures value { result ≡ spec.aggregate_bytes bytes.now }
    ensures fits { result ≤ 14 }
{
    if has_quality(bytes) && AGGREGATE <= bytes[front_bytes(bytes)] {
        14
    } else {
        0
    }
}

// A type of Ethernet follows the six bytes here.
fn is_snap(place: usize, bytes: &[u8]) -> bool
    requires { place + 8 ≤ length bytes.now }
    ensures { result ≡ spec.is_snap place bytes.now }
{
    BigEndian::read_u32(&bytes[place..]) == SNAP && read_u16(bytes, place + 4) == 0
}

// IP after them and the type.
fn ip_after_snap(place: usize, bytes: &[u8]) -> Option<usize>
    requires { place ≤ 56 }
    ensures value { result ≡ spec.ip_after_snap place bytes.now }
    ensures within { IfSome result (λ n. n < length bytes.now) }
{
    if bytes.len() < place + 8 {
        return None;
    }
    if !is_snap(place, bytes) {
        return None;
    }
    ip_after_tags(read_u16(bytes, place + 6), place + 8, bytes)
}

// IP in a frame that carries data.
fn ip_in_frame(bytes: &[u8]) -> Option<usize>
    requires { 32 ≤ length bytes.now }
    ensures value { result ≡ spec.ip_in_frame bytes.now }
    ensures within { IfSome result (λ n. n < length bytes.now) }
{
    let header = front_bytes(bytes) + quality_bytes(bytes);
    let aggregate = aggregate_bytes(bytes);
    match ip_after_snap(header + aggregate, bytes) {
        Some(start) => Some(start),
        None => ip_after_snap((header + 3) / 4 * 4 + aggregate, bytes),
    }
}

/// IP in a frame of a wireless network.
#[tactic(auto, unfolding(crate::specs::Wireless::ip_in_wireless))]
pub(crate) fn ip_in_wireless(bytes: &[u8]) -> Option<usize>
    ensures value { result ≡ spec.ip_in_wireless bytes.now }
    ensures within { IfSome result (λ n. n < length bytes.now) }
{
    if bytes.len() < LEAST || !is_data_frame(bytes) {
        return None;
    }
    ip_in_frame(bytes)
}

// How many bytes the radio's header of a frame has.
fn radio_bytes(bytes: &[u8]) -> usize
    requires { 4 ≤ length bytes.now }
    ensures { result ≡ spec.radio_bytes bytes.now }
{
    usize::from(Order::Little.read_u16(bytes, 2))
}

/// IP in a frame after the radio's header.
#[tactic(auto, unfolding(crate::specs::Wireless::ip_after_radio))]
pub(crate) fn ip_after_radio(bytes: &[u8]) -> Option<usize>
    ensures value { result ≡ spec.ip_after_radio bytes.now }
    ensures within { IfSome result (λ n. n < length bytes.now) }
{
    if bytes.len() < 4 || bytes[0] != 0 {
        return None;
    }
    let size = radio_bytes(bytes);
    if bytes.len() < size {
        return None;
    }
    start_after(size, ip_in_wireless(rest_after(bytes, size)), bytes)
}
