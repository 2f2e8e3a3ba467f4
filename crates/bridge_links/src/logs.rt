//! Where IP begins in a packet that Linux's packet filter logged.
ghost use Rattle.std.specs.Prelude.{◌≡◌, ◌+◌, ◌≤◌, ◌<◌, length, IfSome};
ghost use Rattle.bridge_links.specs.Logs as spec;

use crate::starts::ip_at;
use capture_reader::Order;

// The type of the part that has the packet.
const PAYLOAD: u16 = 9;

// The most parts that are looked at.
const MOST_PARTS: u8 = 32;

// The families of IP as Linux numbers them.
const FAMILY_IPV4: u8 = 2;

const FAMILY_IPV6: u8 = 10;

// The bytes of the part at a place.
fn part_size(order: Order, place: usize, bytes: &[u8]) -> usize
    requires { place + 2 ≤ length bytes.now }
    ensures value { result ≡ spec.part_size order place bytes.now }
    ensures fits { result ≤ 65540 }
{
    (usize::from(order.read_u16(bytes, place)) + 3) / 4 * 4
}

// The place of the packet in a record whose parts have this byte order.
fn payload_place(order: Order, bytes: &[u8]) -> Option<usize>
    ensures { result ≡ spec.payload_place order bytes.now }
{
    let mut place = 4;
    let mut left = MOST_PARTS;
    while 0 < left && place + 4 <= bytes.len() {
        if order.read_u16(bytes, place + 2) == PAYLOAD {
            return Some(place + 4);
        }
        place += part_size(order, place, bytes);
        left -= 1;
    }
    None
}

// IP begins there, of the version of this address family.
fn ip_of_host_family(family: u8, place: Option<usize>, bytes: &[u8]) -> Option<usize>
    ensures value { result ≡ spec.ip_of_host_family family place bytes.now }
    ensures within { IfSome result (λ n. n < length bytes.now) }
{
    let Some(place) = place else {
        return None;
    };
    match family {
        FAMILY_IPV4 => ip_at(4, place, bytes),
        FAMILY_IPV6 => ip_at(6, place, bytes),
        _ => None,
    }
}

// IP in a logged packet whose parts have this byte order.
fn ip_in_order(order: Order, bytes: &[u8]) -> Option<usize>
    requires { 4 ≤ length bytes.now }
    ensures value { result ≡ spec.ip_in_order order bytes.now }
    ensures within { IfSome result (λ n. n < length bytes.now) }
{
    ip_of_host_family(bytes[0], payload_place(order, bytes), bytes)
}

/// IP in a logged packet, in the byte order in which there is one.
pub(crate) fn ip_in_log(bytes: &[u8]) -> Option<usize>
    ensures value { result ≡ spec.ip_in_log bytes.now }
    ensures within { IfSome result (λ n. n < length bytes.now) }
{
    if bytes.len() < 4 {
        return None;
    }
    match ip_in_order(Order::Little, bytes) {
        Some(start) => Some(start),
        None => ip_in_order(Order::Big, bytes),
    }
}
