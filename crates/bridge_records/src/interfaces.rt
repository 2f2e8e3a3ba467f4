//! The interfaces of a section, and how they count time.
ghost use Rattle.std.specs.Prelude.{◌≡◌, ◌+◌, ◌-◌, ◌*◌, ◌/◌, ◌%◌, ◌≤◌, ◌<◌, length, IfSome};
ghost use Rattle.bridge_records.specs.Interfaces as spec;
ghost use Rattle.bridge_records.specs.Interfaces.{front_of, needs_nanos, units_of, seconds_of, nanos_of, fraction_of};

use crate::pieces::PieceFault;
use capture_reader::{Order, rest_after};

/// An interface of a section.
#[derive(Clone, Copy)]
pub(crate) struct Interface {
    /// The link type of its packets.
    pub(crate) link: u32,
    /// The most captured bytes of a packet; 0 for any number.
    pub(crate) most: u32,
    /// How many units of time a second has: this power of ten, or from 128 on a power of two.
    pub(crate) resolution: u8,
    /// The seconds that come before its times, a number with a sign.
    pub(crate) offset: u64,
}

// Options: how time is counted, and the seconds before all times.
const RESOLUTION: u16 = 9;

const OFFSET: u16 = 14;

// The power of ten of a second if no option says otherwise.
const MICROSECONDS: u8 = 6;

// The place of the first option of this code. Four bytes more follow the options.
fn option_place(order: Order, code: u16, options: &[u8]) -> Option<usize>
    requires { length options.now ≤ 524288 }
    ensures value { result ≡ spec.option_place order code options.now }
    ensures within { IfSome result (λ n. n + 8 ≤ length options.now) }
{
    let mut place = 0;
    while place + 8 <= options.len() {
        let kind = order.read_u16(options, place);
        if kind == 0 {
            return None;
        }
        if kind == code {
            return Some(place);
        }
        let size = order.read_u16(options, place + 2) as usize;
        place += 4 + (size + 3) / 4 * 4;
    }
    None
}

// The value of the option at this place has this many bytes, and all of them are there.
fn has_value(order: Order, size: u16, place: usize, options: &[u8]) -> bool
    requires there { place + 8 ≤ length options.now }
    requires short { length options.now ≤ 524288 }
    ensures { result ≡ spec.has_value order size place options.now }
{
    order.read_u16(options, place + 2) == size && place + (size as usize + 8) <= options.len()
}

// How time is counted, by these options.
fn resolution_in(order: Order, options: &[u8]) -> u8
    requires { length options.now ≤ 524288 }
    ensures { result ≡ spec.resolution_at order (spec.option_place order 9 options.now) options.now }
{
    match option_place(order, RESOLUTION, options) {
        Some(place) if has_value(order, 1, place, options) => options[place + 4],
        _ => MICROSECONDS,
    }
}

// The seconds before all times, by these options.
fn offset_in(order: Order, options: &[u8]) -> u64
    requires { length options.now ≤ 524288 }
    ensures { result ≡ spec.offset_at order (spec.option_place order 14 options.now) options.now }
{
    match option_place(order, OFFSET, options) {
        Some(place) if has_value(order, 8, place, options) => order.read_u64(options, place + 4),
        _ => 0,
    }
}

/// The number in the first two bytes of this one: a link type, or an interface.
pub(crate) fn front_of(order: Order, first: u32) -> u32
    ensures { result ≡ front_of order first }
{
    match order {
        Order::Big => first / 65_536,
        Order::Little => first % 65_536,
    }
}

/// The interface of a block whose body begins with this number, by the rest of the block.
pub(crate) fn interface_of(order: Order, first: u32, bytes: &[u8]) -> Result<Interface, PieceFault>
    requires { length bytes.now ≤ 524288 }
    ensures { result ≡ spec.interface_of order first bytes.now }
{
    if bytes.len() < 8 {
        return Err(PieceFault::BadBlock);
    }
    let link = front_of(order, first);
    let options = rest_after(bytes, 4);
    Ok(Interface {
        link,
        most: order.read_u32(bytes, 0),
        resolution: resolution_in(order, options),
        offset: offset_in(order, options),
    })
}

/// Microseconds are too coarse for an interface's times.
pub(crate) fn needs_nanos(resolution: u8) -> bool
    ensures { result ≡ needs_nanos resolution }
{
    if resolution < 128 {
        6 < resolution
    } else {
        134 < resolution
    }
}

/// How many units a second has, if their number has at most 64 bits.
#[tactic(auto, using(crate::proofs::Times::ten_fits))]
pub(crate) fn units_of(resolution: u8) -> Option<u64>
    ensures value { result ≡ units_of resolution }
    ensures some { IfSome result (λ n. 0 < n) }
{
    if resolution < 20 {
        return Some(10_u64.pow(u32::from(resolution)));
    }
    if 128 <= resolution && resolution < 192 {
        return Some(1 << (resolution - 128));
    }
    None
}

/// The seconds of a time of this many units.
pub(crate) fn seconds_of(units: u64, offset: u64, ticks: u64) -> u32
    requires { 0 < units }
    ensures { result ≡ seconds_of units offset ticks }
{
    ((ticks / units).wrapping_add(offset) % (1 << 32)) as u32
}

// The nanoseconds after them.
#[tactic(auto, using(crate::proofs::Times::nanos_fit))]
fn nanos_of(units: u64, ticks: u64) -> u32
    requires { 0 < units }
    ensures { result ≡ nanos_of units ticks }
{
    (u128::from(ticks % units) * 1_000_000_000 / u128::from(units)) as u32
}

/// The nanoseconds or microseconds after them.
pub(crate) fn fraction_of(nanos: bool, units: u64, ticks: u64) -> u32
    requires { 0 < units }
    ensures { result ≡ fraction_of nanos units ticks }
{
    let fraction = nanos_of(units, ticks);
    if nanos { fraction } else { fraction / 1_000 }
}
