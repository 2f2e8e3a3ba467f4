//! What became of the data that an end has sent, and how long the next data may be.
ghost use Rattle.std.specs.Prelude.{◌≡◌, ◌≤◌, ◌+◌, ◌↔◌, ◌⊎◌, ℕ, None, Some};
ghost use Rattle.ack_vectors.specs.Vector.{numbers_between};
ghost use Rattle.ccid_two.specs.Kinds.{kinds_control};
ghost use Rattle.congestion_trait.specs.Flight.{Has};
ghost use Rattle.dccp_endpoint.specs.End.{floor_of};
ghost use Rattle.data_dropped.specs.Drops.{drop_code};
ghost use Rattle.dccp_c.specs.Doing.{c_end, drops_in, end_in};
ghost use Rattle.dccp_c.specs.Fates.{IsFate, StandSo, end_alone, left_beside, longest_in, most_beside_data, most_returned, most_vector_bytes};

use crate::end::End;
use crate::held::OwnedEnd;
use ccid_two::Kinds;
use dccp_endpoint::{Endpoint, Feature, MOST_DATA_BYTES, Phase, Place, Seq48, Standing};
use dccp_options::MOST_OPTION_BYTES;
use dccp_uses::{ClientCookie, DropRecord};
use std::alloc::Global;

/// Nothing is known about data under this number: none were sent, or they are no longer remembered.
pub const FATE_UNKNOWN: u32 = 0;

/// They are in flight.
pub const FATE_IN_FLIGHT: u32 = 1;

/// The peer has reported them.
pub const FATE_DELIVERED: u32 = 2;

/// They are counted as lost.
pub const FATE_LOST: u32 = 3;

/// They came, and the peer has reported that it dropped them, with Drop Code 0. The other codes follow: 11 is Drop Code
/// 7 (RFC 4340, section 11.7).
pub const FATE_DROPPED: u32 = 4;

// The header of a DataAck with a long number (RFC 4340, section 5.1).
const LONGEST_HEADER: usize = 24;

// The fate of data that have come, by the code with which they were dropped, if they were.
fn fate_by(code: Option<u8>) -> u32
    ensures delivered { (result ≡ 2) ↔ (code ≡ None) }
    ensures dropped { (c : ℕ) → (result ≡ 4 + c) ↔ (code ≡ Some c) }
    ensures came { (result ≡ 2) ⊎ (4 ≤ result) }
{
    match code {
        Some(code) => FATE_DROPPED + u32::from(code),
        None => FATE_DELIVERED,
    }
}

/// What became of data under this number, by the code that is recorded for it, if one is.
pub(crate) fn fate_in(end: &Endpoint<Kinds>, number: Seq48, code: Option<u8>) -> u32
    ensures { IsFate (λ standing. Has (kinds_control.flight end.now.congestion) number standing) code result }
{
    if end.stands(number, Standing::Reported) {
        fate_by(code)
    } else if end.stands(number, Standing::Lost) {
        FATE_LOST
    } else if end.stands(number, Standing::Out) {
        FATE_IN_FLIGHT
    } else {
        FATE_UNKNOWN
    }
}

// The same by this record, for a number that may not be a packet's.
fn fate_of(end: &Endpoint<Kinds>, drops: &DropRecord, number: u64) -> u32
    ensures { IsFate (StandSo (Some end.now) number) (drop_code drops.now number) result }
{
    match Seq48::new(number) {
        Some(number) => fate_in(end, number, drops.code(number)),
        None => FATE_UNKNOWN,
    }
}

/// What became of the data that were sent under this number: FATE_DELIVERED, FATE_DROPPED and more, FATE_LOST,
/// FATE_IN_FLIGHT or FATE_UNKNOWN, which is also returned if there is no end.
#[unsafe(no_mangle)]
pub extern "C" fn dccp_fate_of(end: &mut End, alloc: Global, number: u64) -> u32
    ensures end { end.new.kept.value ≡ end.old.kept.value }
    ensures fate { IsFate (StandSo (end_alone (end_in end.old.kept.value)) number) (drop_code (drops_in end.old.kept.value) number) result }
{
    let Some(held) = end.take(alloc) else {
        return FATE_UNKNOWN;
    };
    let fate = fate_of(held.timed.end(), &held.drops, number);
    end.put(held);
    fate
}

// The numbers from the floor up to the greatest that was received, which an Ack Vector reports.
fn numbers_told(end: &Endpoint<Kinds>) -> u64
    ensures { result ≡ numbers_between (floor_of end.now.state) end.now.state.marks.gsr }
{
    let (floor, newest) = (end.floor(), end.marks().gsr);
    if newest.is_from(floor) {
        floor.distance(newest) + 1
    } else {
        0
    }
}

fn most_vector_bytes(numbers: u64) -> usize
    ensures { result ≡ most_vector_bytes numbers }
{
    let bytes = numbers.min(MOST_OPTION_BYTES as u64) as usize + 2;
    bytes.div_ceil(4) * 4
}

fn most_beside_data(end: &Endpoint<Kinds>) -> usize
    ensures { result ≡ most_beside_data end.now.state }
{
    if end.held(Feature::SendAckVector, Place::Here).value == 1 {
        LONGEST_HEADER + most_vector_bytes(numbers_told(end))
    } else {
        LONGEST_HEADER
    }
}

/// The longest data of an end whose packet certainly has at most `most` bytes now.
pub(crate) fn longest_in(end: &Endpoint<Kinds>, most: usize) -> usize
    ensures { result ≡ longest_in most (Some end.now) }
{
    most.saturating_sub(most_beside_data(end))
        .min(MOST_DATA_BYTES)
}

// The most bytes that the cookie adds to a frame.
fn most_returned(phase: Phase, cookie: &ClientCookie) -> usize
    ensures { result ≡ most_returned phase cookie.now }
{
    if matches!(phase, Phase::PartOpen) {
        cookie.bytes().min(256).div_ceil(4) * 4
    } else {
        0
    }
}

// How many bytes are left besides its cookie and what its inbox may say.
fn left_beside(held: &OwnedEnd, most: usize) -> usize
    ensures { result ≡ left_beside most (Some (c_end held.now)) }
{
    let beside = held.intake.most_said();
    most.saturating_sub(beside)
        .saturating_sub(most_returned(held.timed.end().phase(), &held.cookie))
}

/// The longest data, up to 1,024 bytes, whose packet certainly has at most `most` bytes now; 0 if there is no end.
#[unsafe(no_mangle)]
pub extern "C" fn dccp_longest_data(end: &mut End, alloc: Global, most: usize) -> usize
    ensures end { end.new.kept.value ≡ end.old.kept.value }
    ensures data { result ≡ longest_in (left_beside most (end_in end.old.kept.value)) (end_alone (end_in end.old.kept.value)) }
{
    let Some(held) = end.take(alloc) else {
        return 0;
    };
    let longest = longest_in(held.timed.end(), left_beside(&held, most));
    end.put(held);
    longest
}
