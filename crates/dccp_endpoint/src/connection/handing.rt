//! What an end hands to its congestion control (RFC 4340, sections 10 and 11.4).
ghost use Rattle.std.specs.Prelude.{◌≡◌, ℕ, [], Option, Ok, true, false};
ghost use Rattle.feature_lists.specs.declared.features.Feature.TheVariants as feature;
ghost use Rattle.feature_lists.specs.declared.features.Place.TheVariants as place;
ghost use Rattle.dccp_endpoint.specs.Congesting.{calls_for, report_calls, reported_from, start_calls};
ghost use Rattle.dccp_endpoint.specs.Controlled.{after_calls};
ghost use Rattle.dccp_endpoint.specs.End.{value_in};
ghost use Rattle.dccp_endpoint.specs.Heeding.{ReadingState, heeds};
ghost use Rattle.dccp_endpoint.specs.Silent.{IsFirstOf};

use crate::heeding::{FirstVector, silent_options};
use crate::incoming::IncomingPacket;
use congestion_trait::Congestion;
use dccp_options::{AckReport, options};
use dccp_packets::PacketType;
use feature_lists::{Feature, Place};
use feature_machine::Negotiation;
use seq_circle::Seq48;

// The CCID here: 2 or 248.
#[tactic(auto, using(crate::proofs::Handing::ccid_fits))]
fn ccid(rows: &Negotiation) -> u8
    ensures { result ≡ value_in rows.now feature.Ccid place.Here }
{
    let held = rows.held(Feature::Ccid, Place::Here);
    held.value as u8
}

// The Ack Ratio here, at most 65,535.
#[tactic(auto, using(crate::proofs::Handing::ratio_fits))]
fn ratio(rows: &Negotiation) -> u16
    ensures { result ≡ value_in rows.now feature.AckRatio place.Here }
{
    let held = rows.held(Feature::AckRatio, Place::Here);
    held.value as u16
}

/// The number from which a packet of this type reports what its sender received: the one that it acknowledges. None for
/// a Sync, which may acknowledge any number (own; RFC 4340, section 11.4).
pub fn reported_from(kind: PacketType, ack: Option<Seq48>) -> Option<Seq48>
    ensures { result ≡ reported_from kind ack }
{
    match kind {
        PacketType::Sync => None,
        PacketType::Request
        | PacketType::Response
        | PacketType::Data
        | PacketType::Ack
        | PacketType::DataAck
        | PacketType::CloseReq
        | PacketType::Close
        | PacketType::Reset
        | PacketType::SyncAck => ack,
    }
}

// A packet's report, if it has one, with the Ack Ratio of these rows.
fn report<C: Congestion>(packet: &IncomingPacket<'_>, rows: &Negotiation, congestion: &mut C)
    ensures { congestion.new ≡ after_calls C.control congestion.old
        (report_calls (reported_from packet.now.kind packet.now.ack) packet.now.options (value_in rows.now feature.AckRatio place.Here)) }
{
    let Some(ack) = reported_from(packet.kind, packet.ack) else {
        return;
    };
    let list = options(packet.options, packet.kind.is_data());
    if let Some(report) = AckReport::of(ack, list) {
        congestion.on_report(&report, ratio(rows));
    }
}

// If the CCID changes, starts the congestion control with the new one, if it knows that.
fn start<C: Congestion>(old: u8, new: u8, congestion: &mut C)
    ensures { congestion.new ≡ after_calls C.control congestion.old (start_calls old new) }
{
    if old != new && congestion.knows(new) {
        congestion.start(new);
    }
}

// Hands over what is due for a packet, by the rows before and after it.
pub(crate) fn hand_over<C: Congestion>(
    packet: &IncomingPacket<'_>,
    old: &Negotiation,
    new: &Negotiation,
    congestion: &mut C,
)
    ensures { congestion.new ≡ after_calls C.control congestion.old (calls_for packet.now old.now new.now) }
{
    report(packet, new, congestion);
    start(ccid(old), ccid(new), congestion);
}

// The report of a packet's Ack Vectors, if it has one, by the first of them, with the Ack Ratio of these rows.
fn report_first<C: Congestion>(
    packet: &IncomingPacket<'_>,
    first: Option<FirstVector<'_>>,
    rows: &Negotiation,
    congestion: &mut C,
)
    requires { IsFirstOf first [] packet.now.options }
    ensures { congestion.new ≡ after_calls C.control congestion.old
        (report_calls (reported_from packet.now.kind packet.now.ack) packet.now.options (value_in rows.now feature.AckRatio place.Here)) }
{
    let Some(first) = first else {
        return;
    };
    if let Some(ack) = reported_from(packet.kind, packet.ack) {
        let report = AckReport::from_first(ack, first.data, first.following);
        congestion.on_report(&report, ratio(rows));
    }
}

// Hands over what is due for a packet whose options have no fault and say nothing to the rows, as is usual: then no CCID
// changes. False if they have or say anything; then nothing is handed over.
pub(crate) fn hand_over_silent<C: Congestion>(
    packet: &IncomingPacket<'_>,
    count: bool,
    rows: &Negotiation,
    congestion: &mut C,
) -> bool
    ensures silent { result ≡ true → (ack : Option ℕ) (heeding : ReadingState) → heeds count ack heeding packet.now.options ≡ Ok heeding }
    ensures handed { result ≡ true → congestion.new ≡ after_calls C.control congestion.old (calls_for packet.now rows.now rows.now) }
    ensures idle { result ≡ false → congestion.new ≡ congestion.old }
{
    // By two walks, each of which knows its kind of packet.
    let found = if packet.kind.is_data() {
        silent_options(packet.options, true, count)
    } else {
        silent_options(packet.options, false, count)
    };
    let Some(first) = found else {
        return false;
    };
    report_first(packet, first, rows, congestion);
    true
}
