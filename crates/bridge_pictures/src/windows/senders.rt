//! CCID 2, given what is seen of a sender.
ghost use Rattle.std.specs.Prelude.{◌≡◌, ◌≤◌, length};
ghost use Rattle.packet_show.specs.Lines.{parts_by};
ghost use Rattle.bridge_pictures.specs.Senders as spec;

use crate::windows::chart::Counts;
use ccid_two::Ccid2;
use congestion_trait::Congestion;
use dccp_options::{AckReport, options};
use dccp_packets::{Header, Number, Packet, PacketType};
use seq_circle::Seq48;

// The Ack Ratio of the usual ends (RFC 4340, section 11.3).
const RATIO: u16 = 2;

// A packet of data that is counted: its number, if that has 48 bits.
fn data_number(header: &Header) -> Option<Seq48>
    ensures { result ≡ spec.data_number header.now }
{
    match (header.kind.packet_type(), header.number) {
        (PacketType::Data | PacketType::DataAck, Number::Long(number)) => Some(number),
        _ => None,
    }
}

// The number from which the Ack Vectors of a packet report; the number that a Sync acknowledges may be any.
fn vectors_from(header: &Header) -> Option<Seq48>
    ensures { result ≡ spec.vectors_from header.now }
{
    match (header.kind.packet_type(), header.number) {
        (PacketType::Sync, _) | (_, Number::Short(_)) => None,
        (_, Number::Long(_)) => header.kind.ack(),
    }
}

/// The sender sent a packet.
#[tactic(auto, unfolding(crate::specs::Senders::send_seen))]
pub(crate) fn see_sent(sender: &mut Ccid2, header: &Header)
    ensures { sender.new ≡ spec.send_seen sender.old header.now }
{
    if let Some(number) = data_number(header) {
        if sender.may_send() {
            sender.on_sent(number);
        }
    }
}

/// A packet came to the sender.
#[tactic(auto, unfolding(crate::specs::Senders::report_seen))]
pub(crate) fn see_report(sender: &mut Ccid2, packet: &Packet<'_>)
    requires { length packet.now.options.now ≤ 1008 }
    ensures { sender.new ≡ spec.report_seen sender.old (parts_by packet.now) }
{
    let Some(ack) = vectors_from(&packet.header) else {
        return;
    };
    let list = options(packet.options, packet.header.kind.packet_type().is_data());
    if let Some(report) = AckReport::of(ack, list) {
        sender.on_report(&report, RATIO);
    }
}

/// What the sender counts.
pub(crate) fn counts_seen(sender: &Ccid2) -> Counts
    ensures { result ≡ spec.counts_seen sender.now }
{
    Counts {
        window: sender.window(),
        flight: sender.in_flight(),
    }
}
