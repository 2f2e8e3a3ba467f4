//! What the owner of an end reads in a datagram before its end hears it.
ghost use Rattle.std.specs.Prelude.{◌≡◌, ◌≤◌, Ok, length};
ghost use Rattle.dccp_endpoint.specs.Incoming.{parts_of_packet};
ghost use Rattle.validity_windows.specs.Windows.{InRange};
ghost use Rattle.dccp_uses.specs.Notice.{notice_read, report_base};
ghost use Rattle.dccp_uses.specs.Syncs.{notice_judged, number_judged, number_unanswered, unanswered};

use crate::notice::notice_of;
use crate::{Notice, Reader};
use dccp_endpoint::{Congestion, DecodedDatagram, Endpoint, Marks, Seq48, Why, reported_from};
use dccp_options::options;
use dccp_packets::{Kind, Packet};
use validity_windows::Verdict;

/// What the owner of an end reads in a datagram.
#[derive(Clone, Copy)]
pub(crate) struct Judgement {
    /// The number in full of a packet that would be answered by a Sync.
    pub number: Option<Seq48>,
    /// What it says about the application that reads the end's data.
    pub notice: Notice,
}

// What the windows say of a packet.
#[derive(Clone, Copy)]
struct Placement {
    // Its number, if it would be answered by a Sync.
    unanswered: Option<Seq48>,
    // The number from which it reports.
    base: Option<Seq48>,
}

// A packet of this type with this number in full, if the end takes it.
fn place(marks: &Marks, kind: &Kind, number: Result<Seq48, Why>) -> Placement
    requires { InRange marks.now }
    ensures unanswered { result.unanswered ≡ unanswered marks.now kind.now number }
    ensures base { result.base ≡ report_base marks.now kind.now number }
{
    let (unanswered, base) = match number {
        Ok(number) => match marks.check(kind.packet_type(), number, kind.ack_near(marks.gss)) {
            Verdict::Valid => (
                None,
                reported_from(kind.packet_type(), kind.ack_near(marks.gss)),
            ),
            Verdict::SyncFor(_) => (Some(number), None),
            Verdict::Drop => (None, None),
        },
        Err(_) => (None, None),
    };
    Placement { unanswered, base }
}

fn read<C: Congestion>(end: &Endpoint<C>, reader: &Reader, packet: &Packet<'_>) -> Judgement
    requires { length packet.now.options.now ≤ 1008 }
    ensures number { result.number ≡ number_unanswered end.now.state (Ok (parts_of_packet packet.now)) }
    ensures notice { result.notice ≡ notice_read end.now.state reader.now (Ok (parts_of_packet packet.now)) }
{
    let kind = packet.header.kind;
    let number = end.read_number(&packet.header.number);
    let placing = place(&end.marks(), &kind, number);
    let list = options(packet.options, kind.packet_type().is_data());
    Judgement {
        number: placing.unanswered,
        notice: notice_of(reader, placing.base, list),
    }
}

/// Whether a Sync would answer a datagram, and what it says about the application that reads this end's data (RFC 4340,
/// sections 7.5.4, 11.6 and 11.7).
pub(crate) fn judge<C: Congestion>(
    end: &Endpoint<C>,
    reader: &Reader,
    datagram: &DecodedDatagram<'_>,
) -> Judgement
    ensures number { result.number ≡ number_judged end.now.state datagram.now }
    ensures notice { result.notice ≡ notice_judged end.now.state reader.now datagram.now }
{
    match datagram.packet() {
        Ok(packet) if end.is_live() => read(end, reader, packet),
        Ok(_) | Err(_) => Judgement {
            number: None,
            notice: Notice::none(),
        },
    }
}
