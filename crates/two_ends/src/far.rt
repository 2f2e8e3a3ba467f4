//! Which frames with short numbers are too far from the numbers that their receiver sent and received for it to read
//! them in full (RFC 4340, section 7.6).
ghost use Rattle.std.specs.Prelude.{◌≡◌, ◌||◌};
ghost use Rattle.seq_circle.specs.Circle.{is_ack_far, is_far};
ghost use Rattle.two_ends.specs.Frames.{is_short_packet, packet_of};
ghost use Rattle.two_ends.specs.World.{is_far_frame};

use crate::SentFrame;
use congestion_trait::Congestion;
use dccp_endpoint::Endpoint;
use dccp_packets::{Number, decode};
use seq_circle::Seq48;
use validity_windows::Marks;

// Looks first at the end, and then at the frame's numbers, which are known: so a frame is decoded only if one of them
// is far.
#[tactic(auto, using(crate::proofs::OfWorlds::Forms::none_is_far, crate::proofs::OfWorlds::Forms::form_decides))]
pub(crate) fn is_far_frame<C: Congestion>(end: &Endpoint<C>, frame: &SentFrame) -> bool
    ensures { result ≡ is_far_frame end.now.state frame.now }
{
    if !end.takes_short() {
        return false;
    }
    has_far_numbers(frame, &end.marks()) && is_short_packet(frame.bytes.as_slice())
}

// The bytes are a packet with short numbers.
fn is_short_packet(bytes: &[u8]) -> bool
    ensures { result ≡ is_short_packet (packet_of bytes.now) }
{
    match decode(bytes) {
        Ok(packet) => matches!(packet.header.number, Number::Short(_)),
        Err(_) => false,
    }
}

// Whether a number of the frame is far from the reference by which it would be read.
fn has_far_numbers(frame: &SentFrame, marks: &Marks) -> bool
    ensures { result ≡ (is_far frame.now.number marks.now.gsr || is_ack_far frame.now.ack marks.now.gss) }
{
    frame.number.is_far(marks.gsr) || is_ack_far(frame.ack, marks.gss)
}

fn is_ack_far(ack: Option<Seq48>, reference: Seq48) -> bool
    ensures { result ≡ is_ack_far ack reference }
{
    match ack {
        Some(ack) => ack.is_far(reference),
        None => false,
    }
}
