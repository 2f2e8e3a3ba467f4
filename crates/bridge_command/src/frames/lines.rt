//! The lines of a captured packet in a replay.
ghost use Rattle.std.specs.Prelude.{◌≡◌, ◌+◌, ◌≤◌, [], ◌++◌, Err, Ok, IsTrue, OnOk, drop, length, take};
ghost use Rattle.capture_reader.specs.Records.{entry_of};
ghost use Rattle.dccp_packets.specs.Grammar.{header_length, is_valid, padded, spelling};
ghost use Rattle.packet_show.specs.Network.{carried_by};
ghost use Rattle.packet_show.specs.Lines.{packet_line, parts_by};
ghost use Rattle.bridge_command.specs.FrameLines as spec;
ghost use Rattle.bridge_command.specs.Mapping.{frame_for, frame_with, moved_frame};

use crate::frames::mapping::{NoFrame, UsualEnd, moved_header};
use capture_reader::Record;
use dccp_packets::{Frame, Header, MOST_FRAME_BYTES, Packet, encode};
use packet_show::{Datagram, put_packet};
use seq_circle::{NoMemory, Seq48};
use tool_text::{put, put_hex, put_named};

// The most bytes of a line of a replay.
const LINE: usize = 4096;

// Cuts a comment that begins at this place to what a line has room for, without its newline.
#[tactic(auto, using(crate::proofs::Commenting::comment_kept, crate::proofs::Commenting::comment_cut))]
fn cut_comment(text: &mut Vec<u8>, start: usize) -> Result<(), NoMemory>
    requires { start ≤ length text.old.items }
    ensures { OnOk result (text.new.items ≡ take start text.old.items ++ spec.cut_comment (drop start text.old.items)) }
{
    if text.len() - start <= LINE + 1 {
        return Ok(());
    }
    text.truncate(start + LINE);
    put(text, b"\n")
}

/// Puts the line that `show` has for a packet of this flow, as a comment.
pub(crate) fn put_comment(
    text: &mut Vec<u8>,
    item: &Record<'_>,
    there: &Datagram<'_>,
    packet: &Packet<'_>,
    flow: u64,
) -> Result<(), NoMemory>
    requires low { 8 ≤ length there.now.bytes.now }
    requires high { length there.now.bytes.now ≤ 65535 }
    requires options { length packet.now.options.now ≤ 1008 }
    ensures { OnOk result (text.new.items
        ≡ text.old.items ++ spec.comment_line (packet_line (entry_of item.now) (carried_by there.now) (parts_by packet.now) flow)) }
{
    let start = text.len();
    put(text, b"# ")?;
    put_packet(text, item, there, packet, flow)?;
    cut_comment(text, start)
}

fn no_frame_name(why: NoFrame) -> &'static [u8]
    ensures { result.now ≡ spec.no_frame_name why }
{
    match why {
        NoFrame::NumberUnknown => b"NumberUnknown",
        NoFrame::FrameTooLong => b"FrameTooLong",
    }
}

// Puts the comment on a packet without a frame.
fn put_no_frame(text: &mut Vec<u8>, why: NoFrame) -> Result<(), NoMemory>
    ensures { OnOk result (text.new.items ≡ text.old.items ++ spec.packet_frame_line (Err why)) }
{
    put_named(text, b"# no frame: ", no_frame_name(why))?;
    put(text, b"\n")
}

// Puts the line of a frame: its first bytes, and the data after them.
#[tactic(auto, using(crate::proofs::FrameSpelling::sealed_put))]
fn put_sealed(text: &mut Vec<u8>, front: &[u8], payload: &[u8]) -> Result<(), NoMemory>
    ensures { OnOk result (text.new.items ≡ text.old.items ++ spec.packet_frame_line (Ok (front.now ++ payload.now))) }
{
    put(text, b"seal ")?;
    put_hex(text, front)?;
    put_hex(text, payload)?;
    put(text, b"\n")
}

// Puts the line of a frame whose header and options are these first bytes, or the comment on one that is too long.
#[tactic(auto, using(crate::proofs::FrameSpelling::frame_too_long, crate::proofs::FrameSpelling::frame_in_parts))]
fn put_in_parts(
    text: &mut Vec<u8>,
    header: &Header,
    options: &[u8],
    payload: &[u8],
    front: &[u8],
) -> Result<(), NoMemory>
    requires short { header_length header.now + length (padded options.now) ≤ 1020 }
    requires front { front.now ≡ spelling header.now options.now [] }
    ensures { OnOk result (text.new.items ≡ text.old.items ++ spec.packet_frame_line (frame_with header.now options.now payload.now)) }
{
    if MOST_FRAME_BYTES < front.len() + payload.len() {
        return put_no_frame(text, NoFrame::FrameTooLong);
    }
    put_sealed(text, front, payload)
}

// Puts the line of a packet with this header, or the comment on one that is too long.
#[tactic(auto, using(crate::proofs::FrameSpelling::header_too_long))]
fn put_frame_with(
    text: &mut Vec<u8>,
    header: &Header,
    options: &[u8],
    payload: &[u8],
) -> Result<(), NoMemory>
    requires { IsTrue (is_valid header.now) }
    ensures { OnOk result (text.new.items ≡ text.old.items ++ spec.packet_frame_line (frame_with header.now options.now payload.now)) }
{
    let mut front = Frame::new();
    if encode(header, options, &[], &mut front).is_err() {
        return put_no_frame(text, NoFrame::FrameTooLong);
    }
    put_in_parts(text, header, options, payload, front.bytes())
}

// Puts the line of a packet, given the captured end's initial number, if it is known.
fn put_moved(
    text: &mut Vec<u8>,
    end: &UsualEnd,
    initial: Seq48,
    packet: &Packet<'_>,
) -> Result<(), NoMemory>
    requires { IsTrue (is_valid packet.now.header) }
    ensures { OnOk result (text.new.items ≡ text.old.items ++ spec.packet_frame_line (moved_frame end.now initial (parts_by packet.now))) }
{
    let header = moved_header(end, initial, &packet.header);
    put_frame_with(text, &header, packet.options, packet.payload)
}

/// Puts the line of a packet's frame, or the comment on one that has none.
pub(crate) fn put_frame(
    text: &mut Vec<u8>,
    end: &UsualEnd,
    initial: Option<Seq48>,
    packet: &Packet<'_>,
) -> Result<(), NoMemory>
    requires { IsTrue (is_valid packet.now.header) }
    ensures { OnOk result (text.new.items ≡ text.old.items ++ spec.packet_frame_line (frame_for end.now initial (parts_by packet.now))) }
{
    match initial {
        Some(initial) => put_moved(text, end, initial, packet),
        None if packet.header.kind.packet_type().has_ack() => {
            put_no_frame(text, NoFrame::NumberUnknown)
        }
        None => put_moved(text, end, end.iss, packet),
    }
}
