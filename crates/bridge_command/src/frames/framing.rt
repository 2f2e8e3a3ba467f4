//! `frames`: a job over the records of a capture.
ghost use Rattle.std.specs.Prelude.{◌≡◌, ◌≤◌, ◌++◌, ℕ, List, length, IsTrue, OnOk, Some};
ghost use Rattle.bridge_records.specs.Pieces.{piece_text};
ghost use Rattle.bridge_records.specs.Recording.{records_work};
ghost use Rattle.capture_reader.specs.Records.{entry_of};
ghost use Rattle.dccp_io.specs.Counts.{Rose};
ghost use Rattle.dccp_packets.specs.Grammar.{is_valid};
ghost use Rattle.packet_show.specs.Flows.{flow_of, from_end};
ghost use Rattle.packet_show.specs.Lines.{parts_by};
ghost use Rattle.packet_show.specs.Network.{carried_by};
ghost use Rattle.bridge_records.specs.Recording.{capture_refusal, capture_skips};
ghost use Rattle.tool_text.specs.Ends.{Answers, IsAnswered, EndsForCause, SinkFails, StopsWithin};
ghost use Rattle.bridge_command.specs.Framing as spec;
ghost use Rattle.bridge_command.specs.Framing.{first_framing, flow_packet_text, framed_record, frames_pieces, frames_text, frames_work, is_frames_faulty};

use crate::frames::lines::{put_comment, put_frame};
use crate::frames::mapping::{UsualEnd, usual_end};
use bridge_links::ip_packet;
use bridge_pictures::{FlowEnds, ends_by, record_of_ip, side_from};
use bridge_records::{PieceFault, RecordJob, RecordsEnd, run_records};
use capture_reader::Record;
use dccp_io::{Sink, Source};
use dccp_packets::{Number, Packet, PacketType, decode};
use packet_show::{Datagram, FlowEnd, Flows, carried, from_end};
use seq_circle::{NoMemory, Seq48};
use std::alloc::Global;
use std::marker::Model;
use world_events::Side;

/// What is known of the flow after its first packet.
#[derive(Clone, Copy)]
pub(crate) struct KnownFlow {
    /// The ends of the flow.
    pub(crate) ends: FlowEnds,
    /// The captured end's initial number, after it sent a number of 48 bits.
    pub(crate) initial: Option<Seq48>,
}

/// A capture while the packets of a flow are looked for.
#[derive(Drop)]
pub(crate) struct FlowSearch {
    /// The number of the flow.
    pub(crate) flow: u64,
    /// The side that the packets go to.
    pub(crate) side: Side,
    /// The usual end of that side.
    pub(crate) end: UsualEnd,
    /// The flows that were seen.
    pub(crate) flows: Flows,
    /// What is known of the flow.
    pub(crate) known: Option<KnownFlow>,
}

// The captured end's initial number, after it sent this number.
fn initial_by(initial: Option<Seq48>, number: Number) -> Option<Seq48>
    ensures { result ≡ spec.initial_by initial number }
{
    match (initial, number) {
        (Some(initial), _) => Some(initial),
        (None, Number::Long(number)) => Some(number),
        (None, Number::Short(_)) => None,
    }
}

fn known_by(known: Option<KnownFlow>, from: FlowEnd, kind: PacketType) -> KnownFlow
    ensures { result ≡ spec.known_by known from kind }
{
    match known {
        Some(known) => known,
        None => KnownFlow {
            ends: ends_by(None, from, kind),
            initial: None,
        },
    }
}

fn goes_to(side: Side, from: Side) -> bool
    ensures { result ≡ spec.goes_to side from }
{
    match (side, from) {
        (Side::Client, Side::Server) | (Side::Server, Side::Client) => true,
        (Side::Client, Side::Client) | (Side::Server, Side::Server) => false,
    }
}

// What is known of the flow, after the captured end sent this number.
fn known_number(known: &KnownFlow, number: Number) -> KnownFlow
    ensures { result ≡ spec.known_number known.now number }
{
    KnownFlow {
        ends: known.ends,
        initial: initial_by(known.initial, number),
    }
}

impl FlowSearch {
    // Before the first record.
    fn new(alloc: Global, flow: u64, side: Side) -> FlowSearch
        ensures { result ≡ first_framing flow side }
    {
        FlowSearch {
            flow,
            side,
            end: usual_end(side),
            flows: Flows::new(alloc),
            known: None,
        }
    }

    // Puts the lines of a packet that goes to the side.
    fn put_lines(
        &self,
        known: &KnownFlow,
        item: &Record<'_>,
        there: &Datagram<'_>,
        packet: &Packet<'_>,
        text: &mut Vec<u8>,
    ) -> Result<(), NoMemory>
        requires low { 8 ≤ length there.now.bytes.now }
        requires high { length there.now.bytes.now ≤ 65535 }
        requires options { length packet.now.options.now ≤ 1008 }
        requires valid { IsTrue (is_valid packet.now.header) }
        ensures { OnOk result (text.new.items ≡ text.old.items
            ++ flow_packet_text (spec.flow_packet self.now known.now (entry_of item.now) (carried_by there.now) (parts_by packet.now))) }
    {
        put_comment(text, item, there, packet, self.flow)?;
        put_frame(text, &self.end, known.initial, packet)
    }

    // A packet of the flow.
    #[tactic(auto, unfolding(crate::specs::Framing::by_sender))]
    fn pass_by_sender(
        &mut self,
        item: &Record<'_>,
        there: &Datagram<'_>,
        packet: &Packet<'_>,
        text: &mut Vec<u8>,
    ) -> Result<(), NoMemory>
        requires low { 8 ≤ length there.now.bytes.now }
        requires high { length there.now.bytes.now ≤ 65535 }
        requires options { length packet.now.options.now ≤ 1008 }
        requires valid { IsTrue (is_valid packet.now.header) }
        ensures text { OnOk result (text.new.items ≡ text.old.items ++ piece_text (records_work frames_work)
            (spec.by_sender self.old (entry_of item.now) (carried_by there.now) (parts_by packet.now) (from_end there.now.pseudo packet.now.header.from)).deed) }
        ensures next { OnOk result (self.new
            ≡ (spec.by_sender self.old (entry_of item.now) (carried_by there.now) (parts_by packet.now) (from_end there.now.pseudo packet.now.header.from)).next) }
    {
        let from = from_end(&there.pseudo, packet.header.from);
        let known = known_by(self.known, from, packet.header.kind.packet_type());
        if goes_to(self.side, side_from(&known.ends, from)) {
            self.put_lines(&known, item, there, packet, text)?;
            self.known = Some(known);
        } else {
            self.known = Some(known_number(&known, packet.header.number));
        }
        Ok(())
    }

    // A packet, whose flow is numbered.
    fn pass_packet(
        &mut self,
        item: &Record<'_>,
        there: &Datagram<'_>,
        packet: &Packet<'_>,
        text: &mut Vec<u8>,
    ) -> Result<(), NoMemory>
        requires low { 8 ≤ length there.now.bytes.now }
        requires high { length there.now.bytes.now ≤ 65535 }
        requires options { length packet.now.options.now ≤ 1008 }
        requires valid { IsTrue (is_valid packet.now.header) }
        ensures text { OnOk result (text.new.items ≡ text.old.items ++ piece_text (records_work frames_work)
            (spec.by_flow self.old (entry_of item.now) (carried_by there.now) (parts_by packet.now) (flow_of there.now.pseudo packet.now.header.from packet.now.header.to)).deed) }
        ensures next { OnOk result (self.new
            ≡ (spec.by_flow self.old (entry_of item.now) (carried_by there.now) (parts_by packet.now) (flow_of there.now.pseudo packet.now.header.from packet.now.header.to)).next) }
    {
        let header = &packet.header;
        let number = self.flows.number(&there.pseudo, header.from, header.to)?;
        if number != self.flow {
            return Ok(());
        }
        self.pass_by_sender(item, there, packet, text)
    }

    // A record of raw IP.
    #[tactic(auto, unfolding(crate::specs::Framing::framed_record))]
    fn pass_ip(&mut self, item: &Record<'_>, text: &mut Vec<u8>) -> Result<(), NoMemory>
        ensures text { OnOk result (text.new.items ≡ text.old.items ++ piece_text (records_work frames_work) (framed_record self.old (entry_of item.now)).deed) }
        ensures next { OnOk result (self.new ≡ (framed_record self.old (entry_of item.now)).next) }
    {
        let Some(there) = carried(item.link, item.bytes) else {
            return Ok(());
        };
        match decode(there.bytes) {
            Ok(packet) => self.pass_packet(item, &there, &packet, text),
            Err(_) => Ok(()),
        }
    }
}

/// A capture while the packets of a flow are looked for, with the memory for those that are separated from extension
/// headers.
#[derive(Drop)]
pub(crate) struct FramesJob {
    alloc: Global,
    search: FlowSearch,
}

impl Model for FramesJob {
    ghost use Rattle.bridge_command.specs.declared.frames.framing.FlowSearch.{FlowSearch};

    ghost Value = { FlowSearch };

    ghost view = { λ job. job.search };
}

impl RecordJob for FramesJob {
    ghost use Rattle.bridge_command.specs.Framing.{FlowPacket, frames_work};

    ghost Deed = { FlowPacket };

    ghost work = { frames_work };

    fn begin(&mut self, _nanos: bool, _text: &mut Vec<u8>) -> Result<(), NoMemory> {
        Ok(())
    }

    fn pass(&mut self, item: &Record<'_>, text: &mut Vec<u8>) -> Result<(), NoMemory> {
        let ip = ip_packet(self.alloc, item.link, item.bytes)?;
        self.search.pass_ip(&record_of_ip(item, ip.bytes()), text)
    }

    fn finish(
        &self,
        _untold: bool,
        _records: u64,
        _end: Option<PieceFault>,
        _text: &mut Vec<u8>,
    ) -> Result<(), NoMemory> {
        Ok(())
    }
}

/// Makes lines of a replay from a captured flow (own). Each packet of the flow of this number that goes to this side
/// has two lines: a comment with the line that `show` has for it, and then `seal` and a frame. Flows are numbered as
/// `show` numbers them. The frame is the packet with the ports, the Service Code and the acknowledgement number that
/// `replay`'s end of that side expects. An acknowledgement number is as far above that end's initial number as it was
/// above the captured end's, which is the first number of 48 bits that the captured end sent (RFC 4340, section 7.2).
/// Ack Vectors count from it and stay the same, as sequence numbers, options and data do. The sender of the flow's
/// first packet is its client, unless that packet is a Response or a CloseReq. A packet without a frame has a comment
/// in its place: NumberUnknown if the captured end sent no such number before it, FrameTooLong if it has more than
/// 2,044 bytes. If no packet of the flow goes to the side, nothing is written. The frames show what the end answers to
/// these packets; they do not repeat the captured connection.
///
/// The capture is one that `unwrap` takes, and its packets are those that `show` finds after `unwrap`. Input means that
/// it has a fault, which is returned. With status 0 or 1 the output is that of the whole input, with another a prefix
/// of it. Read means that the source failed, Write that the sink did, and Memory that no memory was left.
pub(crate) fn frame_flow<S: Source, K: Sink>(
    alloc: Global,
    flow: u64,
    side: Side,
    input: &mut S,
    output: &mut K,
) -> RecordsEnd
    ensures framed { (bytes : List ℕ) → S.left input.old ≡ Some bytes
        → Answers (frames_text flow side bytes) (is_frames_faulty flow side bytes) result.end (S.left input.new) (K.taken output.old) (K.taken output.new) }
    ensures past { (bytes : List ℕ) → S.left input.old ≡ Some bytes
        → StopsWithin 524288 (frames_pieces flow side bytes).accepted bytes result.end (S.left input.new) }
    ensures refused { (bytes : List ℕ) → S.left input.old ≡ Some bytes → IsAnswered result.end → result.refusal ≡ capture_refusal (frames_pieces flow side bytes) }
    ensures skipped { (bytes : List ℕ) → S.left input.old ≡ Some bytes → IsAnswered result.end → result.skips ≡ capture_skips (frames_pieces flow side bytes) }
    ensures cause { EndsForCause result.end (Rose (S.faults input.old) (S.faults input.new)) (SinkFails K.faults K.empty_takes output.old output.new) }
{
    let search = FlowSearch::new(alloc, flow, side);
    let job = FramesJob { alloc, search };
    run_records(alloc, job, input, output)
}
