//! `ladder --flow`: a job over the records of a capture.
ghost use Rattle.std.specs.Prelude.{◌≡◌, ℕ, List, OnOk, Some};
ghost use Rattle.dccp_io.specs.Counts.{Rose};
ghost use Rattle.bridge_records.specs.Recording.{capture_refusal, capture_skips};
ghost use Rattle.tool_text.specs.Ends.{Answers, IsAnswered, EndsForCause, SinkFails, StopsWithin};
ghost use Rattle.bridge_pictures.specs.Flow as spec;
ghost use Rattle.bridge_pictures.specs.Flow.{flow_ladder_pieces, flow_ladder_text, is_flow_ladder_faulty};

use crate::flow_pictures::{FlowJob, FlowPicture};
use crate::ladder::phases::{Fate, phase_came, phase_sent};
use crate::ladder::scene::Ladder;
use crate::stamps::put_record_words;
use crate::walk::{FlowStep, is_later};
use bridge_records::{RecordsEnd, run_records};
use capture_reader::Record;
use dccp_io::{Sink, Source};
use dccp_packets::{Header, Packet};
use seq_circle::NoMemory;
use std::alloc::Global;
use world_events::Side;

// How the arrow of a packet looks: one with the latest number, or with an earlier one, looks like a repeat.
fn seen_class(ahead: u64) -> &'static [u8]
    ensures { result.now ≡ spec.seen_class ahead }
{
    if ahead == 0 {
        return b"again";
    }
    if is_later(ahead) {
        return b"took";
    }
    b"late"
}

impl Ladder {
    // A packet was seen on its way: its sender and its receiver change their phases.
    #[tactic(auto, unfolding(crate::specs::Flow::packet_drawn))]
    fn draw_packet(
        &mut self,
        from: Side,
        class: &[u8],
        header: &Header,
        words: &[u8],
    ) -> Result<(), NoMemory>
        ensures { OnOk result (self.new ≡ spec.packet_drawn self.old from class.now header.now words.now) }
    {
        self.tell(from, words)?;
        self.pass(from, class, words)?;
        self.turn(from, phase_sent(self.phase(from), &header.kind))?;
        let to = from.other();
        let kind = header.kind.packet_type();
        self.turn(to, phase_came(self.phase(to), kind, Fate::Took))
    }
}

impl FlowPicture for Ladder {
    ghost use Rattle.bridge_pictures.specs.Flow.{ladder_kind};

    ghost kind = { ladder_kind };

    #[tactic(auto, unfolding(crate::specs::Flow::step_drawn))]
    fn draw(
        &mut self,
        alloc: Global,
        step: FlowStep,
        item: &Record<'_>,
        packet: &Packet<'_>,
    ) -> Result<(), NoMemory> {
        let mut words = Vec::new(alloc);
        put_record_words(&mut words, item, packet)?;
        self.draw_packet(step.from, seen_class(step.ahead), &packet.header, &words)
    }

    fn put_text(&self, text: &mut Vec<u8>) -> Result<(), NoMemory> {
        self.put_picture(text)
    }
}

/// Draws a flow of a capture as a ladder (own). Each packet of the flow of this number has a row with its arrow; flows
/// are numbered as `show` numbers them after `unwrap`. The packet is written beside its sender's line: the record's
/// number, its time, and what `show` has of it, cut to 60 bytes, with all of it as a tooltip. The lines have the
/// colours of the ends' phases when each packet comes. A packet with its sender's latest number, or with one that is
/// not later, looks like a repeat. The sender of the first packet is the client, unless that packet is a Response or a
/// CloseReq.
///
/// The capture is one that `unwrap` takes. Input means that it has a fault; what came before is drawn. With status 0 or
/// 1 the output is that of the whole input, with another a prefix of it. Read means that the source failed, Write that
/// the sink did, and Memory that no memory was left.
pub fn ladder_of_flow<S: Source, K: Sink>(
    alloc: Global,
    flow: u64,
    input: &mut S,
    output: &mut K,
) -> RecordsEnd
    ensures drawn { (bytes : List ℕ) → S.left input.old ≡ Some bytes
        → Answers (flow_ladder_text flow bytes) (is_flow_ladder_faulty flow bytes) result.end (S.left input.new) (K.taken output.old) (K.taken output.new) }
    ensures past { (bytes : List ℕ) → S.left input.old ≡ Some bytes
        → StopsWithin 524288 (flow_ladder_pieces flow bytes).accepted bytes result.end (S.left input.new) }
    ensures refused { (bytes : List ℕ) → S.left input.old ≡ Some bytes → IsAnswered result.end → result.refusal ≡ capture_refusal (flow_ladder_pieces flow bytes) }
    ensures skipped { (bytes : List ℕ) → S.left input.old ≡ Some bytes → IsAnswered result.end → result.skips ≡ capture_skips (flow_ladder_pieces flow bytes) }
    ensures cause { EndsForCause result.end (Rose (S.faults input.old) (S.faults input.new)) (SinkFails K.faults K.empty_takes output.old output.new) }
{
    let ladder = Ladder::new(alloc);
    let job = FlowJob::new(alloc, flow, ladder);
    run_records(alloc, job, input, output)
}
