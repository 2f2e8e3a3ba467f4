//! `capture`: a job over a transcript's lines.
ghost use Rattle.std.specs.Prelude.{◌≡◌, ◌++◌, ℕ, List, OnOk, Some};
ghost use Rattle.dccp_io.specs.Counts.{Rose};
ghost use Rattle.tool_text.specs.Ends.{Answers, IsAnswered, SinkFails, StopsWithin, EndsForCause};
ghost use Rattle.bridge_records.specs.Writing.{raw_record};
ghost use Rattle.bridge_command.specs.FrameRecords.{frame_record};
ghost use Rattle.bridge_command.specs.TranscriptLines.{CanArrive};
ghost use Rattle.bridge_command.specs.Capturing.{timed_arrival, first_clock, travel_in, frames_capture, transcript_accepted, transcript_refusal, transcript_refused};

use crate::capture::lines::{TranscriptLine, told_of_line};
use crate::capture::records::{Travel, put_record, put_record_of};
use bridge_records::put_file_header;
use dccp_io::{Sink, Source};
use dccp_listener::Peer;
use schedule_text::FrameLine;
use seq_circle::NoMemory;
use std::alloc::Global;
use tool_jobs::arriving;
use tool_text::{JobEnd, LineError, LineJob, LinesEnd, run_lines_apart};
use world_events::Side;

/// When frames are sent: the number of the line that was answered last, as seconds. And the side of a single end.
#[derive(Drop)]
pub(crate) struct Clock {
    pub(crate) seconds: u32,
    pub(crate) alone: Side,
}

impl Clock {
    // Before the first line.
    fn new() -> Clock
        ensures { result ≡ first_clock }
    {
        Clock {
            seconds: 0,
            alone: Side::Server,
        }
    }

    // The way of a frame that came: from a peer of a listener, or from the other side to a single end.
    fn travel(&self, peer: Option<Peer>) -> Travel
        ensures { result ≡ travel_in self.now peer }
    {
        match peer {
            Some(peer) => Travel::from(peer),
            None => Travel::of(self.alone.other()),
        }
    }

    // Puts the record of a frame that comes, with its checksum set if its line says so.
    fn put_arrival(
        &self,
        text: &mut Vec<u8>,
        peer: Option<Peer>,
        frame: &FrameLine<'_>,
    ) -> Result<(), NoMemory>
        requires { CanArrive (TranscriptLine.Came peer frame.now) }
        ensures { OnOk result (text.new.items ≡ text.old.items ++ raw_record (frame_record (timed_arrival self.now (travel_in self.now peer) frame.now))) }
    {
        let travel = self.travel(peer);
        let frame = arriving(&travel.pseudo(), frame);
        put_record_of(text, self.seconds, travel, frame.bytes())
    }
}

impl LineJob for Clock {
    ghost use Rattle.std.specs.Prelude.{ℕ, ⊤};
    ghost use Rattle.bridge_command.specs.FrameRecords.{TimedFrame};
    ghost use Rattle.bridge_command.specs.Capturing.{capture_job};

    ghost Deed = { TimedFrame };

    ghost job = { capture_job };

    ghost keeps = { λ clock number. ⊤ };

    #[tactic(auto, unfolding(crate::specs::Capturing::transcript_judged))]
    fn judge(
        &mut self,
        _alloc: Global,
        _number: u64,
        line: &[u8],
        text: &mut Vec<u8>,
    ) -> Result<(), LineError> {
        match told_of_line(line) {
            Err(fault) => Err(LineError::Refused(fault)),
            Ok(None | Some(TranscriptLine::Other)) => Ok(()),
            Ok(Some(TranscriptLine::Opened)) => {
                self.alone = Side::Client;
                Ok(())
            }
            Ok(Some(TranscriptLine::Number(number))) => {
                self.seconds = number;
                Ok(())
            }
            Ok(Some(TranscriptLine::Sent { travel, frame })) => {
                put_record(text, self.seconds, travel, &frame)?;
                Ok(())
            }
            Ok(Some(TranscriptLine::Came { peer, frame })) => {
                self.put_arrival(text, peer, &frame)?;
                Ok(())
            }
        }
    }

    fn finish(&mut self, _alloc: Global, _text: &mut Vec<u8>) -> Result<(), NoMemory> {
        Ok(())
    }
}

/// Makes a capture of a transcript's frames (own): it reads the lines of `input` one by one, and writes to `output` a
/// classic capture of link type 101 with a record for each line `sent NAME HEX`, in their order: an IPv4 packet between
/// the addresses of the usual ends, or of the listener and a peer. A line `came`, which the launcher writes after the
/// answer to a line of the input, has a record too: the frame of that line. The time of a record is the number of the
/// line that its frame answered, in seconds. Records are written in blocks, and before more of the input is asked for.
/// If a line is refused, its refusal is returned, and the records before it are written. With status 0 or 1 the output
/// is that of the whole input, with another a prefix of it. Read means that the source failed, Write that the sink did,
/// and Memory that no memory was left.
pub(crate) fn capture_frames<S: Source, K: Sink>(
    alloc: Global,
    input: &mut S,
    output: &mut K,
) -> LinesEnd
    ensures captured { (bytes : List ℕ) → S.left input.old ≡ Some bytes
        → Answers (frames_capture bytes) (transcript_refused bytes) result.end (S.left input.new) (K.taken output.old) (K.taken output.new) }
    ensures past { (bytes : List ℕ) → S.left input.old ≡ Some bytes
        → StopsWithin 16384 (transcript_accepted bytes) bytes result.end (S.left input.new) }
    ensures refused { (bytes : List ℕ) → S.left input.old ≡ Some bytes → IsAnswered result.end → result.refusal ≡ transcript_refusal bytes }
    ensures cause { EndsForCause result.end (Rose (S.faults input.old) (S.faults input.new)) (SinkFails K.faults K.empty_takes output.old output.new) }
{
    let mut text = Vec::new(alloc);
    if put_file_header(&mut text, false).is_err() {
        return LinesEnd {
            end: JobEnd::Memory,
            refusal: None,
        };
    }
    let mut clock = Clock::new();
    run_lines_apart(alloc, &mut clock, &mut text, input, output)
}
