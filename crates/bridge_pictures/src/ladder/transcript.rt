//! `ladder`: a job over a transcript's lines.
ghost use Rattle.std.specs.Prelude.{◌≡◌, ◌++◌, ℕ, List, OnOk, Some};
ghost use Rattle.dccp_io.specs.Counts.{Rose};
ghost use Rattle.packet_show.specs.Lines.{parts_by};
ghost use Rattle.tool_text.specs.Ends.{Answers, IsAnswered, EndsForCause, SinkFails, StopsWithin};
ghost use Rattle.bridge_pictures.specs.Scene.{arrival_drawn_beside};
ghost use Rattle.bridge_pictures.specs.Transcript as spec;
ghost use Rattle.bridge_pictures.specs.Transcript.{ladder_accepted, ladder_refusal, ladder_refused, ladder_text};

use crate::ladder::lines::{LadderLine, drawn_by_line};
use crate::ladder::phases::Fate;
use crate::ladder::places::arrow_class;
use crate::ladder::scene::{Ladder, Subject};
use dccp_io::{Sink, Source};
use dccp_listener::Peer;
use dccp_packets::{Kind, MOST_FRAME_BYTES, decode};
use packet_show::put_words;
use schedule_text::{FrameLine, side_letter};
use seq_circle::NoMemory;
use std::alloc::Global;
use tool_jobs::put_peer;
use tool_text::{
    Digits, LineError, LineJob, LinesEnd, malformed_name, put, put_named, put_number,
    run_lines_apart,
};
use world_events::Side;

// Puts what a frame says.
fn put_packet_words(text: &mut Vec<u8>, bytes: &[u8]) -> Result<(), NoMemory>
    ensures { OnOk result (text.new.items ≡ text.old.items ++ spec.packet_words bytes.now) }
{
    match decode(bytes) {
        Ok(packet) => put_words(text, &packet),
        Err(fault) => put_named(text, b" malformed ", malformed_name(fault)),
    }
}

// Puts a frame's name, and what it says.
#[tactic(auto, unfolding(crate::specs::Transcript::frame_label))]
fn put_frame_words(text: &mut Vec<u8>, from: Side, index: u64, bytes: &[u8]) -> Result<(), NoMemory>
    ensures { OnOk result (text.new.items ≡ text.old.items ++ spec.frame_label from index bytes.now) }
{
    put(text, side_letter(from))?;
    put_number(text, index)?;
    put_packet_words(text, bytes)
}

// Puts a peer, and what a frame to it says.
#[tactic(auto, unfolding(crate::specs::Transcript::peer_label))]
fn put_peer_words(text: &mut Vec<u8>, peer: Peer, bytes: &[u8]) -> Result<(), NoMemory>
    ensures { OnOk result (text.new.items ≡ text.old.items ++ spec.peer_label peer bytes.now) }
{
    put_peer(text, peer)?;
    put_packet_words(text, bytes)
}

// Puts what a packet says that came.
#[tactic(auto, unfolding(crate::specs::Transcript::arrival_label))]
fn put_arrival_words(text: &mut Vec<u8>, bytes: &[u8]) -> Result<(), NoMemory>
    ensures { OnOk result (text.new.items ≡ text.old.items ++ spec.arrival_label bytes.now) }
{
    put(text, b"came")?;
    put_packet_words(text, bytes)
}

// The kind of packet that bytes are, if they are one.
fn kind_of(bytes: &[u8]) -> Option<Kind>
    ensures { result ≡ spec.kind_in bytes.now }
{
    match decode(bytes) {
        Ok(packet) => Some(packet.header.kind),
        Err(_) => None,
    }
}

impl Ladder {
    // A side, or the only end.
    fn seen(&self, side: Side) -> Side
        ensures { result ≡ spec.drawn_side self.now side }
    {
        if self.is_one_end() {
            Side::Client
        } else {
            side
        }
    }

    // A frame with these words was sent.
    #[tactic(auto, unfolding(crate::specs::Transcript::frame_drawn))]
    fn draw_frame(&mut self, from: Side, bytes: &[u8], words: &[u8]) -> Result<(), NoMemory>
        ensures { OnOk result (self.new ≡ spec.frame_drawn self.old from bytes.now words.now) }
    {
        if self.is_one_end() {
            self.tell(Side::Client, words)?;
            return self.pass(Side::Client, b"sent", words);
        }
        self.send(from, kind_of(bytes), words)
    }

    // A frame was sent.
    fn draw_sent(
        &mut self,
        alloc: Global,
        from: Side,
        index: u64,
        frame: &Digits<'_>,
    ) -> Result<(), NoMemory>
        ensures { OnOk result (self.new ≡ spec.sent_on self.old from index frame.now) }
    {
        // No line has room for more bytes.
        if MOST_FRAME_BYTES < frame.len() {
            return Ok(());
        }
        let frame = frame.frame();
        let mut words = Vec::new(alloc);
        put_frame_words(&mut words, from, index, frame.bytes())?;
        self.draw_frame(from, frame.bytes(), &words)
    }

    // A frame went to a peer.
    fn draw_answer(&mut self, alloc: Global, peer: Peer, frame: &Digits<'_>) -> Result<(), NoMemory>
        ensures { OnOk result (self.new ≡ spec.sent_to_peer self.old peer frame.now) }
    {
        // No line has room for more bytes.
        if MOST_FRAME_BYTES < frame.len() {
            return Ok(());
        }
        let frame = frame.frame();
        let mut words = Vec::new(alloc);
        put_peer_words(&mut words, peer, frame.bytes())?;
        self.answer(peer, &words)
    }

    // What came is this frame.
    fn draw_arrival(
        &mut self,
        alloc: Global,
        peer: Option<Peer>,
        frame: &FrameLine<'_>,
    ) -> Result<(), NoMemory>
        ensures { OnOk result (self.new ≡ arrival_drawn_beside self.old peer (spec.arrival_label frame.now.bytes)) }
    {
        let frame = frame.bytes.frame();
        let mut words = Vec::new(alloc);
        put_arrival_words(&mut words, frame.bytes())?;
        self.tell_arrival(peer, &words)
    }

    // A frame came to a single end.
    #[tactic(auto, unfolding(crate::specs::Transcript::came_alone))]
    fn draw_alone(&mut self, came: Fate, line: &[u8]) -> Result<(), NoMemory>
        ensures { OnOk result (self.new ≡ spec.came_alone self.old came line.now) }
    {
        self.set_subject(Subject::OneEnd);
        self.tell(Side::Client, line)?;
        self.pass(Side::Server, arrow_class(came, false), line)
    }

    // Draws a line.
    #[tactic(auto, unfolding(crate::specs::Transcript::drawn_on))]
    fn draw(&mut self, alloc: Global, drawn: LadderLine<'_>, line: &[u8]) -> Result<(), NoMemory>
        ensures { OnOk result (self.new ≡ spec.drawn_on self.old line.now drawn.entry) }
    {
        match drawn {
            LadderLine::Asked(side, asked) => self.ask(side, asked, line),
            LadderLine::Came(from, index, came) => self.deliver(from, index, came, line),
            LadderLine::AskedAlone => {
                self.set_subject(Subject::OneEnd);
                self.tell(Side::Client, line)
            }
            LadderLine::CameAlone(came) => self.draw_alone(came, line),
            LadderLine::Sent { from, index, frame } => self.draw_sent(alloc, from, index, &frame),
            LadderLine::Ended(side) => self.tell(self.seen(side), line),
            LadderLine::PeerCame(peer, came) => self.hear(peer, arrow_class(came, false), line),
            LadderLine::SentToPeer { peer, frame } => self.draw_answer(alloc, peer, &frame),
            LadderLine::ListenerTold => self.tell_of_listener(line),
            LadderLine::Arrived(peer, frame) => self.draw_arrival(alloc, peer, &frame),
        }
    }
}

impl LineJob for Ladder {
    ghost use Rattle.std.specs.Prelude.{ℕ, ⊤};
    ghost use Rattle.bridge_pictures.specs.Transcript.{ladder_job};

    ghost Deed = { Unit {0} };

    ghost job = { ladder_job };

    ghost keeps = { λ ladder number. ⊤ };

    #[tactic(auto, unfolding(crate::specs::Transcript::line_judged))]
    fn judge(
        &mut self,
        alloc: Global,
        _number: u64,
        line: &[u8],
        _text: &mut Vec<u8>,
    ) -> Result<(), LineError> {
        match drawn_by_line(line) {
            Err(fault) => Err(LineError::Refused(fault)),
            Ok(None) => Ok(()),
            Ok(Some(drawn)) => {
                self.draw(alloc, drawn, line)?;
                Ok(())
            }
        }
    }

    fn finish(&mut self, _alloc: Global, text: &mut Vec<u8>) -> Result<(), NoMemory> {
        self.put_picture(text)
    }
}

/// Draws a transcript as a ladder (own): it reads the lines that `run`, `replay` or `listen` wrote, and writes a
/// picture, one SVG file. Each line is a row. What `run` writes is drawn between two lines, whose colours are the
/// phases of the ends: a frame goes from the row in which it was sent to each row in which it came, and one that never
/// came ends half way. For `replay` the left line is the end, whose phases are not known, and frames go straight. For
/// `listen` it is the listener, and each peer has its line, from the row in which it was first seen. Each packet is
/// written beside its sender's line, as `show` has it, cut to 60 bytes, with all of it as a tooltip.
///
/// If a line is refused, nothing is written, and its refusal is returned. With status 0 or 1 the output is that of the
/// whole input, with another a prefix of it. Read means that the source failed, Write that the sink did, and Memory
/// that no memory was left.
pub fn ladder_of_transcript<S: Source, K: Sink>(
    alloc: Global,
    input: &mut S,
    output: &mut K,
) -> LinesEnd
    ensures drawn { (bytes : List ℕ) → S.left input.old ≡ Some bytes
        → Answers (ladder_text bytes) (ladder_refused bytes) result.end (S.left input.new) (K.taken output.old) (K.taken output.new) }
    ensures past { (bytes : List ℕ) → S.left input.old ≡ Some bytes
        → StopsWithin 16384 (ladder_accepted bytes) bytes result.end (S.left input.new) }
    ensures refused { (bytes : List ℕ) → S.left input.old ≡ Some bytes → IsAnswered result.end → result.refusal ≡ ladder_refusal bytes }
    ensures cause { EndsForCause result.end (Rose (S.faults input.old) (S.faults input.new)) (SinkFails K.faults K.empty_takes output.old output.new) }
{
    let mut ladder = Ladder::new(alloc);
    let mut text = Vec::new(alloc);
    run_lines_apart(alloc, &mut ladder, &mut text, input, output)
}
