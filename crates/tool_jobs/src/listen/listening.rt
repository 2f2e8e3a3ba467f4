//! `listen`: what peers send, handed to one listener.
ghost use Rattle.std.specs.Prelude.{◌≡◌, ◌≤◌, ℕ, List, Some};
ghost use Rattle.dccp_io.specs.Counts.{Rose};
ghost use Rattle.tool_jobs.specs.Listen.{listen_accepted, listen_refused, listen_text};
ghost use Rattle.tool_text.specs.Ends.{Answers, SinkFails, StopsWithin, EndsForCause};

use crate::listen::serving::ListenLines;
use dccp_io::{Sink, Source};
use std::alloc::Global;
use tool_text::{JobEnd, run_lines};

/// Hands the frames of peers, and the calls of their ends, to one listener of at most `most` flows, 1 to 1,024 (own).
/// It reads the lines of `input` one by one, and writes to `output` a line for each answer and for each frame that goes
/// to a peer. At the end it writes how many flows there are and the phase of each, or the line of the first refusal.
/// With status 0 or 1 the output is the text of the whole input; with another status it is a prefix of that text. Read
/// means that the source failed, Write that the sink did, and Memory that no memory was left, for an end or for the
/// text.
pub fn listen_to_peers<S: Source, K: Sink>(
    alloc: Global,
    most: u16,
    input: &mut S,
    output: &mut K,
) -> JobEnd
    requires least { 1 ≤ most }
    requires most { most ≤ 1024 }
    ensures listened { (bytes : List ℕ) → S.left input.old ≡ Some bytes
        → Answers (listen_text most bytes) (listen_refused most bytes) result (S.left input.new) (K.taken output.old) (K.taken output.new) }
    ensures past { (bytes : List ℕ) → S.left input.old ≡ Some bytes
        → StopsWithin 16384 (listen_accepted most bytes) bytes result (S.left input.new) }
    ensures cause { EndsForCause result (Rose (S.faults input.old) (S.faults input.new)) (SinkFails K.faults K.empty_takes output.old output.new) }
{
    let mut serving = ListenLines::new(alloc, most);
    let mut text = Vec::new(alloc);
    run_lines(alloc, &mut serving, &mut text, input, output)
}
