//! `replay`: an input's frames, handed to one end.
ghost use Rattle.std.specs.Prelude.{◌≡◌, ◌≤◌, ℕ, List, Some};
ghost use Rattle.dccp_io.specs.Counts.{Rose};
ghost use Rattle.tool_jobs.specs.Bare.{replay_text, replay_refused, replay_accepted};
ghost use Rattle.tool_jobs.specs.Buffered.{buffered_accepted, buffered_refused, buffered_text};
ghost use Rattle.tool_text.specs.Ends.{Answers, SinkFails, StopsWithin, EndsForCause};

use crate::replay::bare::bare_end;
use crate::replay::buffered::buffered_end;
use crate::replay::player::replay_at;
use dccp_io::{Sink, Source};
use std::alloc::Global;
use tool_text::JobEnd;
use world_events::Side;

/// Hands the frames of an input to a new end of this side, with its offers or without (own). It reads the lines of
/// `input` one by one. It writes to `output` a line for each answer of the end and for each frame that it sends, and
/// last the end's state or the line of the first refusal. With status 0 or 1 the output is the text of the whole input;
/// with another status it is a prefix of that text. Read means that the source failed, Write that the sink did, and
/// Memory that no memory was left.
pub fn replay_frames<S: Source, K: Sink>(
    alloc: Global,
    side: Side,
    plain: bool,
    input: &mut S,
    output: &mut K,
) -> JobEnd
    ensures replayed { (bytes : List ℕ) → S.left input.old ≡ Some bytes
        → Answers (replay_text side plain bytes) (replay_refused side plain bytes) result (S.left input.new) (K.taken output.old) (K.taken output.new) }
    ensures past { (bytes : List ℕ) → S.left input.old ≡ Some bytes
        → StopsWithin 16384 (replay_accepted side plain bytes) bytes result (S.left input.new) }
    ensures cause { EndsForCause result (Rose (S.faults input.old) (S.faults input.new)) (SinkFails K.faults K.empty_takes output.old output.new) }
{
    let Ok(end) = bare_end(alloc, side, plain) else {
        return JobEnd::Memory;
    };
    replay_at(alloc, side, end, input, output)
}

/// The same with an end that has a receive buffer for `capacity` packets, 1 to 1,024, which an application reads (own).
/// A line `read` takes the oldest data that are held, and after a line `stop` further data are dropped. Such a line is
/// only that word; every other line is one of `replay_frames`. Data that were dropped are shown by their Drop Code (RFC
/// 4340, section 11.7).
pub fn replay_at_buffer<S: Source, K: Sink>(
    alloc: Global,
    side: Side,
    plain: bool,
    capacity: u16,
    input: &mut S,
    output: &mut K,
) -> JobEnd
    requires some { 1 ≤ capacity }
    requires few { capacity ≤ 1024 }
    ensures replayed { (bytes : List ℕ) → S.left input.old ≡ Some bytes
        → Answers (buffered_text side plain capacity bytes) (buffered_refused side plain capacity bytes) result (S.left input.new) (K.taken output.old) (K.taken output.new) }
    ensures past { (bytes : List ℕ) → S.left input.old ≡ Some bytes
        → StopsWithin 16384 (buffered_accepted side plain capacity bytes) bytes result (S.left input.new) }
    ensures cause { EndsForCause result (Rose (S.faults input.old) (S.faults input.new)) (SinkFails K.faults K.empty_takes output.old output.new) }
{
    let Ok(end) = buffered_end(alloc, side, plain, capacity) else {
        return JobEnd::Memory;
    };
    replay_at(alloc, side, end, input, output)
}
