//! `ecn`: an input's events, between an ECN-capable sender and an ECN-capable receiver.
ghost use Rattle.std.specs.Prelude.{◌≡◌, ℕ, List, Some};
ghost use Rattle.dccp_io.specs.Counts.{Rose};
ghost use Rattle.tool_jobs.specs.Play.{ecn_accepted, ecn_refused, ecn_text};
ghost use Rattle.tool_text.specs.Ends.{Answers, SinkFails, StopsWithin, EndsForCause};

use crate::ecn::play::EcnPlay;
use dccp_io::{Sink, Source};
use std::alloc::Global;
use tool_text::{JobEnd, run_lines};

/// Lets the events of an input take place between an ECN-capable sender and an ECN-capable receiver (own): it reads the
/// lines of `input` one by one, and writes to `output` a line with the result of each event, and at last how many
/// packets were sent and reports kept, or the line of the first refusal. With status 0 or 1 the output is the text of
/// the whole input; with another status it is a prefix of that text. Read means that the source failed, Write that the
/// sink did, and Memory that no memory was left.
pub fn play_nonces<S: Source, K: Sink>(alloc: Global, input: &mut S, output: &mut K) -> JobEnd
    ensures played { (bytes : List ℕ) → S.left input.old ≡ Some bytes
        → Answers (ecn_text bytes) (ecn_refused bytes) result (S.left input.new) (K.taken output.old) (K.taken output.new) }
    ensures past { (bytes : List ℕ) → S.left input.old ≡ Some bytes
        → StopsWithin 16384 (ecn_accepted bytes) bytes result (S.left input.new) }
    ensures cause { EndsForCause result (Rose (S.faults input.old) (S.faults input.new)) (SinkFails K.faults K.empty_takes output.old output.new) }
{
    let mut text = Vec::new(alloc);
    let Ok(mut play) = EcnPlay::new(alloc) else {
        return JobEnd::Memory;
    };
    run_lines(alloc, &mut play, &mut text, input, output)
}
