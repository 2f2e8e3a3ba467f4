//! Jobs over lines.
ghost use Rattle.std.specs.Prelude.{◌≡◌, ℕ, ◌+◌, ◌≤◌, ◌++◌, OnOk};
ghost use Rattle.tool_text.specs.Jobs.{Job, Judges};

use crate::lines::error::LineError;
use seq_circle::NoMemory;
use std::alloc::Global;

/// The most events that a job over lines of events plays (own): the next one is refused as TooManyEvents.
pub const MOST_EVENTS: u32 = 16_384;

/// A job over the lines of an input (own). Contracts see what a line does, and what the job does with lines: the result
/// of each by the job's state, the text of what it does, and the text at the input's end.
pub trait LineJob {
    // What a line does.
    ghost Deed: { Type 0 };
    // The job as a definition: the result of each line, and the texts.
    ghost job: { Job Deed Self };
    // What is true of its state before the line with this number.
    ghost keeps: { Self → ℕ → Type 0 };

    /// Judges the line of this number, counted from 1, without its newline: at most 4,096 bytes. An accepted line
    /// leaves the text of what it does at the text's end; a refused one leaves the text as it was. NoMemory means that
    /// no memory was left; then nothing is known about the state and the text.
    fn judge(
        &mut self,
        alloc: Global,
        number: u64,
        line: &[u8],
        text: &mut Vec<u8>,
    ) -> Result<(), LineError>
        requires kept { keeps self.old number }
        requires number { number ≤ 16777217 }
        ensures verdict { Judges job (job.judged self.old number line.now) text.old.items text.new.items self.new result }
        ensures keeps_on { OnOk result (keeps self.new (number + 1)) };

    /// Puts the text at the input's end. NoMemory means that no memory was left.
    fn finish(&mut self, alloc: Global, text: &mut Vec<u8>) -> Result<(), NoMemory>
        requires { (number : ℕ) × keeps self.old number }
        ensures { OnOk result (text.new.items ≡ text.old.items ++ job.ending self.old) };
}
