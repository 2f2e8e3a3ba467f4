//! One turn of the loop over lines.
ghost use Rattle.std.specs.Prelude.{◌≡◌, ◌≤◌, [], false, None};
ghost use Rattle.dccp_io.specs.Lines.{holds_next};
ghost use Rattle.tool_text.specs.Turns.{TakesTurn, judged_turn, stopped_turn};

use crate::lines::error::LineError;
use crate::lines::job::LineJob;
use crate::lines::refusals::too_long;
use crate::words::{LineFault, LineWhy, whole_line};
use dccp_io::{Lines, Source, Stop};
use std::alloc::Global;

/// The result of one turn.
pub(crate) enum Turn {
    /// A line was accepted.
    Accepted,
    /// The input is at its end.
    Ended,
    /// A line is refused.
    Refused(LineFault),
    /// The source failed.
    Failed,
    /// No memory was left.
    NoMemory,
}

// The turn in which the reader stopped: a line that is too long, or too much for an input, is refused.
fn stopped_turn(stop: Stop) -> Turn
    ensures { result ≡ stopped_turn stop }
{
    match stop {
        Stop::TooLong => Turn::Refused(too_long()),
        Stop::TooMuch => Turn::Refused(whole_line(LineWhy::TooMuchInput)),
        Stop::Failed => Turn::Failed,
    }
}

// The turn in which a line was judged.
fn judged_turn(answer: Result<(), LineError>) -> Turn
    ensures { result ≡ judged_turn answer }
{
    match answer {
        Ok(()) => Turn::Accepted,
        Err(LineError::Refused(fault)) => Turn::Refused(fault),
        Err(LineError::NoMemory) => Turn::NoMemory,
    }
}

/// Reads the next line and judges it, under its number. All text is written before the source is asked for more.
pub(crate) fn judge_next<J: LineJob, S: Source + Drop>(
    alloc: Global,
    job: &mut J,
    number: u64,
    lines: &mut Lines<S>,
    text: &mut Vec<u8>,
) -> Turn
    requires kept { J.keeps job.old number }
    requires number { number ≤ 16777217 }
    requires unstopped { lines.old.stop ≡ None }
    requires written { holds_next lines.old ≡ false → text.old.items ≡ [] }
    ensures { TakesTurn S.left S.faults S.lender J.job J.keeps number lines.old lines.new job.old job.new text.old.items text.new.items result }
{
    match lines.find() {
        Err(stop) => stopped_turn(stop),
        Ok(false) => Turn::Ended,
        Ok(true) => judged_turn(job.judge(alloc, number, lines.text(), text)),
    }
}
