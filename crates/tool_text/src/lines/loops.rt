//! The loop over the lines of an input.
ghost use Rattle.std.specs.Prelude.{◌≡◌, ℕ, ◌++◌, List, true, false, None, Some, IfSome};
ghost use Rattle.dccp_io.specs.Counts.{Rose};
ghost use Rattle.dccp_io.specs.Lines.{rest_of_input};
ghost use Rattle.tool_text.specs.Ends.{EndsForCause, SinkFails};
ghost use Rattle.tool_text.specs.Jobs.{GoesIn, GoesThrough, refusal_in};
ghost use Rattle.tool_text.specs.Turns.{Leaves};

use crate::lines::job::LineJob;
use crate::lines::refusals::{LineRefusal, put_refusal};
use crate::lines::turns::{Turn, judge_next};
use crate::output::{JobEnd, answered, cut_off, flush_if_due};
use crate::words::LineFault;
use dccp_io::{Lines, Sink, Source, write_all};
use std::alloc::Global;

// Writes the rest of the text, and answers Input if a line was refused, and Done otherwise. Write means that the sink
// failed.
fn leave<K: Sink>(output: &mut K, text: &[u8], refused: bool) -> JobEnd
    ensures leaves { Leaves text.now refused result (K.taken output.old) (K.taken output.new) }
    ensures cause { EndsForCause result ⊥ (SinkFails K.faults K.empty_takes output.old output.new) }
{
    match write_all(output, text) {
        Err(_) => JobEnd::Write,
        Ok(()) => answered(refused),
    }
}

// Writes the rest of the text. If refusals are written to the output, then writes the line of the refusal, with the
// number of the refused line.
fn refuse<K: Sink>(
    output: &mut K,
    text: &mut Vec<u8>,
    apart: bool,
    number: u64,
    fault: LineFault,
) -> JobEnd
    ensures leaves { Leaves (text.old.items ++ refusal_in apart number fault) true result (K.taken output.old) (K.taken output.new) }
    ensures cause { EndsForCause result ⊥ (SinkFails K.faults K.empty_takes output.old output.new) }
{
    if !apart && put_refusal(text, number, fault).is_err() {
        return JobEnd::Memory;
    }
    leave(output, text, true)
}

// Writes the rest of the text, and the text at the input's end after it.
fn end<J: LineJob, K: Sink>(
    alloc: Global,
    job: &mut J,
    output: &mut K,
    text: &mut Vec<u8>,
) -> JobEnd
    requires { (number : ℕ) × J.keeps job.old number }
    ensures leaves { Leaves (text.old.items ++ J.job.ending job.old) false result (K.taken output.old) (K.taken output.new) }
    ensures cause { EndsForCause result ⊥ (SinkFails K.faults K.empty_takes output.old output.new) }
{
    if job.finish(alloc, text).is_err() {
        return JobEnd::Memory;
    }
    leave(output, text, false)
}

/// How a job over lines ended (own), and the line that was refused, if one was.
#[derive(Clone, Copy)]
pub struct LinesEnd {
    pub end: JobEnd,
    pub refusal: Option<LineRefusal>,
}

// The loop, which writes a refusal to the output or not. It borrows what it works on, so that none of its exits has
// anything to drop.
fn go_through<J: LineJob, S: Source + Drop, K: Sink>(
    alloc: Global,
    job: &mut J,
    lines: &mut Lines<S>,
    output: &mut K,
    text: &mut Vec<u8>,
    apart: bool,
) -> LinesEnd
    requires kept { J.keeps job.old 1 }
    requires given { lines.old.given ≡ 0 }
    requires unstopped { lines.old.stop ≡ None }
    ensures through { IfSome (rest_of_input S.left lines.old) (λ bytes. GoesIn apart J.job J.keeps job.old text.old.items bytes result
        (S.left lines.new.source) (K.taken output.old) (K.taken output.new)) }
    ensures same_lender { S.lender lines.new.source ≡ S.lender lines.old.source }
    ensures cause { EndsForCause result.end (Rose (S.faults lines.old.source) (S.faults lines.new.source)) (SinkFails K.faults K.empty_takes output.old output.new) }
{
    let mut number = 1;
    loop {
        let is_due = !lines.holds_next();
        if flush_if_due(is_due, output, text).is_err() {
            return LinesEnd {
                end: JobEnd::Write,
                refusal: None,
            };
        }
        match judge_next(alloc, job, number, lines, text) {
            Turn::Accepted => number += 1,
            Turn::Ended => return LinesEnd {
                end: end(alloc, job, output, text),
                refusal: None,
            },
            Turn::Refused(fault) => {
                return LinesEnd {
                    end: refuse(output, text, apart, number, fault),
                    refusal: Some(LineRefusal { number, fault }),
                };
            }
            Turn::Failed => return LinesEnd {
                end: cut_off(output, text, JobEnd::Read),
                refusal: None,
            },
            Turn::NoMemory => return LinesEnd {
                end: JobEnd::Memory,
                refusal: None,
            },
        }
    }
}

// The same over an input.
fn go_over<J: LineJob, S: Source, K: Sink>(
    alloc: Global,
    job: &mut J,
    text: &mut Vec<u8>,
    input: &mut S,
    output: &mut K,
    apart: bool,
) -> LinesEnd
    requires { J.keeps job.old 1 }
    ensures through { (bytes : List ℕ) → S.left input.old ≡ Some bytes
        → GoesIn apart J.job J.keeps job.old text.old.items bytes result (S.left input.new) (K.taken output.old) (K.taken output.new) }
    ensures cause { EndsForCause result.end (Rose (S.faults input.old) (S.faults input.new)) (SinkFails K.faults K.empty_takes output.old output.new) }
{
    let Ok(mut lines) = Lines::new(alloc, &mut *input) else {
        return LinesEnd {
            end: JobEnd::Memory,
            refusal: None,
        };
    };
    let ended = go_through(alloc, job, &mut lines, output, text, apart);
    let _ = lines.into_source();
    ended
}

/// Does a job over the lines of an input, one by one as they are read (own). It writes the text that it is given, then
/// that of what each line does, and last the text at the input's end, or the line of the first refusal, with the number
/// of the refused line. Text goes out in blocks of 65,536 bytes, and before the source is asked for more. A line of
/// more than 4,096 bytes is refused at its 4,097th, as LineTooLong. A line is refused as TooMuchInput if neither its
/// newline, nor that byte, nor the input's end is within the input's first 16,777,216 bytes. With status 0 or 1 the
/// output is that of the whole input; with another status it is a prefix of that. Read means that the source failed,
/// Write that the sink did, and Memory that no memory was left.
pub fn run_lines<J: LineJob, S: Source, K: Sink>(
    alloc: Global,
    job: &mut J,
    text: &mut Vec<u8>,
    input: &mut S,
    output: &mut K,
) -> JobEnd
    requires { J.keeps job.old 1 }
    ensures through { (bytes : List ℕ) → S.left input.old ≡ Some bytes
        → GoesThrough J.job J.keeps job.old text.old.items bytes result (S.left input.new) (K.taken output.old) (K.taken output.new) }
    ensures cause { EndsForCause result (Rose (S.faults input.old) (S.faults input.new)) (SinkFails K.faults K.empty_takes output.old output.new) }
{
    go_over(alloc, job, text, input, output, false).end
}

/// Does a job over the lines of an input as [`run_lines`] does, but writes no line of a refusal (own). It returns the
/// refusal, if there is one and all that comes before it was written.
pub fn run_lines_apart<J: LineJob, S: Source, K: Sink>(
    alloc: Global,
    job: &mut J,
    text: &mut Vec<u8>,
    input: &mut S,
    output: &mut K,
) -> LinesEnd
    requires { J.keeps job.old 1 }
    ensures through { (bytes : List ℕ) → S.left input.old ≡ Some bytes
        → GoesIn true J.job J.keeps job.old text.old.items bytes result (S.left input.new) (K.taken output.old) (K.taken output.new) }
    ensures cause { EndsForCause result.end (Rose (S.faults input.old) (S.faults input.new)) (SinkFails K.faults K.empty_takes output.old output.new) }
{
    go_over(alloc, job, text, input, output, true)
}
