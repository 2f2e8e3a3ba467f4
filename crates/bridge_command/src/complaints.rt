//! What was skipped of a capture, and why the input of a form is refused. This is reported separately from the output
//! (own).
ghost use Rattle.std.specs.Prelude.{◌≡◌, ◌++◌, Some, OnOk};
ghost use Rattle.tool_text.specs.Ends.{IsWritten, SinkFails};
ghost use Rattle.bridge_command.specs.Complaints as spec;

use crate::unwrap::fault_name;
use bridge_records::{CaptureRefusal, RecordsEnd, Skips, Tally};
use dccp_io::{Sink, write_all};
use seq_circle::NoMemory;
use std::alloc::Global;
use tool_text::{JobEnd, LineRefusal, LinesEnd, put, put_counted, put_named, put_refusal};

/// Why the input of a form is refused.
#[derive(Clone, Copy)]
pub(crate) enum Complaint {
    /// A line of it is refused.
    Line(LineRefusal),
    /// The capture has a fault.
    Capture(CaptureRefusal),
}

/// What a form reports besides its output.
#[derive(Clone, Copy)]
pub(crate) struct Remarks {
    /// What was skipped of a capture.
    pub(crate) skips: Skips,
    /// Why its input is refused, if it is.
    pub(crate) complaint: Option<Complaint>,
}

/// How a form ended, and what it reports.
#[derive(Clone, Copy)]
pub(crate) struct FormEnd {
    pub(crate) end: JobEnd,
    pub(crate) said: Remarks,
}

// A line that is refused, if one is.
fn line_complaint(refusal: Option<LineRefusal>) -> Option<Complaint>
    ensures { result ≡ spec.line_complaint refusal }
{
    match refusal {
        Some(refusal) => Some(Complaint::Line(refusal)),
        None => None,
    }
}

// The fault of a capture, if it has one.
fn capture_complaint(refusal: Option<CaptureRefusal>) -> Option<Complaint>
    ensures { result ≡ spec.capture_complaint refusal }
{
    match refusal {
        Some(refusal) => Some(Complaint::Capture(refusal)),
        None => None,
    }
}

impl FormEnd {
    /// A form over lines ended.
    pub(crate) fn of_lines(ended: LinesEnd) -> FormEnd
        ensures end { result.end ≡ ended.end }
        ensures said { result.said ≡ spec.line_said ended.refusal }
    {
        FormEnd {
            end: ended.end,
            said: Remarks {
                skips: Skips::none(),
                complaint: line_complaint(ended.refusal),
            },
        }
    }

    /// A form over the records of a capture ended.
    pub(crate) fn of_records(ended: RecordsEnd) -> FormEnd
        ensures end { result.end ≡ ended.end }
        ensures said { result.said ≡ spec.capture_said ended.refusal ended.skips }
    {
        FormEnd {
            end: ended.end,
            said: Remarks {
                skips: ended.skips,
                complaint: capture_complaint(ended.refusal),
            },
        }
    }
}

// Puts the line about what was skipped of one kind, if anything was.
#[tactic(auto, unfolding(crate::specs::Complaints::tally_line))]
fn put_tally(text: &mut Vec<u8>, name: &[u8], tally: Tally) -> Result<(), NoMemory>
    ensures { OnOk result (text.new.items ≡ text.old.items ++ spec.tally_line name.now tally) }
{
    if tally.count == 0 {
        return Ok(());
    }
    put_named(text, b"skipped ", name)?;
    put_counted(text, b": ", tally.count)?;
    put_counted(text, b", first ", u64::from(tally.first))?;
    put(text, b"\n")
}

// Puts the lines about what was skipped.
#[tactic(auto, unfolding(crate::specs::Complaints::skips_text))]
fn put_skips(text: &mut Vec<u8>, skips: &Skips) -> Result<(), NoMemory>
    ensures { OnOk result (text.new.items ≡ text.old.items ++ spec.skips_text skips.now) }
{
    put_tally(text, b"packets of other links", skips.links)?;
    put_tally(text, b"packets of too many bytes", skips.long)?;
    put_tally(text, b"blocks of other types", skips.blocks)
}

// Puts the line of a fault of a capture.
#[tactic(auto, unfolding(crate::specs::Complaints::capture_line))]
fn put_capture_line(text: &mut Vec<u8>, refusal: &CaptureRefusal) -> Result<(), NoMemory>
    ensures { OnOk result (text.new.items ≡ text.old.items ++ spec.capture_line refusal.now) }
{
    put_named(text, b"capture ", fault_name(refusal.fault).as_bytes())?;
    put(text, b" after ")?;
    put_counted(text, b"record ", refusal.records)?;
    put(text, b"\n")
}

// Puts the line that says why an input is refused, or nothing if it is not.
fn put_refused(text: &mut Vec<u8>, complaint: &Option<Complaint>) -> Result<(), NoMemory>
    ensures { OnOk result (text.new.items ≡ text.old.items ++ spec.complaint_text complaint.now) }
{
    match complaint {
        Some(Complaint::Line(refusal)) => put_refusal(text, refusal.number, refusal.fault),
        Some(Complaint::Capture(refusal)) => put_capture_line(text, refusal),
        None => Ok(()),
    }
}

// Puts all that a form reports.
fn put_said(text: &mut Vec<u8>, said: &Remarks) -> Result<(), NoMemory>
    ensures { OnOk result (text.new.items ≡ text.old.items ++ spec.said_text said.now) }
{
    put_skips(text, &said.skips)?;
    put_refused(text, &said.complaint)
}

// Writes lines as far as the sink takes them.
fn write_lines<E: Sink>(errors: &mut E, lines: &[u8])
    ensures { IsWritten lines.now (E.taken errors.old) (E.taken errors.new) (SinkFails E.faults E.empty_takes errors.old errors.new) }
{
    let _ = write_all(errors, lines);
}

/// Reports what was skipped and why an input is refused, as far as the sink takes it. Returns how the form ended, or
/// Memory if no memory was left for the lines.
pub(crate) fn tell_said<E: Sink>(alloc: Global, ended: FormEnd, errors: &mut E) -> JobEnd
    ensures end { spec.EndsAs ended.end result }
    ensures said { spec.OnAnswer result (IsWritten (spec.said_text ended.said) (E.taken errors.old) (E.taken errors.new) (SinkFails E.faults E.empty_takes errors.old errors.new)) }
{
    let mut lines = Vec::new(alloc);
    if put_said(&mut lines, &ended.said).is_err() {
        return JobEnd::Memory;
    }
    write_lines(errors, &lines);
    ended.end
}
