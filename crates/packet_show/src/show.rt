//! `show`: a capture's records, one by one.
ghost use Rattle.std.specs.Prelude.{◌≡◌, ℕ, List, [], drop, ◌++◌, false, Some, None, IfSome, OnOk, OnErr};
ghost use Rattle.dccp_io.specs.Counts.{Rose};
ghost use Rattle.capture_reader.specs.declared.fault.CaptureFault.TheVariants.{ReadFault};
ghost use Rattle.capture_reader.specs.Records.{entry_of, records_from};
ghost use Rattle.capture_reader.specs.State.{Passed, holds_record, rest};
ghost use Rattle.packet_show.specs.CaptureText.{CanCount, CountsFit, capture_text, first_tally, is_faulty, last_line, record_text, records_end, tallied};
ghost use Rattle.packet_show.specs.Show.{Turns, Closes, ShowsHeaderFault, ShowsRecords};
ghost use Rattle.tool_text.specs.Ends.{SinkFailed, SinkFails, Answers, EndsForCause};
ghost use Rattle.tool_text.specs.Text.{SameText};

use crate::capture_lines::put_last_line;
use crate::flows::{Flows, Shown};
use capture_reader::{CaptureFault, Captures, Record};
use dccp_io::{Sink, Source, write_all};
use seq_circle::NoMemory;
use std::alloc::Global;
use tool_text::{JobEnd, answered, cut_off, flush, flush_if_due};

/// The records that were shown so far.
#[derive(Drop)]
pub(crate) struct Tally {
    /// How many have a line.
    pub(crate) shown: u64,
    /// How many were skipped.
    pub(crate) skipped: u64,
    /// The flows of their packets.
    pub(crate) flows: Flows,
}

impl Tally {
    fn new(alloc: Global) -> Tally
        ensures { result ≡ first_tally }
    {
        Tally {
            shown: 0,
            skipped: 0,
            flows: Flows::new(alloc),
        }
    }

    // Puts a record's line, if it has one, and counts it.
    fn show(&mut self, item: &Record<'_>, text: &mut Vec<u8>) -> Result<(), NoMemory>
        requires { CanCount self.old }
        ensures tally { OnOk result (self.new ≡ tallied self.old (entry_of item.now)) }
        ensures text { OnOk result (text.new.items ≡ text.old.items ++ record_text self.old (entry_of item.now)) }
        ensures err { OnErr result (SameText text.old text.new) }
    {
        match self.flows.show(item, text)? {
            Shown::Line => self.shown += 1,
            Shown::Skipped => self.skipped += 1,
        }
        Ok(())
    }
}

// The result of one turn of the loop.
pub(crate) enum Turn {
    // A record was shown or skipped.
    Shown,
    // The records ended, with the input or with a fault of the capture.
    Ended(Option<CaptureFault>),
    // The source failed.
    Failed,
}

// Reads the next record and shows it. All text is written before the source is asked for more.
fn show_next<S: Source + Drop>(
    captures: &mut Captures<S>,
    tally: &mut Tally,
    text: &mut Vec<u8>,
) -> Result<Turn, NoMemory>
    requires fits { CanCount tally.old }
    requires written { holds_record captures.old ≡ false → text.old.items ≡ [] }
    ensures { Turns S.left S.faults S.lender captures.old captures.new tally.old tally.new text.old.items text.new.items result }
{
    match captures.next() {
        Err(CaptureFault::ReadFault) => Ok(Turn::Failed),
        Err(fault) => Ok(Turn::Ended(Some(fault))),
        Ok(None) => Ok(Turn::Ended(None)),
        Ok(Some(item)) => {
            tally.show(&item, text)?;
            Ok(Turn::Shown)
        }
    }
}

// Writes the text, and then the last line.
fn finish<K: Sink>(
    output: &mut K,
    text: &mut Vec<u8>,
    tally: &Tally,
    end: Option<CaptureFault>,
) -> JobEnd
    requires { CountsFit tally.now }
    ensures closes { Closes (text.old.items ++ last_line tally.now end) end result (K.taken output.old) (K.taken output.new) }
    ensures cause { EndsForCause result ⊥ (SinkFails K.faults K.empty_takes output.old output.new) }
{
    if flush(output, text).is_err() {
        return JobEnd::Write;
    }
    if put_last_line(text, tally, end).is_err() {
        return JobEnd::Memory;
    }
    match write_all(output, text) {
        Err(_) => JobEnd::Write,
        Ok(()) => answered(end.is_some()),
    }
}

// The loop over the records. It borrows what it works on, so that none of its exits has anything to drop.
fn show_all<S: Source + Drop, K: Sink>(
    captures: &mut Captures<S>,
    output: &mut K,
    tally: &mut Tally,
    text: &mut Vec<u8>,
) -> JobEnd
    requires fresh { tally.old ≡ first_tally }
    requires empty { text.old.items ≡ [] }
    requires number { captures.old.number ≡ 0 }
    requires given { captures.old.given ≡ 24 }
    requires unended { captures.old.fault ≡ None }
    ensures shows { IfSome (rest S.left captures.old) (λ bytes. ShowsRecords (records_from captures.old.format 0 0 24 bytes) bytes result
        (S.left captures.new.source) (K.taken output.old) (K.taken output.new)) }
    ensures same_lender { S.lender captures.new.source ≡ S.lender captures.old.source }
    ensures cause { EndsForCause result (Rose (S.faults captures.old.source) (S.faults captures.new.source))
        (SinkFailed (K.faults output.old) (K.faults output.new) (K.empty_takes output.old) (K.empty_takes output.new)) }
{
    loop {
        if flush_if_due(!captures.holds_next(), output, text).is_err() {
            return JobEnd::Write;
        }
        match show_next(captures, tally, text) {
            Ok(Turn::Shown) => {}
            Ok(Turn::Ended(end)) => return finish(output, text, tally, end),
            Ok(Turn::Failed) => return cut_off(output, text, JobEnd::Read),
            Err(NoMemory) => return cut_off(output, text, JobEnd::Memory),
        }
    }
}

// Shows the records after the file header.
fn show_records<S: Source + Drop, K: Sink>(
    alloc: Global,
    captures: &mut Captures<S>,
    output: &mut K,
) -> JobEnd
    requires number { captures.old.number ≡ 0 }
    requires given { captures.old.given ≡ 24 }
    requires unended { captures.old.fault ≡ None }
    ensures shows { IfSome (rest S.left captures.old) (λ bytes. ShowsRecords (records_from captures.old.format 0 0 24 bytes) bytes result
        (S.left captures.new.source) (K.taken output.old) (K.taken output.new)) }
    ensures same_lender { S.lender captures.new.source ≡ S.lender captures.old.source }
    ensures cause { EndsForCause result (Rose (S.faults captures.old.source) (S.faults captures.new.source))
        (SinkFailed (K.faults output.old) (K.faults output.new) (K.empty_takes output.old) (K.empty_takes output.new)) }
{
    let mut tally = Tally::new(alloc);
    let mut text = Vec::new(alloc);
    show_all(captures, output, &mut tally, &mut text)
}

// Ends, since the file header was refused.
fn refuse_header<K: Sink>(alloc: Global, why: CaptureFault, output: &mut K) -> JobEnd
    ensures refuses { ShowsHeaderFault why result (K.taken output.old) (K.taken output.new) }
    ensures cause { EndsForCause result (why ≡ ReadFault) (SinkFails K.faults K.empty_takes output.old output.new) }
{
    match why {
        CaptureFault::ReadFault => JobEnd::Read,
        CaptureFault::NoMemory => JobEnd::Memory,
        _ => finish(output, &mut Vec::new(alloc), &Tally::new(alloc), Some(why)),
    }
}

/// Shows a capture (own): a line for each record that carries DCCP, and a last line with their counts or the fault that
/// ended them. The lines are written in blocks as the records are read, and before the source is asked for more. It
/// keeps one record of the input, the flows and one block of text. Input means that the capture has a fault, Read that
/// the source failed, Write that the sink did, and Memory that no memory was left.
pub fn show_capture<S: Source, K: Sink>(alloc: Global, input: &mut S, output: &mut K) -> JobEnd
    ensures text { (bytes : List ℕ) → S.left input.old ≡ Some bytes
        → Answers (capture_text bytes) (is_faulty bytes) result (S.left input.new) (K.taken output.old) (K.taken output.new) }
    ensures past { (bytes : List ℕ) → S.left input.old ≡ Some bytes → result ≡ JobEnd.Input
        → Passed 524288 (Some (drop (records_end bytes) bytes)) (S.left input.new) }
    ensures cause { EndsForCause result (Rose (S.faults input.old) (S.faults input.new))
        (SinkFailed (K.faults output.old) (K.faults output.new) (K.empty_takes output.old) (K.empty_takes output.new)) }
{
    let mut captures = match Captures::new(alloc, &mut *input) {
        Ok(captures) => captures,
        Err(refusal) => return refuse_header(alloc, refusal.0, output),
    };
    let status = show_records(alloc, &mut captures, output);
    let _ = captures.into_source();
    status
}
