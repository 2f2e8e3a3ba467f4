//! A job over the records of a capture.
ghost use Rattle.std.specs.Prelude.{◌≡◌, ◌+◌, ◌≤◌, ◌++◌, ℕ, List, length, OnOk, Some};
ghost use Rattle.bridge_records.specs.Pieces.{piece_text};
ghost use Rattle.capture_reader.specs.Records.{entry_of};
ghost use Rattle.dccp_io.specs.Counts.{Rose, one_more};
ghost use Rattle.tool_text.specs.Ends.{EndsForCause, SinkFails};
ghost use Rattle.bridge_records.specs.Reading.{bytes_held};
ghost use Rattle.bridge_records.specs.Recording.{GoesOverRecords, RecordWork, first_reading, held_passed, numbered_entry, reading_at, records_work, refusal_after};

use crate::content::Content;
use crate::pieces::{PieceError, PieceFault, PieceJob, run_pieces};
use crate::reading::CaptureFile;
use crate::skips::Skips;
use capture_reader::{Record, RecordHeader};
use dccp_io::{Sink, Source};
use seq_circle::NoMemory;
use std::alloc::Global;
use std::marker::Model;
use tool_text::JobEnd;

/// A job over the records of a capture (own). Contracts see what it does when the capture begins and with each record,
/// the text of what it does, and the text after the last record.
pub trait RecordJob {
    // What the beginning or a record does.
    ghost Deed: { Type 0 };
    // What the job does with records.
    ghost work: { RecordWork Deed Self };

    /// Begins the capture, whose fractions of a second are nanoseconds or microseconds, and puts the text of what that
    /// does at the text's end. NoMemory means that no memory was left, here and below.
    fn begin(&mut self, nanos: bool, text: &mut Vec<u8>) -> Result<(), NoMemory>
        ensures text { OnOk result (text.new.items ≡ text.old.items ++ piece_text (records_work work) (work.begun self.old nanos).deed) }
        ensures next { OnOk result (self.new ≡ (work.begun self.old nanos).next) };

    /// Takes the next record, and puts the text of what it does at the text's end.
    fn pass(&mut self, item: &Record<'_>, text: &mut Vec<u8>) -> Result<(), NoMemory>
        requires { length item.now.bytes.now ≤ 262144 }
        ensures text { OnOk result (text.new.items ≡ text.old.items ++ piece_text (records_work work) (work.passed self.old (entry_of item.now)).deed) }
        ensures next { OnOk result (self.new ≡ (work.passed self.old (entry_of item.now)).next) };

    /// Puts the text after the last of this many records: at the capture's end, or where it is refused. At the end of a
    /// pcapng file without an interface it is not known whether fractions are nanoseconds: the capture did not begin.
    fn finish(
        &self,
        untold: bool,
        records: u64,
        end: Option<PieceFault>,
        text: &mut Vec<u8>,
    ) -> Result<(), NoMemory>
        ensures { OnOk result (text.new.items ≡ text.old.items ++ work.closing self.now untold records end) };
}

/// Why a capture is refused, and after how many records (own).
#[derive(Clone, Copy)]
pub struct CaptureRefusal {
    pub fault: PieceFault,
    pub records: u64,
}

/// How a job over records ended, why the capture is refused, if it is, and what was skipped of it (own).
#[derive(Clone, Copy)]
pub struct RecordsEnd {
    pub end: JobEnd,
    pub refusal: Option<CaptureRefusal>,
    pub skips: Skips,
}

/// A capture while a job reads its records.
#[derive(Drop)]
pub(crate) struct CaptureWalk<J> {
    file: CaptureFile,
    nanos: bool,
    records: u64,
    job: J,
}

impl<J> Model for CaptureWalk<J> {
    ghost use Rattle.bridge_records.specs.Recording.{RecordsState};

    ghost Value = { RecordsState J };

    ghost view = { λ r. record { file = r.file; nanos = r.nanos; records = r.records; job = r.job } };
}

// The bytes of a record in its piece.
fn bytes_of<'a>(head: &RecordHeader, start: usize, piece: &'a [u8]) -> &'a [u8]
    requires { start + head.now.captured ≤ length piece.now }
    ensures value { result.now ≡ bytes_held head.now start piece.now }
    ensures size { length result.now ≡ head.now.captured }
{
    &piece[start..start + head.captured as usize]
}

// A record of this number and link type, with its bytes.
fn numbered<'a>(
    number: u64,
    nanos: bool,
    link: u32,
    head: &RecordHeader,
    bytes: &'a [u8],
) -> Record<'a>
    ensures { entry_of result ≡ numbered_entry number nanos link head.now bytes.now }
{
    Record {
        number,
        seconds: head.seconds,
        fraction: head.fraction,
        nanos,
        link,
        original: head.original,
        bytes,
    }
}

impl<J: RecordJob> CaptureWalk<J> {
    // Before the first piece.
    fn new(alloc: Global, job: J) -> CaptureWalk<J>
        ensures { result ≡ first_reading job }
    {
        CaptureWalk {
            file: CaptureFile::new(alloc),
            nanos: false,
            records: 0,
            job,
        }
    }

    // Why the capture is refused after the last record, if it is.
    fn refusal(&self, fault: Option<PieceFault>) -> Option<CaptureRefusal>
        ensures { result ≡ refusal_after self.now.records fault }
    {
        match fault {
            Some(fault) => Some(CaptureRefusal {
                fault,
                records: self.records,
            }),
            None => None,
        }
    }

    // What was skipped so far.
    fn skips(&self) -> Skips
        ensures { result ≡ self.now.file.skips }
    {
        self.file.skips()
    }

    // The capture begins.
    fn begin(&mut self, nanos: bool, text: &mut Vec<u8>) -> Result<(), NoMemory>
        ensures text { OnOk result (text.new.items ≡ text.old.items ++ piece_text (records_work J.work) (J.work.begun self.old.job nanos).deed) }
        ensures next { OnOk result (self.new ≡ reading_at self.old.file nanos self.old.records (J.work.begun self.old.job nanos).next) }
    {
        self.nanos = nanos;
        self.job.begin(nanos, text)
    }

    // One more record, whose bytes begin at this place in this piece.
    fn pass_held(
        &mut self,
        link: u32,
        head: &RecordHeader,
        start: usize,
        piece: &[u8],
        text: &mut Vec<u8>,
    ) -> Result<(), NoMemory>
        requires inside { start + head.now.captured ≤ length piece.now }
        requires short { head.now.captured ≤ 262144 }
        ensures text { OnOk result (text.new.items ≡ text.old.items ++ piece_text (records_work J.work) (held_passed J.work self.old link head.now start piece.now).deed) }
        ensures next { OnOk result (self.new
            ≡ reading_at self.old.file self.old.nanos (one_more self.old.records) (held_passed J.work self.old link head.now start piece.now).next) }
    {
        self.records = self.records.saturating_add(1);
        let bytes = bytes_of(head, start, piece);
        let item = numbered(self.records, self.nanos, link, head, bytes);
        self.job.pass(&item, text)
    }
}

impl<J: RecordJob> PieceJob for CaptureWalk<J> {
    ghost use Rattle.bridge_records.specs.Recording.{records_work};

    ghost Deed = { J.Deed };

    ghost job = { records_work J.work };

    fn wanted(&self) -> usize {
        self.file.wanted()
    }

    fn may_end(&self) -> bool {
        self.file.may_end()
    }

    fn judge(&mut self, piece: &[u8], text: &mut Vec<u8>) -> Result<(), PieceError> {
        match self.file.read(piece)? {
            None => {}
            Some(Content::Begins(nanos)) => self.begin(nanos, text)?,
            Some(Content::Holds(link, head, start)) => {
                self.pass_held(link, &head, start, piece, text)?;
            }
        }
        Ok(())
    }

    fn finish(&self, end: Option<PieceFault>, text: &mut Vec<u8>) -> Result<(), NoMemory> {
        self.job
            .finish(self.file.is_untold(), self.records, end, text)
    }
}

/// Does a job over the records of a capture, classic or pcapng, one by one as they are read (own). It writes the text
/// of what the beginning and each record does, and at the end the text for the capture's end or for the fault for which
/// it is refused. The records of a pcapng file are its Enhanced Packet Blocks, and its Simple Packet Blocks at time 0.
/// Their fractions are nanoseconds if six digits are too few for the units in which the first interface counts time.
///
/// Input means that the capture has a fault. The fault is returned with the number of records before it, and so is what
/// was skipped. With status 0 or 1 the output is that of the whole input, with another a prefix of it. Read means that
/// the source failed, Write that the sink did, and Memory that no memory was left.
pub fn run_records<J: RecordJob + Drop, S: Source, K: Sink>(
    alloc: Global,
    job: J,
    input: &mut S,
    output: &mut K,
) -> RecordsEnd
    ensures through { (bytes : List ℕ) → S.left input.old ≡ Some bytes
        → GoesOverRecords J.work job bytes result (S.left input.new) (K.taken output.old) (K.taken output.new) }
    ensures cause { EndsForCause result.end (Rose (S.faults input.old) (S.faults input.new)) (SinkFails K.faults K.empty_takes output.old output.new) }
{
    let mut recording = CaptureWalk::new(alloc, job);
    let ended = run_pieces(alloc, &mut recording, input, output);
    RecordsEnd {
        end: ended.end,
        refusal: recording.refusal(ended.fault),
        skips: recording.skips(),
    }
}
