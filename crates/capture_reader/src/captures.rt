//! The reader of a capture: records one after another, over a block of fixed length.
ghost use Rattle.std.specs.Prelude.{◌≡◌, ◌≢◌, ◌+◌, ◌-◌, ◌*◌, ◌≤◌, ◌<◌, ◌^◌, [], length, true, None, Some, Ok, IfSome, MatchResult, IfOk, IfErr, OnErr};
ghost use Rattle.dccp_io.specs.Counts.{Rose};
ghost use Rattle.dccp_io.specs.Ahead.{ahead_of};
ghost use Rattle.capture_reader.specs.Format.{opened};
ghost use Rattle.capture_reader.specs.Records.{header_in, holds_body, is_record_settled};
ghost use Rattle.capture_reader.specs.Steps.{KeepsTheSource, FileRead, HeaderRead, BodyRead, RecordRead};
ghost use Rattle.capture_reader.specs.State.{Declines, Opens};
ghost use Rattle.capture_reader.specs.declared.fault.CaptureFault.TheVariants.{NoMemory};

use crate::CaptureFault;
use crate::format::{FILE_HEADER, Format, LINKS, Order};
use crate::gather::gather;
use crate::record::{
    MOST_CAPTURE_BYTES, MOST_CAPTURED, RECORD_HEADER, Record, RecordHeader, header_in, missing,
};
use dccp_io::{ReadAhead, Source};
use std::alloc::Global;
use std::marker::Model;

// The bytes of the block. A record's bytes fit into it, since its header is dropped first.
const BLOCK: usize = 262_144;

/// A reader of a capture's records over a source (own). Contracts see the source, what was read of it and not given
/// yet, the format, how many bytes and records were given, and the fault that ended the capture.
#[derive(Drop)]
pub struct Captures<S: Drop> {
    source: S,
    ahead: ReadAhead,
    format: Format,
    // How many of the pending bytes are those of the record that was lent last.
    lent: usize,
    given: u64,
    number: u64,
    fault: Option<CaptureFault>,
}

impl<S: Drop> Model for Captures<S> {
    ghost use Rattle.std.specs.Prelude.{◌≡◌, ◌≤◌, ◌*◌, ◌^◌, take, drop, length, IfSome};
    ghost use Rattle.capture_reader.specs.State.{CapturesState, IsOfRecords};

    ghost Value = { CapturesState S };

    ghost view = { λ c. record {
      source = c.source;
      pending = drop c.lent c.ahead.pending;
      lent = take c.lent c.ahead.pending;
      format = c.format;
      given = c.given;
      number = c.number;
      fault = c.fault;
    } };

    ghost invariant = { λ c. (c.lent ≤ length c.ahead.pending)
        × (length c.ahead.pending ≤ 262144) × (c.ahead.size ≡ 262144) × (c.given ≤ 2 ^ 32)
        × (16 * c.number ≤ c.given) × IfSome c.fault IsOfRecords };
}

// Reads the file header.
fn open<S: Source>(source: &mut S, ahead: &mut ReadAhead) -> Result<Format, CaptureFault>
    requires { ahead.old ≡ record { pending = []; size = 262144 } }
    ensures keeps { KeepsTheSource S.faults S.lender ahead.old ahead.new source.old source.new }
    ensures read { FileRead S.left S.faults ahead.new source.old source.new result }
    ensures no_memory { IfErr result (λ why. why ≢ NoMemory) }
{
    if gather(source, ahead, FILE_HEADER).is_err() {
        return Err(CaptureFault::ReadFault);
    }
    if ahead.len() < FILE_HEADER {
        return Err(CaptureFault::CutShort);
    }
    let format = match Format::read(&LINKS, &ahead.pending()[..FILE_HEADER]) {
        Ok(format) => format,
        Err(fault) => return Err(CaptureFault::from(fault)),
    };
    ahead.pass(FILE_HEADER);
    Ok(format)
}

// Reads the next record's header, or None at the input's end.
fn read_header<S: Source>(
    source: &mut S,
    ahead: &mut ReadAhead,
    order: Order,
    room: u64,
) -> Result<Option<RecordHeader>, CaptureFault>
    requires { ahead.old.size ≡ 262144 }
    ensures keeps { KeepsTheSource S.faults S.lender ahead.old ahead.new source.old source.new }
    ensures read { HeaderRead S.left S.faults order room ahead.old ahead.new source.old source.new result }
    ensures unread { 16 ≤ length ahead.old.pending → source.new ≡ source.old }
    ensures held { IfOk result (λ found. IfSome found (λ header. 16 ≤ length ahead.old.pending
        → (header_in order room ahead.old.pending ≡ Ok (Some header)) × (length ahead.new.pending ≡ length ahead.old.pending - 16))) }
{
    if gather(source, ahead, RECORD_HEADER).is_err() {
        return Err(CaptureFault::ReadFault);
    }
    match header_in(order, room, ahead.pending()) {
        Err(fault) => Err(fault),
        Ok(None) => Ok(None),
        Ok(Some(header)) => {
            ahead.pass(RECORD_HEADER);
            Ok(Some(header))
        }
    }
}

// Reads a record's bytes, which are then pending.
fn read_body<S: Source>(
    source: &mut S,
    ahead: &mut ReadAhead,
    captured: u32,
    room: u64,
) -> Result<usize, CaptureFault>
    requires { ahead.old.size ≡ 262144 }
    ensures keeps { KeepsTheSource S.faults S.lender ahead.old ahead.new source.old source.new }
    ensures same { ahead_of ahead.new (S.left source.new) ≡ ahead_of ahead.old (S.left source.old) }
    ensures read { BodyRead S.left S.faults captured room ahead.old ahead.new source.old source.new result }
    ensures unread { holds_body captured (length ahead.old.pending) ≡ true → source.new ≡ source.old }
{
    // Reading their number gives the prover that the bytes fit into the block.
    let _held = ahead.len();
    let count = captured as usize;
    if MOST_CAPTURED < count {
        return Err(CaptureFault::RecordTooLong);
    }
    if gather(source, ahead, count).is_err() {
        return Err(CaptureFault::ReadFault);
    }
    match missing(count, room, ahead.len()) {
        Some(fault) => Err(fault),
        None => Ok(count),
    }
}

// Reads the next record: its header, and its bytes, which are then pending. None at the input's end.
fn read_record<S: Source>(
    source: &mut S,
    ahead: &mut ReadAhead,
    order: Order,
    room: u64,
) -> Result<Option<RecordHeader>, CaptureFault>
    requires { ahead.old.size ≡ 262144 }
    ensures keeps { KeepsTheSource S.faults S.lender ahead.old ahead.new source.old source.new }
    ensures read { RecordRead S.left S.faults order room ahead.old ahead.new source.old source.new result }
    ensures unread { is_record_settled order room ahead.old.pending ≡ true → source.new ≡ source.old }
{
    let Some(header) = read_header(source, ahead, order, room)? else {
        return Ok(None);
    };
    match read_body(source, ahead, header.captured, room - RECORD_HEADER as u64) {
        Err(fault) => Err(fault),
        Ok(_) => Ok(Some(header)),
    }
}

// The bytes that are pending settle what comes next: a record is whole, or its header shows what is wrong.
fn is_record_settled(order: Order, room: u64, pending: &[u8]) -> bool
    ensures { result ≡ is_record_settled order room pending.now }
{
    if pending.len() < RECORD_HEADER {
        return false;
    }
    match header_in(order, room, pending) {
        Ok(Some(header)) => {
            let count = header.captured as usize;
            MOST_CAPTURED < count || count <= pending.len() - RECORD_HEADER
        }
        _ => true,
    }
}

impl<S: Source + Drop> Captures<S> {
    ghost use Rattle.std.specs.Prelude.{Result, Option, ◌≡◌};
    ghost use Rattle.std.specs.Borrow.{sem};
    ghost use Rattle.std.specs.Io.BufRead.{Rests};
    ghost use Rattle.capture_reader.specs.State.{Advances, found, holds_record, read_of};
    ghost use Rattle.capture_reader.specs.contracts.captures.Captures.{the_row};

    /// A reader over this source, after the file header, which it reads. All memory is taken here. At most 262,144
    /// bytes are read, and if the capture is refused the source is handed back. The faults, in this order: NoMemory if
    /// there is none for the block, and then nothing was read; ReadFault, only if the source failed; CutShort, exactly
    /// if fewer than 24 bytes come; and for these bytes, in this order, BadMagic, BadVersion and BadLink.
    pub fn new(alloc: Global, source: S) -> Result<Captures<S>, (CaptureFault, S)>
        ensures { MatchResult result
            (λ captures. Opens S.left S.faults S.lender source captures)
            (λ refusal. Declines S.left S.faults S.lender source refusal.1 refusal.0) }
    {
        let mut source = source;
        let mut ahead = match ReadAhead::new(alloc, BLOCK) {
            Ok(ahead) => ahead,
            Err(_) => return Err((CaptureFault::NoMemory, source)),
        };
        match open(&mut source, &mut ahead) {
            Err(fault) => Err((fault, source)),
            Ok(format) => Ok(Captures {
                source,
                ahead,
                format,
                lent: 0,
                given: FILE_HEADER as u64,
                number: 0,
                fault: None,
            }),
        }
    }

    // Finds the next record, whose bytes are then those that are lent.
    fn advance(&mut self) -> Result<Option<RecordHeader>, CaptureFault>
        ensures { Advances S.left S.faults S.lender self.old self.new (found self.new result) }
    {
        if let Some(fault) = self.fault {
            return Err(fault);
        }
        self.ahead.pass(self.lent);
        self.lent = 0;
        let room = MOST_CAPTURE_BYTES - self.given;
        match read_record(&mut self.source, &mut self.ahead, self.format.order, room) {
            Err(fault) => {
                self.fault = Some(fault);
                Err(fault)
            }
            Ok(None) => Ok(None),
            Ok(Some(header)) => {
                self.lent = header.captured as usize;
                self.given += RECORD_HEADER as u64 + u64::from(header.captured);
                self.number += 1;
                Ok(Some(header))
            }
        }
    }

    // The bytes of the record that was found last.
    fn lent(&self) -> &[u8]
        ensures { result.now ≡ self.now.lent }
    {
        &self.ahead.pending()[..self.lent]
    }

    /// The next record, whole in whatever pieces the source gave it, or None exactly at the end of the input between
    /// two records. It takes no memory. ReadFault comes only if the source failed. If it did not, the fault is exactly
    /// the first that the bytes have: CutShort or TooLarge in the record's header, RecordTooLong, and CutShort or
    /// TooLarge in its bytes. After a fault each further call answers the same, and does nothing. If `holds_next` is
    /// true, the source is not read.
    pub fn next(&mut self) -> Result<Option<Record<'_>>, CaptureFault>
        ensures* after { sem 𝓛 (Rests (the_row S.row) self.entry (λ captures. Advances S.left S.faults S.lender self.old captures (read_of result))) }
    {
        match self.advance() {
            Err(fault) => Err(fault),
            Ok(None) => Ok(None),
            Ok(Some(header)) => {
                let number = self.number;
                let nanos = self.format.nanos;
                let link = self.format.link;
                Ok(Some(Record {
                    number,
                    seconds: header.seconds,
                    fraction: header.fraction,
                    nanos,
                    link,
                    original: header.original,
                    bytes: self.lent(),
                }))
            }
        }
    }

    /// Whether the next call of `next` certainly reads nothing, since what was read settles its answer, or since a
    /// fault ended the capture.
    pub fn holds_next(&self) -> bool
        ensures { result ≡ holds_record self.now }
    {
        if self.fault.is_some() {
            return true;
        }
        let (_, pending) = self.ahead.pending().split_at(self.lent);
        is_record_settled(self.format.order, MOST_CAPTURE_BYTES - self.given, pending)
    }

    /// The source, in its present state.
    pub fn into_source(self) -> S
        ensures { result ≡ self.source }
    {
        self.source
    }
}
