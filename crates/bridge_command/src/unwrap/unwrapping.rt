//! `unwrap`: a job over the records of a capture.
ghost use Rattle.std.specs.Prelude.{◌≡◌, ◌≤◌, ◌++◌, ℕ, List, length, OnOk, Some};
ghost use Rattle.capture_reader.specs.Records.{entry_of};
ghost use Rattle.bridge_records.specs.Writing.{header_for, raw_record};
ghost use Rattle.dccp_io.specs.Counts.{Rose};
ghost use Rattle.bridge_records.specs.Recording.{capture_refusal, capture_skips};
ghost use Rattle.tool_text.specs.Ends.{Answers, IsAnswered, EndsForCause, SinkFails, StopsWithin};
ghost use Rattle.bridge_command.specs.Unwrapping as spec;
ghost use Rattle.bridge_command.specs.Unwrapping.{is_unwrapped_faulty, piece_fault_name, unwrap_work, unwrapped_entry, unwrapped_pieces, unwrapped_text, untold_header};

use bridge_links::ip_packet;
use bridge_records::{
    PieceFault, RecordJob, RecordsEnd, put_file_header, put_record_header, run_records,
};
use capture_reader::{Record, RecordHeader};
use dccp_io::{Sink, Source};
use seq_circle::NoMemory;
use std::alloc::Global;
use std::marker::Model;
use tool_text::put;

/// The job that makes a record of raw IP from each record. Contracts see nothing of it.
#[derive(Drop)]
pub(crate) struct UnwrapJob {
    alloc: Global,
}

impl Model for UnwrapJob {
    ghost Value = { Unit {0} };

    ghost view = { λ _. tt };
}

// How many bytes the packet of a record had.
fn original_of(item: &Record<'_>, ip: &[u8]) -> u32
    requires part { length ip.now ≤ length item.now.bytes.now }
    requires short { length item.now.bytes.now ≤ 262144 }
    ensures { result ≡ spec.original_of (entry_of item.now) ip.now }
{
    if ip.is_empty() {
        return 0;
    }
    let taken = (item.bytes.len() - ip.len()) as u32;
    item.original.saturating_sub(taken)
}

// The header of the record of this packet, which was found in another record.
fn header_of(item: &Record<'_>, ip: &[u8]) -> RecordHeader
    requires part { length ip.now ≤ length item.now.bytes.now }
    requires short { length item.now.bytes.now ≤ 262144 }
    ensures { result ≡ header_for (spec.unwrapped_of (entry_of item.now) ip.now) }
{
    RecordHeader {
        seconds: item.seconds,
        fraction: item.fraction,
        captured: ip.len() as u32,
        original: original_of(item, ip),
    }
}

// Puts the record of this packet, which was found in another record.
fn put_record_of(text: &mut Vec<u8>, item: &Record<'_>, ip: &[u8]) -> Result<(), NoMemory>
    requires part { length ip.now ≤ length item.now.bytes.now }
    requires short { length item.now.bytes.now ≤ 262144 }
    ensures { OnOk result (text.new.items ≡ text.old.items ++ raw_record (spec.unwrapped_of (entry_of item.now) ip.now)) }
{
    let header = header_of(item, ip);
    put_record_header(text, &header)?;
    put(text, ip)?;
    Ok(())
}

// Puts the record that is made from this one.
#[tactic(auto, unfolding(crate::specs::Unwrapping::unwrapped_entry))]
fn put_unwrapped(alloc: Global, text: &mut Vec<u8>, item: &Record<'_>) -> Result<(), NoMemory>
    requires { length item.now.bytes.now ≤ 262144 }
    ensures { OnOk result (text.new.items ≡ text.old.items ++ raw_record (unwrapped_entry (entry_of item.now))) }
{
    let packet = ip_packet(alloc, item.link, item.bytes)?;
    put_record_of(text, item, packet.bytes())
}

/// Why a capture is refused, as a word (own).
pub(crate) fn fault_name(fault: PieceFault) -> &'static str
    ensures { result.now ≡ piece_fault_name fault }
{
    match fault {
        PieceFault::BadMagic => "BadMagic",
        PieceFault::BadVersion => "BadVersion",
        PieceFault::BadLink => "BadLink",
        PieceFault::CutShort => "CutShort",
        PieceFault::TooLong => "RecordTooLong",
        PieceFault::BadBlock => "BadBlock",
        PieceFault::TooLarge => "TooLarge",
    }
}

// Puts the text at the end of a capture in which no interface was read, or one was.
fn put_untold(text: &mut Vec<u8>, untold: bool) -> Result<(), NoMemory>
    ensures { OnOk result (text.new.items ≡ text.old.items ++ untold_header untold) }
{
    if untold {
        return put_file_header(text, false);
    }
    Ok(())
}

impl RecordJob for UnwrapJob {
    ghost use Rattle.bridge_command.specs.Unwrapping.{CapturePart, unwrap_work};

    ghost Deed = { CapturePart };

    ghost work = { unwrap_work };

    fn begin(&mut self, nanos: bool, text: &mut Vec<u8>) -> Result<(), NoMemory> {
        put_file_header(text, nanos)
    }

    fn pass(&mut self, item: &Record<'_>, text: &mut Vec<u8>) -> Result<(), NoMemory> {
        put_unwrapped(self.alloc, text, item)
    }

    fn finish(
        &self,
        untold: bool,
        _records: u64,
        end: Option<PieceFault>,
        text: &mut Vec<u8>,
    ) -> Result<(), NoMemory> {
        match end {
            None => put_untold(text, untold),
            Some(_) => Ok(()),
        }
    }
}

/// Makes a classic capture of raw IP from a capture (own). It has a record for each record, at the same time, with the
/// IP packet that is found after the header of the link, up to two VLAN tags, PPPoE and up to 16 labels of MPLS,
/// without the extension headers of IPv6 that lead to DCCP; the record is empty if there is none. The link types that
/// it knows are 0 and 108, which begin with an address family, 1 (Ethernet), 9 (PPP), 12 and 101 (raw IP), 105 and 127
/// (802.11), 113 and 276 (the "any" device of Linux), 219 (MPLS), 228 (IPv4), 229 (IPv6), 239 (packets that Linux's
/// packet filter logged) and 258 (records of macOS with others in them). The capture is a classic one or a pcapng file,
/// whose records are its Enhanced Packet Blocks, and its Simple Packet Blocks at time 0. Fractions of a second are
/// nanoseconds if six digits are too few for the units in which the first interface of a pcapng file counts time.
///
/// Input means that the capture has a fault, which is returned. With status 0 or 1 the output is that of the whole
/// input, with another a prefix of it. Read means that the source failed, Write that the sink did, and Memory that no
/// memory was left.
pub(crate) fn unwrap_capture<S: Source, K: Sink>(
    alloc: Global,
    input: &mut S,
    output: &mut K,
) -> RecordsEnd
    ensures unwrapped { (bytes : List ℕ) → S.left input.old ≡ Some bytes
        → Answers (unwrapped_text bytes) (is_unwrapped_faulty bytes) result.end (S.left input.new) (K.taken output.old) (K.taken output.new) }
    ensures past { (bytes : List ℕ) → S.left input.old ≡ Some bytes
        → StopsWithin 524288 (unwrapped_pieces bytes).accepted bytes result.end (S.left input.new) }
    ensures refused { (bytes : List ℕ) → S.left input.old ≡ Some bytes → IsAnswered result.end → result.refusal ≡ capture_refusal (unwrapped_pieces bytes) }
    ensures skipped { (bytes : List ℕ) → S.left input.old ≡ Some bytes → IsAnswered result.end → result.skips ≡ capture_skips (unwrapped_pieces bytes) }
    ensures cause { EndsForCause result.end (Rose (S.faults input.old) (S.faults input.new)) (SinkFails K.faults K.empty_takes output.old output.new) }
{
    run_records(alloc, UnwrapJob { alloc }, input, output)
}
