//! `json`: a job over the records of a capture.
ghost use Rattle.std.specs.Prelude.{◌≡◌, ◌++◌, ℕ, List, IfOk, OnOk, Some};
ghost use Rattle.dccp_io.specs.Counts.{Rose};
ghost use Rattle.bridge_records.specs.Recording.{capture_refusal, capture_skips};
ghost use Rattle.tool_text.specs.Ends.{Answers, IsAnswered, EndsForCause, SinkFails, StopsWithin};
ghost use Rattle.bridge_command.specs.Members.{members_seen};
ghost use Rattle.bridge_command.specs.Telling.{fault_members, is_json_faulty, json_closing, json_pieces, json_text};

use crate::json::judging::JsonJob;
use crate::json::objects::Object;
use crate::unwrap::fault_name;
use bridge_records::{PieceFault, RecordJob, RecordsEnd, run_records};
use capture_reader::Record;
use dccp_io::{Sink, Source};
use seq_circle::NoMemory;
use std::alloc::Global;

// The object of a fault, after this many records.
#[tactic(auto, unfolding(crate::specs::Telling::fault_members))]
fn fault_object(alloc: Global, records: u64, fault: PieceFault) -> Result<Object, NoMemory>
    ensures { IfOk result (λ o. members_seen o ≡ fault_members records fault) }
{
    let mut object = Object::new(alloc);
    object.number("records", records)?;
    object.string("fault", fault_name(fault))?;
    Ok(object)
}

// Puts the line of a fault.
fn put_fault(
    alloc: Global,
    text: &mut Vec<u8>,
    records: u64,
    fault: PieceFault,
) -> Result<(), NoMemory>
    ensures { OnOk result (text.new.items ≡ text.old.items ++ json_closing records (Some fault)) }
{
    fault_object(alloc, records, fault)?.put_line(text)
}

impl RecordJob for JsonJob {
    ghost use Rattle.bridge_command.specs.Telling.{JsonRecord, json_work};

    ghost Deed = { JsonRecord };

    ghost work = { json_work };

    fn begin(&mut self, _nanos: bool, _text: &mut Vec<u8>) -> Result<(), NoMemory> {
        Ok(())
    }

    fn pass(&mut self, item: &Record<'_>, text: &mut Vec<u8>) -> Result<(), NoMemory> {
        self.put_record(text, item)
    }

    fn finish(
        &self,
        _untold: bool,
        records: u64,
        end: Option<PieceFault>,
        text: &mut Vec<u8>,
    ) -> Result<(), NoMemory> {
        match end {
            None => Ok(()),
            Some(fault) => put_fault(self.alloc(), text, records, fault),
        }
    }
}

/// Writes the records of a capture (RFC 8259; the names of members are own): for each an object on a separate line,
/// without spaces, its members in the order of their names. The capture is a classic one or a pcapng file, of any of
/// the link types that `unwrap` knows.
///
/// Each object has `record` (its number, from 1), `seconds` and `nanoseconds` (its time), `link` (the link type),
/// `length` (its bytes on the link) and `captured` (those that are there). If the IP packet in the record carries a
/// packet of DCCP, as `show` finds one, the object has `flow` (its number), `ttl`, `ecn`, `source`, `destination` and
/// their ports, `type`, `sequence`, `short` (whether numbers have 24 bits), `ccval`, `cscov`, `checksum`, `options` as
/// objects, `data` (how many bytes of data are there) and `verdict` (on the checksum). If its type has them, it has
/// `acknowledgement`, `service_code`, `reset_code` and `data_1` to `data_3`; and if they are asked for, `payload`, its
/// bytes of data. Otherwise it has `malformed`, why whole bytes of DCCP are no packet, with `ttl`, `ecn` and the
/// addresses; or `skipped`, why the record holds none.
///
/// Input means that the capture has a fault. Then the last object has `fault` and `records`, how many records came
/// before it. With status 0 or 1 the output is that of the whole input, with another a prefix of it. Read means that
/// the source failed, Write that the sink did, and Memory that no memory was left.
pub(crate) fn json_records<S: Source, K: Sink>(
    alloc: Global,
    payload: bool,
    input: &mut S,
    output: &mut K,
) -> RecordsEnd
    ensures told { (bytes : List ℕ) → S.left input.old ≡ Some bytes
        → Answers (json_text payload bytes) (is_json_faulty payload bytes) result.end (S.left input.new) (K.taken output.old) (K.taken output.new) }
    ensures past { (bytes : List ℕ) → S.left input.old ≡ Some bytes
        → StopsWithin 524288 (json_pieces payload bytes).accepted bytes result.end (S.left input.new) }
    ensures refused { (bytes : List ℕ) → S.left input.old ≡ Some bytes → IsAnswered result.end → result.refusal ≡ capture_refusal (json_pieces payload bytes) }
    ensures skipped { (bytes : List ℕ) → S.left input.old ≡ Some bytes → IsAnswered result.end → result.skips ≡ capture_skips (json_pieces payload bytes) }
    ensures cause { EndsForCause result.end (Rose (S.faults input.old) (S.faults input.new)) (SinkFails K.faults K.empty_takes output.old output.new) }
{
    let job = JsonJob::new(alloc, payload);
    run_records(alloc, job, input, output)
}
