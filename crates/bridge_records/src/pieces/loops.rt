//! The loop over the pieces of an input.
ghost use Rattle.std.specs.Prelude.{◌≡◌, ℕ, ◌++◌, List, [], is_some, Some, IfSome};
ghost use Rattle.dccp_io.specs.Counts.{Rose};
ghost use Rattle.tool_text.specs.Ends.{EndsForCause, SinkFails};
ghost use Rattle.bridge_records.specs.Pieces.{GoesThroughPieces};
ghost use Rattle.bridge_records.specs.Turns.{LeavesText};

use crate::blocks::MOST_BLOCK;
use crate::pieces::fault::PieceFault;
use crate::pieces::job::PieceJob;
use crate::pieces::turns::{PieceTurn, take_turn};
use dccp_io::{ReadAhead, Sink, Source, write_all};
use seq_circle::NoMemory;
use std::alloc::Global;
use tool_text::{JobEnd, answered, cut_off, flush_if_due};

// Writes the rest of the text, and what follows the last piece.
fn close<J: PieceJob, K: Sink>(
    job: &J,
    output: &mut K,
    text: &mut Vec<u8>,
    end: Option<PieceFault>,
) -> JobEnd
    ensures leaves { LeavesText (text.old.items ++ J.job.closing job.now end) (is_some end) result (K.taken output.old) (K.taken output.new) }
    ensures cause { EndsForCause result ⊥ (SinkFails K.faults K.empty_takes output.old output.new) }
{
    if job.finish(end, text).is_err() {
        return JobEnd::Memory;
    }
    match write_all(output, text) {
        Err(_) => JobEnd::Write,
        Ok(()) => answered(end.is_some()),
    }
}

/// How a job over pieces ended, and why its input was refused, if it was.
#[derive(Clone, Copy)]
pub(crate) struct PiecesEnd {
    pub(crate) end: JobEnd,
    pub(crate) fault: Option<PieceFault>,
}

// The loop. It works on borrowed values, so that it has nothing to drop where it ends.
fn take_pieces<J: PieceJob, S: Source, K: Sink>(
    job: &mut J,
    source: &mut S,
    ahead: &mut ReadAhead,
    output: &mut K,
    text: &mut Vec<u8>,
) -> PiecesEnd
    requires ahead { ahead.old ≡ record { pending = []; size = 524288 } }
    requires text { text.old.items ≡ [] }
    ensures through { IfSome (S.left source.old) (λ bytes. GoesThroughPieces J.job job.old bytes result job.new (S.left source.new) (K.taken output.old) (K.taken output.new)) }
    ensures cause { EndsForCause result.end (Rose (S.faults source.old) (S.faults source.new)) (SinkFails K.faults K.empty_takes output.old output.new) }
{
    let mut given = 0;
    loop {
        let is_due = ahead.len() < job.wanted();
        if flush_if_due(is_due, output, text).is_err() {
            return PiecesEnd {
                end: JobEnd::Write,
                fault: None,
            };
        }
        match take_turn(job, source, ahead, given, text) {
            Ok(PieceTurn::Read) => {}
            Ok(PieceTurn::Taken(used)) => given += used as u64,
            Ok(PieceTurn::Over(fault)) => {
                return PiecesEnd {
                    end: close(job, output, text, fault),
                    fault,
                };
            }
            Ok(PieceTurn::Failed) => {
                return PiecesEnd {
                    end: cut_off(output, text, JobEnd::Read),
                    fault: None,
                };
            }
            Err(NoMemory) => {
                return PiecesEnd {
                    end: JobEnd::Memory,
                    fault: None,
                };
            }
        }
    }
}

/// Does a job over the pieces of an input, one by one as they are read (own). It writes the text of what each piece
/// does, and at the end the text for the input's end or for the fault for which it is refused. Text is written in
/// blocks of 65,536 bytes, and before the source is asked for more. A piece that ends after the input's first
/// 4,294,967,296 bytes is refused as TooLarge, and an input that ends inside a piece, or where the job does not allow
/// it, as CutShort. With status 0 or 1 the output is that of the whole input, with another a prefix of it. Read means
/// that the source failed, Write that the sink did, and Memory that no memory was left.
pub(crate) fn run_pieces<J: PieceJob, S: Source, K: Sink>(
    alloc: Global,
    job: &mut J,
    input: &mut S,
    output: &mut K,
) -> PiecesEnd
    ensures through { (bytes : List ℕ) → S.left input.old ≡ Some bytes
        → GoesThroughPieces J.job job.old bytes result job.new (S.left input.new) (K.taken output.old) (K.taken output.new) }
    ensures cause { EndsForCause result.end (Rose (S.faults input.old) (S.faults input.new)) (SinkFails K.faults K.empty_takes output.old output.new) }
{
    let mut text = Vec::new(alloc);
    let Ok(mut ahead) = ReadAhead::new(alloc, MOST_BLOCK as usize) else {
        return PiecesEnd {
            end: JobEnd::Memory,
            fault: None,
        };
    };
    take_pieces(job, input, &mut ahead, output, &mut text)
}
