//! One turn of the loop over pieces.
ghost use Rattle.std.specs.Prelude.{◌≡◌, ◌+◌, ◌≤◌, ◌<◌, ◌==◌, ◌&&◌, [], length};
ghost use Rattle.bridge_records.specs.Pieces.{unended, most_piece_bytes};
ghost use Rattle.bridge_records.specs.Turns.{KeepsBlock, TurnsPiece};

use crate::pieces::fault::{PieceError, PieceFault};
use crate::pieces::job::PieceJob;
use capture_reader::MOST_CAPTURE_BYTES;
use dccp_io::{Failed, ReadAhead, Source};
use seq_circle::NoMemory;

/// The result of one turn.
pub(crate) enum PieceTurn {
    /// More of the input was read.
    Read,
    /// A piece of this many bytes was accepted.
    Taken(usize),
    /// The input is at its end, or refused.
    Over(Option<PieceFault>),
    /// The source failed.
    Failed,
}

// Why the input is refused at its end, if it is: no byte may be left, and the job has to allow the end there.
fn end_of<J: PieceJob>(job: &J, held: usize) -> Option<PieceFault>
    ensures { result ≡ unended (held == 0 && J.job.may_end job.now) }
{
    if held == 0 && job.may_end() {
        None
    } else {
        Some(PieceFault::CutShort)
    }
}

// Reads once, after the bytes that are held, which are fewer than the next piece has.
fn read_more<J: PieceJob, S: Source>(
    job: &mut J,
    source: &mut S,
    ahead: &mut ReadAhead,
    given: u64,
    text: &mut Vec<u8>,
) -> Result<PieceTurn, NoMemory>
    requires size { ahead.old.size ≡ 524288 }
    requires short { length ahead.old.pending < J.job.wanted job.old }
    requires wanted { J.job.wanted job.old ≤ 524288 }
    requires room { 0 < length ahead.old.pending → given + J.job.wanted job.old ≤ most_piece_bytes }
    requires written { text.old.items ≡ [] }
    ensures keeps { KeepsBlock S.faults (record { source = source.old; ahead = ahead.old; state = job.old; text = text.old.items })
        (record { source = source.new; ahead = ahead.new; state = job.new; text = text.new.items }) }
    ensures turn { TurnsPiece S.left S.faults J.job given (record { source = source.old; ahead = ahead.old; state = job.old; text = text.old.items })
        (record { source = source.new; ahead = ahead.new; state = job.new; text = text.new.items }) result }
{
    let held = ahead.len();
    match ahead.refill(source) {
        Err(Failed) => Ok(PieceTurn::Failed),
        Ok(0) => Ok(PieceTurn::Over(end_of(job, held))),
        Ok(_) => Ok(PieceTurn::Read),
    }
}

// Judges the next piece, which is held whole.
fn judge_piece<J: PieceJob, S: Source>(
    job: &mut J,
    source: &mut S,
    ahead: &mut ReadAhead,
    given: u64,
    text: &mut Vec<u8>,
) -> Result<PieceTurn, NoMemory>
    requires some { 1 ≤ J.job.wanted job.old }
    requires there { J.job.wanted job.old ≤ length ahead.old.pending }
    requires room { given + J.job.wanted job.old ≤ most_piece_bytes }
    ensures keeps { KeepsBlock S.faults (record { source = source.old; ahead = ahead.old; state = job.old; text = text.old.items })
        (record { source = source.new; ahead = ahead.new; state = job.new; text = text.new.items }) }
    ensures turn { TurnsPiece S.left S.faults J.job given (record { source = source.old; ahead = ahead.old; state = job.old; text = text.old.items })
        (record { source = source.new; ahead = ahead.new; state = job.new; text = text.new.items }) result }
{
    let wanted = job.wanted();
    match job.judge(&ahead.pending()[..wanted], text) {
        Ok(()) => {
            ahead.pass(wanted);
            Ok(PieceTurn::Taken(wanted))
        }
        Err(PieceError::Refused(fault)) => Ok(PieceTurn::Over(Some(fault))),
        Err(PieceError::NoMemory) => Err(NoMemory),
    }
}

/// Reads on if the next piece is not held whole, and else judges it. When the source is asked for more, all text is
/// written.
pub(crate) fn take_turn<J: PieceJob, S: Source>(
    job: &mut J,
    source: &mut S,
    ahead: &mut ReadAhead,
    given: u64,
    text: &mut Vec<u8>,
) -> Result<PieceTurn, NoMemory>
    requires size { ahead.old.size ≡ 524288 }
    requires within { given ≤ most_piece_bytes }
    requires written { length ahead.old.pending < J.job.wanted job.old → text.old.items ≡ [] }
    ensures keeps { KeepsBlock S.faults (record { source = source.old; ahead = ahead.old; state = job.old; text = text.old.items })
        (record { source = source.new; ahead = ahead.new; state = job.new; text = text.new.items }) }
    ensures turn { TurnsPiece S.left S.faults J.job given (record { source = source.old; ahead = ahead.old; state = job.old; text = text.old.items })
        (record { source = source.new; ahead = ahead.new; state = job.new; text = text.new.items }) result }
{
    let wanted = job.wanted();
    let held = ahead.len();
    if 0 < held && MOST_CAPTURE_BYTES - given < wanted as u64 {
        return Ok(PieceTurn::Over(Some(PieceFault::TooLarge)));
    }
    if held < wanted {
        return read_more(job, source, ahead, given, text);
    }
    judge_piece(job, source, ahead, given, text)
}
