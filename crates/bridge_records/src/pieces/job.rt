//! What a job does with pieces.
ghost use Rattle.std.specs.Prelude.{◌≡◌, ◌≤◌, ◌++◌, length, OnOk};
ghost use Rattle.bridge_records.specs.Pieces.{JudgesPiece, PieceWork};

use crate::pieces::fault::{PieceError, PieceFault};
use seq_circle::NoMemory;

/// A job over the pieces of an input (own). Contracts see what a piece does, and what the job makes of pieces: from the
/// job's state, how long the next piece is and what its result is; the text of what it does; and the text after the
/// last piece.
pub(crate) trait PieceJob {
    // What a piece does.
    ghost Deed: { Type 0 };
    // What the job makes of pieces.
    ghost job: { PieceWork Deed Self };

    /// How many bytes the next piece has: 1 to 524,288.
    fn wanted(&self) -> usize
        ensures value { result ≡ job.wanted self.now }
        ensures some { 1 ≤ result }
        ensures fits { result ≤ 524288 };

    /// Whether the input may end before the next piece.
    fn may_end(&self) -> bool
        ensures { result ≡ job.may_end self.now };

    /// Judges the next piece. If it is accepted, the text of what it does is put at the text's end; if it is refused,
    /// text and state stay the same. NoMemory means that no memory was left; then nothing is said about state and text.
    fn judge(&mut self, piece: &[u8], text: &mut Vec<u8>) -> Result<(), PieceError>
        requires { length piece.now ≡ job.wanted self.old }
        ensures { JudgesPiece job self.old (job.judged self.old piece.now) text.old.items text.new.items self.new result };

    /// Puts the text after the last piece: at the input's end, or where the input is refused. NoMemory comes if no
    /// memory was left.
    fn finish(&self, end: Option<PieceFault>, text: &mut Vec<u8>) -> Result<(), NoMemory>
        ensures { OnOk result (text.new.items ≡ text.old.items ++ job.closing self.now end) };
}
