//! Bytes gathered in the block.
ghost use Rattle.std.specs.Prelude.{◌≡◌, ◌≤◌, length, OnOk, OnErr};
ghost use Rattle.dccp_io.specs.Counts.{Rose};
ghost use Rattle.capture_reader.specs.Gathering.{Gathers, IsGathered};

use dccp_io::{Failed, ReadAhead, Source};

/// Reads on until this many bytes are pending, or the input ends.
pub(crate) fn gather<S: Source>(
    source: &mut S,
    ahead: &mut ReadAhead,
    asked: usize,
) -> Result<(), Failed>
    requires { asked ≤ ahead.old.size }
    ensures ahead { Gathers S.left S.faults S.lender asked ahead.old ahead.new source.old source.new }
    ensures gathered { OnOk result (IsGathered asked ahead.new (S.left source.new)) }
    ensures unread { asked ≤ length ahead.old.pending → (source.new ≡ source.old) × (ahead.new ≡ ahead.old) }
    ensures cause { OnErr result (Rose (S.faults source.old) (S.faults source.new)) }
{
    let mut held = ahead.len();
    while held < asked {
        let count = ahead.refill(source)?;
        if count == 0 {
            return Ok(());
        }
        held = ahead.len();
    }
    Ok(())
}
