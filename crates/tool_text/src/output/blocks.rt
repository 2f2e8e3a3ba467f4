//! Text that goes out in blocks.
ghost use Rattle.std.specs.Prelude.{◌≡◌, ◌≤◌, ◌<◌, [], length, true, OnOk, OnErr};
ghost use Rattle.std.specs.Io.KnownBytes.{append_known};
ghost use Rattle.dccp_io.specs.Fronts.{TakesFront};
ghost use Rattle.tool_text.specs.Ends.{SinkFailed, SinkFails, HasBegun, HasTaken, IsMovedOut, block_length};
ghost use Rattle.tool_text.specs.Text.{SameText};

use crate::output::status::JobEnd;
use dccp_io::{Failed, Sink, write_all};

// A text is written once it has this many bytes.
const BLOCK: usize = 65_536;

/// Writes the text and empties it (own). Failed comes only if the sink failed, or took no byte of a piece that was not
/// empty; then a prefix was written, and the text is kept.
pub fn flush<K: Sink>(output: &mut K, text: &mut Vec<u8>) -> Result<(), Failed>
    ensures taken { OnOk result (K.taken output.new ≡ append_known (K.taken output.old) text.old.items) }
    ensures empty { OnOk result (text.new.items ≡ []) }
    ensures front { OnErr result (TakesFront (K.taken output.old) (K.taken output.new) text.old.items) }
    ensures kept { OnErr result (SameText text.old text.new) }
    ensures never_falls { K.faults output.old ≤ K.faults output.new }
    ensures takes_never_fall { K.empty_takes output.old ≤ K.empty_takes output.new }
    ensures cause { OnErr result (SinkFailed (K.faults output.old) (K.faults output.new) (K.empty_takes output.old) (K.empty_takes output.new)) }
{
    write_all(output, text)?;
    text.clear();
    Ok(())
}

/// Writes the text and empties it if it has a block's length, 65,536 bytes (own). Failed comes as from `flush`.
pub fn flush_if_full<K: Sink>(output: &mut K, text: &mut Vec<u8>) -> Result<(), Failed>
    ensures moved { OnOk result (IsMovedOut (K.taken output.old) (K.taken output.new) text.old.items text.new.items) }
    ensures full { block_length ≤ length text.old.items → OnOk result (text.new.items ≡ []) }
    ensures short { length text.old.items < block_length → text.new.items ≡ text.old.items }
    ensures front { OnErr result (TakesFront (K.taken output.old) (K.taken output.new) text.old.items) }
    ensures kept { OnErr result (SameText text.old text.new) }
    ensures never_falls { K.faults output.old ≤ K.faults output.new }
    ensures takes_never_fall { K.empty_takes output.old ≤ K.empty_takes output.new }
    ensures cause { OnErr result (SinkFailed (K.faults output.old) (K.faults output.new) (K.empty_takes output.old) (K.empty_takes output.new)) }
{
    if text.len() < BLOCK {
        return Ok(());
    }
    flush(output, text)
}

/// Writes the text if that is due, as before more of the input is asked for, and else if it has a block's length (own). So
/// the sender of the input has the answers to all that was read before more is wanted of it. Failed comes as from `flush`.
pub fn flush_if_due<K: Sink>(is_due: bool, output: &mut K, text: &mut Vec<u8>) -> Result<(), Failed>
    ensures moved { OnOk result (IsMovedOut (K.taken output.old) (K.taken output.new) text.old.items text.new.items) }
    ensures written { OnOk result (is_due ≡ true → text.new.items ≡ []) }
    ensures front { OnErr result (TakesFront (K.taken output.old) (K.taken output.new) text.old.items) }
    ensures never_falls { K.faults output.old ≤ K.faults output.new }
    ensures takes_never_fall { K.empty_takes output.old ≤ K.empty_takes output.new }
    ensures cause { OnErr result (SinkFails K.faults K.empty_takes output.old output.new) }
{
    if is_due {
        flush(output, text)
    } else {
        flush_if_full(output, text)
    }
}

/// Writes the lines that are complete, so that none is lost if the job ends early, and returns why it does (own). All
/// are written unless the sink failed.
pub fn cut_off<K: Sink>(output: &mut K, text: &[u8], why: JobEnd) -> JobEnd
    ensures same { result ≡ why }
    ensures front { HasBegun (K.taken output.old) (K.taken output.new) text.now }
    ensures whole { (SinkFailed (K.faults output.old) (K.faults output.new) (K.empty_takes output.old) (K.empty_takes output.new) → ⊥) → HasTaken (K.taken output.old) (K.taken output.new) text.now }
{
    let _ = write_all(output, text);
    why
}
