//! Whole pieces and whole inputs.
ghost use Rattle.std.specs.Prelude.{◌≡◌, ℕ, ◌<◌, ◌≤◌, ◌⊎◌, [], vec_len, IfOk, OnOk, OnErr, IfErr, IfSome};
ghost use Rattle.std.specs.Io.KnownBytes.{prepend_known, append_known};
ghost use Rattle.dccp_io.specs.Counts.{Rose};
ghost use Rattle.dccp_io.specs.Fronts.{TakesFront, GivesFront};

use crate::{Failed, Sink, Source};
use std::alloc::Global;

// How many bytes one read asks for at most.
const BLOCK: usize = 4096;

/// Why an input could not be read whole (own).
#[derive(Clone, Copy)]
pub enum InputFault {
    /// The source failed.
    Read,
    /// No memory was left for its bytes.
    Memory,
}

/// Writes on until the piece is taken whole. Failed comes only if the sink failed, or took no byte of what was left;
/// then it took a prefix of the piece, and not all of it.
pub fn write_all<K: Sink>(sink: &mut K, piece: &[u8]) -> Result<(), Failed>
    ensures whole { OnOk result (K.taken sink.new ≡ append_known (K.taken sink.old) piece.now) }
    ensures front { OnErr result (TakesFront (K.taken sink.old) (K.taken sink.new) piece.now) }
    ensures never_falls { K.faults sink.old ≤ K.faults sink.new }
    ensures takes_never_fall { K.empty_takes sink.old ≤ K.empty_takes sink.new }
    ensures cause { OnErr result (Rose (K.faults sink.old) (K.faults sink.new)
        ⊎ Rose (K.empty_takes sink.old) (K.empty_takes sink.new)) }
{
    let mut done = 0;
    while done < piece.len() {
        let Ok(count) = sink.write(&piece[done..]) else {
            return Err(Failed);
        };
        if count == 0 {
            return Err(Failed);
        }
        done += count;
    }
    Ok(())
}

/// Reads the input to its end, but no more than `most` bytes of it: fewer come only if no more are left. Read comes
/// only if the source failed; after a fault the bytes that were read are lost.
pub fn read_all<S: Source>(
    alloc: Global,
    source: &mut S,
    most: usize,
) -> Result<Vec<u8>, InputFault>
    ensures next { IfOk result (λ text. S.left source.old ≡ prepend_known text.items (S.left source.new)) }
    ensures fits { IfOk result (λ text. vec_len text ≤ most) }
    ensures end { IfOk result (λ text. vec_len text < most → IfSome (S.left source.new) (λ bytes. bytes ≡ [])) }
    ensures lost { OnErr result (GivesFront (S.left source.old) (S.left source.new)) }
    ensures never_falls { S.faults source.old ≤ S.faults source.new }
    ensures same_lender { S.lender source.new ≡ S.lender source.old }
    ensures cause { IfErr result (λ fault. fault ≡ InputFault.Read → Rose (S.faults source.old) (S.faults source.new)) }
{
    let mut text = Vec::new(alloc);
    let mut block = [0; BLOCK];
    while text.len() < most {
        let room = BLOCK.min(most - text.len());
        let Ok(count) = source.read(&mut block[..room]) else {
            return Err(InputFault::Read);
        };
        if count == 0 {
            return Ok(text);
        }
        if text.extend_from_slice(&block[..count]).is_err() {
            return Err(InputFault::Memory);
        }
    }
    Ok(text)
}
