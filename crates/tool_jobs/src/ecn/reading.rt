//! Lines, read.
ghost use Rattle.std.specs.Prelude.{◌≡◌, ◌≤◌, length, OnOk};
ghost use Rattle.tool_text.specs.Left.{left_of};
ghost use Rattle.tool_jobs.specs.Forms as spec;

use crate::ecn::names::EcnForm;
use dccp_ecn::EcnEvent;
use tool_text::{Below, LineFault, NameWord, WordRow, Words, read_line, read_word};

// Indices of packets and reports are below this (own).
const INDEX_END: u64 = 1 << 47;

// A nonce: 0 or 1.
type NonceWord = (Below<2>, ());

// The index of a packet or a report.
type IndexWord = (Below<INDEX_END>, ());

// An index, and nothing after it.
fn index(words: &mut Words<'_>) -> Result<u64, LineFault>
    ensures { result ≡ spec.index_row.said (left_of words.old) }
{
    let (index, ()) = <IndexWord>::read(words)?;
    Ok(index)
}

// The words of a line.
struct EcnLine;

impl<'a> WordRow<'a> for EcnLine {
    type Said = EcnEvent;

    ghost said = { spec.ecn_row.said };

    fn read(words: &mut Words<'a>) -> Result<EcnEvent, LineFault> {
        match read_word::<NameWord<EcnForm>>(words.next_word())? {
            EcnForm::Send => {
                let (nonce, ()) = <NonceWord>::read(words)?;
                Ok(EcnEvent::Send(nonce == 1))
            }
            EcnForm::Deliver => Ok(EcnEvent::Deliver(index(words)?)),
            EcnForm::Mark => Ok(EcnEvent::Mark(index(words)?)),
            EcnForm::Report => {
                <() as WordRow>::read(words)?;
                Ok(EcnEvent::Report)
            }
            EcnForm::Check => Ok(EcnEvent::Check(index(words)?)),
            EcnForm::Forge => Ok(EcnEvent::Forge(index(words)?)),
        }
    }
}

/// The event that a line says, or None exactly if the line is empty or a comment; or the first of the line's faults in
/// the order of `LineWhy`, with its column (own): LineTooLong, NotText, Missing, UnknownWord, BadNumber or Trailing.
/// The line comes without its newline.
pub(crate) fn read_ecn_line(line: &[u8]) -> Result<Option<EcnEvent>, LineFault>
    ensures value { result ≡ spec.read_ecn_line line.now }
    ensures short { OnOk result (length line.now ≤ 4096) }
{
    read_line::<EcnLine>(line)
}
