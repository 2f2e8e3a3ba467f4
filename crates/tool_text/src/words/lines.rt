//! Lines, whole.
ghost use Rattle.std.specs.Prelude.{◌≡◌, ◌≤◌, not, length, OnOk};
ghost use Rattle.tool_text.specs.Lines as spec;

use crate::words::blocks::{ByteSearch, first_far};
use crate::words::faults::{LineFault, LineWhy};
use crate::words::rows::WordRow;
use crate::words::split::Words;

/// The most bytes of a line.
const LONGEST_LINE: usize = 4096;

fn is_text(byte: u8) -> bool
    ensures { result ≡ spec.is_text byte }
{
    32 <= byte && byte <= 126
}

// Bytes that are no text.
#[derive(Drop)]
struct NoText;

impl ByteSearch for NoText {
    ghost sought = { λ s byte. not (spec.is_text byte) };

    fn is_sought(&self, byte: u8) -> bool {
        !is_text(byte)
    }
}

/// A line has at most 4,096 bytes, all of them text (own): otherwise LineTooLong, or NotText at the first other byte.
pub fn clean(line: &[u8]) -> Result<(), LineFault>
    ensures value { result ≡ spec.clean line.now }
    ensures short { OnOk result (length line.now ≤ 4096) }
{
    if LONGEST_LINE < line.len() {
        return Err(LineFault {
            column: 4097,
            why: LineWhy::LineTooLong,
        });
    }
    match first_far(&NoText, line) {
        Some(place) => Err(LineFault {
            column: place as u32 + 1,
            why: LineWhy::NotText,
        }),
        None => Ok(()),
    }
}

/// Whether a line is empty or a comment (own).
pub fn says_nothing(line: &[u8]) -> bool
    ensures { result ≡ spec.says_nothing line.now }
{
    match line {
        [] => true,
        [first, ..] => *first == b'#',
    }
}

/// What a line without its newline says by a row of words, or None if it is empty or a comment; or the first of its
/// faults (own): LineTooLong, then NotText, then the row's.
pub fn read_line<'a, R: WordRow<'a>>(line: &'a [u8]) -> Result<Option<R::Said>, LineFault>
    ensures { result ≡ spec.line_read R.said line.now }
{
    clean(line)?;
    if says_nothing(line) {
        return Ok(None);
    }
    let said = R::read(&mut Words::of(line))?;
    Ok(Some(said))
}
