//! Lines of replays, read.
ghost use Rattle.std.specs.Prelude.{◌≡◌, ◌≤◌, length, true, IfOk, IfSome};
ghost use Rattle.tool_text.specs.Left.{left_of};
ghost use Rattle.schedule_text.specs.Frames as spec;

use crate::{FrameDigits, FrameLine, LineFault, LineWhy};
use dccp_packets::MOST_FRAME_BYTES;
use tool_text::{Hex, WordRow, Words, is_text, read_line};

// The checksum is the last of a packet's first eight bytes.
const SEALED: usize = 8;

// Why these bytes are no frame of a replay, if they are none.
fn size_cause(seal: bool, length: usize) -> Option<LineWhy>
    ensures { result ≡ spec.size_cause seal length }
{
    if MOST_FRAME_BYTES < length {
        Some(LineWhy::FrameTooLong)
    } else if seal && length < SEALED {
        Some(LineWhy::SealShort)
    } else {
        None
    }
}

// The digits of a frame, and nothing after them.
fn frame<'a>(seal: bool, words: &mut Words<'a>) -> Result<FrameLine<'a>, LineFault>
    ensures { result ≡ (spec.frame_row seal).said (left_of words.old) }
{
    let all = *words;
    let (digits, ()) = <(Hex, ())>::read(words)?;
    if let Some(why) = size_cause(seal, digits.len()) {
        return Err(LineFault {
            column: all.column_of(0),
            why,
        });
    }
    Ok(FrameLine {
        seal,
        bytes: FrameDigits { digits },
    })
}

/// The words of a frame (own): `seal` if the checksum is to be set, then the digits of its bytes, one to 2,044 of them,
/// or at least eight after `seal`.
pub struct FrameWords;

impl<'a> WordRow<'a> for FrameWords {
    type Said = FrameLine<'a>;

    ghost said = { spec.replay_row.said };

    fn read(words: &mut Words<'a>) -> Result<FrameLine<'a>, LineFault> {
        let mut all = *words;
        let first = words.next_word();
        if is_text(first.text, b"seal") {
            frame(true, words)
        } else {
            frame(false, &mut all)
        }
    }
}

/// The frame that a line of a replay says, or None exactly if the line is empty or a comment; or the first of the
/// line's faults in the order of `LineWhy`, with its column (own). The line comes without its newline.
///
/// A frame is written as the digits of its bytes, one to 2,044 of them, or at least eight after the word `seal`.
pub fn read_frame(line: &[u8]) -> Result<Option<FrameLine<'_>>, LineFault>
    ensures value { result ≡ spec.read_frame line.now }
    ensures seals { IfOk result (λ said. IfSome said (λ frame. frame.seal ≡ true → 8 ≤ length frame.bytes)) }
{
    read_line::<FrameWords>(line)
}
