//! What a line of a transcript says.
ghost use Rattle.std.specs.Prelude.{◌≡◌, IfErr, IfOk, IfSome};
ghost use Rattle.tool_text.specs.Left.{left_of};
ghost use Rattle.bridge_command.specs.TranscriptLines.{CanArrive, came_said, frame_came, frame_name_read, frame_of_sender, to_peer_named, is_other, line_said, sent_said, told_first, told_of_line};

use crate::capture::records::Travel;
use bridge_pictures::without_colon;
use dccp_listener::Peer;
use dccp_packets::MOST_FRAME_BYTES;
use schedule_text::{FrameLine, FrameWords};
use tool_jobs::peer_of;
use tool_text::{
    Digits, Flaw, Hex, LineFault, LineWhy, WordKind, WordRow, Words, found_or, is_text,
    number_up_to, read_line, read_word,
};
use world_events::Side;

// A side's frames are numbered below this.
const INDICES: u64 = 1 << 47;

// The numbers of lines are below this.
const LINE_NUMBERS: u64 = 1 << 32;

/// What a line of a transcript means. A frame's bytes are decoded where they are put.
#[derive(Drop)]
pub(crate) enum TranscriptLine<'a> {
    /// There is no frame: it is the line of an end or of flows.
    Other,
    /// A single end opened.
    Opened,
    /// The input's line of this number was answered.
    Number(u32),
    /// This frame was sent this way.
    Sent {
        travel: Travel,
        frame: Digits<'a>,
    },
    /// This frame came, from a peer or from the only other end.
    Came {
        peer: Option<Peer>,
        frame: FrameLine<'a>,
    },
}

// The way of the frame of this sender whose index this is.
fn frame_of_sender(from: Side, index: &[u8]) -> Result<Travel, Flaw>
    ensures value { result ≡ frame_of_sender from index.now }
    ensures within { IfErr result (λ flaw. flaw.place ≡ 0) }
{
    let _index = found_or(LineWhy::BadNumber, number_up_to(INDICES - 1, index))?;
    Ok(Travel::of(from))
}

// The way of a frame that a listener sent to this peer.
fn to_peer_named(peer: Option<Peer>) -> Result<Travel, Flaw>
    ensures value { result ≡ to_peer_named peer }
    ensures within { IfErr result (λ flaw. flaw.place ≡ 0) }
{
    match peer {
        Some(peer) => Ok(Travel::to(peer)),
        None => Err(Flaw {
            place: 0,
            why: LineWhy::UnknownWord,
        }),
    }
}

// The name of a frame that was sent: the letter of its sender, and its index; or the peer to which it went.
struct SentName;

impl<'a> WordKind<'a> for SentName {
    type Read = Travel;

    ghost reads = { frame_name_read };

    fn read(word: &'a [u8]) -> Result<Travel, Flaw> {
        match word {
            [b'c', index @ ..] => frame_of_sender(Side::Client, index),
            [b's', index @ ..] => frame_of_sender(Side::Server, index),
            _ => to_peer_named(peer_of(word)),
        }
    }
}

// The word that begins a line without a frame, except for those that begin with a number.
fn is_other(word: &[u8]) -> bool
    ensures { result ≡ is_other word.now }
{
    is_text(word, b"end") || is_text(word, b"flows") || is_text(word, b"flow")
}

// What the first word of a line without a frame means.
fn told_first<'a>(word: &'a [u8]) -> Result<TranscriptLine<'a>, Flaw>
    ensures value { result ≡ told_first word.now }
    ensures within { IfErr result (λ flaw. flaw.place ≡ 0) }
{
    if is_text(word, b"open:") {
        return Ok(TranscriptLine::Opened);
    }
    if is_other(word) {
        return Ok(TranscriptLine::Other);
    }
    let number = found_or(
        LineWhy::UnknownWord,
        number_up_to(LINE_NUMBERS - 1, without_colon(word)),
    )?;
    Ok(TranscriptLine::Number(number as u32))
}

// The first word of a line without a frame.
struct HeadWord;

impl<'a> WordKind<'a> for HeadWord {
    type Read = TranscriptLine<'a>;

    ghost reads = { told_first };

    fn read(word: &'a [u8]) -> Result<TranscriptLine<'a>, Flaw> {
        told_first(word)
    }
}

// What follows `sent`: a frame's name and its bytes, and nothing after them.
fn sent<'a>(words: &mut Words<'a>) -> Result<TranscriptLine<'a>, LineFault>
    ensures { result ≡ sent_said (left_of words.old) }
{
    let all = *words;
    let (travel, (digits, ())) = <(SentName, (Hex, ()))>::read(words)?;
    // A longer packet has no frame.
    if MOST_FRAME_BYTES < digits.len() {
        return Err(LineFault {
            column: all.column_of(1),
            why: LineWhy::FrameTooLong,
        });
    }
    Ok(TranscriptLine::Sent {
        travel,
        frame: digits,
    })
}

// A frame that came, of this peer or of the only other end.
fn frame_came<'a>(
    peer: Option<Peer>,
    words: &mut Words<'a>,
) -> Result<TranscriptLine<'a>, LineFault>
    ensures { result ≡ frame_came peer (left_of words.old) }
{
    let frame = FrameWords::read(words)?;
    Ok(TranscriptLine::Came { peer, frame })
}

// What follows `came`: the frame of a line of the input, with its peer in front if it has one.
fn came<'a>(words: &mut Words<'a>) -> Result<TranscriptLine<'a>, LineFault>
    ensures { result ≡ came_said (left_of words.old) }
{
    let mut all = *words;
    match peer_of(words.next_word().text) {
        Some(peer) => frame_came(Some(peer), words),
        None => frame_came(None, &mut all),
    }
}

// The words of a transcript's line.
struct TranscriptWords;

impl<'a> WordRow<'a> for TranscriptWords {
    type Said = TranscriptLine<'a>;

    ghost said = { line_said };

    fn read(words: &mut Words<'a>) -> Result<TranscriptLine<'a>, LineFault> {
        let first = words.next_word();
        if is_text(first.text, b"sent") {
            return sent(words);
        }
        if is_text(first.text, b"came") {
            return came(words);
        }
        read_word::<HeadWord>(first)
    }
}

/// What a line of a transcript means, without its newline, or None if it is empty or a comment. Or the first of its
/// faults: NotText, then Missing, UnknownWord, BadNumber and BadHex, word by word from the left, then Trailing, and
/// then FrameTooLong for a frame of more than 2,044 bytes. After `came` the faults are those of a replay's line.
pub(crate) fn told_of_line(line: &[u8]) -> Result<Option<TranscriptLine<'_>>, LineFault>
    ensures value { result ≡ told_of_line line.now }
    ensures arrives { IfOk result (λ said. IfSome said CanArrive) }
{
    read_line::<TranscriptWords>(line)
}
