//! What a line draws of a transcript that `run`, `replay` or `listen` wrote.
ghost use Rattle.std.specs.Prelude.{◌≡◌};
ghost use Rattle.tool_text.specs.Left.{left_of};
ghost use Rattle.bridge_pictures.specs.LadderLines as spec;

use crate::ladder::phases::{Demand, Fate};
use dccp_listener::Peer;
use schedule_text::{FrameLine, FrameWords};
use tool_jobs::peer_of;
use tool_text::{
    Digits, Hex, LineFault, LineWhy, WordRow, Words, is_text, number_up_to, read_line, read_word,
};
use world_events::Side;

// A side's frames are numbered below this.
const INDICES: u64 = 1 << 47;

// The numbers of lines are below this.
const LINE_NUMBERS: u64 = 1 << 32;

/// What a line of a transcript draws.
#[derive(Drop)]
pub(crate) enum LadderLine<'a> {
    /// A side was asked for something, or one of its timers ran out.
    Asked(Side, Demand),
    /// The frame of this sender and index came.
    Came(Side, u64, Fate),
    /// The only end of a replay was asked for something.
    AskedAlone,
    /// A frame came to the only end of a replay.
    CameAlone(Fate),
    /// A side sent a frame of this index.
    Sent {
        from: Side,
        index: u64,
        frame: Digits<'a>,
    },
    /// How a side ended.
    Ended(Side),
    /// A packet of this peer came to a listener.
    PeerCame(Peer, Fate),
    /// A listener sent this peer a frame.
    SentToPeer {
        peer: Peer,
        frame: Digits<'a>,
    },
    /// A listener was asked for something, or lists its flows.
    ListenerTold,
    /// What came, from this peer or from the other end, is this frame.
    Arrived(Option<Peer>, FrameLine<'a>),
}

/// A word without the colon at its end, if one is there (own).
pub fn without_colon(word: &[u8]) -> &[u8]
    ensures { result.now ≡ spec.without_colon word.now }
{
    if word.is_empty() {
        return word;
    }
    let last = word.len() - 1;
    if word[last] == b':' {
        return &word[..last];
    }
    word
}

fn side_of(word: &[u8]) -> Option<Side>
    ensures { result ≡ spec.side_of_word word.now }
{
    if is_text(word, b"client") {
        return Some(Side::Client);
    }
    if is_text(word, b"server") {
        return Some(Side::Server);
    }
    None
}

// What became of a frame, from the first word of the answer.
fn came_of(word: &[u8]) -> Option<Fate>
    ensures { result ≡ spec.came_of word.now }
{
    if is_text(word, b"took") {
        return Some(Fate::Took);
    }
    if is_text(word, b"dropped") {
        return Some(Fate::Dropped);
    }
    if is_text(word, b"synced") {
        return Some(Fate::Synced);
    }
    if is_text(word, b"was") {
        return Some(Fate::WasReset);
    }
    if is_text(word, b"sent") {
        return Some(Fate::SentReset);
    }
    None
}

fn index_of(text: &[u8]) -> Option<u64>
    ensures { result ≡ spec.frame_index text.now }
{
    number_up_to(INDICES - 1, text)
}

// The sender and the index in a frame's name.
fn frame_of(name: &[u8]) -> Option<(Side, u64)>
    ensures { result ≡ spec.named_frame name.now }
{
    match name {
        [b'c', index @ ..] => Some((Side::Client, index_of(index)?)),
        [b's', index @ ..] => Some((Side::Server, index_of(index)?)),
        _ => None,
    }
}

fn is_line_number(word: &[u8]) -> bool
    ensures { result ≡ spec.is_line_number word.now }
{
    number_up_to(LINE_NUMBERS - 1, without_colon(word)).is_some()
}

fn came<'a>(name: &[u8], answer: &[u8]) -> Option<LadderLine<'a>>
    ensures { result ≡ spec.came name.now answer.now }
{
    let (from, index) = frame_of(without_colon(name))?;
    Some(LadderLine::Came(from, index, came_of(answer)?))
}

fn asked<'a>(side: &[u8], asked: Demand) -> Option<LadderLine<'a>>
    ensures { result ≡ spec.asked_drawn side.now asked }
{
    Some(LadderLine::Asked(side_of(without_colon(side))?, asked))
}

fn abort_asked(answer: &[u8]) -> Demand
    ensures { result ≡ spec.abort_asked answer.now }
{
    if is_text(answer, b"ok") {
        return Demand::GivenUp;
    }
    Demand::Other
}

// What the end is asked for by a timer that ran out, if the timer had something to do.
fn timer_asked(timer: &[u8], answer: &[u8]) -> Demand
    ensures { result ≡ spec.timer_asked timer.now answer.now }
{
    if !is_text(answer, b"fired") {
        return Demand::Other;
    }
    if is_text(timer, b"timewait:") {
        return Demand::GivenUp;
    }
    if is_text(timer, b"rto:") {
        return Demand::TimedOut;
    }
    Demand::Other
}

// What became of a packet of a peer, from the first word of the answer.
fn peer_came_of(answer: &[u8]) -> Option<Fate>
    ensures { result ≡ spec.peer_came_of answer.now }
{
    if is_text(answer, b"busy") {
        return Some(Fate::SentReset);
    }
    came_of(answer)
}

// What happened to a peer.
fn peer_event<'a>(name: &[u8], answer: &[u8]) -> Option<LadderLine<'a>>
    ensures { result ≡ spec.peer_event name.now answer.now }
{
    let peer = peer_of(without_colon(name))?;
    match peer_came_of(answer) {
        Some(came) => Some(LadderLine::PeerCame(peer, came)),
        None => Some(LadderLine::ListenerTold),
    }
}

// An event of two ends or of a listener's peer, from its words.
fn event<'a>(second: &[u8], third: &[u8], fourth: &[u8], fifth: &[u8]) -> Option<LadderLine<'a>>
    ensures { result ≡ spec.event second.now third.now fourth.now fifth.now }
{
    if is_text(second, b"open:") {
        return Some(LadderLine::Asked(Side::Client, Demand::Other));
    }
    if is_text(second, b"deliver") {
        return came(third, fourth);
    }
    if is_text(second, b"abort") {
        return asked(third, abort_asked(fourth));
    }
    if is_text(second, b"timer") {
        return asked(third, timer_asked(fourth, fifth));
    }
    if is_text(second, b"send") || is_text(second, b"prefer") || is_text(second, b"close") {
        return asked(third, Demand::Other);
    }
    peer_event(second, third)
}

// What a single end answered.
fn alone<'a>(answer: &[u8]) -> LadderLine<'a>
    ensures { result ≡ spec.answered_alone answer.now }
{
    match came_of(answer) {
        Some(came) => LadderLine::CameAlone(came),
        None => LadderLine::AskedAlone,
    }
}

fn ended<'a>(side: &[u8]) -> Option<LadderLine<'a>>
    ensures { result ≡ spec.end_drawn side.now }
{
    Some(LadderLine::Ended(side_of(side)?))
}

// What a line without a frame means, from its first five words.
#[tactic(auto, unfolding(crate::specs::LadderLines::told_drawn))]
fn told<'a>(
    first: &[u8],
    second: &[u8],
    third: &[u8],
    fourth: &[u8],
    fifth: &[u8],
) -> Option<LadderLine<'a>>
    ensures { result ≡ spec.told_drawn first.now second.now third.now fourth.now fifth.now }
{
    if is_text(first, b"end") {
        return ended(second);
    }
    if is_text(first, b"open:") {
        return Some(LadderLine::AskedAlone);
    }
    if is_text(first, b"flows") || is_text(first, b"flow") {
        return Some(LadderLine::ListenerTold);
    }
    if !is_line_number(first) {
        return None;
    }
    if without_colon(first).len() < first.len() {
        return Some(alone(second));
    }
    event(second, third, fourth, fifth)
}

fn or_unknown<'a>(column: u32, drawn: Option<LadderLine<'a>>) -> Result<LadderLine<'a>, LineFault>
    ensures { result ≡ spec.or_unknown column drawn.entry }
{
    match drawn {
        Some(drawn) => Ok(drawn),
        None => Err(LineFault {
            column,
            why: LineWhy::UnknownWord,
        }),
    }
}

fn sent_to_peer<'a>(name: &[u8], frame: Digits<'a>) -> Option<LadderLine<'a>>
    ensures { result ≡ spec.peer_sent name.now frame.entry }
{
    let peer = peer_of(name)?;
    Some(LadderLine::SentToPeer { peer, frame })
}

fn sent_frame<'a>(name: &[u8], frame: Digits<'a>) -> Option<LadderLine<'a>>
    ensures { result ≡ spec.sent_frame name.now frame.entry }
{
    match frame_of(name) {
        Some((from, index)) => Some(LadderLine::Sent { from, index, frame }),
        None => sent_to_peer(name, frame),
    }
}

// What follows `sent`: a frame's name, or the peer to which it went, and its bytes.
fn sent<'a>(words: &mut Words<'a>) -> Result<LadderLine<'a>, LineFault>
    ensures { result ≡ spec.sent_drawn (left_of words.old) }
{
    let name = words.next_word();
    let frame = read_word::<Hex>(words.next_word())?;
    or_unknown(name.column, sent_frame(name.text, frame))
}

// What a line without a frame means, whose first word was read.
#[tactic(auto, unfolding(crate::specs::LadderLines::by_first_word))]
fn by_first_word<'a>(
    column: u32,
    first: &[u8],
    words: &mut Words<'a>,
) -> Result<LadderLine<'a>, LineFault>
    ensures { result ≡ spec.by_first_word column first.now (left_of words.old) }
{
    let second = words.next_word();
    let third = words.next_word();
    let fourth = words.next_word();
    let fifth = words.next_word();
    or_unknown(
        column,
        told(first, second.text, third.text, fourth.text, fifth.text),
    )
}

// A packet that came, from this peer or from the other end.
fn arrival<'a>(peer: Option<Peer>, words: &mut Words<'a>) -> Result<LadderLine<'a>, LineFault>
    ensures { result ≡ spec.arrival_drawn peer (left_of words.old) }
{
    let frame = FrameWords::read(words)?;
    Ok(LadderLine::Arrived(peer, frame))
}

// What follows `came`: the frame of a line of the input, with its peer in front if it has one.
fn came_by_line<'a>(words: &mut Words<'a>) -> Result<LadderLine<'a>, LineFault>
    ensures { result ≡ spec.came_drawn (left_of words.old) }
{
    let mut all = *words;
    match peer_of(words.next_word().text) {
        Some(peer) => arrival(Some(peer), words),
        None => arrival(None, &mut all),
    }
}

// The words of a line.
struct LadderWords;

impl<'a> WordRow<'a> for LadderWords {
    type Said = LadderLine<'a>;

    ghost said = { spec.ladder_row };

    fn read(words: &mut Words<'a>) -> Result<LadderLine<'a>, LineFault> {
        let first = words.next_word();
        if is_text(first.text, b"sent") {
            return sent(words);
        }
        if is_text(first.text, b"came") {
            return came_by_line(words);
        }
        by_first_word(first.column, first.text, words)
    }
}

/// What a line of a transcript draws, without its newline, or None if it is empty or a comment. Or the first of its
/// faults: NotText, then BadHex or Missing for a frame's bytes, and then UnknownWord, for the first word or for the
/// name of a frame or a peer. The line of a refusal is an UnknownWord, too. After `came` they are those of a replay's
/// line.
pub(crate) fn drawn_by_line(line: &[u8]) -> Result<Option<LadderLine<'_>>, LineFault>
    ensures { result ≡ spec.drawn_by_line line.now }
{
    read_line::<LadderWords>(line)
}
