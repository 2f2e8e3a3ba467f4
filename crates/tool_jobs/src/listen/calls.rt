//! Lines, read: a peer, and what happens to it.
ghost use Rattle.std.specs.Prelude.{◌≡◌, IfOk, IfSome};
ghost use Rattle.tool_text.specs.Left.{left_of};
ghost use Rattle.tool_jobs.specs.Calls as spec;

use crate::listen::peers::PeerWord;
use dccp_listener::Peer;
use schedule_text::{FrameLine, FrameWords, LineFault, Timer, TimerWord};
use tool_text::{Digits, HexOrDash, WordRow, Words, is_text, read_line};

/// What happens to a peer. The digits of frames and data are decoded only when the bytes are needed.
#[derive(Drop)]
pub(crate) enum PeerCall<'a> {
    /// A frame of the peer arrives.
    Frame(FrameLine<'a>),
    /// These data are to go to it.
    Send(Digits<'a>),
    /// A timer of its end has run out.
    Timer(Timer),
    /// The connection is to end in order.
    Close,
    /// The connection is to end at once.
    Abort,
}

fn send<'a>(words: &mut Words<'a>) -> Result<PeerCall<'a>, LineFault>
    ensures { result ≡ spec.send_row.said (left_of words.old) }
{
    let (digits, ()) = <(HexOrDash, ())>::read(words)?;
    Ok(PeerCall::Send(digits))
}

fn timer<'a>(words: &mut Words<'a>) -> Result<PeerCall<'a>, LineFault>
    ensures { result ≡ spec.timer_row.said (left_of words.old) }
{
    let (timer, ()) = <(TimerWord, ())>::read(words)?;
    Ok(PeerCall::Timer(timer))
}

fn close<'a>(words: &mut Words<'a>) -> Result<PeerCall<'a>, LineFault>
    ensures { result ≡ spec.close_row.said (left_of words.old) }
{
    <() as WordRow>::read(words)?;
    Ok(PeerCall::Close)
}

fn abort<'a>(words: &mut Words<'a>) -> Result<PeerCall<'a>, LineFault>
    ensures { result ≡ spec.abort_row.said (left_of words.old) }
{
    <() as WordRow>::read(words)?;
    Ok(PeerCall::Abort)
}

fn arrival<'a>(words: &mut Words<'a>) -> Result<PeerCall<'a>, LineFault>
    ensures { result ≡ spec.arrival_row.said (left_of words.old) }
{
    let frame = FrameWords::read(words)?;
    Ok(PeerCall::Frame(frame))
}

// The words after a peer. The line of a frame has no word that says so.
struct CallWords;

impl<'a> WordRow<'a> for CallWords {
    type Said = PeerCall<'a>;

    ghost said = { spec.call_row.said };

    fn read(words: &mut Words<'a>) -> Result<PeerCall<'a>, LineFault> {
        let mut all = *words;
        let first = words.next_word();
        if is_text(first.text, b"send") {
            send(words)
        } else if is_text(first.text, b"timer") {
            timer(words)
        } else if is_text(first.text, b"close") {
            close(words)
        } else if is_text(first.text, b"abort") {
            abort(words)
        } else {
            arrival(&mut all)
        }
    }
}

/// The peer of a line and what happens to it, or None exactly if the line is empty or a comment; or the first of the
/// line's faults, with its column. The line comes without its newline.
pub(crate) fn read_call(line: &[u8]) -> Result<Option<(Peer, PeerCall<'_>)>, LineFault>
    ensures value { result ≡ spec.read_call line.now }
    ensures seals { IfOk result (λ said. IfSome said (λ s. spec.SealsInFull s.1)) }
{
    read_line::<(PeerWord, CallWords)>(line)
}
