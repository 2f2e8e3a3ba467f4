//! The lines of an input, one by one.
//!
//! A line that was given is dropped only at the next call, so lending needs no second block. A line that is too long or
//! too much is never dropped. The reader also keeps why no further line comes, so that each further call reads nothing.
ghost use Rattle.std.specs.Prelude.{◌≡◌, ◌+◌, ◌≤◌, ◌<◌, ◌==◌, [], length, take, drop, not, true, None, IfOk, OnErr, IfSome};
ghost use Rattle.std.specs.List.{list_all};
ghost use Rattle.dccp_io.specs.Counts.{Rose};
ghost use Rattle.dccp_io.specs.Ahead.{ahead_of};
ghost use Rattle.dccp_io.specs.Lines.{IsLineOf, IsSought, Seeks, enough, first_line, holds_next, is_line_settled, made_out, newline, next_in_bytes, text_length};

use crate::{Failed, ReadAhead, Source};
use seq_circle::NoMemory;
use std::alloc::Global;
use std::marker::Model;

// The bytes of the block.
const BLOCK: usize = 8192;

// The byte at which a line is too long, counted from 1.
const ONE_TOO_MANY: usize = 4097;

// The most bytes of an input.
const MOST_BYTES: u64 = 16_777_216;

/// What comes next in an input, with its bytes lent from the reader's block until the next line is asked for (own).
#[derive(Clone, Copy)]
pub enum LineRead<'a> {
    /// A line, without its newline.
    Whole(&'a [u8]),
    /// A line has more than 4,096 bytes: its first 4,097.
    TooLong(&'a [u8]),
    /// Neither the line's newline, nor its 4,097th byte, nor the end of the input after it lies within the first
    /// 16,777,216 bytes.
    TooMuch,
}

/// Why no line could be read (own).
#[derive(Clone, Copy)]
pub enum LinesFault {
    /// The source failed.
    Read,
}

/// Why no further line comes (own).
#[derive(Clone, Copy, PartialEq, Eq)]
pub enum Stop {
    /// The next line has more than 4,096 bytes.
    TooLong,
    /// Neither the next line's newline, nor its 4,097th byte, nor the end of the input after it lies within the first
    /// 16,777,216 bytes.
    TooMuch,
    /// The source failed.
    Failed,
}

// What comes first in the bytes that are pending.
enum NextItem {
    End,
    // A line that has this many bytes with its newline.
    Line(usize),
    TooLong,
    TooMuch,
}

// Whether a block has no newline. The search always goes to the block's end, so that bytes can be tested side by side.
fn lacks_newline(block: &[u8]) -> bool
    ensures { result ≡ list_all (λ byte. not (byte == newline)) block.now }
{
    let mut lacks = true;
    for byte in block {
        lacks = lacks & (*byte != b'\n');
    }
    lacks
}

// A lower bound on how many bytes come before the first newline: the first `seen`, and those of whole blocks after
// them.
#[tactic(auto, using(crate::proofs::NextLine::block_seen))]
fn blocks_seen<const BLOCK: usize>(bytes: &[u8], seen: usize) -> usize
    requires some { 0 < BLOCK }
    requires inside { seen ≤ length bytes.now }
    requires before { text_length bytes.now ≡ seen + text_length (drop seen bytes.now) }
    ensures inside { result ≤ length bytes.now }
    ensures before { text_length bytes.now ≡ result + text_length (drop result bytes.now) }
{
    let mut done = seen;
    while BLOCK <= bytes.len() - done && lacks_newline(&bytes[done..done + BLOCK]) {
        done += BLOCK;
    }
    done
}

// How many bytes come before the first newline, if there is none among the first `seen`.
fn text_length(bytes: &[u8], seen: usize) -> usize
    requires inside { seen ≤ length bytes.now }
    requires before { text_length bytes.now ≡ seen + text_length (drop seen bytes.now) }
    ensures value { result ≡ text_length bytes.now }
    ensures fits { result ≤ length bytes.now }
{
    if seen < bytes.len() && bytes[seen] == b'\n' {
        return seen;
    }
    let large = blocks_seen::<64>(bytes, seen);
    let small = blocks_seen::<16>(bytes, large);
    let front = blocks_seen::<8>(bytes, small);
    for index in front..bytes.len() {
        if bytes[index] == b'\n' {
            return index;
        }
    }
    bytes.len()
}

// The same, if at least this many come before it.
#[tactic(auto, using(crate::proofs::NextLine::clear_front, crate::proofs::NextLine::text_length_fits))]
fn text_length_from(bytes: &[u8], clear: usize) -> usize
    requires { clear ≤ text_length bytes.now }
    ensures value { result ≡ text_length bytes.now }
    ensures fits { result ≤ length bytes.now }
{
    text_length(bytes, clear)
}

// How many bytes the line in this many pending bytes has without its newline, which can only be its last byte.
#[tactic(auto, using(crate::proofs::NextLine::all_but_one_clear))]
fn text_of_line(pending: &[u8], count: usize) -> usize
    requires some { 0 < count }
    requires fits { count ≤ length pending.now }
    requires line { count ≤ text_length pending.now + 1 }
    ensures { result ≡ text_length (take count pending.now) }
{
    text_length_from(&pending[..count], count - 1)
}

// How many bytes come before the first newline after the first `count`.
fn text_length_after(pending: &[u8], count: usize) -> usize
    requires { count ≤ length pending.now }
    ensures { result ≡ text_length (drop count pending.now) }
{
    let (_, rest) = pending.split_at(count);
    text_length(rest, 0)
}

// Reads on until the first line's newline is pending, or enough bytes of it are, or the input ends. Returns how many
// bytes come before the newline; `clear` of them are known before.
fn seek<S: Source>(
    source: &mut S,
    ahead: &mut ReadAhead,
    asked: usize,
    clear: usize,
) -> Result<usize, Failed>
    requires asked { asked ≤ ahead.old.size }
    requires clear { clear ≤ text_length ahead.old.pending }
    ensures seeks { Seeks S.left S.faults S.lender ahead.old ahead.new source.old source.new }
    ensures value { IfOk result (λ seen. seen ≡ text_length ahead.new.pending) }
    ensures sought { IfOk result (λ seen. IsSought asked ahead.new.pending (S.left source.new)) }
    ensures unread { is_line_settled asked ahead.old.pending ≡ true → source.new ≡ source.old }
    ensures cause { OnErr result (Rose (S.faults source.old) (S.faults source.new)) }
{
    let mut seen = text_length_from(ahead.pending(), clear);
    while seen < asked {
        if seen < ahead.len() {
            return Ok(seen);
        }
        let count = ahead.refill(source)?;
        if count == 0 {
            return Ok(seen);
        }
        seen = text_length(ahead.pending(), seen);
    }
    Ok(seen)
}

// How many bytes the first line has with its newline, of which `seen` come before that.
#[tactic(auto, using(crate::proofs::NextLine::first_line_length))]
fn line_length(pending: &[u8], seen: usize) -> usize
    requires { seen ≡ text_length pending.now }
    ensures value { result ≡ length (first_line pending.now) }
    ensures fits { result ≤ seen + 1 }
{
    let held = pending.len();
    if held <= seen {
        return held;
    }
    seen + 1
}

// What comes first in the bytes that are pending, of which `seen` come before the first newline.
fn first_in(pending: &[u8], seen: usize, given: u64) -> NextItem
    requires within { given ≤ 16777216 }
    requires seen { seen ≡ text_length pending.now }
    ensures value { made_out pending.now result ≡ next_in_bytes given pending.now }
    ensures fits { IsLineOf given pending.now result }
{
    let line = line_length(pending, seen);
    if line == 0 {
        return NextItem::End;
    }
    if MOST_BYTES < given + line.min(ONE_TOO_MANY) as u64 {
        return NextItem::TooMuch;
    }
    if ONE_TOO_MANY <= seen {
        return NextItem::TooLong;
    }
    NextItem::Line(line)
}

// How many bytes of a line settle what comes next.
fn enough(given: u64) -> usize
    requires { given ≤ 16777216 }
    ensures { result ≡ enough given }
{
    let room = MOST_BYTES - given;
    (ONE_TOO_MANY as u64).min(room + 1) as usize
}

// Whether the pending bytes settle what comes next: the first line's newline is among them, or enough bytes of it are.
// At least `clear` of them come before a newline.
fn is_line_settled(asked: usize, pending: &[u8], clear: usize) -> bool
    requires { clear ≤ text_length pending.now }
    ensures { result ≡ is_line_settled asked pending.now }
{
    let seen = text_length_from(pending, clear);
    asked <= seen || seen < pending.len()
}

// Reads on until it is known what comes next, if at least `clear` pending bytes come before a newline.
fn stands_next<S: Source>(
    source: &mut S,
    ahead: &mut ReadAhead,
    given: u64,
    clear: usize,
) -> Result<NextItem, Failed>
    requires size { ahead.old.size ≡ 8192 }
    requires within { given ≤ 16777216 }
    requires clear { clear ≤ text_length ahead.old.pending }
    ensures seeks { Seeks S.left S.faults S.lender ahead.old ahead.new source.old source.new }
    ensures next { IfOk result (λ stands. IfSome (ahead_of ahead.old (S.left source.old)) (λ bytes. next_in_bytes given bytes ≡ made_out ahead.new.pending stands)) }
    ensures fits { IfOk result (λ stands. IsLineOf given ahead.new.pending stands) }
    ensures unread { is_line_settled (enough given) ahead.old.pending ≡ true → source.new ≡ source.old }
    ensures cause { OnErr result (Rose (S.faults source.old) (S.faults source.new)) }
{
    let asked = enough(given);
    let seen = seek(source, ahead, asked, clear)?;
    Ok(first_in(ahead.pending(), seen, given))
}

/// A reader of lines over a source (own). Contracts see the source, what was read of it and not given yet, the line
/// that was given last, how many bytes the lines have that were given, and why no further line comes.
#[derive(Drop)]
pub struct Lines<S: Drop> {
    source: S,
    ahead: ReadAhead,
    // How many of the pending bytes are those of the line that was given last.
    used: usize,
    // How many bytes that line has without its newline.
    text: usize,
    // At least this many bytes after that line come before a newline.
    clear: usize,
    given: u64,
    stop: Option<Stop>,
}

impl<S: Drop> Model for Lines<S> {
    ghost use Rattle.std.specs.Prelude.{◌≡◌, ◌≤◌, take, drop, length};
    ghost use Rattle.dccp_io.specs.Lines.{LinesState, text_length};

    ghost Value = { LinesState S };

    ghost view = { λ l. record {
      source = l.source;
      pending = drop l.used l.ahead.pending;
      line = take l.used l.ahead.pending;
      given = l.given;
      stop = l.stop;
    } };

    ghost invariant = { λ l. (l.used ≤ length l.ahead.pending)
        × (length l.ahead.pending ≤ 8192) × (l.ahead.size ≡ 8192) × (l.given ≤ 16777216)
        × (l.text ≡ text_length (take l.used l.ahead.pending)) × (l.clear ≤ text_length (drop l.used l.ahead.pending)) };
}

impl<S: Source + Drop> Lines<S> {
    ghost use Rattle.std.specs.Prelude.{Result, Option, ◌≡◌};
    ghost use Rattle.std.specs.Borrow.{sem};
    ghost use Rattle.std.specs.Io.BufRead.{Rests};
    ghost use Rattle.dccp_io.specs.Lines.{Finds, Lends, found_of, text_of};
    ghost use Rattle.dccp_io.specs.contracts.lines.Lines.{the_row};

    /// A reader over this source. All memory is taken here, one block of 8,192 bytes, and nothing is read.
    pub fn new(alloc: Global, source: S) -> Result<Lines<S>, NoMemory>
        ensures { IfOk result (λ lines. lines ≡ record { source = source; pending = []; line = []; given = 0; stop = None }) }
    {
        let ahead = ReadAhead::new(alloc, BLOCK)?;
        Ok(Lines {
            source,
            ahead,
            used: 0,
            text: 0,
            clear: 0,
            given: 0,
            stop: None,
        })
    }

    /// Finds the next line, whole in whatever pieces the source gave it. It is then `line`; false means the end of the
    /// input. It takes no memory. At most 8,192 bytes are read past the lines that were given. TooMuch and TooLong come
    /// exactly if the next line is so, in this order, and Failed comes only if the source failed. After one of these
    /// each further call answers the same, and does nothing. If `holds_next` is true, the source is not read.
    pub fn find(&mut self) -> Result<bool, Stop>
        ensures finds { Finds S.left S.faults S.lender self.old self.new result }
        ensures unread { holds_next self.old ≡ true → self.new.source ≡ self.old.source }
    {
        if let Some(stop) = self.stop {
            return Err(stop);
        }
        let clear = self.clear;
        self.ahead.pass(self.used);
        self.used = 0;
        self.text = 0;
        self.clear = 0;
        match stands_next(&mut self.source, &mut self.ahead, self.given, clear) {
            Err(_) => {
                self.stop = Some(Stop::Failed);
                Err(Stop::Failed)
            }
            Ok(NextItem::TooLong) => {
                self.stop = Some(Stop::TooLong);
                Err(Stop::TooLong)
            }
            Ok(NextItem::TooMuch) => {
                self.stop = Some(Stop::TooMuch);
                Err(Stop::TooMuch)
            }
            Ok(NextItem::End) => Ok(false),
            Ok(NextItem::Line(count)) => {
                self.used = count;
                self.text = text_of_line(self.ahead.pending(), count);
                self.clear = text_length_after(self.ahead.pending(), count);
                self.given += count as u64;
                Ok(true)
            }
        }
    }

    /// Whether the next call of `find` certainly reads nothing, since what was read settles its answer, or since no
    /// further line comes.
    pub fn holds_next(&self) -> bool
        ensures { result ≡ holds_next self.now }
    {
        if self.stop.is_some() {
            return true;
        }
        let (_, pending) = self.ahead.pending().split_at(self.used);
        is_line_settled(enough(self.given), pending, self.clear)
    }

    /// The line that was given last, with its newline.
    pub fn line(&self) -> &[u8]
        ensures { result.now ≡ self.now.line }
    {
        &self.ahead.pending()[..self.used]
    }

    /// The same without its newline.
    pub fn text(&self) -> &[u8]
        ensures { result.now ≡ text_of self.now.line }
    {
        &self.line()[..self.text]
    }

    // The front of a line that is too long.
    fn front(&self) -> &[u8]
        ensures { result.now ≡ take 4097 self.now.pending }
    {
        let (_, pending) = self.ahead.pending().split_at(self.used);
        &pending[..ONE_TOO_MANY.min(pending.len())]
    }

    /// The next line, or None exactly at the end of the input. It is `find`, and lends what was found: a line without
    /// its newline, or the front of one that is too long.
    pub fn next(&mut self) -> Result<Option<LineRead<'_>>, LinesFault>
        ensures* after { sem 𝓛 (Rests (the_row S.row) self.entry (λ lines. Finds S.left S.faults S.lender self.old lines (found_of result) × Lends lines result)) }
    {
        match self.find() {
            Err(Stop::Failed) => Err(LinesFault::Read),
            Err(Stop::TooMuch) => Ok(Some(LineRead::TooMuch)),
            Err(Stop::TooLong) => Ok(Some(LineRead::TooLong(self.front()))),
            Ok(false) => Ok(None),
            Ok(true) => Ok(Some(LineRead::Whole(self.text()))),
        }
    }

    /// The source, in its present state.
    pub fn into_source(self) -> S
        ensures { result ≡ self.source }
    {
        self.source
    }
}
