//! Sources and sinks whose calls are short, are interrupted or fail, and each call that no program makes, once. What a
//! stream in memory returns, and which lines an input has, is worked out in `proofs/`.
ghost use Rattle.std.specs.Prelude.{◌≡◌, []};

use dccp_io::{
    Failed, InputFault, LineRead, Lines, LinesFault, MemorySink, MemorySource, ReadAhead, Source,
    StdSink, StdSource, Stop, SureSink, SureSource, read_all, write_all,
};
use std::alloc::Global;
use std::io;
use std::io::{Error, ErrorKind, Read, Write};
use std::test::Fail;

// A source over these bytes that gives at most `most` a call, and whose call with this number fails; with 0, no call
// fails.
pub(crate) fn source_of(
    alloc: Global,
    bytes: &[u8],
    failing: u64,
    most: usize,
) -> Result<MemorySource, Fail> {
    let bytes = bytes.to_vec(alloc)?;
    let failing = [failing].to_vec(alloc)?;
    Ok(MemorySource::new(bytes, failing, most.max(1)))
}

// Whether this is what a source has, up to a limit.
pub(crate) fn gives<S: Source>(alloc: Global, source: &mut S, most: usize, bytes: &[u8]) -> bool {
    match read_all(alloc, source, most) {
        Ok(input) => input.as_slice() == bytes,
        Err(_) => false,
    }
}

fn fails<S: Source>(alloc: Global, source: &mut S) -> bool {
    matches!(read_all(alloc, source, 100), Err(InputFault::Read))
}

fn gives_to_a_limit(alloc: Global) -> Result<bool, Fail> {
    let mut source = source_of(alloc, b"hello", 0, 2)?;
    let lent = gives(alloc, &mut &mut source, 3, b"hel");
    Ok(lent && gives(alloc, &mut source, 3, b"lo"))
}

// A call that fails leaves the block as it was.
fn leaves_its_block(source: &mut MemorySource) -> bool {
    let mut block = [0; 4];
    let first = matches!(source.read(&mut block), Ok(2));
    let failed = matches!(source.read(&mut block), Err(Failed));
    first && failed && block == [104, 101, 0, 0]
}

fn fails_in_the_middle(alloc: Global) -> Result<bool, Fail> {
    Ok(leaves_its_block(&mut source_of(alloc, b"hello", 2, 2)?))
}

fn is_lost(alloc: Global) -> Result<bool, Fail> {
    Ok(fails(alloc, &mut source_of(alloc, b"hello", 2, 2)?))
}

fn is_sure(alloc: Global) -> Result<bool, Fail> {
    let mut source = SureSource::new(b"hello".to_vec(alloc)?);
    Ok(gives(alloc, &mut source, 100, b"hello"))
}

fn give_inputs(alloc: Global) -> Result<bool, Fail> {
    Ok(
        gives_to_a_limit(alloc)?
            && fails_in_the_middle(alloc)?
            && is_lost(alloc)?
            && is_sure(alloc)?,
    )
}

#[test]
fn inputs_to_a_limit(rt: HostRuntime) -> Result<(), Fail> {
    assert!(rt; give_inputs(rt.alloc())?);
    Ok(())
}

// A reader that is interrupted once, and is then broken or gives a byte a call.
#[derive(Drop)]
struct InterruptedReader {
    interrupted: bool,
    broken: bool,
    left: u8,
}

impl Read for InterruptedReader {
    fn read(&mut self, buf: &mut [u8]) -> io::Result<usize> {
        if !self.interrupted {
            self.interrupted = true;
            return Err(Error::from(ErrorKind::Interrupted));
        }
        if self.broken {
            return Err(Error::from(ErrorKind::BrokenPipe));
        }
        if self.left == 0 || buf.is_empty() {
            return Ok(0);
        }
        self.left -= 1;
        buf[0] = self.left;
        Ok(1)
    }
}

fn interrupted_once(broken: bool) -> StdSource<InterruptedReader> {
    StdSource::new(InterruptedReader {
        interrupted: false,
        broken,
        left: 3,
    })
}

// An interruption is no fault, but a broken pipe is.
fn are_standard(alloc: Global) -> bool {
    let is_whole = gives(alloc, &mut interrupted_once(false), 100, &[2, 1, 0]);
    is_whole && fails(alloc, &mut interrupted_once(true))
}

#[test]
fn standard_sources(rt: HostRuntime) {
    assert!(rt; are_standard(rt.alloc()));
}

// A writer that is interrupted at every other call, and otherwise takes one byte.
#[derive(Drop)]
struct NarrowWriter {
    interrupted: bool,
    taken: Vec<u8>,
}

impl Write for NarrowWriter {
    fn write(&mut self, buf: &[u8]) -> io::Result<usize> {
        self.interrupted = !self.interrupted;
        if self.interrupted {
            return Err(Error::from(ErrorKind::Interrupted));
        }
        match buf.first() {
            None => Ok(0),
            Some(byte) => {
                if self.taken.push(*byte).is_err() {
                    return Err(Error::from(ErrorKind::OutOfMemory));
                }
                Ok(1)
            }
        }
    }

    fn flush(&mut self) -> io::Result<()> {
        Ok(())
    }
}

fn takes_narrowly(alloc: Global) -> bool {
    let mut narrow = NarrowWriter {
        interrupted: false,
        taken: Vec::new(alloc),
    };
    let is_whole = write_all(&mut StdSink::new(&mut narrow), b"hello").is_ok();
    is_whole && narrow.taken.as_slice() == b"hello".as_slice()
}

// The third call fails, and writing goes on after what was taken.
fn takes_the_rest(sink: &mut MemorySink) -> bool {
    matches!(write_all(sink, b"hello"), Err(Failed))
        && write_all(sink, b"llo").is_ok()
        && sink.taken() == b"hello".as_slice()
}

fn takes_by_bytes(alloc: Global) -> Result<bool, Fail> {
    match MemorySink::new(alloc, [3].to_vec(alloc)?, 1, 9) {
        Ok(mut sink) => Ok(takes_the_rest(&mut sink)),
        Err(_) => Err(Fail::from("no memory")),
    }
}

fn take_whole_pieces(alloc: Global) -> Result<bool, Fail> {
    let is_sure = write_all(&mut SureSink::new(), b"hello").is_ok();
    Ok(is_sure && takes_narrowly(alloc) && takes_by_bytes(alloc)?)
}

#[test]
fn whole_pieces(rt: HostRuntime) -> Result<(), Fail> {
    assert!(rt; take_whole_pieces(rt.alloc())?);
    Ok(())
}

// A source gives three bytes a call of `hello there`, and fails at its fourth. Pending bytes move to the beginning of
// the block of 4 bytes when it is full.
fn reads_ahead(ahead: &mut ReadAhead, source: &mut MemorySource) -> bool
    requires size { ahead.old.size ≡ 4 }
    requires none { ahead.old.pending ≡ [] }
{
    if !matches!(ahead.refill(source), Ok(3)) || ahead.len() != 3 {
        return false;
    }
    if !matches!(ahead.refill(source), Ok(1)) || ahead.len() != 4 {
        return false;
    }
    ahead.pass(3);
    if !matches!(ahead.refill(source), Ok(3)) || ahead.len() != 4 {
        return false;
    }
    let is_moved = ahead.pending() == b"lo t".as_slice();
    ahead.pass(3);
    is_moved && matches!(ahead.refill(source), Err(Failed)) && ahead.pending() == b"t".as_slice()
}

fn reads_into_a_block(alloc: Global) -> Result<bool, Fail> {
    let mut source = source_of(alloc, b"hello there", 4, 3)?;
    match ReadAhead::new(alloc, 4) {
        Ok(mut ahead) => Ok(reads_ahead(&mut ahead, &mut source)),
        Err(_) => Err(Fail::from("no memory")),
    }
}

#[test]
fn bytes_read_ahead(rt: HostRuntime) -> Result<(), Fail> {
    assert!(rt; reads_into_a_block(rt.alloc())?);
    Ok(())
}

fn is_one(lines: &mut Lines<MemorySource>) -> bool {
    let is_read = match lines.next() {
        Ok(Some(LineRead::Whole(line))) => line == b"one".as_slice(),
        _ => false,
    };
    is_read && lines.line() == b"one\n".as_slice() && lines.text() == b"one".as_slice()
}

fn stays_failed(lines: &mut Lines<MemorySource>) -> bool {
    let first = matches!(lines.next(), Err(LinesFault::Read));
    let again = matches!(lines.next(), Err(LinesFault::Read));
    first && again && lines.holds_next() && matches!(lines.find(), Err(Stop::Failed))
}

// The second call of the source fails, and the third would not.
fn fails_after_a_line(alloc: Global) -> Result<bool, Fail> {
    match Lines::new(alloc, source_of(alloc, b"one\ntwo\n", 2, 4)?) {
        Ok(mut lines) => Ok(is_one(&mut lines) && stays_failed(&mut lines)),
        Err(_) => Err(Fail::from("no memory")),
    }
}

#[test]
fn failed_source_stays_failed(rt: HostRuntime) -> Result<(), Fail> {
    assert!(rt; fails_after_a_line(rt.alloc())?);
    Ok(())
}

fn leaves_the_rest(alloc: Global) -> Result<bool, Fail> {
    match Lines::new(alloc, source_of(alloc, b"one\ntwo\nthree", 0, 1)?) {
        Ok(mut lines) => {
            let is_first = is_one(&mut lines);
            let is_left = gives(alloc, &mut lines.into_source(), 100, b"two\nthree");
            Ok(is_first && is_left)
        }
        Err(_) => Err(Fail::from("no memory")),
    }
}

#[test]
fn no_more_is_read_than_a_line_needs(rt: HostRuntime) -> Result<(), Fail> {
    assert!(rt; leaves_the_rest(rt.alloc())?);
    Ok(())
}
