//! Calls of both tools over streams in memory, for the tests. One function alone makes them, and what it keeps of the
//! bytes that were written is how they stand to a text: a proof takes the longer, the more values live beside streams.
use bridge_command::bridge;
use dccp_command::{Status, dccp};
use dccp_io::{MemorySink, MemorySource};
use fault_campaign::{Gate, OpenGate};
use std::alloc::Global;
use std::test::Fail;
use std::thread::Threads;

// More than any text here has.
const ROOM: usize = 131_072;

/// Whose words they are.
#[derive(Clone, Copy, PartialEq, Eq)]
pub(crate) enum Tool {
    Dccp,
    Bridge,
}

/// The call of the source and that of the sink that fail, counted from 1, and how many bytes each gives or takes in one
/// that does not.
#[derive(Clone, Copy)]
pub(crate) struct Streams {
    pub(crate) failing_read: Option<u64>,
    pub(crate) failing_write: Option<u64>,
    pub(crate) given: usize,
    pub(crate) taken: usize,
}

impl Streams {
    /// None of their calls fails.
    pub(crate) fn of(most: usize) -> Streams {
        Streams {
            failing_read: None,
            failing_write: None,
            given: most,
            taken: most,
        }
    }

    /// Of this many bytes a call, of which the read or the write with this number fails.
    pub(crate) fn failing(most: usize, read: Option<u64>, write: Option<u64>) -> Streams {
        Streams {
            failing_read: read,
            failing_write: write,
            given: most,
            taken: most,
        }
    }
}

/// How a call ended, how many bytes it wrote, and how many of its reads and writes failed. Of a text and a line:
/// whether what was written begins with the text and the line was told, or it is a prefix of the text and nothing else
/// was told.
#[derive(Clone, Copy)]
pub(crate) struct CallEnd {
    pub(crate) status: Status,
    pub(crate) written: usize,
    pub(crate) begins: bool,
    pub(crate) is_front: bool,
    pub(crate) failed_reads: u64,
    pub(crate) failed_writes: u64,
}

impl CallEnd {
    /// So, with all of the text and nothing else.
    pub(crate) fn is(&self, status: Status) -> bool {
        self.status == status && self.begins && self.is_front
    }

    pub(crate) fn has_failed(&self) -> bool {
        self.failed_reads != 0 || self.failed_writes != 0
    }
}

/// Words that are separated by commas.
fn words_in(alloc: Global, line: &str) -> Result<Vec<String>, Fail> {
    let mut words = Vec::new(alloc);
    if line.is_empty() {
        return Ok(words);
    }
    for word in line.split(',') {
        words.push(String::from_str(alloc, word)?)?;
    }
    Ok(words)
}

fn none_or_one(alloc: Global, number: Option<u64>) -> Result<Vec<u64>, Fail> {
    let mut numbers = Vec::new(alloc);
    if let Some(number) = number {
        numbers.push(number)?;
    }
    Ok(numbers)
}

fn source(alloc: Global, streams: &Streams, bytes: &[u8]) -> Result<MemorySource, Fail> {
    let bytes = bytes.to_vec(alloc)?;
    let failing = none_or_one(alloc, streams.failing_read)?;
    Ok(MemorySource::new(bytes, failing, streams.given.max(1)))
}

fn sink(alloc: Global, streams: &Streams) -> Result<MemorySink, Fail> {
    let failing = none_or_one(alloc, streams.failing_write)?;
    Ok(MemorySink::new(alloc, failing, streams.taken, ROOM)?)
}

// Whether this is all that was reported about an input that is refused: the line, or nothing if there is none.
fn is_told_line(told: &[u8], line: &str) -> bool {
    match told.split_last() {
        Some((last, rest)) => *last == b'\n' && rest == line.as_bytes(),
        None => line.is_empty(),
    }
}

// How the output compares to a text, and what was also reported to a line.
fn compared(
    status: Status,
    input: &MemorySource,
    (output, errors): (&MemorySink, &MemorySink),
    (text, line): (&[u8], &str),
) -> CallEnd {
    let written = output.taken();
    let told = errors.taken();
    let all_is_told = is_told_line(told, line);
    CallEnd {
        status,
        written: written.len(),
        begins: written.starts_with(text) && all_is_told,
        is_front: text.starts_with(written) && (all_is_told || told.is_empty()),
        failed_reads: input.faults(),
        failed_writes: output.faults(),
    }
}

/// How a call of a tool with these words, separated by commas, over these bytes, ends, by a text and the line that is
/// told apart from it.
pub(crate) fn end_of<R: Threads + Sync, G: Gate + Sync>(
    rt: &R,
    alloc: Global,
    gate: &G,
    streams: &Streams,
    (tool, words, bytes): (Tool, &str, &[u8]),
    wanted: (&[u8], &str),
) -> Result<CallEnd, Fail> {
    let words = words_in(alloc, words)?;
    let mut input = source(alloc, streams, bytes)?;
    let mut output = sink(alloc, streams)?;
    let mut errors = sink(alloc, &Streams::of(ROOM))?;
    let status = match tool {
        Tool::Dccp => dccp(rt, alloc, gate, &words, &mut input, &mut output),
        Tool::Bridge => bridge(alloc, &words, &mut input, &mut output, &mut errors),
    };
    Ok(compared(status, &input, (&output, &errors), wanted))
}

/// Whether a call of the first tool with these words, over this input, ends so and writes this text.
pub(crate) fn comes<R: Threads + Sync>(
    rt: &R,
    alloc: Global,
    streams: &Streams,
    (words, input): (&str, &[u8]),
    (status, text): (Status, &str),
) -> Result<bool, Fail> {
    let call = (Tool::Dccp, words, input);
    let ended = end_of(rt, alloc, &OpenGate, streams, call, (text.as_bytes(), ""))?;
    Ok(ended.is(status))
}

/// Fails at the first line of words that does not end so, over this input, with this text, with the name of the lines.
pub(crate) fn lines_come<R: Threads + Sync>(
    rt: &R,
    alloc: Global,
    streams: &Streams,
    (name, lines, input): (&str, &str, &str),
    (status, text): (Status, &str),
) -> Result<(), Fail> {
    for words in lines.lines() {
        if !comes(
            rt,
            alloc,
            streams,
            (words, input.as_bytes()),
            (status, text),
        )? {
            return Err(Fail::new(format_args!("{name}: {words}")));
        }
    }
    Ok(())
}
