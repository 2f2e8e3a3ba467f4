//! Sources and sinks over the readers and writers of the standard library.
//!
//! They try an interrupted call again, and do not count it as a fault. No clause says so, since their bytes are not
//! known; tests do. The sink does not flush: the toolchain's standard output has no buffer.
ghost use Rattle.std.specs.Prelude.{◌≡◌, ◌<◌, ◌≤◌, length, is_ok, IfSome, IfOk, OnErr, None, if◌then◌else◌};
ghost use Rattle.dccp_io.specs.Counts.{Rose, one_more, counted_write};

use crate::{Failed, Sink, Source};
use std::io::{ErrorKind, Read, Write};
use std::marker::Model;

// Reads once, but again after each interruption; None after another error.
fn read_retrying<R: Read>(reader: &mut R, into: &mut [u8]) -> Option<usize>
    ensures { IfSome result (λ n. n ≤ length into.new) }
{
    for _ in 0..u64::MAX {
        match reader.read(into) {
            Ok(count) => return Some(count),
            Err(error) if error.kind() == ErrorKind::Interrupted => {}
            Err(_) => return None,
        }
    }
    None
}

/// A source over a reader, such as standard input (own). Its bytes are not known. It counts each error of the reader as
/// a fault, but a read that was interrupted is tried again. Contracts see that count, which stops at 2^64 - 1.
#[derive(Drop)]
pub struct StdSource<R: Drop> {
    reader: R,
    faults: u64,
}

impl<R: Drop> Model for StdSource<R> {
    ghost use Rattle.std.specs.Prelude.{ℕ};

    ghost Value = { ℕ };

    ghost view = { λ s. s.faults };
}

impl<R: Read + Drop> StdSource<R> {
    /// A source over this reader.
    pub fn new(reader: R) -> StdSource<R>
        ensures { result ≡ 0 }
    {
        StdSource { reader, faults: 0 }
    }
}

impl<R: Read + Drop> Source for StdSource<R> {
    ghost left = { λ _. None };

    ghost faults = { λ s. s };

    fn read(&mut self, into: &mut [u8]) -> Result<usize, Failed>
        requires { 0 < length into.old }
        ensures fits { IfOk result (λ n. n ≤ length into.new) }
        ensures count { self.new ≡ (if is_ok result then self.old else one_more self.old) }
        ensures cause { OnErr result (Rose self.old self.new) }
    {
        if let Some(count) = read_retrying(&mut self.reader, into) {
            return Ok(count);
        }
        self.faults = self.faults.saturating_add(1);
        Err(Failed)
    }
}

// Writes once, but again after each interruption; None after another error.
fn write_retrying<W: Write>(writer: &mut W, piece: &[u8]) -> Option<usize>
    ensures { IfSome result (λ n. n ≤ length piece.now) }
{
    for _ in 0..u64::MAX {
        match writer.write(piece) {
            Ok(count) => return Some(count),
            Err(error) if error.kind() == ErrorKind::Interrupted => {}
            Err(_) => return None,
        }
    }
    None
}

/// A sink over a writer, such as standard output (own). The bytes that it took are not known. It counts each error of
/// the writer as a fault, but a write that was interrupted is tried again, and it counts the pieces of which the writer
/// took nothing. Contracts see these two counts, which stop at 2^64 - 1.
#[derive(Drop)]
pub struct StdSink<W: Drop> {
    writer: W,
    faults: u64,
    empty_takes: u64,
}

impl<W: Drop> Model for StdSink<W> {
    ghost use Rattle.dccp_io.specs.Counts.{SinkCounts};

    ghost Value = { SinkCounts };

    ghost view = { λ s. record { faults = s.faults; empty_takes = s.empty_takes } };
}

impl<W: Write + Drop> StdSink<W> {
    /// A sink over this writer.
    pub fn new(writer: W) -> StdSink<W>
        ensures { result ≡ record { faults = 0; empty_takes = 0 } }
    {
        StdSink {
            writer,
            faults: 0,
            empty_takes: 0,
        }
    }
}

impl<W: Write + Drop> Sink for StdSink<W> {
    ghost taken = { λ _. None };

    ghost faults = { λ s. s.faults };

    ghost empty_takes = { λ s. s.empty_takes };

    fn write(&mut self, piece: &[u8]) -> Result<usize, Failed>
        ensures fits { IfOk result (λ n. n ≤ length piece.now) }
        ensures count { self.new ≡ counted_write self.old result (length piece.now) }
        ensures empty { IfOk result (λ n. n ≡ 0 → 0 < length piece.now → Rose self.old.empty_takes self.new.empty_takes) }
        ensures cause { OnErr result (Rose self.old.faults self.new.faults) }
    {
        if let Some(count) = write_retrying(&mut self.writer, piece) {
            if count == 0 && !piece.is_empty() {
                self.empty_takes = self.empty_takes.saturating_add(1);
            }
            return Ok(count);
        }
        self.faults = self.faults.saturating_add(1);
        Err(Failed)
    }
}
