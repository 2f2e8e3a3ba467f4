//! A source and a sink in memory.
ghost use Rattle.std.specs.Prelude.{◌≡◌, ◌<◌, ◌≤◌, [], ◌++◌, take, drop, length, IfOk, OnErr, ◌↔◌, Some};
ghost use Rattle.dccp_io.specs.Counts.{Rose};
ghost use Rattle.dccp_io.specs.Memory.{read_answer, after_read, write_answer, after_write};

use crate::calls::CallCount;
use crate::{Failed, Sink, Source};
use seq_circle::NoMemory;
use std::alloc::Global;
use std::marker::Model;

/// A source over bytes in memory (own). Its bytes are known. It fails exactly at the calls whose numbers it was given,
/// and every other call gives as many bytes as its limit, the slice and the bytes that are left allow.
#[derive(Drop)]
pub struct MemorySource {
    bytes: Vec<u8>,
    next: usize,
    most: usize,
    calls: CallCount,
}

impl Model for MemorySource {
    ghost use Rattle.std.specs.Prelude.{◌≤◌, drop, vec_len};
    ghost use Rattle.dccp_io.specs.Memory.{MemoryBytes};

    ghost Value = { MemoryBytes };

    ghost view = { λ s. record { left = drop s.next s.bytes.items; most = s.most; calls = s.calls } };

    ghost invariant = { λ s. (1 ≤ s.most) × (s.next ≤ vec_len s.bytes) };
}

impl MemorySource {
    /// A source over these bytes, of which a call gives at most `most`, and whose calls with the listed numbers fail,
    /// counted from 1.
    pub fn new(bytes: Vec<u8>, failing_calls: Vec<u64>, most: usize) -> MemorySource
        requires { 1 ≤ most }
        ensures { result ≡ record {
          left = bytes.items;
          most = most;
          calls = record { failing = failing_calls.items; made = 0; faults = 0 };
        } }
    {
        MemorySource {
            bytes,
            next: 0,
            most,
            calls: CallCount::new(failing_calls),
        }
    }

    /// How many of its calls failed.
    pub fn faults(&self) -> u64
        ensures { result ≡ self.now.calls.faults }
    {
        self.calls.faults()
    }
}

impl Source for MemorySource {
    ghost left = { λ s. Some s.left };

    ghost faults = { λ s. s.calls.faults };

    fn read(&mut self, into: &mut [u8]) -> Result<usize, Failed>
        requires { 0 < length into.old }
        ensures answer { result ≡ read_answer self.old (length into.old) }
        ensures after { self.new ≡ after_read self.old (length into.old) }
        ensures bytes { IfOk result (λ n. into.new ≡ take n self.old.left ++ drop n into.old) }
        ensures end { IfOk result (λ n. (n ≡ 0) ↔ (self.old.left ≡ [])) }
        ensures cause { OnErr result (Rose self.old.calls.faults self.new.calls.faults) }
    {
        if self.calls.count() {
            return Err(Failed);
        }
        let left = self.bytes.len() - self.next;
        let count = self.most.min(into.len().min(left));
        into[..count].copy_from_slice(&self.bytes[self.next..self.next + count]);
        self.next += count;
        Ok(count)
    }
}

/// A sink that keeps what it takes, in memory that it was given beforehand (own). Its bytes are known. It fails exactly
/// at the calls whose numbers it was given, and every other call takes as many bytes as its limit, the piece and its
/// room allow.
#[derive(Drop)]
pub struct MemorySink {
    kept: Vec<u8>,
    room: usize,
    most: usize,
    calls: CallCount,
    empty_takes: u64,
}

impl Model for MemorySink {
    ghost use Rattle.std.specs.Prelude.{◌+◌, ◌≤◌, vec_len, vec_capacity};
    ghost use Rattle.dccp_io.specs.Memory.{MemoryTaken};

    ghost Value = { MemoryTaken };

    ghost view = { λ s. record {
      taken = s.kept.items;
      room = s.room;
      most = s.most;
      calls = s.calls;
      empty_takes = s.empty_takes;
    } };

    ghost invariant = { λ s. vec_len s.kept + s.room ≤ vec_capacity s.kept };
}

impl MemorySink {
    /// A sink with memory for `room` bytes, of which a call takes at most `most`, and whose calls with the listed
    /// numbers fail, counted from 1. No later call takes memory.
    pub fn new(
        alloc: Global,
        failing_calls: Vec<u64>,
        most: usize,
        room: usize,
    ) -> Result<MemorySink, NoMemory>
        ensures { IfOk result (λ sink. sink ≡ record {
          taken = [];
          room = room;
          most = most;
          calls = record { failing = failing_calls.items; made = 0; faults = 0 };
          empty_takes = 0;
        }) }
    {
        let Ok(kept) = Vec::with_capacity(alloc, room) else {
            return Err(NoMemory);
        };
        Ok(MemorySink {
            kept,
            room,
            most,
            calls: CallCount::new(failing_calls),
            empty_takes: 0,
        })
    }

    /// The bytes that it took.
    pub fn taken(&self) -> &[u8]
        ensures { result.now ≡ self.now.taken }
    {
        self.kept.as_slice()
    }

    /// How many of its calls failed. A call that took nothing of a piece with bytes is not one of them.
    pub fn faults(&self) -> u64
        ensures { result ≡ self.now.calls.faults }
    {
        self.calls.faults()
    }
}

impl Sink for MemorySink {
    ghost taken = { λ s. Some s.taken };

    ghost faults = { λ s. s.calls.faults };

    ghost empty_takes = { λ s. s.empty_takes };

    fn write(&mut self, piece: &[u8]) -> Result<usize, Failed>
        ensures answer { result ≡ write_answer self.old piece.now }
        ensures after { self.new ≡ after_write self.old piece.now }
        ensures empty { IfOk result (λ n. n ≡ 0 → 0 < length piece.now → Rose self.old.empty_takes self.new.empty_takes) }
        ensures cause { OnErr result (Rose self.old.calls.faults self.new.calls.faults) }
    {
        if self.calls.count() {
            return Err(Failed);
        }
        let count = self.most.min(piece.len().min(self.room));
        let _ = self.kept.extend_from_slice(&piece[..count]);
        self.room -= count;
        if count == 0 && !piece.is_empty() {
            self.empty_takes = self.empty_takes.saturating_add(1);
        }
        Ok(count)
    }
}
