//! One block of bytes that were read and not used yet.
ghost use Rattle.std.specs.Prelude.{◌≡◌, ◌+◌, ◌-◌, ◌<◌, ◌≤◌, ◌↔◌, [], length, take, drop, IfOk, OnErr, IfSome};
ghost use Rattle.std.specs.Io.KnownBytes.{prepend_known};
ghost use Rattle.dccp_io.specs.Counts.{Rose};
ghost use Rattle.dccp_io.specs.Ahead.{Refills};

use crate::{Failed, Source};
use seq_circle::NoMemory;
use std::alloc::Global;
use std::marker::Model;

/// Bytes that were read ahead of their use, in one block whose size never changes (own). Contracts see the bytes that
/// are pending, and the size.
#[derive(Drop)]
pub struct ReadAhead {
    block: Vec<u8>,
    from: usize,
    to: usize,
}

impl Model for ReadAhead {
    ghost use Rattle.std.specs.Prelude.{◌≤◌, take, drop, vec_len};
    ghost use Rattle.dccp_io.specs.Ahead.{BytesAhead};

    ghost Value = { BytesAhead };

    ghost view = { λ a. record { pending = drop a.from (take a.to a.block.items); size = vec_len a.block } };

    ghost invariant = { λ a. (a.from ≤ a.to) × (a.to ≤ vec_len a.block) };
}

// If the pending bytes end at the block's end, moves them to its front. Returns their place. A move happens at most
// once for each block that was filled.
fn make_room(block: &mut Vec<u8>, from: usize, to: usize) -> (usize, usize)
    requires order { from ≤ to }
    requires inside { to ≤ length block.old.items }
    requires room { to - from < length block.old.items }
    ensures same { drop result.0 (take result.1 block.new.items) ≡ drop from (take to block.old.items) }
    ensures size { length block.new.items ≡ length block.old.items }
    ensures order { result.0 ≤ result.1 }
    ensures room { result.1 < length block.new.items }
{
    if to < block.len() {
        return (from, to);
    }
    block.copy_within(from..to, 0);
    (0, to - from)
}

// One read into the block after its first `to` bytes.
fn read_after<S: Source>(source: &mut S, block: &mut [u8], to: usize) -> Result<usize, Failed>
    requires { to < length block.old }
    ensures same_size { length block.new ≡ length block.old }
    ensures front { take to block.new ≡ take to block.old }
    ensures fits { IfOk result (λ n. to + n ≤ length block.new) }
    ensures next { IfOk result (λ n. S.left source.old ≡ prepend_known (take n (drop to block.new)) (S.left source.new)) }
    ensures end { IfOk result (λ n. IfSome (S.left source.old) (λ bytes. (n ≡ 0) ↔ (bytes ≡ []))) }
    ensures none_taken { OnErr result (S.left source.new ≡ S.left source.old) }
    ensures never_falls { S.faults source.old ≤ S.faults source.new }
    ensures cause { OnErr result (Rose (S.faults source.old) (S.faults source.new)) }
    ensures same_lender { S.lender source.new ≡ S.lender source.old }
{
    source.read(&mut block[to..])
}

impl ReadAhead {
    /// A block of this size with nothing pending. No later call takes memory.
    pub fn new(alloc: Global, size: usize) -> Result<ReadAhead, NoMemory>
        ensures { IfOk result (λ ahead. ahead ≡ record { pending = []; size = size }) }
    {
        let Ok(block) = Vec::from_elem(alloc, 0, size) else {
            return Err(NoMemory);
        };
        Ok(ReadAhead {
            block,
            from: 0,
            to: 0,
        })
    }

    /// The bytes that are pending.
    pub fn pending(&self) -> &[u8]
        ensures value { result.now ≡ self.now.pending }
        ensures fits { length result.now ≤ self.now.size }
    {
        &self.block[self.from..self.to]
    }

    /// How many bytes are pending.
    pub fn len(&self) -> usize
        ensures value { result ≡ length self.now.pending }
        ensures fits { result ≤ self.now.size }
    {
        self.to - self.from
    }

    /// Drops the first bytes.
    pub fn pass(&mut self, count: usize)
        requires { count ≤ length self.old.pending }
        ensures { self.new ≡ record { pending = drop count self.old.pending; size = self.old.size } }
    {
        self.from += count;
    }

    /// Reads once from the source, after the bytes that are pending, and returns how many bytes came: 0 only at the
    /// source's end. Failed comes only if the source failed, and then the same bytes are pending.
    pub fn refill<S: Source>(&mut self, source: &mut S) -> Result<usize, Failed>
        requires { length self.old.pending < self.old.size }
        ensures { Refills S.left S.faults S.lender self.old self.new source.old source.new result }
    {
        let (from, to) = make_room(&mut self.block, self.from, self.to);
        self.from = from;
        self.to = to;
        let count = read_after(source, self.block.as_mut_slice(), self.to)?;
        self.to += count;
        Ok(count)
    }
}
