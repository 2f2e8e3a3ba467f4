//! What was received, and the records of sent vectors.
ghost use Rattle.std.specs.Prelude.{◌≡◌, ◌≢◌, ◌≤◌, ◌<◌, ◌+◌, ◌^◌, ℕ, [], ◌∷◌, ◌++◌, IfOk, IsTrue, ◌↔◌, false, is_some, length, nat_le, take};
ghost use Rattle.std.specs.Bool.{OnFalse};
ghost use Rattle.std.specs.List.{list_any};
ghost use Rattle.run_list.specs.MarkedSet.{has, answer_to, IsFrom, IsSound};
ghost use Rattle.ack_vectors.specs.Kept.{ReceivedState, fresh, marked_by, recorded, acked, is_whole_at, newest_whole};
ghost use Rattle.ack_vectors.specs.Near.{record_numbers};
ghost use Rattle.seq_circle.specs.Near.{AreNear};
ghost use Rattle.ack_vectors.specs.Vector.{all_bytes, is_whole_under, room_of, set_states, vector_under};
ghost use Rattle.ack_vectors.specs.declared.room.Vectors.TheVariants.{One};
ghost use Rattle.dccp_options.specs.Written.{spelled};

use crate::room::{MOST_OPTION, VectorBytes, Vectors, room_of};
use crate::writing::put_runs;
use arrayvec::ArrayVec;
use circular_buffer::HeapCircularBuffer;
use dccp_options::kinds::ACK_VECTOR_0;
use run_list::{Marked, RunList};
use seq_circle::{NoMemory, Seq48};
use std::alloc::Global;
use std::marker::Model;

// How many records are kept (own).
const RECORDS: usize = 64;

/// A sent packet with an Ack Vector, as it is remembered (own). No call gives one out; contracts speak of them.
#[derive(Clone, Copy)]
pub struct VectorRecord {
    /// The packet's number.
    pub number: Seq48,
    /// The number that it acknowledged.
    pub ack: Seq48,
    /// Whether its vector was whole: reached down to the floor.
    pub whole: bool,
}

/// The numbers that an end has received, down to a floor, and the records of the last 64 Ack Vectors that it sent.
/// Contracts see the set with its floor and the records from the oldest on.
///
/// `start` begins a connection, `took` marks a packet, `write` writes the vector of an acknowledgement and `sent`
/// records it, and `peer_acked` raises the floor when an Ack or DataAck of the peer acknowledges one that was whole. No
/// call after `new` takes memory.
#[derive(Drop)]
pub struct Received {
    set: RunList,
    records: HeapCircularBuffer<VectorRecord>,
    // If this is below 2^48: no record's number is more steps than this up from that of an earlier one.
    span: u64,
}

impl Model for Received {
    ghost use Rattle.ack_vectors.specs.Kept.{ReceivedState};
    ghost use Rattle.ack_vectors.specs.Near.{KeptInvariant};

    ghost Value = { ReceivedState };

    ghost view = { λ r. record { set = r.set; records = r.records.items } };

    ghost invariant = { λ r. KeptInvariant r.records.items r.records.capacity r.span };
}

// The record is of a whole vector under the number.
fn is_whole_at(sent: &VectorRecord, n: Seq48) -> bool
    ensures { result ≡ is_whole_at n sent.now }
{
    sent.number == n && sent.whole
}

// The newest of these records of a whole vector under the number. What the peer acknowledges is mostly the last of them,
// or data that were sent after it. So the search ends once the number is further below a record than any earlier record
// can be.
fn newest_among(records: &[VectorRecord], span: u64, n: Seq48) -> Option<VectorRecord>
    requires { span < 2 ^ 48 → AreNear span (record_numbers records.now) }
    ensures { result ≡ newest_whole n records.now }
{
    for index in (0..records.len()).rev() {
        let record = records[index];
        if is_whole_at(&record, n) {
            return Some(record);
        }
        if span < n.distance(record.number) {
            return None;
        }
    }
    None
}

// The same in the ring: the newer records are those in its second part.
fn newest_whole(
    records: &HeapCircularBuffer<VectorRecord>,
    span: u64,
    n: Seq48,
) -> Option<VectorRecord>
    requires { span < 2 ^ 48 → AreNear span (record_numbers records.now.items) }
    ensures { result ≡ newest_whole n records.now.items }
{
    let (earlier, later) = records.as_slices();
    match newest_among(later, span, n) {
        Some(record) => Some(record),
        None => newest_among(earlier, span, n),
    }
}

// How many steps up a number is from the newest record's.
fn step_from_newest(records: &HeapCircularBuffer<VectorRecord>, number: Seq48) -> u64
    ensures near { (span : ℕ) → AreNear span (record_numbers records.now.items)
        → AreNear (span + result) (record_numbers records.now.items ++ number ∷ []) }
{
    // Gives the prover that the number is below 2^48.
    let _number = number.get();
    match records.back() {
        Some(newest) => newest.number.distance(number),
        None => 0,
    }
}

// The sum, if it is below 2^48.
fn with_step(span: u64, step: u64) -> u64
    ensures { result < 2 ^ 48 → result ≡ span + step }
{
    span.saturating_add(step)
}

impl Received {
    /// Nothing received, floor 0 and no record. `NoMemory` comes only here.
    pub fn new(alloc: Global) -> Result<Received, NoMemory>
        ensures { IfOk result (λ r. r ≡ fresh 0) }
    {
        let set = RunList::new(alloc)?;
        let Ok(records) = HeapCircularBuffer::with_capacity(alloc, RECORDS) else {
            return Err(NoMemory);
        };
        Ok(Received {
            set,
            records,
            span: 0,
        })
    }

    /// Forgets all that was received and every record, and sets the floor to `first`.
    pub fn start(&mut self, first: Seq48)
        ensures { self.new ≡ fresh first }
    {
        self.set.start(first);
        self.records.clear();
        self.span = 0;
    }

    /// Marks `n` as received: `BelowFloor`, `Again` or `New` as `RunList::mark` answers. Only New changes anything.
    pub fn took(&mut self, n: Seq48) -> Marked
        ensures kept { self.new ≡ marked_by self.old n }
        ensures answer { result ≡ answer_to self.old.set n }
        ensures below_floor { (result ≡ Marked.BelowFloor) ↔ ¬ IsFrom self.old.set.floor n }
        ensures again { (result ≡ Marked.Again) ↔ (IsFrom self.old.set.floor n × IsTrue (has self.old.set.numbers n)) }
        ensures unchanged { result ≢ Marked.New → self.new ≡ self.old }
    {
        self.set.mark(n)
    }

    /// The floor: lower numbers are no longer reported.
    pub fn floor(&self) -> Seq48
        ensures value { result ≡ self.now.set.floor }
        ensures sound { IsSound self.now.set }
    {
        self.set.floor()
    }

    /// Puts the bytes of the vector from `ack` down to the floor in place of what `out` had: state 0 for what was
    /// received and 3 for what was not, runs of at most 64, and of these bytes the first 253 for `One` and the first
    /// 506 for `Two`. True exactly if there are no more (RFC 4340, section 11.4). If `ack` is below the floor, the
    /// vector has no byte, and is whole.
    pub fn write(&self, out: &mut VectorBytes, ack: Seq48, vectors: Vectors) -> bool
        ensures bytes { out.new.items ≡ vector_under (has self.now.set.numbers) self.now.set.floor ack vectors }
        ensures whole { result ≡ is_whole_under (has self.now.set.numbers) self.now.set.floor ack vectors }
        ensures fits { length out.new.items ≤ room_of vectors }
    {
        out.clear();
        self.append(out, room_of(vectors), ack)
    }

    /// Appends one option of type 38 to what `out` has, which leaves room for its 255 bytes. Its data are the bytes that
    /// `write` gives for `One`, and it answers as that does (RFC 4340, section 11.4).
    pub fn append_option<const N: usize>(&self, out: &mut ArrayVec<u8, N>, ack: Seq48) -> bool
        requires room { length out.old.items + 255 ≤ N }
        ensures bytes { out.new.items ≡ out.old.items ++ spelled false 38 (vector_under (has self.now.set.numbers) self.now.set.floor ack One) }
        ensures whole { result ≡ is_whole_under (has self.now.set.numbers) self.now.set.floor ack One }
    {
        let begin = out.len();
        out.push(ACK_VECTOR_0);
        out.push(0);
        let whole = self.append(out, begin + MOST_OPTION, ack);
        // The length counts all of the option.
        out[begin + 1] = (out.len() - begin) as u8;
        whole
    }

    // Appends the bytes of the vector from `ack` down to the floor, up to `room` bytes in all. Returns whether there was
    // room for all of them.
    fn append<const N: usize>(&self, out: &mut ArrayVec<u8, N>, room: usize, ack: Seq48) -> bool
        requires within { room ≤ N }
        requires begun { length out.old.items ≤ room }
        ensures bytes { out.new.items ≡ take room (out.old.items ++ all_bytes (set_states (has self.now.set.numbers)) self.now.set.floor ack) }
        ensures whole { result ≡ nat_le (length (out.old.items ++ all_bytes (set_states (has self.now.set.numbers)) self.now.set.floor ack)) room }
        ensures fits { length out.new.items ≤ room }
    {
        let floor = self.set.floor();
        if !ack.is_from(floor) {
            return true;
        }
        let count = floor.distance(ack) + 1;
        put_runs(out, room, self.set.walk(), floor, count)
    }

    /// Records a sent packet by its number, the number that it acknowledged and whether its vector was whole. The
    /// oldest of 64 records is dropped for it.
    pub fn sent(&mut self, number: Seq48, ack: Seq48, whole: bool)
        ensures { self.new ≡ recorded self.old number ack whole }
    {
        let step = step_from_newest(&self.records, number);
        self.records.push_back(VectorRecord { number, ack, whole });
        self.span = with_step(self.span, step);
    }

    /// Whether a whole vector was recorded under the number `n`, which the peer acknowledged by an Ack or a DataAck.
    /// The floor then rises to the number after the acknowledgement of the newest such record, if it is before that.
    ///
    /// Call it for the acknowledgements of these two types only. They acknowledge the greatest number that the peer
    /// received; if that was an Ack or a DataAck, the peer has processed it, and so it has the report. A Sync
    /// acknowledges the packet that it answers, which its sender may not have processed; the floor would then pass
    /// numbers of which the peer never had a report.
    pub fn peer_acked(&mut self, n: Seq48) -> bool
        ensures kept { self.new ≡ acked self.old n }
        ensures answer { result ≡ is_some (newest_whole n self.old.records) }
        ensures cause { result ≡ list_any (is_whole_at n) self.old.records }
        ensures unchanged { OnFalse result (self.new ≡ self.old) }
    {
        let newest = newest_whole(&self.records, self.span, n);
        let Some(record) = newest else {
            return false;
        };
        let floor = record.ack.next();
        self.set.raise(floor);
        true
    }
}
