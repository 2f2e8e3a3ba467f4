//! A bounded inbox.
use crate::answers::Arrival;
use crate::drops::{DropBytes, DropEntry, SPAN};
use crate::item::Item;
use crate::writing::write_drops;
use circular_buffer::HeapCircularBuffer;
use seq_circle::{NoMemory, Seq48};
use std::alloc::Global;
use std::marker::Model;

/// The Drop Code of data for which no application listens any more (RFC 4340, section 11.7).
pub const DROP_NOT_LISTENING: u8 = 1;

/// The Drop Code of data for which the receive buffer has no room (RFC 4340, section 11.7).
pub const DROP_BUFFER_FULL: u8 = 2;

/// The data of packets that an application has not read yet, at most `capacity` of them with up to `MOST` bytes each,
/// and the last 2,048 drops. It drops what arrives while it is full or after `stop`, and never what it holds. Contracts
/// see the items and the drops from the oldest on, whether it was stopped, its capacity, and `MOST`.
///
/// `new` takes the memory of both rings: an item has 16 bytes and `MOST`, a drop 16. No later call takes memory.
#[derive(Drop)]
pub struct BoundedInbox<const MOST: usize> {
    items: HeapCircularBuffer<Item<MOST>>,
    drops: HeapCircularBuffer<DropEntry>,
    stopped: bool,
}

/// An inbox whose items have up to 1,024 bytes, as many as an end sends at once (own).
pub type Inbox = BoundedInbox<1024>;

/// An inbox that has room for all data that a datagram of 2,044 bytes brings (own).
pub type LongInbox = BoundedInbox<2032>;

impl<const MOST: usize> Model for BoundedInbox<MOST> {
    ghost use Rattle.data_dropped.specs.Inbox.{InboxState, IsInbox};

    ghost Value = { InboxState };

    ghost view = { λ i. record { items = i.items.items; drops = i.drops.items; stopped = i.stopped; capacity = i.items.capacity; most = MOST } };

    ghost invariant = { λ i. IsInbox i.items i.drops MOST };
}

impl<const MOST: usize> BoundedInbox<MOST> {
    ghost use Rattle.std.specs.Prelude.{◌≡◌, ◌↔◌, ◌<◌, ◌≤◌, [], IfOk, IsNone, false, length, true};
    ghost use Rattle.data_dropped.specs.Drops.{HaveCodes, drop_bytes, tells_all};
    ghost use Rattle.data_dropped.specs.Inbox.{after_arrival, arrival_answer, dropping, first_over, first_taken, inbox_of, is_slow, keeping, reason, stopping, takes_more, taking};
    ghost use Rattle.data_dropped.specs.declared.answers.Arrival.TheVariants.{Dropped, Kept};

    /// An inbox that holds nothing, for 1 to 1,024 items. `NoMemory` comes only here.
    pub fn new(alloc: Global, capacity: u16) -> Result<BoundedInbox<MOST>, NoMemory>
        requires some { 1 ≤ capacity }
        requires few { capacity ≤ 1024 }
        requires short { MOST ≤ 2032 }
        ensures { IfOk result (λ inbox. inbox ≡ inbox_of MOST capacity) }
    {
        let Ok(items) = HeapCircularBuffer::with_capacity(alloc, usize::from(capacity)) else {
            return Err(NoMemory);
        };
        let Ok(drops) = HeapCircularBuffer::with_capacity(alloc, SPAN) else {
            return Err(NoMemory);
        };
        Ok(BoundedInbox {
            items,
            drops,
            stopped: false,
        })
    }

    // Whether the application listens, and there is room for one more item.
    fn takes_more(&self) -> bool
        ensures value { result ≡ takes_more self.now }
        ensures within { length self.now.items ≤ self.now.capacity }
    {
        !self.stopped && self.items.len() < self.items.capacity()
    }

    // Why data are dropped now.
    fn reason(&self) -> u8
        ensures { result ≡ reason self.now }
    {
        if self.stopped {
            DROP_NOT_LISTENING
        } else {
            DROP_BUFFER_FULL
        }
    }

    // Adds one more item.
    fn keep(&mut self, number: Seq48, payload: &[u8])
        requires room { takes_more self.old ≡ true }
        requires short { length payload.now ≤ MOST }
        ensures { self.new ≡ keeping self.old number payload.now }
    {
        self.items.push_back(Item::of(number, payload));
    }

    // Adds one more drop, which may replace the oldest.
    fn note_drop(&mut self, number: Seq48) -> Arrival
        ensures dropped { self.new ≡ dropping self.old number }
        ensures answer { result ≡ Dropped (reason self.old) }
    {
        let code = self.reason();
        self.drops.push_back(DropEntry { number, code });
        Arrival::Dropped(code)
    }

    /// How many items are held.
    pub fn held(&self) -> usize
        ensures { result ≡ length self.now.items }
    {
        self.items.len()
    }

    /// How many bytes an item may have: `MOST`.
    pub fn most(&self) -> usize
        ensures value { result ≡ self.now.most }
        ensures same { result ≡ MOST }
    {
        // `len` gives the prover what `self` is.
        let _count = self.items.len();
        MOST
    }

    // Whether it has nothing to say: no drop counts, and it is not slow.
    pub(crate) fn is_silent(&self) -> bool
        ensures no_drop { result ≡ true → self.now.drops ≡ [] }
        ensures not_slow { result ≡ true → is_slow self.now ≡ false }
        ensures codes { HaveCodes self.now.drops }
    {
        self.drops.is_empty() && !self.slow()
    }

    /// Data of at most `MOST` bytes have arrived under this packet's number. `Dropped(1)` exactly after `stop`; then
    /// `Dropped(2)` exactly if `capacity` items are held. Otherwise they are kept, after the others.
    pub fn arrived(&mut self, number: Seq48, payload: &[u8]) -> Arrival
        requires { length payload.now ≤ MOST }
        ensures after { self.new ≡ after_arrival self.old number payload.now }
        ensures answer { result ≡ arrival_answer self.old }
        ensures stopped { (result ≡ Dropped 1) ↔ (self.old.stopped ≡ true) }
        ensures full { (result ≡ Dropped 2) ↔ ((self.old.stopped ≡ false) × (length self.old.items ≡ self.old.capacity)) }
        ensures kept { (result ≡ Kept) ↔ ((self.old.stopped ≡ false) × (length self.old.items < self.old.capacity)) }
    {
        if self.takes_more() {
            self.keep(number, payload);
            Arrival::Kept
        } else {
            self.note_drop(number)
        }
    }

    /// Longer data have arrived, which no item holds: they are dropped, with 1 after `stop` and with 2 otherwise (own).
    pub fn too_long(&mut self, number: Seq48) -> Arrival
        ensures dropped { self.new ≡ dropping self.old number }
        ensures answer { result ≡ Dropped (reason self.old) }
    {
        self.note_drop(number)
    }

    /// Takes the first item: writes its data over the front of `into`, and returns its number and its length. The rest
    /// of `into` stays. None exactly if no item is held; then nothing changes.
    pub fn take(&mut self, into: &mut [u8; MOST]) -> Option<(Seq48, usize)>
        ensures rest { self.new ≡ taking self.old }
        ensures answer { result ≡ first_taken self.old.items }
        ensures data { into.new ≡ first_over self.old.items into.old }
        ensures none { IsNone result ↔ (self.old.items ≡ []) }
    {
        let item = self.items.pop_front()?;
        let count = item.put(into);
        Some((item.number(), count))
    }

    /// The application stops listening: all data that arrive later are dropped. Items that are held can still be taken.
    pub fn stop(&mut self)
        ensures { self.new ≡ stopping self.old }
    {
        self.stopped = true;
    }

    /// Whether three quarters of the room are taken, or more (own).
    pub fn slow(&self) -> bool
        ensures { result ≡ is_slow self.now }
    {
        3 * self.items.capacity() <= 4 * self.items.len()
    }

    /// Writes the Data Dropped bytes of the numbers from `ack` downwards, in place of what was there. They cover, of
    /// the 2,048 numbers, those down to the lowest that has a code, each with the code of its latest drop among the
    /// last 2,048 (RFC 4340, section 11.7; the bounds are own). Only the first 253 bytes are written, and none if no
    /// number has a code. True exactly if nothing was cut off.
    pub fn write(&self, out: &mut DropBytes, ack: Seq48) -> bool
        ensures bytes { out.new.items ≡ drop_bytes self.now.drops ack }
        ensures whole { result ≡ tells_all self.now.drops ack }
        ensures codes { HaveCodes self.now.drops }
    {
        write_drops(&self.drops, out, ack)
    }
}
