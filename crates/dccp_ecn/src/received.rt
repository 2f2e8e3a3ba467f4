//! What an ECN-capable end received.
ghost use Rattle.std.specs.Prelude.{◌≡◌, ◌≢◌, ◌<◌, ◌≤◌, IfOk, IsTrue, ◌↔◌, length};
ghost use Rattle.run_list.specs.MarkedSet.{IsFrom, IsSound, answer_to, has};
ghost use Rattle.dccp_ecn.specs.Arrivals.{how_in, none_arrived, taken_in};
ghost use Rattle.dccp_ecn.specs.EcnVector.{ecn_bytes, ecn_kind, ecn_states, is_ecn_whole, nonces_received};

use crate::Arrived;
use crate::nonces::{Nonces, kind_of_sum, sum_of};
use crate::ring::{PLACES, Ring};
use crate::writing::put_states;
use ack_vectors::VectorBytes;
use run_list::{Marked, RunList};
use seq_circle::{NoMemory, Seq48};
use std::alloc::Global;
use std::marker::Model;

// The states of an Ack Vector that are written (RFC 4340, section 11.4).
const RECEIVED: u8 = 0;

const RECEIVED_MARKED: u8 = 1;

const MISSING: u8 = 3;

/// What belongs to an Ack Vector that was written, besides its bytes.
#[derive(Clone, Copy, Debug, PartialEq, Eq)]
pub struct EcnVector {
    /// The option's type, by the vector's ECN Nonce Echo: 38 for 0 and 39 for 1 (RFC 4340, section 11.4).
    pub kind: u8,
    /// Whether the bytes reach down to the floor.
    pub whole: bool,
}

/// The numbers that an ECN-capable end has received, down to a floor, with how each came first: marked on its way, or
/// unmarked and with which nonce (RFC 4340, section 12.2; the floor is own, and is that of [`RunList`]). Contracts see
/// the set with its floor, and how each of its numbers came, in the set's order.
///
/// `start` begins a connection, `took` takes a packet in, and `write` writes the Ack Vector of an acknowledgement with
/// its nonce. No call after `new` takes memory.
#[derive(Drop)]
pub struct EcnReceived {
    set: RunList,
    ring: Ring,
}

impl Model for EcnReceived {
    ghost use Rattle.dccp_ecn.specs.Arrivals.{Arrivals, arrivals, arrivals_by};
    ghost use Rattle.dccp_ecn.specs.Ring.{IsMirror, how_at};

    ghost Value = { Arrivals };

    ghost view = { λ r. arrivals r.set (arrivals_by (how_at r.ring) r.set.numbers) };

    ghost invariant = { λ r. IsMirror r.set r.ring };
}

impl EcnReceived {
    /// Nothing received, and floor 0. `NoMemory` comes only here.
    pub fn new(alloc: Global) -> Result<EcnReceived, NoMemory>
        ensures { IfOk result (λ r. r ≡ none_arrived 0) }
    {
        let set = RunList::new(alloc)?;
        let ring = Ring::new(alloc)?;
        Ok(EcnReceived { set, ring })
    }

    /// Forgets all that was received, and sets the floor to `first`.
    pub fn start(&mut self, first: Seq48)
        ensures { self.new ≡ none_arrived first }
    {
        self.set.start(first);
        self.ring.empty(first, PLACES);
    }

    /// Notes that `n` came, and how: `BelowFloor`, `Again` or `New` as `RunList::mark` answers. Only New changes
    /// anything, so that the first receipt of a number counts.
    pub fn took(&mut self, n: Seq48, how: Arrived) -> Marked
        ensures value { self.new ≡ taken_in self.old n how }
        ensures answer { result ≡ answer_to self.old.set n }
        ensures below_floor { (result ≡ Marked.BelowFloor) ↔ ¬ IsFrom self.old.set.floor n }
        ensures again { (result ≡ Marked.Again) ↔ (IsFrom self.old.set.floor n × IsTrue (has self.old.set.numbers n)) }
        ensures unchanged { result ≢ Marked.New → self.new ≡ self.old }
    {
        let floor = self.set.floor();
        let answer = self.set.mark(n);
        match answer {
            Marked::New => {
                let rise = floor.distance(self.set.floor());
                self.ring.empty(floor, rise);
                self.ring.put(n, how);
                answer
            }
            Marked::Again | Marked::BelowFloor => answer,
        }
    }

    /// The floor: lower numbers are no longer reported.
    pub fn floor(&self) -> Seq48
        ensures value { result ≡ self.now.set.floor }
        ensures sound { IsSound self.now.set }
    {
        self.set.floor()
    }

    // How a number came first, or None if it is not in the set.
    fn how(&self, n: Seq48) -> Option<Arrived>
        ensures { result ≡ how_in self.now.first n }
    {
        if self.set.floor().distance(n) < PLACES {
            self.ring.at(n)
        } else {
            None
        }
    }

    /// The state of a number in a vector.
    pub(crate) fn state(&self, n: Seq48) -> u8
        ensures value { result ≡ ecn_states self.now n }
        ensures known { result < 4 }
    {
        match self.how(n) {
            Some(Arrived::Nonce(_)) => RECEIVED,
            Some(Arrived::Marked) => RECEIVED_MARKED,
            None => MISSING,
        }
    }

    /// Puts the bytes of the vector from `ack` down to the floor in place of what `out` had: state 0 for what came
    /// unmarked, 1 for what came marked and 3 for what did not come, runs of at most 64, and of these bytes the first
    /// 253, which one option has room for (RFC 4340, section 11.4). It is whole exactly if there are no more. Its type
    /// gives the exclusive or of the nonces of the numbers that these bytes report with state 0 (RFC 4340, section
    /// 12.2). If `ack` is below the floor, the vector has no byte, is whole and has type 38.
    pub fn write(&self, out: &mut VectorBytes, ack: Seq48) -> EcnVector
        ensures bytes { out.new.items ≡ ecn_bytes self.now ack }
        ensures fits { length out.new.items ≤ 253 }
        ensures kind { result.kind ≡ ecn_kind self.now ack }
        ensures whole { result.whole ≡ is_ecn_whole self.now ack }
    {
        let whole = put_states(out, self, ack);
        let sum = sum_of(self, ack, out.as_slice());
        EcnVector {
            kind: kind_of_sum(sum),
            whole,
        }
    }
}

impl Nonces for EcnReceived {
    ghost nonce_of = { nonces_received };

    fn nonce(&self, n: Seq48) -> Option<bool> {
        match self.how(n) {
            Some(Arrived::Nonce(nonce)) => Some(nonce),
            Some(Arrived::Marked) | None => None,
        }
    }
}
