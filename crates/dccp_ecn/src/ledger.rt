//! What an ECN-capable end sent, and how it checks what its peer reports.
ghost use Rattle.std.specs.Prelude.{◌≡◌, ◌%◌, ◌<◌, ◌≤◌, ◌↔◌, [], IsTrue, not, is_some, Option, Bool};
ghost use Rattle.std.specs.List.{list_any};
ghost use Rattle.dccp_ecn.specs.Nonces.{kind_of_sum, sum_of, zeros_in};
ghost use Rattle.dccp_ecn.specs.Ledger.{vector_checked, ledger, nonce_kept, check_verdict, with_nonce_sent};

use crate::nonces::{Nonces, kind_of_sum, sum_of};
use seq_circle::Seq48;
use std::marker::Model;

// How many nonces are kept (own). It divides the size of the circle.
const KEPT: usize = 4_096;

/// A sender's verdict on a vector that its peer reported.
#[derive(Clone, Copy, Debug, PartialEq, Eq)]
pub enum Check {
    /// Its nonce is that of the packets that it reports as received unmarked.
    Fits,
    /// It is not: the peer, or someone on the way, hides a mark or a loss.
    Unfit,
    /// It reports a packet as received unmarked whose nonce is not kept.
    Unknown,
}

/// The nonces of the last 4,096 packets that an ECN-capable end sent (RFC 4340, section 12.2; the count is own).
/// Contracts see the number of the next packet, and the nonces that are kept, the newest first.
///
/// `sent` counts a packet, and `check` says whether an Ack Vector of the peer can be honest. No call takes memory.
#[derive(Drop)]
pub struct NonceLedger {
    next: Seq48,
    kept: usize,
    nonces: [bool; KEPT],
}

impl Model for NonceLedger {
    ghost use Rattle.std.specs.Prelude.{◌≤◌};
    ghost use Rattle.seq_circle.specs.Circle.{down};
    ghost use Rattle.dccp_ecn.specs.Ledger.{Ledger, kept_down, ledger};

    ghost Value = { Ledger };

    ghost view = { λ l. ledger l.next (kept_down l.nonces (down l.next 1) l.kept) };

    ghost invariant = { λ l. l.kept ≤ 4096 };
}

// The place of a number in the ring.
fn place_in_ring(n: Seq48) -> usize
    ensures place { result ≡ n % 4096 }
    ensures fits { result < 4096 }
{
    (n.get() % KEPT as u64) as usize
}

// The verdict on a vector's type by an exclusive or of kept nonces.
fn check_verdict(kind: u8, sum: Option<bool>) -> Check
    ensures { result ≡ check_verdict kind sum }
{
    match sum {
        None => Check::Unknown,
        Some(_) if kind_of_sum(sum) == kind => Check::Fits,
        Some(_) => Check::Unfit,
    }
}

impl NonceLedger {
    /// Nothing was sent yet, and the first packet will have the number `first`.
    pub fn new(first: Seq48) -> NonceLedger
        ensures { result ≡ ledger first [] }
    {
        NonceLedger {
            next: first,
            kept: 0,
            nonces: [false; KEPT],
        }
    }

    /// Counts a packet that is sent with this nonce, and returns its number: the next one. The nonces of the last 4,096
    /// packets are kept.
    pub fn sent(&mut self, nonce: bool) -> Seq48
        ensures value { self.new ≡ with_nonce_sent self.old nonce }
        ensures number { result ≡ self.old.next }
    {
        let number = self.next;
        self.nonces[place_in_ring(number)] = nonce;
        self.kept = (self.kept + 1).min(KEPT);
        self.next = number.next();
        number
    }

    /// Whether the type `kind` of an Ack Vector from `ack` down, 38 or 39, is that of the nonces of all numbers that
    /// its bytes report with state 0: `Unknown` exactly if one of these nonces is not kept, and otherwise `Fits`
    /// exactly if their exclusive or is `kind` less 38 (RFC 4340, section 12.2). A number that is reported twice, which
    /// takes more bytes than any packet has, counts twice.
    pub fn check(&self, ack: Seq48, kind: u8, body: &[u8]) -> Check
        ensures value { result ≡ vector_checked self.now ack kind body.now }
        ensures unknown { (result ≡ Check.Unknown) ↔ IsTrue (list_any (λ n. not (is_some (nonce_kept self.now n))) (zeros_in ack body.now)) }
    {
        check_verdict(kind, sum_of(self, ack, body))
    }
}

impl Nonces for NonceLedger {
    ghost nonce_of = { nonce_kept };

    fn nonce(&self, n: Seq48) -> Option<bool> {
        let below = n.distance(self.next.sub(1));
        if below < self.kept as u64 {
            Some(self.nonces[place_in_ring(n)])
        } else {
            None
        }
    }
}
