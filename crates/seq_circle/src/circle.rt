//! 48-bit sequence numbers.
ghost use Rattle.std.specs.Prelude.{◌≡◌, ℕ, ◌+◌, ◌-◌, ◌*◌, ◌%◌, ◌^◌, ◌<◌, ◌≤◌, IsSome, IfSome, IsTrue, ◌↔◌};
ghost use Rattle.seq_circle.specs.Circle.{residue, distance, down, IsBefore, is_before, later_of, IsFrom, is_from, open_end, IsWithin, is_within, is_far};

use crate::Seq24;
use std::marker::Model;

const SIZE: u64 = 1 << 48;

const HALF: u64 = 1 << 47;

// The same of a scaled distance.
const SCALED_HALF: u64 = 1 << 63;

// How many numbers 24 bits can distinguish.
const SHORT_SIZE: u64 = 1 << 24;

// Half of them lie up the circle from a number, and half down.
const NEAR: u64 = 1 << 23;

/// A 48-bit sequence number, from 0 to 2^48 - 1. Arithmetic is modulo 2^48, and the order is circular (RFC 4340,
/// section 3.1). Contracts see the number itself.
#[derive(Clone, Copy, Debug, PartialEq, Eq)]
pub struct Seq48 {
    number: u64,
}

impl Model for Seq48 {
    ghost use Rattle.std.specs.Prelude.{ℕ, ◌^◌, ◌<◌};

    ghost Value = { ℕ };

    ghost view = { λ s. s.number };

    ghost invariant = { λ s. s.number < 2 ^ 48 };

    ghost inverse = { λ n. record { number = n } };
}

impl Seq48 {
    /// The sequence number `n`, or None exactly if it is 2^48 or more (RFC 4340, section 3.1).
    pub fn new(n: u64) -> Option<Seq48>
        ensures made { IsSome result ↔ (n < 2 ^ 48) }
        ensures value { IfSome result (λ s. s ≡ n) }
    {
        if n < SIZE {
            Some(Seq48 { number: n })
        } else {
            None
        }
    }

    /// The number, below 2^48.
    pub fn get(self) -> u64
        ensures value { result ≡ self }
        ensures fits { result < 2 ^ 48 }
    {
        self.number
    }

    /// The number after this one: 0 follows 2^48 - 1 (RFC 4340, section 7.1).
    pub fn next(self) -> Seq48
        ensures { result ≡ residue (self + 1) }
    {
        self.add(1)
    }

    /// `n` steps up the circle, for any `n`: 2^48 steps lead back to this number (RFC 4340, section 3.1).
    pub fn add(self, n: u64) -> Seq48
        ensures { result ≡ residue (self + n) }
    {
        Seq48 {
            number: (self.number + n % SIZE) % SIZE,
        }
    }

    /// `n` steps down the circle, for any `n`: 2^48 steps lead back to this number (RFC 4340, section 3.1).
    pub fn sub(self, n: u64) -> Seq48
        ensures { result ≡ down self n }
    {
        Seq48 {
            number: (self.number + (SIZE - n % SIZE)) % SIZE,
        }
    }

    /// How many steps lead from this number up to `to`: `(to - self) mod 2^48` (RFC 4340, section 3.1).
    pub fn distance(self, to: Seq48) -> u64
        ensures value { result ≡ distance self to }
        ensures fits { result < 2 ^ 48 }
    {
        (to.number + SIZE - self.number) % SIZE
    }

    // The distance in the high 48 bits of a word, where nothing has to be masked before it is compared.
    fn scaled_distance(self, to: Seq48) -> u64
        ensures { result ≡ 2 ^ 16 * distance self to }
    {
        to.number.wrapping_sub(self.number) << 16
    }

    /// Whether `other` lies ahead by 1 to 2^47 - 1 steps (RFC 4340, section 3.1).
    pub fn before(self, other: Seq48) -> bool
        ensures value { result ≡ is_before self other }
        ensures meaning { IsTrue result ↔ IsBefore self other }
    {
        let ahead = self.scaled_distance(other);
        0 < ahead && ahead < SCALED_HALF
    }

    /// The later of the two: `other` if this number is before it, otherwise this one (own).
    pub fn max_of(self, other: Seq48) -> Seq48
        ensures { result ≡ later_of self other }
    {
        if self.before(other) { other } else { self }
    }

    /// Whether this number is `low` or lies ahead of it by less than half the circle. It is then in the interval that
    /// begins at `low` and has no upper end (RFC 4340, section 3.1). Of two numbers exactly half the circle apart
    /// neither is before the other, and neither is from the other.
    pub fn is_from(self, low: Seq48) -> bool
        ensures value { result ≡ is_from low self }
        ensures meaning { IsTrue result ↔ IsFrom low self }
    {
        low.scaled_distance(self) < SCALED_HALF
    }

    /// The last number that `is_from` counts as ahead of this one: 2^47 - 1 steps up. With it as the high end, `within`
    /// agrees with `is_from` (own).
    pub fn open_end(self) -> Seq48
        ensures { result ≡ open_end self }
    {
        self.add(HALF - 1)
    }

    /// Whether this number lies in the interval from `lo` up to `hi`, both included, as a valid packet's numbers lie in
    /// a window (RFC 4340, section 7.5.1).
    pub fn within(self, lo: Seq48, hi: Seq48) -> bool
        ensures value { result ≡ is_within self lo hi }
        ensures meaning { IsTrue result ↔ IsWithin self lo hi }
    {
        lo.scaled_distance(self) <= lo.scaled_distance(hi)
    }

    /// The low 24 bits, as short forms of packets carry them (RFC 4340, section 7.6). `extend` finds this number again
    /// from a reference that is not far from it (`is_far`).
    pub fn low(self) -> Seq24
        ensures { result ≡ self % 2 ^ 24 }
    {
        match Seq24::new((self.number % SHORT_SIZE) as u32) {
            Some(low) => low,
            None => unreachable!(),
        }
    }

    /// Whether this number is at least 2^23 steps from `reference` in both directions. `extend` may then not find it
    /// from its low 24 bits (own; the bound is that of RFC 4340, section 7.6).
    pub fn is_far(self, reference: Seq48) -> bool
        ensures value { result ≡ is_far self reference }
        ensures meaning { IsTrue result ↔ ((2 ^ 23 ≤ distance self reference) × (2 ^ 23 ≤ distance reference self)) }
    {
        NEAR <= self.distance(reference) && NEAR <= reference.distance(self)
    }
}
