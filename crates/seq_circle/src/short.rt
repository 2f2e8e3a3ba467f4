//! 24-bit short forms, and the numbers that they shorten.
ghost use Rattle.std.specs.Prelude.{◌≡◌, ℕ, ◌+◌, ◌-◌, ◌*◌, ◌/◌, ◌%◌, ◌^◌, ◌<◌, ◌≤◌, IsSome, IfSome, ◌↔◌};
ghost use Rattle.seq_circle.specs.Circle.{extended, is_short_before};

use crate::Seq48;
use std::marker::Model;

const SIZE: u32 = 1 << 24;

const HALF: u32 = 1 << 23;

/// The low 24 bits of a sequence number, as short forms of packets carry them (RFC 4340, section 7.6). Contracts see
/// the number itself.
#[derive(Clone, Copy, Debug, PartialEq, Eq)]
pub struct Seq24 {
    number: u32,
}

impl Model for Seq24 {
    ghost use Rattle.std.specs.Prelude.{ℕ, ◌^◌, ◌<◌};

    ghost Value = { ℕ };

    ghost view = { λ s. s.number };

    ghost invariant = { λ s. s.number < 2 ^ 24 };

    ghost inverse = { λ n. record { number = n } };
}

impl Seq24 {
    /// The short number `n`, or None exactly if it is 2^24 or more (RFC 4340, section 7.6).
    pub fn new(n: u32) -> Option<Seq24>
        ensures made { IsSome result ↔ (n < 2 ^ 24) }
        ensures value { IfSome result (λ s. s ≡ n) }
    {
        if n < SIZE {
            Some(Seq24 { number: n })
        } else {
            None
        }
    }

    /// The number, below 2^24.
    pub fn get(self) -> u32
        ensures value { result ≡ self }
        ensures fits { result < 2 ^ 24 }
    {
        self.number
    }
}

// Whether `b` lies ahead of `a` by less than half of the short circle.
fn is_ahead(a: u32, b: u32) -> bool
    requires small { a < 2 ^ 24 }
    requires other { b < 2 ^ 24 }
    ensures { result ≡ is_short_before a b }
{
    let ahead = (b + SIZE - a) % SIZE;
    0 < ahead && ahead < HALF
}

/// The 48-bit number near `reference` whose low 24 bits are `s`, by the three cases of RFC 4340, section 7.6. It is the
/// number that was shortened, if that is fewer than 2^23 from the reference, in either direction
/// (`extension_finds_the_number`).
pub fn extend(s: Seq24, reference: Seq48) -> Seq48
    ensures { result ≡ extended s reference }
{
    let short = s.get();
    let reference = reference.get();
    let low = (reference % u64::from(SIZE)) as u32;
    let high = reference / u64::from(SIZE);
    let turn = if is_ahead(low, short) && short < low {
        (high + 1) % u64::from(SIZE)
    } else if is_ahead(short, low) && low < short {
        (high + u64::from(SIZE - 1)) % u64::from(SIZE)
    } else {
        high
    };
    let number = turn * u64::from(SIZE) + u64::from(short);
    match Seq48::new(number) {
        Some(extended) => extended,
        None => unreachable!(),
    }
}
