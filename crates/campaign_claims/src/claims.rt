//! The claims, and the claimers that draw from them.
ghost use Rattle.std.specs.Prelude.{◌≡◌, ℕ, ◌^◌, ◌<◌, ◌≤◌, min, All, IfOk, IfSome, IfNone, IsOk};
ghost use Rattle.campaign_claims.specs.Numbers.{times, once_below, AreOnceBelow};
ghost use Rattle.campaign_claims.specs.Rule.{HasTwoShares, IsClaim, IsBelowLimit};
ghost use Rattle.campaign_claims.specs.Views.{both, first, given, held, kept, with_claimed, with_none};

use crate::Gate;
use crate::rule::{Counts, Draw, Halves, View};
use atomic_table::{Seat, Table};
use seq_circle::NoMemory;
use std::alloc::Global;
use std::marker::Model;

/// The word that claimers share: how many claims were made (own). Contracts see which claims they are.
#[derive(Drop)]
pub struct Claims {
    table: Table<u8, View, u64, Counts, Global>,
}

impl Model for Claims {
    ghost use Rattle.std.specs.Prelude.{◌≡◌};
    ghost use Rattle.atomic_table.specs.Seated.{TableId};

    ghost Value = { TableId };

    ghost view = { λ c. c.table.shared.table_id };

    ghost invariant = { λ c. (c.table.shared.table_id.words ≡ 1) × (c.table.shared.table_id.slots ≡ 0) };
}

/// The right to a share of the claims, for one thread at a time (own). Contracts see to which claims it belongs, its
/// numbers, how many claims it made, its share and the limit.
#[derive(Drop)]
pub struct Claimer {
    seat: Seat<u8, View>,
    limit: u64,
}

impl Model for Claimer {
    ghost use Rattle.std.specs.Prelude.{◌≡◌, ◌<◌, []};
    ghost use Rattle.campaign_claims.specs.Views.{Claimant, held};

    ghost Value = { Claimant };

    ghost view = { λ c. held c.seat.table_id c.seat.me.0 };

    ghost invariant = { λ c. (c.seat.me.1 ≡ []) × (c.limit ≡ c.seat.me.0.limit) × (0 < c.seat.me.0.share) };
}

/// Claims to the numbers below `n`, of which none is claimed yet, and a claimer with all 2^62 shares. Only this call
/// may return `NoMemory`.
pub fn make_claims(alloc: Global, n: u64) -> Result<(Claims, Claimer), NoMemory>
    requires few { n ≤ 100000 }
    ensures { IfOk result (λ made. made.1 ≡ held made.0 (first n)) }
{
    let Ok((table, seat)) = Table::of_words(alloc, &[0], &n) else {
        return Err(NoMemory);
    };
    Ok((Claims { table }, Claimer { seat, limit: n }))
}

impl Claimer {
    /// Claims the next number: one atomic addition to the word. The number is greater than all that this claimer has,
    /// and no other claimer gets it. None if the word that was read is the limit or more.
    pub fn claim(&mut self, claims: &Claims) -> Option<u64>
        requires same { self.old.claims ≡ claims.now }
        requires part { self.old.view.drawn < self.old.view.share }
        ensures below { IfSome result (IsBelowLimit self.old.view) }
        ensures greater { IfSome result (λ k. All (λ x. x < k) self.old.view.numbers) }
        ensures some { IfSome result (λ k. self.new ≡ held self.old.claims (with_claimed self.old.view k)) }
        ensures none { IfNone result (self.new ≡ held self.old.claims (with_none self.old.view)) }
        ensures word { IsClaim self.old.view result self.new.view }
    {
        let found = claims.table.shared.fetch_add::<Draw>(&mut self.seat, 0, 1);
        if found < self.limit {
            Some(found)
        } else {
            None
        }
    }

    /// Claims the next number as `claim` does, and calls the gate with it.
    pub fn begin<G: Gate>(&mut self, claims: &Claims, gate: &G) -> Option<u64>
        requires same { self.old.claims ≡ claims.now }
        requires part { self.old.view.drawn < self.old.view.share }
        ensures below { IfSome result (IsBelowLimit self.old.view) }
        ensures greater { IfSome result (λ k. All (λ x. x < k) self.old.view.numbers) }
        ensures some { IfSome result (λ k. self.new ≡ held self.old.claims (with_claimed self.old.view k)) }
        ensures none { IfNone result (self.new ≡ held self.old.claims (with_none self.old.view)) }
        ensures word { IsClaim self.old.view result self.new.view }
    {
        let index = self.claim(claims)?;
        gate.begin(self, index);
        Some(index)
    }

    /// A claimer for another thread, with half of the claims that this one may still make and no number. It takes no
    /// memory, so it is never refused.
    pub fn split(&mut self, claims: &Claims) -> Result<Claimer, NoMemory>
        requires same { self.old.claims ≡ claims.now }
        requires room { HasTwoShares self.old.view }
        ensures ok { IsOk result }
        ensures given { IfOk result (λ other. other ≡ held self.old.claims (given self.old.view)) }
        ensures kept { self.new ≡ held self.old.claims (kept self.old.view) }
    {
        let seat = claims.table.shared.split_seat::<Halves>(&mut self.seat);
        Ok(Claimer {
            seat,
            limit: self.limit,
        })
    }

    /// Adds another claimer to this one: its numbers, after those here, its claims and its share.
    pub fn join(&mut self, claims: &Claims, other: Claimer)
        requires same { (self.old.claims ≡ claims.now) × (other.claims ≡ claims.now) }
        ensures { self.new ≡ held self.old.claims (both self.old.view other.view) }
    {
        let shared = &claims.table.shared;
        shared.join_seat::<Halves>(&mut self.seat, other.seat);
    }
}

impl Claims {
    /// Ends the claims, and returns the word's last value: how many claims were made in all. The numbers of any claimer
    /// lie below the lesser of the limit and the word, each at most once. A claimer that has joined all others, and so
    /// has all 2^62 shares, has made all claims and has all those numbers.
    pub fn close(self, last: Claimer) -> u64
        requires same { last.claims ≡ self }
        ensures least { last.view.drawn ≤ result }
        ensures apart { (x : ℕ) → times x last.view.numbers ≤ once_below x (min last.view.limit result) }
        ensures drawn { last.view.share ≡ 2 ^ 62 → result ≡ last.view.drawn }
        ensures all { last.view.share ≡ 2 ^ 62 → AreOnceBelow (min last.view.limit result) last.view.numbers }
    {
        let Claims { table } = self;
        let Claimer { seat, limit: _ } = last;
        let closed = table.close_with(seat);
        let word = closed.word(0);
        closed.free();
        word
    }
}
