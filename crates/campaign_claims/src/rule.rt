//! What a claimer knows, the rule over all claimers, and the kinds of steps.
//!
//! The limit is in every view, and in the claimer as a number: what a step does to a view may depend only on that view
//! and on the word, and a claim compares the word with the limit. A claimer's numbers are a list and not a set. So the
//! work of two workers is joined by joining lists, and counts say how often a number is there.
use atomic_table::{Join, Play, Split, TableRule};
use std::collections::LinkedList;

/// What contracts see of a claimer (own). No value of this type is made.
pub struct View {
    /// The numbers that it claimed, each claimer's in the order of its claims.
    pub numbers: LinkedList<u64>,
    /// How many claims it made, including those that gave no number.
    pub drawn: u64,
    /// How many claims it may make in all. All claimers have 2^62 together.
    pub share: u64,
    /// The numbers to be claimed lie below this.
    pub limit: u64,
}

// The rule: the word counts all claims, and each number below the limit that was drawn belongs to some claimer, once.
pub(crate) struct Counts;

impl TableRule<u8, View, u64> for Counts {
    ghost use Rattle.campaign_claims.specs.Rule.{AreCounted};
    ghost use Rattle.campaign_claims.specs.Views.{first};

    ghost holds = { AreCounted };

    ghost first = { first };
}

// The step of a claim.
pub(crate) struct Draw;

impl Play<u8, View> for Draw {
    ghost use Rattle.campaign_claims.specs.Rule.{Draws};

    ghost then = { λ _ v found w. Draws v found w };
}

// A split gives half of the claims that are left; a join puts all together.
pub(crate) struct Halves;

impl Split<View> for Halves {
    ghost use Rattle.campaign_claims.specs.Views.{kept, given};

    ghost left = { kept };

    ghost right = { given };
}

impl Join<View> for Halves {
    ghost use Rattle.campaign_claims.specs.Views.{both, spent};

    ghost both = { both };

    ghost spent = { spent };
}
