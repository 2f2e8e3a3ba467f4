//! What follows from numbers that are claimed once each.
ghost use Rattle.std.specs.Prelude.{◌≡◌, ℕ, ◌<◌, min, List, length, sum_by};
ghost use Rattle.campaign_claims.specs.Numbers.{AreOnceBelow, sum_below};

/// If numbers are those below m, each once, a sum over them is the sum over the numbers below m, whichever thread
/// claimed them and in any order; and there are m of them (own).
pub fn numbers_once_add_up()
    ensures sums { (f : ℕ → ℕ) (m : ℕ) (numbers : List ℕ) → AreOnceBelow m numbers → sum_by f numbers ≡ sum_below f m }
    ensures count { (m : ℕ) (numbers : List ℕ) → AreOnceBelow m numbers → length numbers ≡ m }
{}

/// If some claim gave no number, the numbers below the lesser of limit and claims are all those below the limit (own).
pub fn a_claim_in_vain_ends_the_numbers()
    ensures { (limit drawn : ℕ) (numbers : List ℕ) → AreOnceBelow (min limit drawn) numbers → length numbers < drawn
        → AreOnceBelow limit numbers }
{}
