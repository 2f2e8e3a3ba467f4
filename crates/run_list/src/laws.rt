//! What the definitions mean for a set, number by number.
ghost use Rattle.std.specs.Prelude.{◌≡◌, ℕ, ◌-◌, ◌^◌, max, ◌<◌, ◌≤◌, ◌↔◌, ◌⊎◌, IsTrue};
ghost use Rattle.seq_circle.specs.Circle.{distance, IsBefore, later_of};
ghost use Rattle.seq_circle.specs.Counts.{number_of};
ghost use Rattle.run_list.specs.MarkedSet.{MarkedSet, IsFrom, IsSound, has, empty_from, raised, floor_under, marked, answer_to};
ghost use Rattle.run_list.specs.Stretches.{stretches};
ghost use Rattle.run_list.specs.Runs.{AreLaid, numbers_of};
ghost use Rattle.run_list.specs.declared.answers.Marked.TheVariants.{New};

/// A new number joins the set. Of the others, just those leave it that the floor passes (own).
pub fn marking_adds_one_number()
    ensures numbers { (set : MarkedSet) (n m : ℕ) → IsSound set → n < 2 ^ 48 → answer_to set n ≡ New
        → IsTrue (has (marked set n).numbers m) ↔ ((m ≡ n) ⊎ (IsTrue (has set.numbers m) × IsFrom (marked set n).floor m)) }
{}

/// A raised floor removes just the numbers below it (own).
pub fn raising_keeps_the_rest()
    ensures numbers { (set : MarkedSet) (to m : ℕ) → IsSound set
        → IsTrue (has (raised set to).numbers m) ↔ (IsTrue (has set.numbers m) × IsFrom (raised set to).floor m) }
{}

/// How a new number moves the floor (own): a floor at most 2,047 below the number stays, and any other rises to 2,047
/// below it. So the number is in the set, and the floor passes only numbers that are further below.
pub fn marking_moves_the_floor()
    ensures floor { (set : MarkedSet) (n : ℕ) → answer_to set n ≡ New
        → (marked set n).floor ≡ later_of set.floor (floor_under n) }
    ensures stays { (set : MarkedSet) (n : ℕ) → IsSound set → n < 2 ^ 48 → answer_to set n ≡ New
        → distance set.floor n ≤ 2047 → (marked set n).floor ≡ set.floor }
    ensures rises { (set : MarkedSet) (n : ℕ) → IsSound set → n < 2 ^ 48 → answer_to set n ≡ New
        → 2047 < distance set.floor n → distance (marked set n).floor n ≡ 2047 }
    ensures joined { (set : MarkedSet) (n : ℕ) → IsSound set → n < 2 ^ 48 → answer_to set n ≡ New
        → IsTrue (has (marked set n).numbers n) }
    ensures above { (set : MarkedSet) (n : ℕ) → IsSound set → n < 2 ^ 48 → answer_to set n ≡ New
        → distance (marked set n).floor n ≤ 2047 }
    ensures passed { (set : MarkedSet) (n m : ℕ) → IsSound set → n < 2 ^ 48 → m < 2 ^ 48 → answer_to set n ≡ New
        → IsFrom set.floor m → ¬ IsFrom (marked set n).floor m → IsBefore m (floor_under n) }
    ensures under { (n : ℕ) → n < 2 ^ 48 → distance (floor_under n) n ≡ 2047 }
{}

/// A raise moves the floor to the later of itself and the given number, and passes only what lies before the new floor
/// (own).
pub fn raising_moves_the_floor()
    ensures floor { (set : MarkedSet) (to : ℕ) → (raised set to).floor ≡ later_of set.floor to }
    ensures passed { (set : MarkedSet) (to m : ℕ) → IsSound set → to < 2 ^ 48 → m < 2 ^ 48
        → IsFrom set.floor m → ¬ IsFrom (raised set to).floor m → IsBefore m to }
{}

/// No mark and no raise lowers a floor: the new one is the old, or ahead of it by less than half the circle (own).
pub fn floors_never_fall()
    ensures marked { (set : MarkedSet) (n : ℕ) → IsFrom set.floor (marked set n).floor }
    ensures raised { (set : MarkedSet) (to : ℕ) → IsFrom set.floor (raised set to).floor }
{}

/// Among a sender's first 2^47 packets, whose numbers go up from ISS, the floor moves as counts do: a new packet raises
/// it to 2,047 counts below itself if it is lower, and a raise to the greater count (own).
pub fn floors_go_by_counts()
    ensures marked { (set : MarkedSet) (iss floor n : ℕ) → iss < 2 ^ 48 → 1 ≤ floor → floor ≤ 2 ^ 47 → 1 ≤ n
        → n ≤ 2 ^ 47
        → set.floor ≡ number_of iss floor → answer_to set (number_of iss n) ≡ New
        → (marked set (number_of iss n)).floor ≡ number_of iss (max floor (n - 2047)) }
    ensures raised { (set : MarkedSet) (iss floor to : ℕ) → iss < 2 ^ 48 → 1 ≤ floor → floor ≤ 2 ^ 47 → 1 ≤ to
        → to ≤ 2 ^ 47
        → set.floor ≡ number_of iss floor → (raised set (number_of iss to)).floor ≡ number_of iss (max floor to) }
    ensures later { (iss floor n : ℕ) → iss < 2 ^ 48 → 1 ≤ floor → floor ≤ n → n ≤ 2 ^ 47
        → later_of (number_of iss floor) (floor_under (number_of iss n)) ≡ number_of iss (max floor (n - 2047)) }
{}

/// Among a sender's first 2^47 packets, by their counts: a new packet joins, and of the others those stay that are not
/// below the floor. A raise keeps just those (own).
pub fn members_go_by_counts()
    ensures marked { (set : MarkedSet) (iss floor n m : ℕ) → IsSound set → iss < 2 ^ 48 → 1 ≤ floor → floor ≤ 2 ^ 47
        → 1 ≤ n → n ≤ 2 ^ 47 → 1 ≤ m → m ≤ 2 ^ 47 → set.floor ≡ number_of iss floor → answer_to set (number_of iss n) ≡ New
        → IsTrue (has (marked set (number_of iss n)).numbers (number_of iss m))
        ↔ ((m ≡ n) ⊎ (IsTrue (has set.numbers (number_of iss m)) × (max floor (n - 2047) ≤ m))) }
    ensures raised { (set : MarkedSet) (iss floor to m : ℕ) → IsSound set → iss < 2 ^ 48 → 1 ≤ floor → floor ≤ 2 ^ 47
        → 1 ≤ to → to ≤ 2 ^ 47 → 1 ≤ m → m ≤ 2 ^ 47 → set.floor ≡ number_of iss floor
        → IsTrue (has (raised set (number_of iss to)).numbers (number_of iss m))
        ↔ (IsTrue (has set.numbers (number_of iss m)) × (max floor to ≤ m)) }
{}

/// A sound set stays sound: its numbers are distinct and span at most 2,048 successive ones from the floor up (own).
pub fn sets_stay_sound()
    ensures empty { (floor : ℕ) → floor < 2 ^ 48 → IsSound (empty_from floor) }
    ensures marked { (set : MarkedSet) (n : ℕ) → IsSound set → n < 2 ^ 48 → IsSound (marked set n) }
    ensures raised { (set : MarkedSet) (to : ℕ) → IsSound set → to < 2 ^ 48 → IsSound (raised set to) }
{}

/// Two sound sets with the same floor and the same numbers are equal.
pub fn a_set_is_known_by_its_numbers()
    ensures { (one other : MarkedSet) → IsSound one → IsSound other → one.floor ≡ other.floor
        → ((n : ℕ) → has one.numbers n ≡ has other.numbers n) → one ≡ other }
{}

/// The stretches of a set have its numbers, each has one at least, and between any two lies a number that is missing
/// (RFC 4340, section 11.4: maximal runs).
pub fn stretches_are_maximal_runs()
    ensures numbers { (set : MarkedSet) → IsSound set → numbers_of (stretches set.numbers) ≡ set.numbers }
    ensures apart { (set : MarkedSet) → IsSound set → AreLaid set.floor 2048 (stretches set.numbers) }
{}
