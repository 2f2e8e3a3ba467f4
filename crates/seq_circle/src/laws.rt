//! How the circle relates to plain counts.
ghost use Rattle.std.specs.Prelude.{◌≡◌, ℕ, ◌+◌, ◌-◌, ◌%◌, ◌^◌, ◌<◌, ◌≤◌, ◌↔◌, ◌⊎◌, IsTrue, false};
ghost use Rattle.seq_circle.specs.Circle.{residue, distance, down, IsBefore, is_before, IsFrom, open_end, IsWithin, extended, is_far};
ghost use Rattle.seq_circle.specs.Counts.{number_of, count_of, IsNumber};

/// Within half a circle of whole numbers from some base on, `before` is the order of plain counts, and `distance` their
/// difference (RFC 4340, section 3.1).
pub fn before_is_the_order_of_counts()
    ensures order { (base a b : ℕ) → base ≤ a → base ≤ b → a < base + 2 ^ 47 → b < base + 2 ^ 47
        → IsBefore (residue a) (residue b) ↔ (a < b) }
    ensures difference { (a b : ℕ) → a ≤ b → b < a + 2 ^ 48 → a + distance (residue a) (residue b) ≡ b }
{}

/// `is_from` is "at or before": the low end is the number, or is before it (`order`). It is `within` up to the open end
/// (`interval`), and within half a circle of whole numbers from some base on it is the order of plain counts (`counts`;
/// RFC 4340, section 3.1).
pub fn from_is_the_order_of_counts()
    ensures order { (low n : ℕ) → low < 2 ^ 48 → n < 2 ^ 48 → IsFrom low n ↔ ((low ≡ n) ⊎ IsBefore low n) }
    ensures interval { (low n : ℕ) → low < 2 ^ 48 → IsWithin n low (open_end low) ↔ IsFrom low n }
    ensures counts { (base a b : ℕ) → base ≤ a → base ≤ b → a < base + 2 ^ 47 → b < base + 2 ^ 47
        → IsFrom (residue a) (residue b) ↔ (a ≤ b) }
{}

/// Steps down undo steps up (`back`), and between whole numbers they are a subtraction (`difference`; RFC 4340, section
/// 3.1).
pub fn down_is_the_way_back()
    ensures back { (n steps : ℕ) → n < 2 ^ 48 → residue (down n steps + steps) ≡ n }
    ensures difference { (n steps : ℕ) → steps ≤ n → down (residue n) steps ≡ residue (n - steps) }
{}

/// Among the first 2^47 packets of an end, numbers and counts determine each other (`count`, `number`), and a number is
/// before another exactly if its count is less (`before`), and from it exactly if its count is not less (`from`; RFC
/// 4340, section 3.1).
pub fn numbers_count_packets()
    ensures count { (iss count : ℕ) → iss < 2 ^ 48 → 1 ≤ count → count ≤ 2 ^ 47
        → count_of iss (number_of iss count) ≡ count }
    ensures number { (iss number : ℕ) → IsNumber iss number → number_of iss (count_of iss number) ≡ number }
    ensures before { (iss number other : ℕ) → IsNumber iss number → IsNumber iss other
        → IsTrue (is_before number other) ↔ (count_of iss number < count_of iss other) }
    ensures from { (iss low number : ℕ) → IsNumber iss low → IsNumber iss number
        → IsFrom low number ↔ (count_of iss low ≤ count_of iss number) }
{}

/// A number fewer than 2^23 from the reference, up or down the circle, is found from its short form (`distance`, and by
/// the test `near`; RFC 4340, section 7.6). In `counts` both are counted from some base, so that the wrap of the circle
/// does not matter.
pub fn extension_finds_the_number()
    ensures counts { (n reference : ℕ) → n < reference + 2 ^ 23 → reference < n + 2 ^ 23
        → extended (residue n % 2 ^ 24) (residue reference) ≡ residue n }
    ensures distance { (n reference : ℕ) → n < 2 ^ 48 → reference < 2 ^ 48
        → (distance n reference < 2 ^ 23) ⊎ (distance reference n < 2 ^ 23) → extended (n % 2 ^ 24) reference ≡ n }
    ensures near { (n reference : ℕ) → n < 2 ^ 48 → reference < 2 ^ 48 → is_far n reference ≡ false
        → extended (n % 2 ^ 24) reference ≡ n }
{}
