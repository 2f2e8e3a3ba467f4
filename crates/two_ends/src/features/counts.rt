//! How the counts of frames relate to their numbers.
ghost use Rattle.std.specs.Prelude.{◌≡◌, ℕ, ◌^◌, ◌<◌, ◌≤◌, ◌↔◌, IsTrue};
ghost use Rattle.seq_circle.specs.Circle.{is_before};
ghost use Rattle.seq_circle.specs.Counts.{number_of, count_of, IsNumber};

/// Among the first 2^47 frames of a side, numbers and counts determine each other, and a number is before another
/// exactly if its count is less (RFC 4340, section 3.1).
pub fn numbers_count_frames()
    ensures count { (iss count : ℕ) → iss < 2 ^ 48 → 1 ≤ count → count ≤ 2 ^ 47
        → count_of iss (number_of iss count) ≡ count }
    ensures number { (iss number : ℕ) → IsNumber iss number → number_of iss (count_of iss number) ≡ number }
    ensures order { (iss number other : ℕ) → IsNumber iss number → IsNumber iss other
        → IsTrue (is_before number other) ↔ (count_of iss number < count_of iss other) }
{}
