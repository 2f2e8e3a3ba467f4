//! What the definition of the sum says, in RFC 1071's terms.
ghost use Rattle.std.specs.Prelude.{◌≡◌, ℕ, ◌%◌, ◌≤◌, ◌<◌, ◌↔◌, IsTrue};
ghost use Rattle.dccp_sum.specs.Words.{ones_complement};
ghost use Rattle.dccp_sum.specs.Checksum.{same_checksum};

/// The ones' complement sum has 16 bits, is congruent to the whole sum modulo 65,535, and is zero only if the whole sum
/// is (RFC 1071, section 2).
pub fn ones_complement_sum_is_congruent()
    ensures fits { (sum : ℕ) → ones_complement sum ≤ 65535 }
    ensures congruent { (sum : ℕ) → ones_complement sum % 65535 ≡ sum % 65535 }
    ensures zero { (sum : ℕ) → (ones_complement sum ≡ 0) ↔ (sum ≡ 0) }
{}

/// Two checksums count as equal exactly if they are congruent modulo 65,535. Zero has two spellings, 0000 and ffff, and
/// every other number has one.
pub fn equal_checksums_are_congruent()
    ensures { (a b : ℕ) → a < 65536 → b < 65536 → IsTrue (same_checksum a b) ↔ (a % 65535 ≡ b % 65535) }
{}
