//! What the definitions say of a vector, number by number, and of the records of vectors sent.
ghost use Rattle.std.specs.Prelude.{◌≡◌, ℕ, ◌+◌, ◌-◌, ◌*◌, ◌^◌, ◌<◌, ◌≤◌, ◌↔◌, ◌⊎◌, ◌∷◌, ◌++◌, [], List, length, take, map, Bool, true, false, ◌==◌, nat_lt, IsTrue, IsFalse, Option, Some, None, is_some, if◌then◌else◌};
ghost use Rattle.std.specs.List.{list_any, concat, All, Contains};
ghost use Rattle.seq_circle.specs.Circle.{residue, distance, IsFrom, IsWithin};
ghost use Rattle.dccp_options.specs.Vectors.{state_at, is_received, joined_report};
ghost use Rattle.run_list.specs.MarkedSet.{IsSound, raised};
ghost use Rattle.ack_vectors.specs.Vector.{vector_under, is_whole_under, numbers_told_under, most_options, option_data, state_told, numbers_between, vector_within, is_whole_within, numbers_told_within};
ghost use Rattle.ack_vectors.specs.declared.room.Vectors.{Vectors};
ghost use Rattle.ack_vectors.specs.declared.room.Vectors.TheVariants.{One, Two};
ghost use Rattle.ack_vectors.specs.Kept.{ReceivedState, fresh, marked_by, recorded, acked, is_whole_at, newest_whole};
ghost use Rattle.ack_vectors.specs.declared.received.VectorRecord.{VectorRecord};

/// What a vector reports is read back, number by number from the acknowledgement down: state 0 exactly for the numbers
/// of the set and 3 for the others, and nothing past its bytes. They reach no number below the floor, and reach the
/// floor exactly if the vector is whole (RFC 4340, section 11.4), whether one option carries it or two. The same holds
/// of any states but the reserved one, and of any room (`any_states`, `any_reach`, `any_whole`).
pub fn a_vector_reads_back()
    ensures states { (vectors : Vectors) (has : ℕ → Bool) (floor ack n : ℕ) → ack < 2 ^ 48 → n < 2 ^ 48
        → state_at ack (vector_under has floor ack vectors) n
        ≡ (if nat_lt (distance n ack) (numbers_told_under has floor ack vectors) then Some (state_told (has n)) else None) }
    ensures reach { (vectors : Vectors) (has : ℕ → Bool) (floor ack : ℕ)
        → numbers_told_under has floor ack vectors ≤ numbers_between floor ack }
    ensures whole { (vectors : Vectors) (has : ℕ → Bool) (floor ack : ℕ)
        → IsTrue (is_whole_under has floor ack vectors) ↔ (numbers_told_under has floor ack vectors ≡ numbers_between floor ack) }
    ensures any_states { (room : ℕ) (state : ℕ → ℕ) (floor ack n : ℕ) → ((m : ℕ) → (state m == 2) ≡ false)
        → ack < 2 ^ 48 → n < 2 ^ 48
        → state_at ack (vector_within room state floor ack) n ≡ (if nat_lt (distance n ack) (numbers_told_within room state floor ack) then Some (state n) else None) }
    ensures any_reach { (room : ℕ) (state : ℕ → ℕ) (floor ack : ℕ) → ((m : ℕ) → (state m == 2) ≡ false)
        → numbers_told_within room state floor ack ≤ numbers_between floor ack }
    ensures any_whole { (room : ℕ) (state : ℕ → ℕ) (floor ack : ℕ) → ((m : ℕ) → (state m == 2) ≡ false)
        → IsTrue (is_whole_within room state floor ack) ↔ (numbers_told_within room state floor ack ≡ numbers_between floor ack) }
{}

/// A vector depends only on the numbers from its floor up to its acknowledgement: two sets that agree there have the
/// same vector, whole or cut alike. The same holds of any two kinds of states, and of any room (`any_bytes`,
/// `any_whole`).
pub fn a_vector_looks_between_floor_and_acknowledgement()
    ensures bytes { (vectors : Vectors) (one other : ℕ → Bool) (floor ack : ℕ) → floor < 2 ^ 48 → ack < 2 ^ 48
        → ((n : ℕ) → n < 2 ^ 48 → IsFrom floor n → distance floor n ≤ distance floor ack → one n ≡ other n)
        → vector_under one floor ack vectors ≡ vector_under other floor ack vectors }
    ensures whole { (vectors : Vectors) (one other : ℕ → Bool) (floor ack : ℕ) → floor < 2 ^ 48 → ack < 2 ^ 48
        → ((n : ℕ) → n < 2 ^ 48 → IsFrom floor n → distance floor n ≤ distance floor ack → one n ≡ other n)
        → is_whole_under one floor ack vectors ≡ is_whole_under other floor ack vectors }
    ensures any_bytes { (room : ℕ) (one other : ℕ → ℕ) (floor ack : ℕ) → floor < 2 ^ 48 → ack < 2 ^ 48
        → ((n : ℕ) → n < 2 ^ 48 → IsFrom floor n → distance floor n ≤ distance floor ack → one n ≡ other n)
        → vector_within room one floor ack ≡ vector_within room other floor ack }
    ensures any_whole { (room : ℕ) (one other : ℕ → ℕ) (floor ack : ℕ) → floor < 2 ^ 48 → ack < 2 ^ 48
        → ((n : ℕ) → n < 2 ^ 48 → IsFrom floor n → distance floor n ≤ distance floor ack → one n ≡ other n)
        → is_whole_within room one floor ack ≡ is_whole_within room other floor ack }
{}

/// A number to which a vector gives a state lies from the floor up to the acknowledgement, which is not below the
/// floor, and the state is what the set says (RFC 4340, section 11.4).
pub fn what_is_told_was_there()
    ensures { (vectors : Vectors) (has : ℕ → Bool) (floor ack n state : ℕ) → floor < 2 ^ 48 → ack < 2 ^ 48 → n < 2 ^ 48
        → state_at ack (vector_under has floor ack vectors) n ≡ Some state → IsWithin n floor ack × IsFrom floor ack × (state ≡ state_told (has n)) }
{}

/// A whole vector gives each number from the floor up to the acknowledgement its state (own).
pub fn a_whole_vector_tells_all()
    ensures { (vectors : Vectors) (has : ℕ → Bool) (floor ack n : ℕ) → floor < 2 ^ 48 → ack < 2 ^ 48 → n < 2 ^ 48
        → IsTrue (is_whole_under has floor ack vectors) → IsFrom floor ack → IsWithin n floor ack
        → state_at ack (vector_under has floor ack vectors) n ≡ Some (state_told (has n)) }
{}

/// A vector reports no number as received unless the set has it (RFC 4340, section 11.4).
pub fn only_members_are_heard()
    ensures { (vectors : Vectors) (has : ℕ → Bool) (floor ack n : ℕ) → ack < 2 ^ 48 → n < 2 ^ 48
        → IsTrue (is_received (state_at ack (vector_under has floor ack vectors) n)) → IsTrue (has n) }
{}

/// A vector is bytes, and its options have room for them: 253 bytes each (RFC 4340, sections 5.8 and 11.4).
pub fn a_vector_fits_its_options()
    ensures fits { (vectors : Vectors) (has : ℕ → Bool) (floor ack : ℕ)
        → length (vector_under has floor ack vectors) ≤ 253 * most_options vectors }
    ensures bytes { (vectors : Vectors) (has : ℕ → Bool) (floor ack : ℕ)
        → All (λ byte. byte < 256) (vector_under has floor ack vectors) }
    ensures any_fits { (room : ℕ) (state : ℕ → ℕ) (floor ack : ℕ) → length (vector_within room state floor ack) ≤ room }
    ensures any_bytes { (room : ℕ) (state : ℕ → ℕ) (floor ack : ℕ) → ((n : ℕ) → state n < 4)
        → All (λ byte. byte < 256) (vector_within room state floor ack) }
{}

/// The options of a vector hold its bytes in their order, so that a packet with them reports just the vector (RFC 4340,
/// section 11.4). None holds more than 253 bytes, and they are no more than the setting allows. Up to 253 bytes are one
/// option, even if there are none. Of two options the first is full, and the second has at least a byte (own).
pub fn the_options_of_a_vector_hold_it()
    ensures joined { (bytes : List ℕ) → concat (option_data bytes) ≡ bytes }
    ensures read { (ack : ℕ) (bytes : List ℕ)
        → joined_report ack (option_data bytes) ≡ Some (record { ack = ack; bytes = bytes }) }
    ensures each { (vectors : Vectors) (has : ℕ → Bool) (floor ack : ℕ)
        → All (λ part. length part ≤ 253) (option_data (vector_under has floor ack vectors)) }
    ensures few { (vectors : Vectors) (has : ℕ → Bool) (floor ack : ℕ)
        → length (option_data (vector_under has floor ack vectors)) ≤ most_options vectors }
    ensures one { (bytes : List ℕ) → length bytes ≤ 253 → option_data bytes ≡ bytes ∷ [] }
    ensures full { (bytes : List ℕ) → 253 < length bytes
        → map length (option_data bytes) ≡ 253 ∷ (length bytes - 253) ∷ [] }
{}

/// Two options begin with the bytes that one would have, and report more exactly if that one is cut (own).
pub fn two_options_tell_more()
    ensures front { (has : ℕ → Bool) (floor ack : ℕ)
        → vector_under has floor ack One ≡ take 253 (vector_under has floor ack Two) }
    ensures whole { (has : ℕ → Bool) (floor ack : ℕ) → IsTrue (is_whole_under has floor ack One)
        → IsTrue (is_whole_under has floor ack Two) × (vector_under has floor ack Two ≡ vector_under has floor ack One) }
    ensures more { (has : ℕ → Bool) (floor ack : ℕ) → IsFalse (is_whole_under has floor ack One)
        → numbers_told_under has floor ack One < numbers_told_under has floor ack Two }
{}

/// Of the records of whole vectors under a number the newest counts, and there is one exactly if any record is of such
/// a vector. The one that counts was kept, under that number, of a whole vector (`kept`).
pub fn the_newest_whole_record_counts()
    ensures newest { (n : ℕ) (records : List VectorRecord) (last : VectorRecord)
        → newest_whole n (records ++ last ∷ []) ≡ (if is_whole_at n last then Some last else newest_whole n records) }
    ensures any { (n : ℕ) (records : List VectorRecord)
        → is_some (newest_whole n records) ≡ list_any (is_whole_at n) records }
    ensures kept { (n : ℕ) (records : List VectorRecord) (one : VectorRecord) → newest_whole n records ≡ Some one
        → Contains records one × (one.number ≡ n) × (one.whole ≡ true) }
{}

/// No record comes back: one that is kept after a packet was recorded is that packet's, or was kept before. Marks and
/// acknowledgements change no record (own).
pub fn records_only_forget()
    ensures recorded { (kept : ReceivedState) (number ack : ℕ) (whole : Bool) (one : VectorRecord)
        → Contains (recorded kept number ack whole).records one
        → Contains kept.records one ⊎ (◌≡◌ {A = VectorRecord} one (record { number = number; ack = ack; whole = whole })) }
    ensures marked { (kept : ReceivedState) (n : ℕ) → (marked_by kept n).records ≡ kept.records }
    ensures acked { (kept : ReceivedState) (n : ℕ) → (acked kept n).records ≡ kept.records }
{}

/// An acknowledged number raises the floor to the number after what the record that counts acknowledged, and without
/// such a record changes nothing (own).
pub fn acknowledging_raises_the_floor()
    ensures some { (kept : ReceivedState) (n : ℕ) (one : VectorRecord) → newest_whole n kept.records ≡ Some one
        → (acked kept n).set ≡ raised kept.set (residue (one.ack + 1)) }
    ensures none { (kept : ReceivedState) (n : ℕ) → newest_whole n kept.records ≡ None → acked kept n ≡ kept }
{}

/// A sound state stays sound.
pub fn received_stays_sound()
    ensures fresh { (floor : ℕ) → floor < 2 ^ 48 → IsSound (fresh floor).set }
    ensures marked { (kept : ReceivedState) (n : ℕ) → IsSound kept.set → n < 2 ^ 48 → IsSound (marked_by kept n).set }
    ensures recorded { (kept : ReceivedState) (number ack : ℕ) (whole : Bool) → IsSound kept.set
        → IsSound (recorded kept number ack whole).set }
    ensures acked { (kept : ReceivedState) (n : ℕ) → IsSound kept.set → IsSound (acked kept n).set }
{}
