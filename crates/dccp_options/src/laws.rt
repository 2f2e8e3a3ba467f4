//! How the list of options relates to what was written, and the runs of a report to its states.
ghost use Rattle.std.specs.Prelude.{◌≡◌, ℕ, ◌+◌, ◌^◌, ◌<◌, ◌≤◌, List, [], ◌∷◌, ◌++◌, length, replicate, map, Bool, false, Some, None, Result, Ok, IsTrue, IsFalse};
ghost use Rattle.std.specs.List.{All, Contains};
ghost use Rattle.dccp_options.specs.declared.report.Run.{Run};
ghost use Rattle.dccp_options.specs.declared.option.OptFault.{OptFault};
ghost use Rattle.dccp_options.specs.Grammar.{Entry, options_of};
ghost use Rattle.dccp_options.specs.Listing.{IsListed, IsCut};
ghost use Rattle.dccp_options.specs.Vectors.{is_ack_vector, states, reported, state_at, report_of, joined_report, runs_of, is_in_run, state_in};
ghost use Rattle.dccp_options.specs.Written.{Item, IsWritable, spelled, written, entries_at, item_at, item_vectors, listed_from};

/// The list of an area follows case by case from the first byte of what is left: Padding, Mandatory, another option of
/// one byte, an option with a length, or one whose length is wrong. An area has no other list (RFC 4340, section 5.8).
pub fn an_area_has_one_list()
    ensures is_listed { (area : List ℕ) (on_data : Bool) → IsListed on_data false 0 area (options_of area on_data) }
    ensures only { (area : List ℕ) (on_data : Bool) (items : List (Result Entry OptFault))
        → IsListed on_data false 0 area items → items ≡ options_of area on_data }
{}

/// What a writer wrote, with any zeros after it, is listed option by option, each at its place and with its mark, and
/// nothing else is, on each packet but Data (RFC 4340, section 5.8). One more `put` writes one more option.
pub fn written_options_are_listed()
    ensures listed { (items : List Item) (zeros : ℕ) → All IsWritable items
        → options_of (written items ++ replicate zeros 0) false ≡ map Ok (entries_at 0 items) }
    ensures one_more { (items : List Item) (item : Item)
        → written (items ++ item ∷ []) ≡ written items ++ spelled item.mandatory item.kind item.body }
{}

/// Zeros between options list nothing: after what a writer wrote and zeros, further bytes are listed as they are by
/// themselves at their place (RFC 4340, section 5.8.1). So options may be appended to an area that was filled up.
pub fn zeros_part_options()
    ensures { (items : List Item) (zeros : ℕ) (more : List ℕ) → All IsWritable items
        → options_of ((written items ++ replicate zeros 0) ++ more) false
        ≡ map Ok (entries_at 0 items) ++ listed_from (length (written items) + zeros) more }
{}

/// The entries of options that were written are those options, in their order: each with its mark, its type and its
/// data.
pub fn entries_keep_what_was_written()
    ensures items { (place : ℕ) (items : List Item) → map item_at (entries_at place items) ≡ items }
    ensures said { (place : ℕ) (items : List Item)
        → map {B = ℕ × List ℕ} (λ (entry : Entry). (entry.kind, entry.body)) (entries_at place items)
        ≡ map {B = ℕ × List ℕ} (λ (item : Item). (item.kind, item.body)) items }
{}

/// An option whose length is below 2 or beyond the area ends the list just as the area's end does: what comes before it
/// is listed, and nothing reports it (RFC 4340, section 5.8).
pub fn a_cut_option_ends_the_list()
    ensures { (items : List Item) (kind : ℕ) (rest : List ℕ) → All IsWritable items → 32 ≤ kind → IsCut rest
        → options_of (written items ++ kind ∷ rest) false ≡ options_of (written items) false }
{}

/// A packet whose options were written, with any zeros after them, reports the Ack Vectors among them, one after the
/// other. One vector and options of other types give just that vector, and without a vector there is no report (RFC
/// 4340, section 11.4).
pub fn a_report_is_what_was_written()
    ensures every { (ack zeros : ℕ) (items : List Item) → All IsWritable items
        → report_of ack (options_of (written items ++ replicate zeros 0) false) ≡ joined_report ack (item_vectors items) }
    ensures one { (ack zeros : ℕ) (vector : Item) (others : List Item) → All IsWritable (vector ∷ others)
        → IsTrue (is_ack_vector vector.kind) → All (λ item. IsFalse (is_ack_vector item.kind)) others
        → report_of ack (options_of (written (vector ∷ others) ++ replicate zeros 0) false)
        ≡ Some (record { ack = ack; bytes = vector.body }) }
    ensures none { (ack zeros : ℕ) (items : List Item) → All IsWritable items
        → All (λ item. IsFalse (is_ack_vector item.kind)) items
        → report_of ack (options_of (written items ++ replicate zeros 0) false) ≡ None }
{}

/// If one Ack Vector was written first, and options of other types after it, a packet with these options reports for
/// each number the state that the vector's bytes give it.
pub fn a_written_vector_is_reported()
    ensures { (ack n zeros : ℕ) (vector : Item) (others : List Item) → All IsWritable (vector ∷ others)
        → IsTrue (is_ack_vector vector.kind) → All (λ item. IsFalse (is_ack_vector item.kind)) others
        → reported ack (options_of (written (vector ∷ others) ++ replicate zeros 0) false) n
        ≡ state_at ack vector.body n }
{}

/// The runs of a report give each number the state that its bytes give it: the first run that has the number, and so
/// each one, since runs of at most 1,008 bytes do not go round the circle (RFC 4340, section 11.4).
pub fn runs_give_the_states()
    ensures first { (ack n : ℕ) (bytes : List ℕ) → ack < 2 ^ 48 → n < 2 ^ 48
        → state_at ack bytes n ≡ state_in (runs_of ack bytes) n }
    ensures each { (ack n : ℕ) (bytes : List ℕ) (run : Run) → ack < 2 ^ 48 → n < 2 ^ 48 → length bytes ≤ 1008
        → Contains (runs_of ack bytes) run → IsTrue (is_in_run run n) → state_at ack bytes n ≡ Some run.state }
{}

/// Vectors that continue each other give the states of the first, and after them those of the second (RFC 4340,
/// section 11.4).
pub fn vectors_continue_each_other()
    ensures { (front following : List ℕ) → states (front ++ following) ≡ states front ++ states following }
{}
