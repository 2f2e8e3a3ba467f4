//! The marks of a side as a set of sequence numbers.
ghost use Rattle.std.specs.Prelude.{◌≡◌, ℕ, ◌^◌, ◌<◌, ◌≤◌, ◌↔◌, false};
ghost use Rattle.seq_circle.specs.Counts.{number_of};
ghost use Rattle.run_list.specs.declared.answers.Marked.TheVariants.{New};
ghost use Rattle.run_list.specs.MarkedSet.{MarkedSet, answer_to, marked, raised as raised_set, empty_from};
ghost use Rattle.two_ends.specs.MarkView.{MarkSide};
ghost use Rattle.two_ends.specs.MarkMoves.{begun_shut, with_first_frame, with_floor, with_processed};
ghost use Rattle.two_ends.specs.MarkSets.{IsMarked};

/// Among a peer's first 2^47 packets, whose numbers go up from its ISS, a set of numbers follows the moves of a side: a
/// mark is new exactly if a frame may join, and a mark and a raise change the set as the moves change the marks.
pub fn sets_follow_moves()
    ensures new { (iss n : ℕ) (set : MarkedSet) (side : MarkSide) → IsMarked iss set side → 1 ≤ n → n ≤ 2 ^ 47
        → (answer_to set (number_of iss n) ≡ New) ↔ ((side.floor ≤ n) × (side.marked n ≡ false)) }
    ensures begins { (iss n : ℕ) (side : MarkSide) → iss < 2 ^ 48 → 1 ≤ n → n ≤ 2 ^ 47
        → IsMarked iss (marked (empty_from (number_of iss n)) (number_of iss n)) (with_first_frame side n) }
    ensures begins_shut { (iss n : ℕ) (side : MarkSide) → iss < 2 ^ 48 → 1 ≤ n → n ≤ 2 ^ 47
        → IsMarked iss (empty_from (number_of iss n)) (begun_shut side n) }
    ensures joins { (iss n : ℕ) (set : MarkedSet) (side : MarkSide) → IsMarked iss set side → 1 ≤ n → n ≤ 2 ^ 47
        → answer_to set (number_of iss n) ≡ New → IsMarked iss (marked set (number_of iss n)) (with_processed side n) }
    ensures raises { (iss n : ℕ) (set : MarkedSet) (side : MarkSide) → IsMarked iss set side → 1 ≤ n → n ≤ 2 ^ 47
        → IsMarked iss (raised_set set (number_of iss n)) (with_floor side n) }
{}
