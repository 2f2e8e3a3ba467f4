//! Each line of the negotiation table, as feature_machine defines it, is one of the moves.
ghost use Rattle.std.specs.Prelude.{◌≡◌, ◌≢◌, ◌↔◌, ℕ, ◌^◌, ◌<◌, ◌≤◌, Bool, IsTrue, Option, None, Some, List, [], length};
ghost use Rattle.feature_lists.specs.Features.{described, initial_of};
ghost use Rattle.feature_lists.specs.Wishes.{is_wish};
ghost use Rattle.feature_lists.specs.declared.features.Feature.{Feature};
ghost use Rattle.feature_lists.specs.declared.features.Place.{Place};
ghost use Rattle.feature_lists.specs.declared.wishes.Wanted.{Wanted};
ghost use Rattle.feature_machine.specs.declared.judging.Proposal.TheVariants.{Invalid};
ghost use Rattle.feature_machine.specs.declared.row.Row.{Row};
ghost use Rattle.feature_machine.specs.declared.stands.Stand.TheVariants.{Stable};
ghost use Rattle.feature_machine.specs.Rows as machine;
ghost use Rattle.feature_machine.specs.Rows.{row_step, proposal, Prefers, Offers, Opens, Confirms};
ghost use Rattle.feature_machine.specs.Sound.{IsSoundRow};
ghost use Rattle.two_ends.specs.FeatureView.{FeatureNews, carried_at, with_frame, last_wish, is_listed, are_listed, last_list};
ghost use Rattle.two_ends.specs.FeatureView.FeatureNews.{Nothing, Change};
ghost use Rattle.two_ends.specs.FeatureMoves.{new_side};
ghost use Rattle.seq_circle.specs.Counts.{count_of, IsNumber};
ghost use Rattle.two_ends.specs.FeatureRows.{RowMoves, IsBegun, row_pair, entries_of, side_of, change_in, confirm_in, is_whole_confirm, is_valid_change, after_change, after_confirm, after_sending, sending_row, change_data};
ghost use Rattle.feature_machine.specs.Negotiating.{opposite};

/// A newest packet with a Change of the feature is taken: a valid Change is one move, whatever the row answers, and so
/// is a frame of which nothing for the feature is taken.
pub fn taking_a_change_is_a_move()
    ensures change { (iss greatest count : ℕ) (row : Row) (there frames : List FeatureNews) (body : List ℕ) (mandatory : Bool)
        → greatest < count → IsSoundRow row → carried_at there count ≡ change_in row.feature body → proposal row body ≢ Invalid
        → RowMoves row there (side_of iss row greatest frames) (after_change iss row count frames body mandatory) }
    ensures nothing { (iss greatest count : ℕ) (row : Row) (there frames : List FeatureNews)
        → greatest < count → count ≤ length there
        → RowMoves row there (side_of iss row greatest frames) (side_of iss row count frames) }
{}

/// A newest packet with a whole Confirm of the feature, which acknowledges one of this end's frames, is taken: one
/// move, whatever the row does with it.
pub fn taking_a_confirm_is_a_move()
    ensures { (iss last count : ℕ) (row : Row) (there frames : List FeatureNews) (body : List ℕ) (ack : ℕ)
        → last < count → IsSoundRow row → IsBegun iss row → IsNumber iss ack
        → carried_at there count ≡ confirm_in row.feature (count_of iss ack) body → IsTrue (is_whole_confirm row.feature body)
        → RowMoves row there (side_of iss row last frames) (after_confirm iss row count frames body ack) }
{}

/// A preference of the end is one move: in STABLE together with the frame that opens the row, otherwise alone.
pub fn preferring_is_a_move()
    ensures opens { (iss greatest : ℕ) (row : Row) (there frames : List FeatureNews) (wish : Wanted)
        → iss < 2 ^ 48 → length frames < 2 ^ 47 → IsTrue (is_wish row.feature row.place wish) → row.stand ≡ Stable
        → RowMoves row there (side_of iss row greatest frames)
        (after_sending iss (row_step row (Prefers wish)).row greatest frames) }
    ensures waits { (iss greatest : ℕ) (row : Row) (there frames : List FeatureNews) (wish : Wanted) → row.stand ≢ Stable
        → RowMoves row there (side_of iss row greatest frames) (side_of iss (row_step row (Prefers wish)).row greatest frames) }
{}

/// An offer that opens the row is one move together with its frame; one that does not changes nothing that is seen.
pub fn offering_is_a_move()
    ensures opens { (iss greatest : ℕ) (row : Row) (there frames : List FeatureNews) (confirmed : Bool)
        → iss < 2 ^ 48 → length frames < 2 ^ 47 → IsSoundRow row → (row_step row (Offers confirmed)).answer ≡ Opens
        → RowMoves row there (side_of iss row greatest frames)
        (after_sending iss (row_step row (Offers confirmed)).row greatest frames) }
    ensures drops { (iss greatest : ℕ) (row : Row) (frames : List FeatureNews) (confirmed : Bool)
        → (row_step row (Offers confirmed)).answer ≢ Opens
        → side_of iss (row_step row (Offers confirmed)).row greatest frames ≡ side_of iss row greatest frames }
{}

/// A frame with the row's Change, while the row is due, is one move; so is a frame that carries nothing for the
/// feature.
pub fn sending_is_a_move()
    ensures due { (iss greatest : ℕ) (row : Row) (there frames : List FeatureNews)
        → iss < 2 ^ 48 → length frames < 2 ^ 47 → IsSoundRow row → IsBegun iss row → row.stand ≢ Stable
        → RowMoves row there (side_of iss row greatest frames) (after_sending iss row greatest frames) }
    ensures nothing { (iss greatest : ℕ) (row : Row) (there frames : List FeatureNews)
        → RowMoves row there (side_of iss row greatest frames) (side_of iss row greatest (with_frame frames Nothing)) }
{}

/// A row that never asked is a fresh side. Each step that the laws above name leaves a row whose last opening is one of
/// its end's frames.
pub fn rows_stay_begun()
    ensures fresh { (iss : ℕ) (row : Row) → row.stand ≡ Stable → row.opened ≡ None → row.value ≡ initial_of row.feature
        → side_of iss row 0 [] ≡ new_side (row_pair row).initial (entries_of row.active) }
    ensures start { (iss : ℕ) (row : Row) → row.stand ≡ Stable → row.opened ≡ None → IsBegun iss row }
    ensures change { (iss : ℕ) (row : Row) (body : List ℕ) (mandatory : Bool)
        → IsBegun iss row → IsBegun iss (row_step row (machine.Change body mandatory)).row }
    ensures confirm { (iss : ℕ) (row : Row) (body : List ℕ) (ack : Option ℕ)
        → IsBegun iss row → IsBegun iss (row_step row (machine.Confirm body ack)).row }
    ensures preference { (iss : ℕ) (frames : List FeatureNews) → iss < 2 ^ 48 → length frames < 2 ^ 47
        → (row : Row) (wish : Wanted) → IsBegun iss row → IsBegun iss (sending_row iss (row_step row (Prefers wish)).row frames) }
    ensures waiting { (iss : ℕ) (row : Row) (wish : Wanted) → row.stand ≢ Stable
        → IsBegun iss row → IsBegun iss (row_step row (Prefers wish)).row }
    ensures offer { (iss : ℕ) (frames : List FeatureNews) → iss < 2 ^ 48 → length frames < 2 ^ 47
        → (row : Row) (confirmed : Bool) → IsBegun iss row
        → IsBegun iss (sending_row iss (row_step row (Offers confirmed)).row frames) }
    ensures dropped { (iss : ℕ) (row : Row) (confirmed : Bool) → (row_step row (Offers confirmed)).answer ≢ Opens
        → IsBegun iss row → IsBegun iss (row_step row (Offers confirmed)).row }
    ensures sending { (iss : ℕ) (frames : List FeatureNews) → iss < 2 ^ 48 → length frames < 2 ^ 47
        → (row : Row) → IsBegun iss row → IsBegun iss (sending_row iss row frames) }
{}

/// An end understands what the other end says about a feature: a Change's data carry the wish that they were made from
/// and are valid for the peer's row, and the Confirm of a valid Change is whole.
pub fn what_rows_say_is_whole()
    ensures carried { (feature : Feature) (place : Place) (wish : Wanted) → IsTrue (is_wish feature place wish)
        → change_in feature (change_data feature wish) ≡ Change (entries_of (Some wish)) }
    ensures valid { (row : Row) (wish : Wanted) → IsTrue (is_wish row.feature (opposite row.place) wish)
        → proposal row (change_data row.feature wish) ≢ Invalid }
    ensures whole { (row : Row) (body reply : List ℕ) (mandatory : Bool) → IsSoundRow row → proposal row body ≢ Invalid
        → (row_step row (machine.Change body mandatory)).answer ≡ Confirms reply → IsTrue (is_whole_confirm row.feature reply) }
{}

/// Whether a Change is valid depends on its data, the feature, and where its sender sees it. The data made from a wish
/// are valid, and data are valid for the row of the peer exactly if the table takes them as valid.
pub fn valid_changes_are_understood()
    ensures sent { (feature : Feature) (place : Place) (wish : Wanted) → IsTrue (is_wish feature place wish)
        → IsTrue (is_valid_change feature place (change_data feature wish)) }
    ensures understood { (row : Row) (body : List ℕ)
        → IsTrue (is_valid_change row.feature (opposite row.place) body) ↔ (proposal row body ≢ Invalid) }
{}

/// If every Confirm among frames has a list, the last wish sent is the list in the last frame with a Change, or with a
/// Confirm that has a list. A whole Confirm of a server-priority feature has one.
pub fn whole_confirms_have_lists()
    ensures last { (frames : List FeatureNews) → IsTrue (are_listed frames) → last_list frames ≡ last_wish frames }
    ensures more { (frames : List FeatureNews) (frame : FeatureNews)
        → IsTrue (are_listed (with_frame frames frame)) ↔ (IsTrue (are_listed frames) × IsTrue (is_listed frame)) }
    ensures confirm { (feature : Feature) (count : ℕ) (body : List ℕ) → IsTrue (described feature).is_server_priority
        → IsTrue (is_whole_confirm feature body) → IsTrue (is_listed (confirm_in feature count body)) }
{}
