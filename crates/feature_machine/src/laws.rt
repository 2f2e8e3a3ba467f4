//! What the negotiation table means for a row, apart from how its lines are found.
ghost use Rattle.std.specs.Prelude.{◌≡◌, ◌≢◌, ◌↔◌, ◌⊎◌, ℕ, ◌<◌, ◌^◌, List, Bool, true, false, Option, Some, None, length};
ghost use Rattle.seq_circle.specs.Circle.{IsBefore};
ghost use Rattle.feature_lists.specs.Features.{described};
ghost use Rattle.feature_lists.specs.declared.features.Feature.{Feature};
ghost use Rattle.feature_lists.specs.declared.features.Place.{Place};
ghost use Rattle.feature_machine.specs.Lists.{index_of};
ghost use Rattle.feature_machine.specs.Negotiating.{row_at, put, stepped, RestStays, IsNegotiation};
ghost use Rattle.feature_machine.specs.Rows.{RowEvent, Change, Confirm, Sends, Settled, Ignored, Fatal, Opens, row_step, says, proposal, confirmation, reconciled_by};
ghost use Rattle.feature_machine.specs.Sound.{IsSoundRow, IsEventFor, IsItsConfirm, IsSendsEvent, IsSameRow, IsRefusal};
ghost use Rattle.feature_machine.specs.declared.judging.Confirmation.TheVariants.{Empty, Wrong};
ghost use Rattle.feature_machine.specs.declared.judging.Proposal.TheVariants.{Invalid, Unshared};
ghost use Rattle.feature_machine.specs.declared.row.Row.{Row};
ghost use Rattle.feature_machine.specs.declared.stands.Role2.TheVariants.{Client, Server};
ghost use Rattle.feature_machine.specs.declared.stands.Stand.TheVariants.{Stable, Changing, Unstable};

/// A row's value is always the initial one or a permitted one, whatever the peer sends, and so it fits the bytes of its
/// feature.
pub fn values_are_lawful()
    ensures steps { (row : Row) (event : RowEvent) → IsSoundRow row → IsEventFor row event
        → IsSoundRow (row_step row event).row }
    ensures fits { (row : Row) → IsSoundRow row → row.value < 256 ^ (described row.feature).width }
{}

/// So the eighteen rows stay sound, each in its place, whatever happens to one of them.
pub fn rows_stay_sound()
    ensures { (rows : List Row) (feature : Feature) (place : Place) (event : RowEvent) → IsNegotiation rows
        → IsEventFor (row_at rows feature place) event → IsNegotiation (stepped rows feature place event).rows }
{}

/// A row in CHANGING ignores a Confirm without an acknowledgement number, one that acknowledges a packet from before
/// its last opening, and any that arrives before the Change of that opening was sent. A number is before that of the
/// opening if its distance to that is less than half the circle; at exactly half the circle it is not.
pub fn late_confirms_are_ignored()
    ensures without { (row : Row) (body : List ℕ) → row.stand ≡ Changing
        → row_step row (Confirm body None) ≡ says row Ignored }
    ensures before { (row : Row) (body : List ℕ) (opened ack : ℕ) → row.stand ≡ Changing → row.opened ≡ Some opened
        → IsBefore ack opened → row_step row (Confirm body (Some ack)) ≡ says row Ignored }
    ensures unsent { (row : Row) (body : List ℕ) (ack : Option ℕ) → row.stand ≡ Changing → row.opened ≡ None
        → row_step row (Confirm body ack) ≡ says row Ignored }
{}

/// An event that a row ignores, or that a Reset answers, changes nothing in the row. No event changes which row it is.
pub fn refusals_change_nothing()
    ensures refused { (row : Row) (event : RowEvent) → IsRefusal (row_step row event).answer
        → (row_step row event).row ≡ row }
    ensures same { (row : Row) (event : RowEvent) → IsSameRow row (row_step row event).row }
{}

/// A Change leads to Reset 6 exactly if it carries Mandatory and is not valid, or shares nothing with a row that is not
/// UNSTABLE. A Confirm leads to Reset 5 exactly if it answers a row's opening and is wrong, or is empty and the feature
/// required.
pub fn causes_of_resets()
    ensures change { (row : Row) (body : List ℕ) (mandatory : Bool)
        → ((row_step row (Change body mandatory)).answer ≡ Fatal 6)
        ↔ ((mandatory ≡ true) × ((proposal row body ≡ Invalid) ⊎ ((row.stand ≢ Unstable) × (proposal row body ≡ Unshared)))) }
    ensures confirm { (row : Row) (body : List ℕ) (ack : Option ℕ)
        → ((row_step row (Confirm body ack)).answer ≡ Fatal 5)
        ↔ ((row.stand ≡ Changing) × ((confirmation row body ack ≡ Wrong)
        ⊎ ((confirmation row body ack ≡ Empty) × ((described row.feature).is_required ≡ true)))) }
{}

/// An opening has no number until its Change is sent; the first packet that carries the Change gives it one. The number
/// stays until the next opening, by a preference or an offer in STABLE, or by the new list of an UNSTABLE row. A Change
/// that is sent again, a Change of the peer, a Confirm, a wish that waits, and anything that is refused do not change
/// it.
pub fn openings_keep_their_number()
    ensures opens { (row : Row) (event : RowEvent) → (row_step row event).answer ≡ Opens
        → (row_step row event).row.opened ≡ None }
    ensures settles { (row : Row) (event : RowEvent) → (row_step row event).answer ≡ Settled
        → (row_step row event).row.opened ≡ row.opened }
    ensures keeps { (row : Row) (event : RowEvent) → (row_step row event).answer ≢ Opens → ¬ IsSendsEvent event
        → (row_step row event).row.opened ≡ row.opened }
    ensures first { (row : Row) (number : ℕ) → row.stand ≡ Changing → row.opened ≡ None
        → (row_step row (Sends number)).row.opened ≡ Some number }
    ensures again { (row : Row) (number opened : ℕ) → row.stand ≢ Unstable → row.opened ≡ Some opened
        → (row_step row (Sends number)).row.opened ≡ Some opened }
    ensures anew { (row : Row) (number : ℕ) → row.stand ≡ Unstable
        → (row_step row (Sends number)).row.opened ≡ Some number }
{}

/// A Change of the peer never changes the stand, whatever the row answers: only the row's value may change.
pub fn changes_move_no_stand()
    ensures { (row : Row) (body : List ℕ) (mandatory : Bool)
        → (row_step row (Change body mandatory)).row ≡ record row { value = (row_step row (Change body mandatory)).row.value } }
{}

/// A row that asks becomes STABLE only from CHANGING, by a Confirm that acknowledges its last opening or a later
/// packet; only to such a Confirm it answers Settled.
pub fn only_its_confirm_settles()
    ensures stand { (row : Row) (event : RowEvent) → row.stand ≢ Stable → (row_step row event).row.stand ≡ Stable
        → (row.stand ≡ Changing) × IsItsConfirm row event }
    ensures answer { (row : Row) (event : RowEvent) → (row_step row event).answer ≡ Settled
        → (row.stand ≡ Changing) × IsItsConfirm row event × ((row_step row event).row.stand ≡ Stable) }
{}

/// Both ends compute one function of the server's list and the client's.
pub fn both_ends_reconcile_alike()
    ensures { (server client : List ℕ) → reconciled_by Server server client ≡ reconciled_by Client client server }
{}

/// Each feature has one row at each place: what is put there is read there, and nowhere else.
pub fn rows_stand_apart()
    ensures apart { (one other : Feature) (here there : Place) → index_of one here ≡ index_of other there
        → (one ≡ other) × (here ≡ there) }
    ensures there { (rows : List Row) (feature : Feature) (place : Place) (row : Row) → length rows ≡ 18
        → row_at (put rows feature place row) feature place ≡ row }
    ensures others { (rows : List Row) (feature : Feature) (place : Place) (row : Row)
        → RestStays rows (put rows feature place row) feature place }
{}
