//! What the eighteen rows of an end do together.
ghost use Rattle.std.specs.Prelude.{◌≡◌, ◌≢◌, ◌↔◌, List, true, ◌++◌, length, filter, Contains, AllPairs};
ghost use Rattle.feature_lists.specs.declared.features.Feature.{Feature};
ghost use Rattle.feature_lists.specs.declared.features.Place.{Place};
ghost use Rattle.feature_machine.specs.Lists.{listed_at, list_put, index_of, IsLists};
ghost use Rattle.feature_machine.specs.Negotiating.{first_row, first_rows, row_at, stepped, is_due, due_keys, every_place, IsNegotiation, AreRowsOf};
ghost use Rattle.feature_machine.specs.Rows.{RowEvent};
ghost use Rattle.feature_machine.specs.Sound.{IsEventFor};
ghost use Rattle.feature_machine.specs.Turns.{Turn, turned, row_turned, events_of, AreLawful};
ghost use Rattle.feature_machine.specs.declared.offers.RowSetup.{RowSetup};
ghost use Rattle.feature_machine.specs.declared.row.Row.{Row};
ghost use Rattle.feature_machine.specs.declared.stands.Role2.{Role2};

/// An end begins with fresh rows: each is STABLE at its feature's initial value, with the wish and the offer that are
/// listed for it.
pub fn rows_begin_fresh()
    ensures { (role : Role2) (lists : List RowSetup) → IsLists lists → (feature : Feature) (place : Place)
        → row_at (first_rows role lists) feature place ≡ first_row role (listed_at lists feature place) }
{}

/// The rows of an end are sound and of its role: at first, and whatever happens to one of them.
pub fn rows_keep_their_role()
    ensures first { (role : Role2) (lists : List RowSetup) → IsLists lists → AreRowsOf role (first_rows role lists) }
    ensures stepped { (role : Role2) (rows : List Row) (feature : Feature) (place : Place) (event : RowEvent)
        → AreRowsOf role rows
        → IsEventFor (row_at rows feature place) event → AreRowsOf role (stepped rows feature place event).rows }
{}

/// Turns act on each row separately: after them a row is as its own events, in their order, leave it. The rows stay
/// sound and keep their role if each preference among the turns is a wish for its row.
pub fn turns_are_of_their_rows()
    ensures one_row { (feature : Feature) (place : Place) (turns : List Turn) (rows : List Row) → length rows ≡ 18
        → row_at (turned rows turns) feature place ≡ row_turned (row_at rows feature place) (events_of feature place turns) }
    ensures sound { (rows : List Row) (turns : List Turn) → IsNegotiation rows → AreLawful turns
        → IsNegotiation (turned rows turns) }
    ensures roles { (role : Role2) (rows : List Row) (turns : List Turn) → AreRowsOf role rows → AreLawful turns
        → AreRowsOf role (turned rows turns) }
    ensures joined { (rows : List Row) (earlier later : List Turn)
        → turned rows (earlier ++ later) ≡ turned (turned rows earlier) later }
{}

/// The due rows are those that ask: each row in CHANGING or UNSTABLE once, by features, Here before There.
pub fn due_rows_are_those_that_ask()
    ensures order { (rows : List Row) → IsNegotiation rows
        → due_keys rows ≡ filter (λ at. is_due (row_at rows at.0 at.1)) every_place }
    ensures asks { (rows : List Row) (feature : Feature) (place : Place) → IsNegotiation rows
        → Contains (due_keys rows) (feature, place) ↔ (is_due (row_at rows feature place) ≡ true) }
    ensures distinct { (rows : List Row) → IsNegotiation rows → AllPairs (λ one other. one ≢ other) (due_keys rows) }
    ensures every { (feature : Feature) (place : Place) → Contains every_place (feature, place) }
{}

/// What is listed for a row is read there, and for no other row.
pub fn lists_stand_apart()
    ensures there { (lists : List RowSetup) (feature : Feature) (place : Place) (listed : RowSetup) → length lists ≡ 18
        → listed_at (list_put lists feature place listed) feature place ≡ listed }
    ensures others { (lists : List RowSetup) (feature other : Feature) (place there : Place) (listed : RowSetup)
        → index_of other there ≢ index_of feature place
        → listed_at (list_put lists feature place listed) other there ≡ listed_at lists other there }
{}
