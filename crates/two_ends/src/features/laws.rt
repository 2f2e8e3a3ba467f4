//! The laws on a feature's two sides.
//!
//! There are two ways to say that sides were reached. `IsReachable` is truncated, as a ghost field of a type has to be:
//! from it follows agreement in full, but only that origins of values exist. `Reached` has the moves themselves: from
//! it follow the origins with their frames.
ghost use Rattle.std.specs.Prelude.{◌≡◌, ℕ, ◌<◌, Bool, List, Some, None, IsTrue};
ghost use Rattle.two_ends.specs.FeatureView.{FeatureNews, FeatureSide, carried_at, wish_carried};
ghost use Rattle.two_ends.specs.FeatureMoves.{Rule, Pair, Move, Moves, swapped, new_side, IsReachable, at_server, at_client};
ghost use Rattle.two_ends.specs.FeatureExchanges.{server_asked, client_asking, server_crossing, client_crossing};
ghost use Rattle.two_ends.specs.FeatureFacts.{SpeaksForItsRow, IsConfirmed};
ghost use Rattle.two_ends.specs.FeatureAgreement.{SidesAgree, SidesAreGiven, AgreeByLocation, GivenByLocation};

/// Two sides are reachable at the start, whatever was configured, and after each step of either that is a list of
/// moves.
pub fn negotiating_stays_reachable()
    ensures joined { (rule : Rule) (opens : List ℕ → Bool) (there : List FeatureNews) (before middle after : FeatureSide)
        → Moves rule opens there before middle → Moves rule opens there middle after → Moves rule opens there before after }
    ensures start { (pair : Pair) (servers clients : List ℕ)
        → IsReachable pair (new_side pair.initial servers) (new_side pair.initial clients) }
    ensures server_step { (pair : Pair) (server client after : FeatureSide)
        → Moves pair.rule pair.server_opens client.frames server after
        → IsReachable pair server client → IsReachable pair after client }
    ensures client_step { (pair : Pair) (server client after : FeatureSide)
        → Moves (swapped pair.rule) pair.client_opens server.frames client after
        → IsReachable pair server client → IsReachable pair server after }
{}

/// Two sides that moves can reach agree, for any rule that both apply to the server's wish and the client's (RFC 4340,
/// section 6.3.1, has one such rule). Whatever their stands, each value was given to its row.
pub fn reachable_sides_agree()
    ensures agree { (pair : Pair) (server client : FeatureSide)
        → IsReachable pair server client → SidesAgree pair.rule server client }
    ensures given { (pair : Pair) (server client : FeatureSide)
        → IsReachable pair server client → ∥ SidesAreGiven pair.initial pair.rule server client ∥₁ }
{}

/// If nothing is shared, the value is the one held before (own): if the rule gives no value for a side's active wish
/// together with any wish of the peer that the side has not taken yet, no move changes the side's value.
pub fn where_nothing_is_shared_the_value_stays()
    ensures { (rule : Rule) (opens : List ℕ → Bool) (there : List FeatureNews) (side after : FeatureSide)
        → Move rule opens there side after
        → ((count : ℕ) (wish : List ℕ) → side.greatest < count → wish_carried (carried_at there count) ≡ Some wish → rule side.active wish ≡ None)
        → after.value ≡ side.value }
{}

/// Why they agree: what a side's frames say is true of what it holds, towards its peer, at the server and at the
/// client.
pub fn reachable_sides_are_truthful()
    ensures servers { (pair : Pair) (server client : FeatureSide) → IsReachable pair server client
        → SpeaksForItsRow pair.rule server client }
    ensures clients { (pair : Pair) (server client : FeatureSide) → IsReachable pair server client
        → SpeaksForItsRow (swapped pair.rule) client server }
{}

/// The agreement of a feature that is not negotiable (RFC 4340, section 6.3.2): its value is the one that the end where
/// it is located sent last.
pub fn location_decides()
    ensures agree_at_server { (initial : ℕ) (server client : FeatureSide)
        → IsReachable (at_server initial) server client → AgreeByLocation server client }
    ensures agree_at_client { (initial : ℕ) (server client : FeatureSide)
        → IsReachable (at_client initial) server client → AgreeByLocation client server }
    ensures given_at_server { (initial : ℕ) (server client : FeatureSide)
        → IsReachable (at_server initial) server client → ∥ GivenByLocation initial server client ∥₁ }
    ensures given_at_client { (initial : ℕ) (server client : FeatureSide)
        → IsReachable (at_client initial) server client → ∥ GivenByLocation initial client server ∥₁ }
{}

/// And why: the remote row confirms what the location sent, and its present value once it answers the last opening.
pub fn remote_rows_confirm_what_was_told()
    ensures at_server { (initial : ℕ) (server client : FeatureSide) → IsReachable (at_server initial) server client
        → IsConfirmed server client }
    ensures at_client { (initial : ℕ) (server client : FeatureSide) → IsReachable (at_client initial) server client
        → IsConfirmed client server }
{}

/// Rows do settle: by a Change and its Confirm, and by two Changes that cross, each confirmed. Both rows then are
/// STABLE, at the value that the rule gives, whatever the two wishes are. This shows that the laws above are not empty.
pub fn exchanges_settle()
    ensures asked { (pair : Pair) (servers clients : List ℕ) → IsTrue (pair.client_opens clients)
        → IsReachable pair (server_asked pair servers clients) (client_asking pair servers clients) }
    ensures crossing { (pair : Pair) (servers clients : List ℕ)
        → IsTrue (pair.server_opens servers) → IsTrue (pair.client_opens clients)
        → IsReachable pair (server_crossing pair servers clients) (client_crossing pair servers clients) }
{}
