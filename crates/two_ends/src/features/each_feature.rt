//! The laws for each feature at each end.
ghost use Rattle.std.specs.Prelude.{◌≡◌, ℕ, List};
ghost use Rattle.feature_lists.specs.Features.{initial_of};
ghost use Rattle.feature_lists.specs.declared.features.Feature.{Feature};
ghost use Rattle.feature_lists.specs.declared.features.Place.{Place};
ghost use Rattle.feature_machine.specs.declared.row.Row.{Row};
ghost use Rattle.feature_machine.specs.declared.stands.Role2.{Role2};
ghost use Rattle.feature_machine.specs.declared.stands.Role2.TheVariants.{Server, Client};
ghost use Rattle.feature_machine.specs.Sound.{IsSameRow};
ghost use Rattle.two_ends.specs.FeatureView.{FeatureNews, FeatureSide};
ghost use Rattle.two_ends.specs.FeatureMoves.{new_side, HaveReached, IsReachable};
ghost use Rattle.two_ends.specs.FeatureRows.{RowMoves, pair_of, row_pair, location_of};
ghost use Rattle.feature_machine.specs.Negotiating.{opposite};
ghost use Rattle.two_ends.specs.EachFeature.{AgreesOn, IsGivenFor};

/// The two ends agree on each feature that is located at either. If both rows are STABLE, they hold the same value: the
/// reconciliation of the last lists sent, if these share an entry (RFC 4340, section 6.3.1), or what the location sent
/// last (section 6.3.2). Each value was given to its row.
pub fn every_feature_agrees()
    ensures agree { (feature : Feature) (location : Role2) (server client : FeatureSide)
        → IsReachable (pair_of feature location) server client → AgreesOn feature location server client }
    ensures given { (feature : Feature) (location : Role2) (server client : FeatureSide)
        → IsReachable (pair_of feature location) server client → ∥ IsGivenFor feature location server client ∥₁ }
{}

/// What the moves of a row lead to is reachable, at the server and at the client. A row's pair depends only on its
/// role, feature and place, and the two ends' rows of a feature are of the same pair.
pub fn row_steps_stay_reachable()
    ensures server_step { (row : Row) (server client after : FeatureSide) → row.role ≡ Server
        → RowMoves row client.frames server after
        → IsReachable (row_pair row) server client → IsReachable (row_pair row) after client }
    ensures client_step { (row : Row) (server client after : FeatureSide) → row.role ≡ Client
        → RowMoves row server.frames client after
        → IsReachable (row_pair row) server client → IsReachable (row_pair row) server after }
    ensures same_pair { (old new : Row) → IsSameRow old new → row_pair new ≡ row_pair old }
    ensures same_moves { (old new : Row) (there : List FeatureNews) (before after : FeatureSide) → IsSameRow old new
        → RowMoves new there before after → RowMoves old there before after }
    ensures one_pair { (feature : Feature) (place : Place)
        → pair_of feature (location_of Server place) ≡ pair_of feature (location_of Client (opposite place)) }
{}

/// The same for a proof that keeps the moves that lead to two sides, and not just the fact that there are some: it then
/// gets the origin of each value, with its frames.
pub fn values_were_given()
    ensures agree { (feature : Feature) (location : Role2) (server client : FeatureSide)
        → HaveReached (pair_of feature location) server client → AgreesOn feature location server client }
    ensures given { (feature : Feature) (location : Role2) (server client : FeatureSide)
        → HaveReached (pair_of feature location) server client → IsGivenFor feature location server client }
{}

/// The moves of a row lead from sides that were reached to sides that are reached, at the server and at the client. Any
/// two configurations are reached.
pub fn row_steps_reach()
    ensures start { (feature : Feature) (location : Role2) (servers clients : List ℕ)
        → HaveReached (pair_of feature location) (new_side (initial_of feature) servers) (new_side (initial_of feature) clients) }
    ensures server_step { (row : Row) (server client after : FeatureSide) → row.role ≡ Server
        → RowMoves row client.frames server after
        → HaveReached (row_pair row) server client → HaveReached (row_pair row) after client }
    ensures client_step { (row : Row) (server client after : FeatureSide) → row.role ≡ Client
        → RowMoves row server.frames client after
        → HaveReached (row_pair row) server client → HaveReached (row_pair row) server after }
{}
