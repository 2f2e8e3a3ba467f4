//! What reconciliation and wishes mean, apart from how they are found.
ghost use Rattle.std.specs.Prelude.{◌≡◌, ℕ, ◌-◌, List, length, slice_get, ◌↔◌, Some, None, Ok, true};
ghost use Rattle.feature_lists.specs.Features.{feature_number, feature_numbered};
ghost use Rattle.feature_lists.specs.declared.features.TheConstants.Feature.{ALL};
ghost use Rattle.feature_lists.specs.Lists.{reconciled, IsFirstShared, SharesNothing};
ghost use Rattle.feature_lists.specs.Wishes.{is_allowed, IsAllowed, is_wish, wish_of};
ghost use Rattle.feature_lists.specs.declared.features.Feature.{Feature};
ghost use Rattle.feature_lists.specs.declared.features.Place.{Place};
ghost use Rattle.feature_lists.specs.declared.wishes.Wanted.{Wanted};

/// Two lists settle on a value exactly if it is in both, and none before it in the server's list is in the client's.
/// They settle on nothing exactly if no value is in both (RFC 4340, section 6.3.1).
pub fn reconciliation_is_the_first_shared()
    ensures found { (server client : List ℕ) (value : ℕ)
        → (reconciled server client ≡ Some value) ↔ IsFirstShared server client value }
    ensures none { (server client : List ℕ) → (reconciled server client ≡ None) ↔ SharesNothing server client }
{}

/// A list of values is allowed exactly if it has one to eight entries, each permitted and none twice. For a
/// non-negotiable feature it has exactly one (own).
pub fn allowed_lists()
    ensures { (feature : Feature) (place : Place) (values : List ℕ)
        → (is_allowed feature place values ≡ true) ↔ IsAllowed feature place values }
{}

/// The wishes of a feature at a place are exactly those that `wish` gives there for some values.
pub fn wishes_are_given()
    ensures { (feature : Feature) (place : Place) (wanted : Wanted) → (is_wish feature place wanted ≡ true)
        ↔ ((values : List ℕ) × (wish_of feature place values ≡ Ok wanted)) }
{}

/// A number names at most one feature, and each feature is found by its number. `Feature::ALL` has the nine in the
/// order of their numbers.
pub fn numbers_name_features()
    ensures found { (feature : Feature) → feature_numbered (feature_number feature) ≡ Some feature }
    ensures number { (number : ℕ) (feature : Feature) → feature_numbered number ≡ Some feature
        → feature_number feature ≡ number }
    ensures size { length ALL ≡ 9 }
    ensures order { (feature : Feature) → slice_get ALL (feature_number feature - 1) ≡ Some feature }
{}
