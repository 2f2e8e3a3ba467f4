//! What an end may wish for a feature.
ghost use Rattle.std.specs.Prelude.{◌≡◌, ◌≢◌, ◌↔◌, Err, true, false, IfOk, IfSome, IsSome};
ghost use Rattle.std.specs.List.{list_all};
ghost use Rattle.feature_lists.specs.Features.{IsNonNegotiable, is_permitted, usual_values};
ghost use Rattle.feature_lists.specs.Lists.{is_distinct};
ghost use Rattle.feature_lists.specs.Wishes.{IsOurs, is_allowed, is_counted, is_ours, is_wish, usual_of, wish_of};
ghost use Rattle.feature_lists.specs.declared.features.Place.TheVariants.{There};

use crate::prefs::MOST_ENTRIES;
use crate::{Feature, Place, Prefs};

/// What an end wants for a feature at one place: a wish.
#[derive(Clone, Copy, Debug, PartialEq, Eq)]
pub enum Wanted {
    /// For a server-priority feature: the values that the end accepts, best first.
    List(Prefs),
    /// For a non-negotiable feature, at the end where it is located: its value.
    Number(u64),
}

/// Why a wish for a feature is refused. The refused call changes nothing.
#[derive(Clone, Copy, Debug, PartialEq, Eq)]
pub enum PreferFault {
    /// The end is not in a phase in which it can ask for a change. `wish` never answers this.
    NotOpen = 1,
    /// There is no value, or more than eight; two are equal; one is not permitted; or a non-negotiable feature has not
    /// exactly one.
    BadList = 2,
    /// The feature is non-negotiable, and located at the peer.
    NotOurs = 3,
}

fn is_distinct(values: &[u64]) -> bool
    ensures { result ≡ is_distinct values.now }
{
    let mut tail = values;
    while let [first, others @ ..] = tail {
        if others.contains(first) {
            return false;
        }
        tail = others;
    }
    true
}

fn is_counted(feature: Feature, count: usize) -> bool
    ensures { result ≡ is_counted feature count }
{
    1 <= count && count <= MOST_ENTRIES && (feature.is_server_priority() || count == 1)
}

fn are_permitted(feature: Feature, place: Place, values: &[u64]) -> bool
    ensures { result ≡ list_all (is_permitted feature place) values.now }
{
    values
        .iter()
        .all(|value| feature.is_permitted(place, *value))
}

fn is_allowed(feature: Feature, place: Place, values: &[u64]) -> bool
    ensures { result ≡ is_allowed feature place values.now }
{
    is_counted(feature, values.len())
        && are_permitted(feature, place, values)
        && is_distinct(values)
}

fn is_ours(feature: Feature, place: Place) -> bool
    ensures { result ≡ is_ours feature place }
{
    place == Place::Here || feature.is_server_priority()
}

/// The wish for these values of the feature at this place, best first (own).
///
/// Refused first with BadList, exactly if the list is empty, has more than eight entries, repeats one, has a value that
/// is not permitted, or has not exactly one value for a non-negotiable feature. Then refused with NotOurs, exactly for
/// a non-negotiable feature at There, whose values are first checked by the range of Here.
pub fn wish(feature: Feature, place: Place, values: &[u64]) -> Result<Wanted, PreferFault>
    ensures value { result ≡ wish_of feature place values.now }
    ensures bad_list { (result ≡ Err PreferFault.BadList) ↔ (is_allowed feature place values.now ≡ false) }
    ensures not_ours { (result ≡ Err PreferFault.NotOurs) ↔ ((is_allowed feature place values.now ≡ true)
        × (IsNonNegotiable feature) × (place ≡ There)) }
    ensures never_not_open { result ≢ Err PreferFault.NotOpen }
    ensures wish { IfOk result (λ wanted. is_wish feature place wanted ≡ true) }
{
    if !is_allowed(feature, place, values) {
        Err(PreferFault::BadList)
    } else if !is_ours(feature, place) {
        Err(PreferFault::NotOurs)
    } else if feature.is_server_priority() {
        Ok(Wanted::List(Prefs::of(values)))
    } else {
        Ok(Wanted::Number(values[0]))
    }
}

/// The default wish of an end (own), or None exactly for a non-negotiable feature at There.
pub fn usual(feature: Feature, place: Place) -> Option<Wanted>
    ensures value { result ≡ usual_of feature place }
    ensures made { IsSome result ↔ IsOurs feature place }
    ensures wish { IfSome result (λ wanted. is_wish feature place wanted ≡ true) }
{
    wish(feature, place, feature.usual_values(place)).ok()
}
