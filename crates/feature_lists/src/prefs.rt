//! Preference lists.
ghost use Rattle.std.specs.Prelude.{◌≡◌, ℕ, ◌<◌, ◌≤◌, length, true, IsTrue, nat_lt};
ghost use Rattle.std.specs.List.{list_all};
ghost use Rattle.feature_lists.specs.Lists.{is_distinct};
ghost use Rattle.feature_lists.specs.Preferences.{filled_to_eight, IsPreferences};

use std::marker::Model;

/// How many entries a preference list has at most (own).
pub const MOST_ENTRIES: usize = 8;

/// The values that an end accepts for a server-priority feature, best first (RFC 4340, section 6.3.1): 1 to 8 distinct
/// bytes. Contracts see the list of its entries. Only `wish` and `usual` make one.
#[derive(Clone, Copy, Debug, PartialEq, Eq)]
pub struct Prefs {
    // The entries, and zeros after them. So equal lists have equal fields, as Copy and `==` need.
    entries: [u8; 8],
    len: usize,
}

impl Model for Prefs {
    ghost use Rattle.std.specs.Prelude.{ℕ, List, length, take};

    ghost Value = { List ℕ };

    ghost use Rattle.feature_lists.specs.Preferences.{filled_to_eight, PrefsInvariant};
    ghost use Rattle.feature_lists.specs.Entries.{kept_back};

    ghost view = { λ p. take p.len p.entries };

    ghost invariant = { λ p. PrefsInvariant p.entries p.len };

    ghost inverse = { λ list. record { entries = filled_to_eight list; len = length list } };

    ghost inverse_ok = { kept_back };
}

impl Prefs {
    // The list of these values.
    pub(crate) fn of(values: &[u64]) -> Prefs
        requires some { 1 ≤ length values.now }
        requires few { length values.now ≤ 8 }
        requires bytes { list_all (λ value. nat_lt value 256) values.now ≡ true }
        requires distinct { is_distinct values.now ≡ true }
        ensures { result ≡ values.now }
    {
        Prefs {
            entries: entries_of(values),
            len: values.len(),
        }
    }

    /// The entries in order, best first: 1 to 8 distinct bytes.
    pub fn bytes(&self) -> &[u8]
        ensures value { result.now ≡ self.now }
        ensures preferences { IsPreferences self.now }
    {
        &self.entries[..self.len]
    }
}

// The values, and zeros after them.
fn entries_of(values: &[u64]) -> [u8; 8]
    requires few { length values.now ≤ 8 }
    requires bytes { list_all (λ value. nat_lt value 256) values.now ≡ true }
    ensures { result ≡ filled_to_eight values.now }
{
    let mut entries = [0; MOST_ENTRIES];
    for (place, value) in values.iter().enumerate() {
        entries[place] = *value as u8;
    }
    entries
}
