//! The rows whose Change is due.
//!
//! They are read in place, and none is copied. A caller that changes the rows first copies the places.
ghost use Rattle.std.specs.Prelude.{◌≡◌, ◌+◌, ◌<◌, ◌≤◌, ℕ, true, length, drop, slice_get, Some};
ghost use Rattle.feature_machine.specs.Negotiating.{due_keys, is_due};
ghost use Rattle.feature_machine.specs.declared.row.Row.{Row};

use crate::row::Row;
use feature_lists::{Feature, Place};
use std::marker::Model;

/// The rows in CHANGING or UNSTABLE, in the order of the features, Here before There.
#[derive(Drop)]
pub struct DueRows<'a> {
    rows: &'a [Row],
    next: usize,
}

impl<'a> Model for DueRows<'a> {
    ghost use Rattle.std.specs.Prelude.{List, drop, length, ◌≡◌, ◌≤◌};
    ghost use Rattle.feature_lists.specs.declared.features.Feature.{Feature};
    ghost use Rattle.feature_lists.specs.declared.features.Place.{Place};

    ghost Value = { List (Feature × Place) };

    ghost use Rattle.feature_machine.specs.Negotiating.{due_keys};

    ghost view = { λ d. due_keys (drop d.next d.rows.now) };

    ghost invariant = { λ d. (d.next ≤ 18) × (length d.rows.now ≡ 18) };
}

impl<'a> DueRows<'a> {
    pub(crate) fn of(rows: &'a [Row]) -> DueRows<'a>
        requires { length rows.now ≡ 18 }
        ensures { result ≡ due_keys rows.now }
    {
        DueRows { rows, next: 0 }
    }
}

// The first due row from an index on, or 18.
fn first_due(rows: &[Row], from: usize) -> usize
    requires whole { length rows.now ≡ 18 }
    requires starts { from ≤ 18 }
    ensures within { result ≤ 18 }
    ensures passed { due_keys (drop result rows.now) ≡ due_keys (drop from rows.now) }
    ensures due { (row : Row) → result < 18 → slice_get rows.now result ≡ Some row → is_due row ≡ true }
{
    for index in from..18 {
        if rows[index].is_due() {
            return index;
        }
    }
    18
}

impl<'a> Iterator for DueRows<'a> {
    type Item = (Feature, Place);

    ghost use Rattle.std.specs.Iterator.{YieldsFirst, item_count};

    ghost next_gives = { YieldsFirst (λ s. s) };

    ghost remaining = { item_count (λ s. s) };

    fn next(&mut self) -> Option<(Feature, Place)> {
        let index = first_due(self.rows, self.next);
        if index == 18 {
            self.next = index;
            return None;
        }
        self.next = index + 1;
        let row = &self.rows[index];
        Some((row.feature, row.place))
    }
}
