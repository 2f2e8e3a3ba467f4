//! How the numbers above a floor came, each at the place of its remainder.
ghost use Rattle.std.specs.Prelude.{◌≡◌, ℕ, ◌%◌, ◌<◌, IfOk, None};
ghost use Rattle.dccp_ecn.specs.Ring.{at_place, IsEmptied, IsPut};

use crate::Arrived;
use seq_circle::{NoMemory, Seq48};
use std::alloc::Global;
use std::marker::Model;

/// Numbers less than this above one floor have different places. It divides the size of the circle.
pub(crate) const PLACES: u64 = 2_048;

/// A place for each remainder of a number by 2,048: how the number at this place came, if there is one.
#[derive(Drop)]
pub(crate) struct Ring {
    places: Vec<Option<Arrived>>,
}

impl Model for Ring {
    ghost use Rattle.std.specs.Prelude.{◌≡◌, List, Option, length};
    ghost use Rattle.dccp_ecn.specs.declared.arrived.Arrived.{Arrived};

    ghost Value = { List (Option Arrived) };

    ghost view = { λ r. r.places.items };

    ghost invariant = { λ r. length r.places.items ≡ 2048 };
}

// The place of a number.
fn place_of(n: Seq48) -> usize
    ensures place { result ≡ n % 2048 }
    ensures fits { result < 2048 }
{
    (n.get() % PLACES) as usize
}

impl Ring {
    /// Nothing is at any place.
    pub(crate) fn new(alloc: Global) -> Result<Ring, NoMemory>
        ensures { IfOk result (λ ring. (n : ℕ) → at_place ring n ≡ None) }
    {
        let places = vec![in alloc; None; PLACES as usize]?;
        Ok(Ring { places })
    }

    /// What is at the place of a number.
    pub(crate) fn at(&self, n: Seq48) -> Option<Arrived>
        ensures { result ≡ at_place self.now n }
    {
        self.places[place_of(n)]
    }

    /// Notes at the place of a number how it came.
    pub(crate) fn put(&mut self, n: Seq48, how: Arrived)
        ensures { IsPut n how self.old self.new }
    {
        self.places[place_of(n)] = Some(how);
    }

    /// Empties the places of `rise` numbers from `floor` up.
    pub(crate) fn empty(&mut self, floor: Seq48, rise: u64)
        ensures { IsEmptied floor rise self.old self.new }
    {
        for step in 0..rise.min(PLACES) {
            self.places[place_of(floor.add(step))] = None;
        }
    }
}
