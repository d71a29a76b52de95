// Entries at places, counted from 0.

ghost use Rattle.std.specs.Prelude.{◌≡◌, ◌<◌, ◌≤◌, ◌+◌, ◌^◌, ◌⊎◌, ℕ, List, OnOk, IfOk, IfSome, IsSome};
ghost use Rattle.std.specs.FinMap as map;
ghost use Rattle.plan_tables_definitions.specs.Placed.{HoldsPlaces};

use std::alloc::{AllocError, Global};
use std::collections::BTreeMap;
use std::marker::Model;

// The end, once this is one of the places too.
fn end_with(end: usize, place: usize) -> usize
    requires { place < 2 ^ 32 }
    ensures { ((place < end) × (result ≡ end)) ⊎ ((end ≤ place) × (result ≡ place + 1)) }
{
    if place < end { end } else { place + 1 }
}

/// Entries at places. Contracts see the map from places to entries.
#[derive(Drop)]
pub(crate) struct Places<X> {
    by_place: BTreeMap<usize, X>,
    end: usize,
}

impl<X> Model for Places<X> {
    ghost use Rattle.std.specs.Ordering.{nat_cmp};
    ghost use Rattle.std.specs.FinMap as map;
    ghost use Rattle.std.specs.Coded.{coded_ℕ};
    ghost use Rattle.plan_tables_definitions.specs.Placed.{EndsAt};

    ghost Value = { map.FinMap nat_cmp X };

    ghost coded = { map.code coded_ℕ X.code };

    ghost view = { λ a. map.from_entries a.by_place.entries };

    ghost invariant = { λ a. EndsAt (map.from_entries {R = nat_cmp} a.by_place.entries) a.end };
}

impl<X> Places<X> {
    /// No place has an entry.
    pub(crate) fn new(alloc: Global) -> Self
        ensures { result ≡ map.empty }
    {
        Places {
            by_place: BTreeMap::new(alloc),
            end: 0,
        }
    }

    /// The entry at this place.
    pub(crate) fn get(&self, place: usize) -> Option<X>
    where
        X: Copy,
        ensures { result ≡ map.get self.now place }
    {
        self.by_place.get(&place).copied()
    }

    /// Puts it at this place.
    pub(crate) fn put(&mut self, place: usize, x: X) -> Result<(), AllocError>
    where
        X: Drop,
        requires { place < 2 ^ 32 }
        ensures { OnOk result (self.new ≡ map.insert self.old place x) }
    {
        let _replaced = self.by_place.insert(place, x)?;
        self.end = end_with(self.end, place);
        Ok(())
    }

    /// All entries in the order of their places, or none if a place is left out.
    pub(crate) fn listed(&self, alloc: Global) -> Result<Option<Vec<X>>, AllocError>
    where
        X: Copy,
        ensures made { IfOk result (λ found. IfSome found (λ xs. HoldsPlaces xs.items self.now)) }
        ensures found { IfOk result (λ found. (xs : List X) → HoldsPlaces xs self.now
            → IsSome found) }
    {
        let mut xs = Vec::new(alloc);
        for place in 0..self.end {
            match self.get(place) {
                Some(x) => xs.push(x)?,
                None => return Ok(None),
            }
        }
        Ok(Some(xs))
    }
}
