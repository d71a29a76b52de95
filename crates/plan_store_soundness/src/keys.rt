ghost use Rattle.std.specs.Prelude.{◌≡◌, ◌≢◌, ◌↔◌, IsTrue, IfOk, map, filter};
ghost use Rattle.std.specs.List.{AllPairs};
ghost use Rattle.external_dependencies.specs.declared.rows.PlacedRow.{PlacedRow as PlacedValue};
ghost use Rattle.plan_store_soundness.specs.Listing.{is_live_row};

use external_dependencies::PlacedRow;
use occurrences::{Key, key_order};
use std::alloc::{AllocError, Global};
use std::collections::HashSet;

// Whether the row is live.
fn is_live(placed: &PlacedRow) -> bool
    ensures { result ≡ is_live_row placed.now }
{
    placed.place.is_live()
}

// The keys of the live ones of the rows.
fn live_keys(alloc: Global, all: &[PlacedRow]) -> Result<Vec<Key>, AllocError>
    ensures { IfOk result (λ keys. keys.items ≡ map (λ (p : PlacedValue). p.row.key)
        (filter is_live_row all.now)) }
{
    all.iter()
        .filter(|placed| is_live(placed))
        .map(|placed| placed.row.key)
        .collect(alloc)
}

// Whether no key appears twice.
fn all_differ(alloc: Global, keys: &[Key]) -> Result<bool, AllocError>
    ensures { IfOk result (λ b. IsTrue b ↔ AllPairs (λ x y. x ≢ y) keys.now) }
{
    let distinct: HashSet<Key> = keys.iter().copied().collect(alloc)?;
    key_order();
    Ok(distinct.len() == keys.len())
}

// Whether no two live rows of the list have one key.
pub(crate) fn live_keys_differ(alloc: Global, all: &[PlacedRow]) -> Result<bool, AllocError>
    ensures { IfOk result (λ b. IsTrue b ↔ AllPairs (λ (p q : PlacedValue). p.row.key ≢ q.row.key)
        (filter is_live_row all.now)) }
{
    let keys = live_keys(alloc, all)?;
    all_differ(alloc, &keys)
}
