ghost use Rattle.std.specs.Prelude.{◌≡◌, ◌≢◌, ◌↔◌, ℕ, IsTrue, IfOk, map, filter};
ghost use Rattle.std.specs.List.{All, Contains};
ghost use Rattle.std.specs.HashSet.{contains};
ghost use Rattle.occurrences.specs.declared.key.Key.{Key as KeyValue};
ghost use Rattle.occurrences.specs.declared.place.Deletion.{Deletion as DeletionValue};
ghost use Rattle.occurrences.specs.declared.row.Row.{Row as RowValue};
ghost use Rattle.external_dependencies.specs.declared.rows.PlacedRow.{PlacedRow as PlacedValue};
ghost use Rattle.planner_machine.specs.Fate.{IsGenerated};
ghost use Rattle.planner_machine.specs.Sound.{ArrivesIn};
ghost use Rattle.plan_store_soundness.specs.Arrivals.{IsFreeOf, by_operator};

use crate::bounds::minute_of_day;
use external_dependencies::PlacedRow;
use occurrences::{Deletion, Key, Origin, Place, Reason, Row, key_order};
use planner_machine::Bounds;
use std::alloc::{AllocError, Global};
use std::collections::HashSet;

// Whether a row arrives where rows of its place may.
fn arrives_in(bounds: &Bounds, placed: &PlacedRow) -> bool
    ensures { IsTrue result ↔ ArrivesIn bounds.now placed.now.row.key.ia placed.now.place }
{
    let ia = placed.row.key.ia.number();
    let end = bounds.plan_end.number();
    match placed.place {
        Place::LongTerm => end <= ia && ia < minute_of_day(bounds.last_day.number() + 1),
        Place::Current(_) => minute_of_day(bounds.first_day.number()) <= ia && ia < end,
        Place::History => minute_of_day(bounds.first_day.number()) <= ia && ia < end,
        Place::Deleted(_) => true,
    }
}

// Whether all rows arrive so.
pub(crate) fn all_arrive(bounds: &Bounds, all: &[PlacedRow]) -> bool
    ensures { IsTrue result ↔ All
        (λ (p : PlacedValue). ArrivesIn bounds.now p.row.key.ia p.place) all.now }
{
    for placed in all {
        if !arrives_in(bounds, placed) {
            return false;
        }
    }
    true
}

// Whether an operator deleted it.
fn is_by_operator(deletion: &Deletion) -> bool
    ensures { result ≡ by_operator deletion.now }
{
    deletion.reason == Reason::Operator
}

// The keys of what an operator deleted.
fn operator_keys(alloc: Global, deletions: &[Deletion]) -> Result<Vec<Key>, AllocError>
    ensures { IfOk result (λ keys. keys.items ≡ map (λ (d : DeletionValue). d.row.key)
        (filter by_operator deletions.now)) }
{
    deletions
        .iter()
        .filter(|deletion| is_by_operator(deletion))
        .map(|deletion| deletion.row.key)
        .collect(alloc)
}

// These keys as a set.
fn key_set(alloc: Global, keys: &[Key]) -> Result<HashSet<Key>, AllocError>
    ensures { IfOk result (λ set. (key : KeyValue)
        → IsTrue (contains ⟦<Key as PartialEq>⟧.eq set key)
        ↔ Contains keys.now key) }
{
    key_order();
    keys.iter().copied().collect(alloc)
}

// Whether the row was added by hand, or its key is none of these.
fn is_free(keys: &HashSet<Key>, row: &Row) -> bool
    ensures { IsTrue result ↔ (IsGenerated row.now.origin → IsTrue
        (contains ⟦<Key as PartialEq>⟧.eq keys.now row.now.key) → ⊥) }
{
    match row.origin {
        Origin::Added => true,
        Origin::Generated(_) => !keys.contains(&row.key),
    }
}

// Whether no generated row has the key of one that an operator deleted.
pub(crate) fn none_deleted(
    alloc: Global,
    rows: &[Row],
    deletions: &[Deletion],
) -> Result<bool, AllocError>
    ensures { IfOk result (λ b. IsTrue b ↔ All (IsFreeOf deletions.now) rows.now) }
{
    let keys = operator_keys(alloc, deletions)?;
    let set = key_set(alloc, &keys)?;
    for row in rows {
        if !is_free(&set, row) {
            return Ok(false);
        }
    }
    Ok(true)
}
