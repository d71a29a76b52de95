ghost use Rattle.std.specs.Prelude.{◌≡◌, ◌↔◌, Contains, IfOk, IsTrue, OnOk, Some, ℕ};
ghost use Rattle.planner_machine.specs.Content.{Sets};
ghost use Rattle.planner_machine.specs.Pairs.{ArePairs};
ghost use Rattle.plan_store.specs.Changes.{LeadsOn, pairs_after};
ghost use Rattle.plan_store.specs.Views.{HoldsOfSound, shown};
ghost use Rattle.plan_store_pairs.specs.Gathering.{AddsEach, AddsIf};
ghost use Rattle.plan_store_pairs.specs.Withdrawals.{IsBackPair, IsBehind, IsLostPair, LosesRow};

use crate::gathering::{Reached, reached_by};
use external_dependencies::{Arrival, Pair, PairChange, Pairs, arrives_within};
use occurrences::{Row, Serial};
use plan_store::{Need, View};
use std::alloc::{AllocError, Global};

/// What leads from the pairs before a statement to those after it, and no more, where the row lives no longer and all
/// others stay as they are. Its own pairs go. Each open occurrence that has a pair with it gets one with the row
/// before it in its application instead, if the limit allows it.
pub fn pairs_without(alloc: Global, view: &View<'_>, row: &Row) -> Result<PairChange, AllocError>
    ensures { IfOk result (λ change. HoldsOfSound (Need.Key row.now.key) view.now (λ c. (s : Sets)
        → LosesRow c.sets s row.now → ArePairs c.pairs c.in_force s (pairs_after change c.pairs)
        × LeadsOn c.pairs change)) }
{
    let mut removed = Vec::new(alloc);
    let mut added = Vec::new(alloc);
    removed.extend_from_slice(view.pairs_of_successor(row.serial))?;
    let before = view.previous(&row.key);
    let found = reached_by(alloc, view, row)?;
    turn_each(view, row, &before, &found, &mut removed, &mut added)?;
    Ok(PairChange {
        removed: Pairs::from_vec(removed),
        added: Pairs::from_vec(added),
    })
}

// For each of these that has a pair with the row, the pair that takes its place.
fn turn_each(
    view: &View<'_>,
    row: &Row,
    before: &Option<Arrival>,
    found: &[Reached],
    removed: &mut Vec<Pair>,
    added: &mut Vec<Pair>,
) -> Result<(), AllocError>
    ensures removed { OnOk result (AddsEach (IsLostPair (shown view.now).pairs row.now) found.now
        removed.old.items removed.new.items) }
    ensures added { OnOk result (AddsEach (IsBackPair (shown view.now).pairs row.now before.now)
        found.now added.old.items added.new.items) }
{
    for x in found {
        turn(view, row, before, x, removed, added)?;
    }
    Ok(())
}

// Turns the occurrence, if it has a pair with the row, to the row before that, if the limit allows it.
fn turn(
    view: &View<'_>,
    row: &Row,
    before: &Option<Arrival>,
    x: &Reached,
    removed: &mut Vec<Pair>,
    added: &mut Vec<Pair>,
) -> Result<(), AllocError>
    ensures removed { OnOk result (AddsIf (IsLostPair (shown view.now).pairs row.now x.now)
        removed.old.items removed.new.items) }
    ensures added { OnOk result (AddsIf
        (IsBackPair (shown view.now).pairs row.now before.now x.now)
        added.old.items added.new.items) }
{
    let pair = Pair {
        successor: x.placed.row.serial,
        predecessor: row.serial,
    };
    if has_pair(view, &pair) {
        removed.push(pair)?;
        if let Some(predecessor) = predecessor_of(before, x) {
            added.push(Pair {
                successor: x.placed.row.serial,
                predecessor,
            })?;
        }
    }
    Ok(())
}

// Whether the window shows the pair.
fn has_pair(view: &View<'_>, pair: &Pair) -> bool
    ensures { IsTrue result ↔ Contains (shown view.now).pairs pair.now }
{
    view.pairs_of_successor(pair.successor)
        .binary_search(pair)
        .is_ok()
}

// The row before the one that goes, if it arrives within the limit of the occurrence.
fn predecessor_of(before: &Option<Arrival>, x: &Reached) -> Option<Serial>
    ensures { (serial : ℕ) → (result ≡ Some serial) ↔ IsBehind before.now x.now serial }
{
    let near = (*before)?;
    if arrives_within(x.within, x.placed.row.key.ia, near.ia) {
        Some(near.serial)
    } else {
        None
    }
}
