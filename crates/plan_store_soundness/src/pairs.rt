ghost use Rattle.std.specs.Prelude.{◌≡◌, ◌↔◌, IfOk, IsTrue, Option};
ghost use Rattle.std.specs.List.{All, Contains};
ghost use Rattle.external_dependencies.specs.Nearest.{IsCandidate, arrival_of};
ghost use Rattle.external_dependencies.specs.Pair.{pair_cmp};
ghost use Rattle.external_dependencies.specs.Rising.{IsRising};
ghost use Rattle.external_dependencies.specs.declared.pairs.Pair.{Pair as PairValue};
ghost use Rattle.planner_machine.specs.RowsSound.{RowsSound};
ghost use Rattle.planner_machine.specs.Pairs.{ArePairs};
ghost use Rattle.planner_machine.specs.Sound.{AreNumbered};
ghost use Rattle.plan_store.specs.Contents.{content_of};
ghost use Rattle.plan_store_soundness.specs.Closed.{AreFitting, is_closed_place};
ghost use Rattle.plan_store_soundness.specs.Listing.{placed_list};
ghost use Rattle.plan_store_soundness.specs.Pairs.{AreClosedPairs, FitsRows, HasComplete, IsClosedPlace, at_serial};

use crate::closed::{have_no_ring, have_own_slots};
use crate::seats::{row_of, table_of};
use external_dependencies::{Pair, Pairs, PlacedRow, pair_order, rising_is_unique};
use occurrences::{Place, Row};
use plan_store::Content;
use plan_store_pairs::{live_rows, settled_pairs};
use std::alloc::{AllocError, Global};

// Whether both have the same pairs. Both are in rising order, so they are compared one by one.
fn same_pairs(pairs: &Pairs, others: &Pairs) -> bool
    ensures { (IsTrue result ↔ (All (Contains others.now) pairs.now
        × All (Contains pairs.now) others.now))
        × IsRising pair_cmp pairs.now }
{
    rising_is_unique();
    pair_order();
    pairs.as_slice() == others.as_slice()
}

// The pairs as one list.
fn pairs_of(alloc: Global, content: &Content) -> Result<Pairs, AllocError>
    ensures { IfOk result (λ pairs. pairs ≡ (content_of content.now).pairs) }
{
    content.pairs.rise();
    Ok(Pairs::from_rising(content.pairs.to_vec(alloc)?))
}

/// Whether the pairs are those that follow from the rows and the lists in force, where the rows are sound: of open
/// occurrences those with their nearest predecessors, and no others but of occurrences that are live and no longer
/// open.
pub(crate) fn has_settled_pairs(alloc: Global, content: &Content) -> Result<bool, AllocError>
    ensures { RowsSound (content_of content.now).sets → IfOk result (λ b. IsTrue b
        ↔ ArePairs (content_of content.now).pairs (content_of content.now).in_force
        (content_of content.now).sets (content_of content.now).pairs) }
{
    let rows = live_rows(alloc, &content.ltp, &content.cp, &content.history)?;
    let pairs = pairs_of(alloc, content)?;
    let links = content.in_force.to_links(alloc)?;
    let settled = settled_pairs(alloc, &pairs, &rows, &links)?;
    Ok(same_pairs(&pairs, &settled))
}

// Whether the place is live and no longer open.
pub(crate) fn is_closed(place: Place) -> bool
    ensures is { IsTrue result ↔ IsClosedPlace place }
    ensures tested { result ≡ is_closed_place place }
{
    place.is_live() && !place.is_open()
}

// Whether a row arrives as a predecessor of the other may.
fn arrives_in_time(successor: &Row, predecessor: &Row) -> bool
    ensures { IsTrue result ↔ IsCandidate successor.now.key predecessor.now.key.app None
        (arrival_of predecessor.now) }
{
    let own = successor.key.ia.number();
    let earlier = predecessor.key.ia.number();
    if predecessor.key.app == successor.key.app {
        earlier < own
    } else {
        earlier <= own
    }
}

// Whether there is a predecessor, and it is complete and arrives as a predecessor may.
fn has_complete(successor: &PlacedRow, predecessor: &Option<PlacedRow>) -> bool
    ensures { IsTrue result ↔ HasComplete successor.now predecessor.now }
{
    match predecessor {
        None => false,
        Some(predecessor) => {
            predecessor.place.is_complete() && arrives_in_time(&successor.row, &predecessor.row)
        }
    }
}

// The same, if the successor is live and no longer open.
fn fits_rows(successor: &Option<PlacedRow>, predecessor: &Option<PlacedRow>) -> bool
    ensures { IsTrue result ↔ FitsRows successor.now predecessor.now }
{
    match successor {
        None => true,
        Some(successor) => !is_closed(successor.place) || has_complete(successor, predecessor),
    }
}

// The same of a pair.
fn fits(table: &[Option<PlacedRow>], pair: &Pair) -> bool
    ensures { IsTrue result ↔ FitsRows (at_serial table.now pair.now.successor)
        (at_serial table.now pair.now.predecessor) }
{
    fits_rows(
        &row_of(table, pair.successor),
        &row_of(table, pair.predecessor),
    )
}

// The same of all pairs.
fn all_fit(table: &[Option<PlacedRow>], pairs: &[Pair]) -> bool
    ensures { IsTrue result ↔ All (λ (pair : PairValue). FitsRows
        (at_serial table.now pair.successor) (at_serial table.now pair.predecessor)) pairs.now }
{
    for pair in pairs {
        if !fits(table, pair) {
            return false;
        }
    }
    true
}

// Whether the pairs of what is live and no longer open follow the rules.
fn are_fitting(
    alloc: Global,
    table: &[Option<PlacedRow>],
    pairs: &[Pair],
) -> Result<bool, AllocError>
    ensures { IfOk result (λ b. IsTrue b ↔ AreFitting table.now pairs.now) }
{
    if !all_fit(table, pairs) {
        return Ok(false);
    }
    let own_slots = have_own_slots(alloc, table, pairs)?;
    if !own_slots {
        return Ok(false);
    }
    have_no_ring(alloc, table, pairs)
}

/// Whether what is live and no longer open has only predecessors that are complete and arrive as they may, one of each
/// application at most, and the pairs among such occurrences have no loop, where the rows are numbered.
pub(crate) fn has_closed_pairs(
    alloc: Global,
    content: &Content,
    all: &[PlacedRow],
) -> Result<bool, AllocError>
    requires { all.now ≡ placed_list content.now }
    ensures { AreNumbered (content_of content.now).sets → IfOk result (λ b. IsTrue b
        ↔ AreClosedPairs (content_of content.now).sets (content_of content.now).pairs) }
{
    match table_of(alloc, content.issued, all)? {
        Some(table) => {
            let pairs = pairs_of(alloc, content)?;
            are_fitting(alloc, &table, pairs.as_slice())
        }
        None => Ok(false),
    }
}
