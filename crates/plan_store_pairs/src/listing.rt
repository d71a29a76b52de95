ghost use Rattle.std.specs.Prelude.{◌++◌, ◌↔◌, Contains, IfOk, OnOk};
ghost use Rattle.external_dependencies.specs.declared.rows.PlacedRow.{PlacedRow as PlacedValue};
ghost use Rattle.planner_machine.specs.Content.{Sets};
ghost use Rattle.plan_store_pairs.specs.LiveRows.{AddsCurrent, AddsRows, AreLiveRows, HasLists};
ghost use Rattle.plan_store_pairs.specs.Turns.{IsInLists};

use external_dependencies::{PlacedRow, Rows};
use occurrences::{CurrentRow, Place, Row};
use plan_store_lists::RowBlocks;
use std::alloc::{AllocError, Global};

/// The live occurrences, where these lists are the long-term plan, the current plan and history.
pub fn live_rows(
    alloc: Global,
    planned: &RowBlocks<Row>,
    current: &RowBlocks<CurrentRow>,
    history: &RowBlocks<Row>,
) -> Result<Rows, AllocError>
    ensures live { IfOk result (λ rows. (s : Sets)
        → HasLists s planned.now.items current.now.items history.now.items
        → AreLiveRows s rows) }
    ensures listed { IfOk result (λ rows. (p : PlacedValue) → Contains rows p
        ↔ IsInLists planned.now.items current.now.items history.now.items p) }
{
    let count = planned.len() + current.len() + history.len();
    let mut rows = Vec::with_capacity(alloc, count)?;
    push_set(&mut rows, planned, Place::LongTerm)?;
    push_current_set(&mut rows, current)?;
    push_set(&mut rows, history, Place::History)?;
    Ok(Rows::from_vec(rows))
}

/// The live occurrences, where the first two lists together are the long-term plan. Its one list has no room to spare.
pub fn live_rows_with(
    alloc: Global,
    planned: &[Row],
    made: &[Row],
    current: &RowBlocks<CurrentRow>,
    history: &[Row],
) -> Result<Rows, AllocError>
    ensures live { IfOk result (λ rows. (s : Sets)
        → HasLists s (planned.now ++ made.now) current.now.items history.now
        → AreLiveRows s rows) }
    ensures listed { IfOk result (λ rows. (p : PlacedValue) → Contains rows p
        ↔ IsInLists (planned.now ++ made.now) current.now.items history.now p) }
{
    let count = planned.len() + made.len() + current.len() + history.len();
    let mut rows = Vec::with_capacity(alloc, count)?;
    push_rows(&mut rows, planned, Place::LongTerm)?;
    push_rows(&mut rows, made, Place::LongTerm)?;
    push_current_set(&mut rows, current)?;
    push_rows(&mut rows, history, Place::History)?;
    Ok(Rows::from_vec(rows))
}

// Adds all rows of a set, which are of one place.
fn push_set(
    rows: &mut Vec<PlacedRow>,
    list: &RowBlocks<Row>,
    place: Place,
) -> Result<(), AllocError>
    ensures { OnOk result (AddsRows list.now.items place rows.old.items rows.new.items) }
{
    let blocks = list.blocks();
    for block in blocks {
        push_rows(rows, block.items(), place)?;
    }
    Ok(())
}

// Adds all rows of the current plan that are not deleted.
fn push_current_set(
    rows: &mut Vec<PlacedRow>,
    list: &RowBlocks<CurrentRow>,
) -> Result<(), AllocError>
    ensures { OnOk result (AddsCurrent list.now.items rows.old.items rows.new.items) }
{
    let blocks = list.blocks();
    for block in blocks {
        push_current(rows, block.items())?;
    }
    Ok(())
}

// Adds rows of one place.
pub(crate) fn push_rows(
    rows: &mut Vec<PlacedRow>,
    list: &[Row],
    place: Place,
) -> Result<(), AllocError>
    ensures { OnOk result (AddsRows list.now place rows.old.items rows.new.items) }
{
    for row in list {
        rows.push(PlacedRow { row: *row, place })?;
    }
    Ok(())
}

// Adds the rows of the current plan that are not deleted.
pub(crate) fn push_current(rows: &mut Vec<PlacedRow>, list: &[CurrentRow]) -> Result<(), AllocError>
    ensures { OnOk result (AddsCurrent list.now rows.old.items rows.new.items) }
{
    for current in list {
        let place = Place::Current(current.status);
        if place.is_live() {
            rows.push(PlacedRow {
                row: current.row,
                place,
            })?;
        }
    }
    Ok(())
}
