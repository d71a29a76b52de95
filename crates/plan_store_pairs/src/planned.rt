ghost use Rattle.std.specs.Prelude.{◌≡◌, ◌⊎◌, ◌↔◌, Contains, IfOk, OnOk, Some};
ghost use Rattle.occurrences.specs.declared.place.CurrentRow.{CurrentRow as CurrentValue};
ghost use Rattle.occurrences.specs.declared.row.Row.{Row as RowValue};
ghost use Rattle.external_dependencies.specs.declared.pairs.Pair.{Pair as PairValue};
ghost use Rattle.plan_store.specs.Views.{shown};
ghost use Rattle.plan_store_pairs.specs.Planned.{AddsPairsOf, HasWaiting, IsOpenAt, IsOpenOfOne, IsWaitingAt};
ghost use Rattle.external_dependencies.specs.Touch.{HasRowOf};

use external_dependencies::{Pair, Pairs};
use occurrences::{CurrentRow, Place, Row};
use plan_store::View;
use plan_store_lists::RowBlocks;
use std::alloc::{AllocError, Global};
use work_calendars::App;

/// The pairs of the open rows of both plans.
pub fn pairs_of_plans(alloc: Global, view: &View<'_>) -> Result<Pairs, AllocError>
    ensures { IfOk result (λ pairs. (pair : PairValue) → Contains pairs pair
        ↔ (Contains (shown view.now).pairs pair
        × IsOpenAt (shown view.now).sets pair.successor)) }
{
    let mut pairs = Vec::new(alloc);
    push_all_planned(view, view.ltp(), &mut pairs)?;
    push_all_waiting(view, view.cp(), &mut pairs)?;
    Ok(Pairs::from_vec(pairs))
}

/// The pairs of the open rows of these applications in both plans.
pub fn pairs_of_apps(alloc: Global, view: &View<'_>, apps: &[App]) -> Result<Pairs, AllocError>
    ensures { IfOk result (λ pairs. (pair : PairValue) → Contains pairs pair
        ↔ (Contains (shown view.now).pairs pair
        × IsOpenOfOne (shown view.now).sets apps.now pair.successor)) }
{
    let mut pairs = Vec::new(alloc);
    for app in apps {
        push_planned(view, view.ltp_of(app), &mut pairs)?;
        push_waiting(view, view.cp_of(app), &mut pairs)?;
    }
    Ok(Pairs::from_vec(pairs))
}

/// The pairs of these rows of the long-term plan, and of the rows of the current plan that wait.
pub fn pairs_of_rows(alloc: Global, view: &View<'_>, planned: &[Row]) -> Result<Pairs, AllocError>
    requires { (row : RowValue) → Contains planned.now row
        → (shown view.now).sets.ltp row.serial ≡ Some row }
    ensures { IfOk result (λ pairs. (pair : PairValue) → Contains pairs pair
        ↔ (Contains (shown view.now).pairs pair
        × (HasRowOf planned.now pair.successor
        ⊎ IsWaitingAt (shown view.now).sets pair.successor))) }
{
    let mut pairs = Vec::new(alloc);
    push_planned(view, planned, &mut pairs)?;
    push_all_waiting(view, view.cp(), &mut pairs)?;
    Ok(Pairs::from_vec(pairs))
}

// Adds the pairs of all rows of the long-term plan.
fn push_all_planned(
    view: &View<'_>,
    rows: &RowBlocks<Row>,
    pairs: &mut Vec<Pair>,
) -> Result<(), AllocError>
    requires { (row : RowValue) → Contains rows.now.items row
        → (shown view.now).sets.ltp row.serial ≡ Some row }
    ensures { OnOk result (AddsPairsOf (shown view.now).pairs (HasRowOf rows.now.items)
        pairs.old.items pairs.new.items) }
{
    let blocks = rows.blocks();
    for block in blocks {
        push_planned(view, block.items(), pairs)?;
    }
    Ok(())
}

// Adds the pairs of all rows of the current plan that wait.
fn push_all_waiting(
    view: &View<'_>,
    list: &RowBlocks<CurrentRow>,
    pairs: &mut Vec<Pair>,
) -> Result<(), AllocError>
    requires { (current : CurrentValue) → Contains list.now.items current
        → (shown view.now).sets.cp current.row.serial ≡ Some current }
    ensures { OnOk result (AddsPairsOf (shown view.now).pairs (HasWaiting list.now.items)
        pairs.old.items pairs.new.items) }
{
    let blocks = list.blocks();
    for block in blocks {
        push_waiting(view, block.items(), pairs)?;
    }
    Ok(())
}

// Adds the pairs of rows of the long-term plan.
fn push_planned(view: &View<'_>, rows: &[Row], pairs: &mut Vec<Pair>) -> Result<(), AllocError>
    requires { (row : RowValue) → Contains rows.now row
        → (shown view.now).sets.ltp row.serial ≡ Some row }
    ensures { OnOk result (AddsPairsOf (shown view.now).pairs (HasRowOf rows.now)
        pairs.old.items pairs.new.items) }
{
    for row in rows {
        pairs.extend_from_slice(view.pairs_of_open(row.serial))?;
    }
    Ok(())
}

// Adds the pairs of those rows of the current plan that wait. One that doesn't wait is skipped.
fn push_waiting(
    view: &View<'_>,
    list: &[CurrentRow],
    pairs: &mut Vec<Pair>,
) -> Result<(), AllocError>
    requires { (current : CurrentValue) → Contains list.now current
        → (shown view.now).sets.cp current.row.serial ≡ Some current }
    ensures { OnOk result (AddsPairsOf (shown view.now).pairs (HasWaiting list.now)
        pairs.old.items pairs.new.items) }
{
    for current in list {
        if Place::Current(current.status).is_open() {
            pairs.extend_from_slice(view.pairs_of_open(current.row.serial))?;
        }
    }
    Ok(())
}
