ghost use Rattle.std.specs.Prelude.{◌≡◌, ◌++◌, IfOk, OnOk, map};
ghost use Rattle.plan_store_soundness.specs.Listing.{current_place, deleted_place, in_place, placed_list};

use external_dependencies::PlacedRow;
use occurrences::{CurrentRow, Deletion, Place, Row};
use plan_store::Content;
use plan_store_lists::RowBlocks;
use std::alloc::{AllocError, Global};

// Adds rows of one place.
fn push_rows(all: &mut Vec<PlacedRow>, rows: &[Row], place: Place) -> Result<(), AllocError>
    ensures { OnOk result (all.new.items ≡ all.old.items ++ map (in_place place) rows.now) }
{
    for row in rows {
        all.push(PlacedRow { row: *row, place })?;
    }
    Ok(())
}

// Adds the rows of the current plan.
fn push_current(all: &mut Vec<PlacedRow>, rows: &[CurrentRow]) -> Result<(), AllocError>
    ensures { OnOk result (all.new.items ≡ all.old.items ++ map current_place rows.now) }
{
    for current in rows {
        all.push(PlacedRow {
            row: current.row,
            place: Place::Current(current.status),
        })?;
    }
    Ok(())
}

// Adds the rows of the deletions.
fn push_deletions(all: &mut Vec<PlacedRow>, rows: &[Deletion]) -> Result<(), AllocError>
    ensures { OnOk result (all.new.items ≡ all.old.items ++ map deleted_place rows.now) }
{
    for deletion in rows {
        all.push(PlacedRow {
            row: deletion.row,
            place: Place::Deleted(deletion.reason),
        })?;
    }
    Ok(())
}

/// All rows, with their places.
pub(crate) fn placed_rows(alloc: Global, content: &Content) -> Result<Vec<PlacedRow>, AllocError>
    ensures { IfOk result (λ all. all.items ≡ placed_list content.now) }
{
    let mut all = Vec::new(alloc);
    push_set(&mut all, &content.ltp, Place::LongTerm)?;
    push_current_set(&mut all, &content.cp)?;
    push_set(&mut all, &content.history, Place::History)?;
    push_deletion_set(&mut all, &content.deletions)?;
    Ok(all)
}

// Adds all rows of a set, which are of one place.
fn push_set(all: &mut Vec<PlacedRow>, list: &RowBlocks<Row>, place: Place) -> Result<(), AllocError>
    ensures { OnOk result (all.new.items ≡ all.old.items ++ map (in_place place) list.now.items) }
{
    let blocks = list.blocks();
    for block in blocks {
        push_rows(all, block.items(), place)?;
    }
    Ok(())
}

// Adds all rows of the current plan.
fn push_current_set(
    all: &mut Vec<PlacedRow>,
    list: &RowBlocks<CurrentRow>,
) -> Result<(), AllocError>
    ensures { OnOk result (all.new.items ≡ all.old.items ++ map current_place list.now.items) }
{
    let blocks = list.blocks();
    for block in blocks {
        push_current(all, block.items())?;
    }
    Ok(())
}

// Adds all rows of the deletions.
fn push_deletion_set(all: &mut Vec<PlacedRow>, list: &RowBlocks<Deletion>) -> Result<(), AllocError>
    ensures { OnOk result (all.new.items ≡ all.old.items ++ map deleted_place list.now.items) }
{
    let blocks = list.blocks();
    for block in blocks {
        push_deletions(all, block.items())?;
    }
    Ok(())
}
