// The rows of the long-term plan that a statement needs which makes rows.

ghost use Rattle.std.specs.Prelude.{◌≡◌, ◌≤◌, Contains, IfOk};
ghost use Rattle.external_dependencies.specs.Arrival.{arrival_cmp};
ghost use Rattle.external_dependencies.specs.Nearest.{arrival_of};
ghost use Rattle.occurrences.specs.declared.row.Row.{Row as RowValue};
ghost use Rattle.plan_store_lists.specs.Keyed.{IsKeyed};
ghost use Rattle.plan_store_pairs.specs.Later.{AreEnough, AreLater};

use external_dependencies::Touch;
use occurrences::Row;
use plan_store_lists::RowBlocks;
use std::alloc::{AllocError, Global};
use work_calendars::Moment;

// Of the rows of one application, in order, those that arrive at the moment or later, and the last one before it.
fn tail_of(rows: &[Row], moment: Moment) -> &[Row]
    requires keyed { IsKeyed arrival_cmp arrival_of rows.now }
    requires one { (x y : RowValue) → Contains rows.now x → Contains rows.now y
        → x.key.app ≡ y.key.app }
    ensures { AreLater rows.now moment result.now }
{
    let mut start = rows.len();
    while start > 0 && rows[start - 1].key.ia.number() >= moment.number() {
        start -= 1;
    }
    &rows[start.saturating_sub(1)..]
}

// Those of each application.
fn later_rows(alloc: Global, list: &RowBlocks<Row>, moment: Moment) -> Result<Vec<Row>, AllocError>
    ensures { IfOk result (λ later. AreLater list.now.items moment later.items) }
{
    let mut later = Vec::new(alloc);
    let blocks = list.blocks();
    for block in blocks {
        later.extend_from_slice(tail_of(block.items(), moment))?;
    }
    Ok(later)
}

// The moment of the first of these rows, or this one if it is earlier.
fn first_of(rows: &[Row], latest: Moment) -> Moment
    ensures { (row : RowValue) → Contains rows.now row → result ≤ row.key.ia }
{
    let mut first = latest;
    for row in rows {
        let ia = row.key.ia;
        if ia.number() < first.number() {
            first = ia;
        }
    }
    first
}

/// The rows of the long-term plan that a statement needs which touches this, and withdraws and opens nothing. If a list
/// changes, all; else those that arrive no earlier than the first row that it makes, or than `latest` if it makes none
/// before that, and of each application the last one before.
pub fn planned_for(
    alloc: Global,
    planned: &RowBlocks<Row>,
    touch: &Touch,
    latest: Moment,
) -> Result<Vec<Row>, AllocError>
    ensures { IfOk result (λ later. AreEnough touch.now planned.now.items later.items) }
{
    if touch.lists.is_empty() {
        later_rows(alloc, planned, first_of(&touch.made, latest))
    } else {
        planned.to_vec(alloc)
    }
}
