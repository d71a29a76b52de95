// The rows of history that windows show: the last row of each query.

ghost use Rattle.std.specs.Prelude.{◌≡◌, ◌+◌, ℕ, MatchOption, OnOk, Some};
ghost use Rattle.occurrences.specs.declared.row.Row.{Row as RowValue};
ghost use Rattle.plan_store_lists.specs.Rows.{AreRows, look_up, of_row};
ghost use Rattle.plan_store.specs.HistoryReads.{HasLasts, IsLastOf};
ghost use Rattle.plan_store.specs.Queries.{AddsLast, IsQueriedIn, LacksBefore};
ghost use Rattle.plan_store.specs.Views.{key_of, row_serial};

use crate::arrivals::arrival;
use crate::parts::put_row;
use crate::queries::LastQuery;
use crate::slices::before;
use crate::stores::Need;
use occurrences::{Key, Row};
use plan_store_lists::{RowBlocks, has_key};
use std::alloc::AllocError;

/// Fills the list with the last row of each query, by application, input arrival and serial.
pub(crate) fn fill_lasts(
    lasts: &mut Vec<Row>,
    history: &RowBlocks<Row>,
    queries: &[LastQuery],
) -> Result<(), AllocError>
    requires { AreRows of_row history.now.items }
    ensures rows { OnOk result (AreRows of_row lasts.new.items) }
    ensures lasts { OnOk result (HasLasts (IsQueriedIn queries.now)
        (look_up row_serial history.now.items) (look_up row_serial lasts.new.items)) }
{
    lasts.clear();
    for query in queries {
        add_last(lasts, history, query)?;
    }
    Ok(())
}

// Adds the last row of the query, unless the list has it.
fn add_last(
    lasts: &mut Vec<Row>,
    history: &RowBlocks<Row>,
    query: &LastQuery,
) -> Result<(), AllocError>
    requires history { AreRows of_row history.now.items }
    requires rows { AreRows of_row lasts.old.items }
    requires part { (serial : ℕ) (row : RowValue)
        → look_up row_serial lasts.old.items serial ≡ Some row
        → look_up row_serial history.now.items serial ≡ Some row }
    ensures rows { OnOk result (AreRows of_row lasts.new.items) }
    ensures adds { OnOk result (AddsLast (look_up row_serial history.now.items) query.now.app
        (query.now.moment + 1) (look_up row_serial lasts.old.items)
        (look_up row_serial lasts.new.items)) }
{
    let Some(row) = last_row(history, query) else {
        return Ok(());
    };
    if has_key(lasts, &arrival(&row)) {
        return Ok(());
    }
    put_row(lasts, &row)
}

// The last row of the query.
fn last_row(history: &RowBlocks<Row>, query: &LastQuery) -> Option<Row>
    requires { AreRows of_row history.now.items }
    ensures { MatchOption result
        (LacksBefore (look_up row_serial history.now.items) query.now.app (query.now.moment + 1))
        (IsLastOf (look_up row_serial history.now.items) query.now.app (query.now.moment + 1)) }
{
    let rows = before(history.of_app(&query.app), query.moment.number() + 1);
    let count = rows.len();
    if count == 0 {
        return None;
    }
    Some(rows[count - 1])
}

// The key that a need is of.
pub(crate) fn key_of(need: &Need) -> Option<Key>
    ensures { result ≡ key_of need.now }
{
    match need {
        Need::Key(key) => Some(*key),
        Need::Definitions | Need::LongTerm(_) | Need::Daily(_) => None,
    }
}
