// The rows of history that a listing of the pairs of one application needs.

ghost use Rattle.std.specs.Prelude.{◌≡◌, ◌++◌, IfOk, IsTrue, option_to_list};
ghost use Rattle.std.specs.List.Sorted.{IsPermutation, IsSortedByKey};
ghost use Rattle.std.specs.Ordering.{nat_cmp};
ghost use Rattle.plan_store.specs.Contents.{content_of};
ghost use Rattle.plan_store.specs.Ends.{HasFound};
ghost use Rattle.plan_store.specs.Views.{row_serial};
ghost use Rattle.plan_tables_queries.specs.Finding.{FindsFact};
ghost use Rattle.plan_tables_queries.specs.OfApp.{AreAllOf};
ghost use Rattle.plan_tables.specs.Ends.{HasSerial};

use occurrences::{Row, Serial};
use plan_store::Content;
use plan_tables_lookups::TableFault;
use plan_tables_queries::{completed_of, completed_row};
use sqlite::{Alter, Connection};
use std::alloc::Global;
use work_calendars::App;

// Puts the rows in the order of their serials.
fn sort_by_serial(rows: &mut Vec<Row>)
    ensures same { IsPermutation rows.old.items rows.new.items }
    ensures sorted { IsSortedByKey row_serial nat_cmp rows.new.items }
{
    rows.sort_unstable_by_key(|row| row.serial.get());
}

// The application's rows of history, by serial.
fn find_of_app<S: Alter>(
    alloc: Global,
    conn: &mut Connection<S>,
    app: &App,
) -> Result<Vec<Row>, TableFault>
    ensures found { FindsFact S.Store conn.old conn.new result (λ c found.
        AreAllOf c.sets.history app.now found.items) }
    ensures sorted { IfOk result (λ found. IsSortedByKey row_serial nat_cmp found.items) }
{
    let mut found = completed_of(alloc, conn, app)?;
    sort_by_serial(&mut found);
    Ok(found)
}

// Adds the row that history has under the serial, if there is one.
fn add_completed<S: Alter>(
    alloc: Global,
    conn: &mut Connection<S>,
    found: &mut Vec<Row>,
    serial: Serial,
) -> Result<(), TableFault>
    ensures { FindsFact S.Store conn.old conn.new result (λ c _.
        found.new.items ≡ found.old.items ++ option_to_list (c.sets.history serial)) }
{
    match completed_row(alloc, conn, serial)? {
        Some(row) => {
            found.push(row)?;
            Ok(())
        }
        None => Ok(()),
    }
}

// Whether the last of the rows has the serial.
fn ends_with(rows: &[Row], serial: Serial) -> bool
    ensures { IsTrue result → HasSerial rows.now serial }
{
    match rows.last() {
        Some(row) => row.serial == serial,
        None => false,
    }
}

/// The application's rows of history, and the predecessors of its rows that the lists lack, by serial.
pub(crate) fn find_ends<S: Alter>(
    alloc: Global,
    conn: &mut Connection<S>,
    lists: &Content,
    app: &App,
) -> Result<Vec<Row>, TableFault>
    ensures found { FindsFact S.Store conn.old conn.new result (λ c found.
        HasFound app.now (content_of lists.now) c.sets.history found.items) }
    ensures sorted { IfOk result (λ found. IsSortedByKey row_serial nat_cmp found.items) }
{
    let mut found = find_of_app(alloc, conn, app)?;
    let serials = lists.unknown_ends(alloc, &found, app)?;
    for serial in &serials {
        if !ends_with(&found, *serial) {
            add_completed(alloc, conn, &mut found, *serial)?;
        }
    }
    sort_by_serial(&mut found);
    Ok(found)
}
