// Facts are fetched by a number, by a name and a moment, or all of a table.

ghost use Rattle.std.specs.Prelude.{◌≡◌, ◌<◌, ◌^◌, [], ◌∷◌};
ghost use Rattle.sqlite.specs.Held.{state};
ghost use Rattle.sqlite.specs.Value.{owned};
ghost use Rattle.sqlite.specs.Values.{bound_value};
ghost use Rattle.sqlite.specs.declared.types.Value.TheVariants.{Text};
ghost use Rattle.plan_store_lists.specs.Rows.{of_deletion, of_row};
ghost use Rattle.plan_store.specs.Parts.{ListsAll};
ghost use Rattle.plan_tables_lookups.specs.Finding.{AreAll, Finds};
ghost use Rattle.plan_tables_lookups.specs.declared.looks.Look.TheVariants as look;
ghost use Rattle.plan_tables_schema.specs.Rows.{tables_of};
ghost use Rattle.plan_tables_queries.specs.Deletions.{AreGoneFrom};
ghost use Rattle.plan_tables_queries.specs.Finding.{FindsFact};
ghost use Rattle.plan_tables_queries.specs.Last.{IsLastRow};
ghost use Rattle.plan_tables_queries.specs.OfApp.{AreAllOf};

use crate::collecting::decode_all;
use crate::decoding::{decode_each, decode_found, decode_row};
use occurrences::{Deletion, Row, Serial};
use plan_tables_content::answer_is_small;
use plan_tables_lookups::{
    Look, TableFault, ask, deletion_of_serial, history_of_serial, job_of_number, last_of,
    operator_deletions_from,
};
use plan_tables_schema::Table;
use planner_machine::Job;
use sqlite::types::ValueRef;
use sqlite::{Alter, Connection, Error, Row as Cells};
use std::alloc::Global;
use work_calendars::App;

/// The job that is kept under the number, if there is one.
pub fn kept_job<S: Alter>(
    alloc: Global,
    conn: &mut Connection<S>,
    number: u64,
) -> Result<Option<Job>, TableFault>
    requires { number < 2 ^ 63 }
    ensures { FindsFact S.Store conn.old conn.new result (λ c found. found ≡ c.jobs number) }
{
    let found = job_of_number(conn, number);
    match decode_found::<Job>(alloc, found)? {
        Some(job) => {
            answer_is_small(&job.reply);
            Ok(Some(job))
        }
        None => Ok(None),
    }
}

/// The row that history has under the serial, if there is one.
pub fn completed_row<S: Alter>(
    alloc: Global,
    conn: &mut Connection<S>,
    serial: Serial,
) -> Result<Option<Row>, TableFault>
    ensures { FindsFact S.Store conn.old conn.new result (λ c found.
        found ≡ c.sets.history serial) }
{
    let found = history_of_serial(conn, serial.get());
    decode_found::<Row>(alloc, found)
}

/// The deletion of the serial, if there is one.
pub fn deleted_row<S: Alter>(
    alloc: Global,
    conn: &mut Connection<S>,
    serial: Serial,
) -> Result<Option<Deletion>, TableFault>
    ensures { FindsFact S.Store conn.old conn.new result (λ c found.
        found ≡ c.sets.deletions serial) }
{
    let found = deletion_of_serial(conn, serial.get());
    decode_found::<Deletion>(alloc, found)
}

/// The application's row of history that arrives last at the moment or before it, if there is one.
pub fn last_completed<S: Alter>(
    alloc: Global,
    conn: &mut Connection<S>,
    app: &App,
    moment: u32,
) -> Result<Option<Row>, TableFault>
    ensures { FindsFact S.Store conn.old conn.new result (λ c found.
        IsLastRow c.sets.history app.now moment found) }
{
    let Some(cells) = last_of(conn, app.as_str(), moment)? else {
        return Ok(None);
    };
    let row = decode_row::<Row>(alloc, &cells)?;
    Ok(Some(row))
}

/// The deletions by the operator that arrive at the moment or after it, in some order.
pub fn deletions_from<S: Alter>(
    alloc: Global,
    conn: &mut Connection<S>,
    moment: u32,
) -> Result<Vec<Deletion>, TableFault>
    ensures { FindsFact S.Store conn.old conn.new result (λ c found.
        AreGoneFrom (tables_of (state S.Store conn.old).now.trees) moment c found.items) }
{
    let rows = operator_deletions_from(conn, moment)?;
    decode_each::<Deletion>(alloc, &rows)
}

fn name(app: &App) -> ValueRef<'_>
    ensures { bound_value (owned result) ≡ Text app.now }
{
    ValueRef::Text(app.as_bytes())
}

// The rows of the table that show the application.
fn history_of<S: Alter>(conn: &mut Connection<S>, app: &App) -> Result<Vec<Cells>, Error>
    ensures { Finds S.Store conn.old conn.new result
        (λ all rows. AreAll look.HistoryOf (Text app.now ∷ []) all rows.items) }
{
    ask(conn, Look::HistoryOf, &[name(app)])
}

/// The rows of history of the application, in some order.
pub fn completed_of<S: Alter>(
    alloc: Global,
    conn: &mut Connection<S>,
    app: &App,
) -> Result<Vec<Row>, TableFault>
    ensures { FindsFact S.Store conn.old conn.new result (λ c found.
        AreAllOf c.sets.history app.now found.items) }
{
    let rows = history_of(conn, app)?;
    decode_each::<Row>(alloc, &rows)
}

/// All rows of history, in some order.
pub fn completed_rows<S: Alter>(
    alloc: Global,
    conn: &mut Connection<S>,
) -> Result<Vec<Row>, TableFault>
    ensures { FindsFact S.Store conn.old conn.new result (λ c found.
        ListsAll of_row found.items c.sets.history) }
{
    decode_all::<Row, S>(alloc, conn, Table::History)
}

/// All deletions, in some order.
pub fn deleted_rows<S: Alter>(
    alloc: Global,
    conn: &mut Connection<S>,
) -> Result<Vec<Deletion>, TableFault>
    ensures { FindsFact S.Store conn.old conn.new result (λ c found.
        ListsAll of_deletion found.items c.sets.deletions) }
{
    decode_all::<Deletion, S>(alloc, conn, Table::Deletion)
}
