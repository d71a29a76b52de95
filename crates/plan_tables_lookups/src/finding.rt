// Rows are found by a number, or by a name and a moment.

ghost use Rattle.std.specs.Prelude.{◌≡◌, ◌<◌, ◌^◌, [], ◌∷◌, slice_get};
ghost use Rattle.sqlite.specs.Value.{owned};
ghost use Rattle.sqlite.specs.Values.{bound_value};
ghost use Rattle.sqlite.specs.declared.types.Value.TheVariants.{Text};
ghost use Rattle.plan_tables_lookups.specs.Finding.{AreAll, Finds, natural};
ghost use Rattle.plan_tables_lookups.specs.Last.{IsLastFound};
ghost use Rattle.plan_tables_lookups.specs.declared.looks.Look.TheVariants as look;

use crate::asking::ask;
use crate::looks::Look;
use sqlite::types::ValueRef;
use sqlite::{Alter, Connection, Error, Row};

fn number(n: u32) -> ValueRef<'static>
    ensures { bound_value (owned result) ≡ natural n }
{
    ValueRef::Int(i64::from(n))
}

fn job_number(n: u64) -> ValueRef<'static>
    requires { n < 2 ^ 63 }
    ensures { bound_value (owned result) ≡ natural n }
{
    ValueRef::Int(n as i64)
}

fn text(s: &str) -> ValueRef<'_>
    ensures { bound_value (owned result) ≡ Text s.now }
{
    ValueRef::Text(s.as_bytes())
}

/// The row of history that has the serial.
pub fn history_of_serial<S: Alter>(conn: &mut Connection<S>, serial: u32) -> Result<Vec<Row>, Error>
    ensures { Finds S.Store conn.old conn.new result
        (λ all rows. AreAll look.InHistory (natural serial ∷ []) all rows.items) }
{
    ask(conn, Look::InHistory, &[number(serial)])
}

/// The row of the deletions that has the serial.
pub fn deletion_of_serial<S: Alter>(
    conn: &mut Connection<S>,
    serial: u32,
) -> Result<Vec<Row>, Error>
    ensures { Finds S.Store conn.old conn.new result
        (λ all rows. AreAll look.InDeletions (natural serial ∷ []) all rows.items) }
{
    ask(conn, Look::InDeletions, &[number(serial)])
}

/// The deletions by the operator that arrive at the moment or after it.
pub fn operator_deletions_from<S: Alter>(
    conn: &mut Connection<S>,
    moment: u32,
) -> Result<Vec<Row>, Error>
    ensures { Finds S.Store conn.old conn.new result
        (λ all rows. AreAll look.DeletedFrom (natural moment ∷ []) all rows.items) }
{
    ask(conn, Look::DeletedFrom, &[number(moment)])
}

/// The job of the number.
pub fn job_of_number<S: Alter>(conn: &mut Connection<S>, number: u64) -> Result<Vec<Row>, Error>
    requires { number < 2 ^ 63 }
    ensures { Finds S.Store conn.old conn.new result
        (λ all rows. AreAll look.JobOf (natural number ∷ []) all rows.items) }
{
    ask(conn, Look::JobOf, &[job_number(number)])
}

fn first_of(mut rows: Vec<Row>) -> Option<Row>
    ensures { result ≡ slice_get rows.items 0 }
{
    if rows.is_empty() {
        return None;
    }
    Some(rows.swap_remove(0))
}

/// Of the history of the application, the row that arrives last at the moment or before it.
pub fn last_of<S: Alter>(
    conn: &mut Connection<S>,
    app: &str,
    moment: u32,
) -> Result<Option<Row>, Error>
    ensures { Finds S.Store conn.old conn.new result (IsLastFound app.now moment) }
{
    match ask(conn, Look::LastOf, &[text(app), number(moment)]) {
        Ok(rows) => Ok(first_of(rows)),
        Err(error) => Err(error),
    }
}
