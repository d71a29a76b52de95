// What is in a database.

ghost use Rattle.std.specs.Prelude.{◌≡◌, false, IfOk, IsTrue};
ghost use Rattle.sqlite.specs.Held.{state};
ghost use Rattle.sqlite_catalog.specs.Change.{is_used};
ghost use Rattle.plan_tables_loading.specs.Reading.{HasPlan};
ghost use Rattle.plan_tables_schema.specs.Schema.{name};
ghost use Rattle.plan_tables_schema.specs.declared.tables.Table.TheVariants.{Meta};
ghost use Rattle.plan_tables_opening.specs.Opened.{HasRoom};
ghost use Rattle.plan_tables_opening.specs.Opening.{IsFound};

use crate::standing::{can_make, stand_among};
use plan_tables_schema::make_tables;
use sqlite::{Alter, Connection, Error};
use sqlite_catalog::layout::is_used;
use sqlite_schema::schema::Schema;
use std::alloc::Global;

/// What is in a database.
#[derive(Clone, Copy, Debug, PartialEq, Eq)]
pub(crate) enum Found {
    /// The tables of a plan, and perhaps others.
    Plan,
    /// None of these, and nothing that is in their way.
    Room,
    /// None of these, and something that is.
    Others,
}

/// What is in the database: it is compared with the tables of a plan, as `make_tables` makes them in memory.
pub(crate) fn find_tables<S: Alter>(alloc: Global, conn: &Connection<S>) -> Result<Found, Error>
    ensures { IfOk result (IsFound (state S.Store conn.now)) }
{
    let mut made = Connection::open_in_memory(alloc)?;
    make_tables(&mut made)?;
    let (schema, plan) = (conn.schema(), made.schema());
    if stand_among(schema.tables.as_slice(), plan.tables.as_slice()) {
        Ok(Found::Plan)
    } else if can_make(schema, plan) {
        Ok(Found::Room)
    } else {
        Ok(Found::Others)
    }
}

// Whether something has the name of `plan_meta`.
fn is_meta_used(schema: &Schema) -> bool
    ensures { result ≡ is_used schema.now (name Meta) }
{
    is_used(schema, b"plan_meta")
}

/// Whether something in the database has the name of `plan_meta`. That is so where the tables of a plan are, and not
/// where there is room for them.
pub fn has_meta<S: Alter>(conn: &Connection<S>) -> bool
    ensures plan { HasPlan (state S.Store conn.now) → IsTrue result }
    ensures room { HasRoom (state S.Store conn.now) → result ≡ false }
{
    is_meta_used(conn.schema())
}
