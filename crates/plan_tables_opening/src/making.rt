// A database gets the tables of a plan.

ghost use Rattle.std.specs.Prelude.{◌≡◌, false};
ghost use Rattle.plan_tables_schema.specs.Made.{IsMadeWhole, IsReady};
ghost use Rattle.plan_tables_schema.specs.Rows.{MayFail};
ghost use Rattle.plan_tables_schema.specs.Writes.{Commits, Makes};
ghost use Rattle.plan_tables_opening.specs.First.{IsMadeFirst, IsNewPlan};
ghost use Rattle.plan_tables_opening.specs.Opened.{HasRoom, MakesFirst};

use app_definitions::MAX_EXTENSION_HOURS;
use plan_tables_schema::{SCHEMA_VERSION, Table, insert, make_all};
use sqlite::types::ValueRef;
use sqlite::{Alter, Connection, Error, Transaction};

// Stores that there is no plan, and the options that hold where none are given.
fn put_first<S: Alter>(tx: &mut Transaction<'_, S>) -> Result<(), Error>
    ensures { Makes S.Store tx.old tx.new result IsMadeWhole IsMadeFirst }
{
    insert(
        tx,
        Table::Meta,
        &[
            ValueRef::Int(1),
            ValueRef::Int(SCHEMA_VERSION as i64),
            ValueRef::Int(0),
            ValueRef::Int(0),
            ValueRef::Int(0),
            ValueRef::Int(0),
            ValueRef::Int(0),
            ValueRef::Text(b"DEFAULT"),
            ValueRef::Int(MAX_EXTENSION_HOURS as i64),
        ],
    )
}

// Makes the tables and their first row, in a transaction that is open.
fn make_inside<S: Alter>(tx: &mut Transaction<'_, S>) -> Result<(), Error>
    ensures { Makes S.Store tx.old tx.new result IsReady IsMadeFirst }
{
    make_all(tx)?;
    put_first(tx)
}

/// Makes the tables, next to those of the database, if nothing is in their way, with the first row of `plan_meta`, in
/// one transaction. It fails only if memory is refused, the device fails, the connection was closed, or a limit on
/// steps is reached.
pub(crate) fn make_first<S: Alter>(conn: &mut Connection<S>) -> Result<(), Error>
    requires { conn.old.in_transaction ≡ false }
    ensures { Commits S.Store conn.old conn.new result HasRoom IsNewPlan MayFail MakesFirst }
{
    let settled = conn.is_autocommit();
    prove!(settled);
    let mut tx = conn.transaction();
    make_inside(&mut tx)?;
    tx.commit()?;
    Ok(())
}
