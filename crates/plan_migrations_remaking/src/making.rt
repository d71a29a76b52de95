// The tables of schema 1 are made.

ghost use Rattle.std.specs.Prelude.{◌≡◌, false, OnOk};
ghost use Rattle.sqlite.specs.State.{HasCleanDisk};
ghost use Rattle.sqlite.specs.Held.{state};
ghost use Rattle.plan_tables_schema.specs.Schema.{no_schema};
ghost use Rattle.plan_migrations_remaking.specs.FirstSchema.{first_after, first_before, first_schema};
ghost use Rattle.plan_migrations_remaking.specs.Refusals.{RefusesToBegin};
ghost use Rattle.plan_migrations_remaking.specs.Turns.{IsInside, TurnsUnless};

use crate::texts::first_create_text;
use plan_tables_schema::{TABLES, Table};
use sqlite::{Alter, Connection, Error, Transaction};

// Makes the table, which is the next.
fn make<S: Alter>(tx: &mut Transaction<'_, S>, table: Table) -> Result<(), Error>
    ensures { TurnsUnless S.Store tx.old tx.new result (IsInside (first_before table))
        (IsInside (first_after table)) RefusesToBegin }
{
    tx.execute(first_create_text(table), &[])?;
    Ok(())
}

fn make_all<S: Alter>(tx: &mut Transaction<'_, S>) -> Result<(), Error>
    ensures { TurnsUnless S.Store tx.old tx.new result (IsInside no_schema)
        (IsInside first_schema) RefusesToBegin }
{
    for table in &TABLES {
        make(tx, *table)?;
    }
    Ok(())
}

/// Makes the tables of schema 1 in an empty database.
pub fn make_first_tables<S: Alter>(conn: &mut Connection<S>) -> Result<(), Error>
    requires { conn.old.in_transaction ≡ false }
    ensures { HasCleanDisk (state S.Store conn.new)
        → (state S.Store conn.old).now.schema ≡ no_schema
        → OnOk result ((state S.Store conn.new).now.schema ≡ first_schema) }
{
    let mut tx = conn.transaction();
    make_all(&mut tx)?;
    tx.commit()?;
    Ok(())
}
