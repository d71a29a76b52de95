// The two tables that change are made as those of schema 2.

ghost use Rattle.std.specs.Prelude.{◌≡◌, false, OnOk};
ghost use Rattle.sqlite.specs.State.{HasCleanDisk};
ghost use Rattle.sqlite.specs.Held.{state};
ghost use Rattle.plan_tables_schema.specs.Schema.{no_schema};
ghost use Rattle.plan_tables_schema.specs.Writes.{Makes};
ghost use Rattle.plan_migrations_remaking.specs.FirstSchema.{changed_schema};
ghost use Rattle.plan_migrations_remaking.specs.Turns.{AreChangedMade, CanMakeChanged, CanMakeOne, IsOneMade};

use plan_tables_schema::{Table, create_text};
use sqlite::{Alter, Connection, Error, Transaction};

fn make<S: Alter>(tx: &mut Transaction<'_, S>, table: Table) -> Result<(), Error>
    ensures { Makes S.Store tx.old tx.new result (CanMakeOne table) (IsOneMade table) }
{
    tx.execute(create_text(table), &[])?;
    Ok(())
}

/// Makes the two tables, after those of the database, inside a transaction, if nothing is in their way. It fails only
/// if memory is refused, the device fails, the connection was closed, or a limit on steps is reached.
pub(crate) fn make_changed<S: Alter>(tx: &mut Transaction<'_, S>) -> Result<(), Error>
    ensures { Makes S.Store tx.old tx.new result CanMakeChanged AreChangedMade }
{
    make(tx, Table::Predecessor)?;
    make(tx, Table::LinkInForce)
}

/// Makes the two tables that differ in schema 2, as schema 2 has them, in an empty database.
pub fn make_changed_tables<S: Alter>(conn: &mut Connection<S>) -> Result<(), Error>
    requires { conn.old.in_transaction ≡ false }
    ensures { HasCleanDisk (state S.Store conn.new)
        → (state S.Store conn.old).now.schema ≡ no_schema
        → OnOk result ((state S.Store conn.new).now.schema ≡ changed_schema) }
{
    let mut tx = conn.transaction();
    make_changed(&mut tx)?;
    tx.commit()?;
    Ok(())
}
