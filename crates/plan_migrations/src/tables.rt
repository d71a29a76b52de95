// Tables that are of their schema.

ghost use Rattle.std.specs.Prelude.{◌≡◌, false, IsTrue};
ghost use Rattle.sqlite.specs.State.{HasCleanDisk, Survives};
ghost use Rattle.sqlite.specs.Held.{state};
ghost use Rattle.plan_tables_opening.specs.Kept.{IsKept};
ghost use Rattle.plan_migrations.specs.Migrating.{ChecksTable, ChecksTables};

use crate::asking::ask;
use crate::faults::MigrateFault;
use plan_migrations_remaking::are_typed;
use plan_tables_schema::{Table, select_text};
use sqlite::{Alter, Connection};

// Checks that the table is of its schema.
fn check_table<S: Alter>(conn: &mut Connection<S>, table: &Table) -> Result<(), MigrateFault>
    requires { conn.old.in_transaction ≡ false }
    ensures checked { HasCleanDisk (state S.Store conn.new)
        → ChecksTable (state S.Store conn.old) (state S.Store conn.new) table.now result }
    ensures kept { HasCleanDisk (state S.Store conn.new)
        → IsKept (state S.Store conn.old) (state S.Store conn.new) }
    ensures mode { conn.new.in_transaction ≡ false }
    ensures crash { Survives (state S.Store conn.old) (state S.Store conn.new) (λ _. ⊥) }
{
    match ask(conn, select_text(*table))? {
        Some(rows) => if are_typed(*table, &rows) {
            Ok(())
        } else {
            Err(MigrateFault::OtherTable)
        },
        None => Err(MigrateFault::OtherTable),
    }
}

/// Checks that the tables are of their schema, up to the first that is not.
pub(crate) fn check_tables<S: Alter>(
    conn: &mut Connection<S>,
    tables: &[Table],
) -> Result<(), MigrateFault>
    requires mode { conn.old.in_transaction ≡ false }
    requires open { HasCleanDisk (state S.Store conn.old)
        → IsTrue (state S.Store conn.old).is_open }
    ensures checked { HasCleanDisk (state S.Store conn.new)
        → ChecksTables (state S.Store conn.old) (state S.Store conn.new) tables.now result }
    ensures kept { HasCleanDisk (state S.Store conn.new)
        → IsKept (state S.Store conn.old) (state S.Store conn.new) }
    ensures mode { conn.new.in_transaction ≡ false }
    ensures crash { Survives (state S.Store conn.old) (state S.Store conn.new) (λ _. ⊥) }
{
    for table in tables {
        check_table(conn, table)?;
    }
    Ok(())
}
