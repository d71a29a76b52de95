// The rowids of the tables of schema 1 that stay.

ghost use Rattle.std.specs.Prelude.{◌≡◌, false, IsTrue, OnOk};
ghost use Rattle.sqlite.specs.State.{HasCleanDisk, IsUnchanged, Survives};
ghost use Rattle.sqlite.specs.Held.{state};
ghost use Rattle.plan_migrations_remaking.specs.FirstSchema.{CanRemake, is_changed};
ghost use Rattle.plan_tables_opening.specs.Kept.{IsKept};
ghost use Rattle.plan_migrations.specs.Migrating.{ChecksAllRowids, ChecksRowids};

use crate::asking::ask;
use crate::faults::MigrateFault;
use plan_tables_opening::{are_rowids, rowid_text};
use plan_tables_schema::Table;
use sqlite::{Alter, Connection};

// Whether the table is replaced, so that its rowids are chosen anew.
fn is_changed(table: Table) -> bool
    ensures { result ≡ is_changed table }
{
    matches!(table, Table::Predecessor | Table::LinkInForce)
}

// Checks that the rowids of a table that stays are integers, none of them twice.
fn check_staying<S: Alter>(conn: &mut Connection<S>, table: Table) -> Result<(), MigrateFault>
    requires mode { conn.old.in_transaction ≡ false }
    requires stays { is_changed table ≡ false }
    ensures checked { HasCleanDisk (state S.Store conn.new)
        → CanRemake (state S.Store conn.old).now.schema
        → ChecksRowids (state S.Store conn.old) (state S.Store conn.new) table result }
    ensures same { HasCleanDisk (state S.Store conn.new)
        → OnOk result (IsUnchanged (state S.Store conn.old) (state S.Store conn.new)) }
    ensures kept { HasCleanDisk (state S.Store conn.new)
        → IsKept (state S.Store conn.old) (state S.Store conn.new) }
    ensures mode { conn.new.in_transaction ≡ false }
    ensures crash { Survives (state S.Store conn.old) (state S.Store conn.new) (λ _. ⊥) }
{
    // its clause says that an open connection has a database
    let _ = conn.schema();
    match ask(conn, rowid_text(table))? {
        Some(rows) => {
            let mut shown = rows;
            if are_rowids(&mut shown) {
                Ok(())
            } else {
                Err(MigrateFault::Rows)
            }
        }
        None => Err(MigrateFault::OtherTable),
    }
}

// The same, if the table is one of those that stay.
fn check_table<S: Alter>(conn: &mut Connection<S>, table: Table) -> Result<(), MigrateFault>
    requires mode { conn.old.in_transaction ≡ false }
    requires open { HasCleanDisk (state S.Store conn.old)
        → IsTrue (state S.Store conn.old).is_open }
    ensures checked { HasCleanDisk (state S.Store conn.new)
        → CanRemake (state S.Store conn.old).now.schema
        → ChecksRowids (state S.Store conn.old) (state S.Store conn.new) table result }
    ensures same { HasCleanDisk (state S.Store conn.new)
        → OnOk result (IsUnchanged (state S.Store conn.old) (state S.Store conn.new)) }
    ensures kept { HasCleanDisk (state S.Store conn.new)
        → IsKept (state S.Store conn.old) (state S.Store conn.new) }
    ensures mode { conn.new.in_transaction ≡ false }
    ensures crash { Survives (state S.Store conn.old) (state S.Store conn.new) (λ _. ⊥) }
{
    let stays = !is_changed(table);
    if stays {
        check_staying(conn, table)
    } else {
        Ok(())
    }
}

/// Checks that the rowids of the tables that stay are integers, none of them twice in its table.
pub(crate) fn check_rowids<S: Alter>(
    conn: &mut Connection<S>,
    tables: &[Table],
) -> Result<(), MigrateFault>
    requires mode { conn.old.in_transaction ≡ false }
    requires open { HasCleanDisk (state S.Store conn.old)
        → IsTrue (state S.Store conn.old).is_open }
    ensures checked { HasCleanDisk (state S.Store conn.new)
        → CanRemake (state S.Store conn.old).now.schema
        → ChecksAllRowids (state S.Store conn.old) (state S.Store conn.new) tables.now result }
    ensures same { HasCleanDisk (state S.Store conn.new)
        → OnOk result (IsUnchanged (state S.Store conn.old) (state S.Store conn.new)) }
    ensures kept { HasCleanDisk (state S.Store conn.new)
        → IsKept (state S.Store conn.old) (state S.Store conn.new) }
    ensures mode { conn.new.in_transaction ≡ false }
    ensures crash { Survives (state S.Store conn.old) (state S.Store conn.new) (λ _. ⊥) }
{
    for table in tables {
        check_table(conn, *table)?;
    }
    Ok(())
}
