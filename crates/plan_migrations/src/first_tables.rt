// The tables of schema 1.

ghost use Rattle.std.specs.Prelude.{◌≡◌, ◌↔◌, false, IfErr, IfOk, IsTrue, OnOk};
ghost use Rattle.std.specs.List.{All};
ghost use Rattle.sqlite.specs.State.{HasCleanDisk, IsUnchanged, Survives};
ghost use Rattle.sqlite.specs.Held.{state};
ghost use Rattle.plan_migrations_remaking.specs.FirstSchema.{CanRemake};
ghost use Rattle.plan_migrations_remaking.specs.Leaving.{left_by};
ghost use Rattle.plan_tables_schema.specs.Free.{CanMake};
ghost use Rattle.plan_tables_opening.specs.Standing.{StandAmong};
ghost use Rattle.plan_tables_opening.specs.Kept.{IsKept};
ghost use Rattle.plan_migrations.specs.Migrating.{AreShown, FailsToRead, FailsToReadAll};
ghost use Rattle.plan_migrations_remaking.specs.Remaking.{AreAllFirst, tables_in};
ghost use Rattle.plan_migrations_remaking.specs.Types.{AreFirst};

use crate::asking::ask;
use crate::faults::MigrateFault;
use plan_migrations_remaking::{
    FirstRows, are_first, first_select_text, left_without, make_changed_tables, make_first_tables,
};
use plan_tables_opening::{can_make, stand_among};
use plan_tables_schema::Table;
use sqlite::{Alter, Connection, Error};
use sqlite_schema::schema::Schema;
use std::alloc::{AllocError, Global};

// Whether the first tables are in the schema, in any place, and those that change can be made in what is left without
// them.
fn can_remake(
    alloc: Global,
    schema: &Schema,
    first: &Schema,
    changed: &Schema,
) -> Result<bool, AllocError>
    ensures { IfOk result (λ b. IsTrue b ↔ (StandAmong schema.now.tables first.now.tables
        × CanMake (left_by schema.now changed.now.tables) changed.now)) }
{
    if !stand_among(schema.tables.as_slice(), first.tables.as_slice()) {
        return Ok(false);
    }
    let left = left_without(alloc, schema, changed.tables.as_slice())?;
    Ok(can_make(&left, changed))
}

/// Whether the tables of schema 1 are in the database, in any place, and nothing is in the way of the two of schema 2
/// that replace those that change.
pub(crate) fn has_first_tables<S: Alter>(alloc: Global, conn: &Connection<S>) -> Result<bool, Error>
    ensures { IfOk result (λ b. IsTrue b ↔ CanRemake (state S.Store conn.now).now.schema) }
{
    let mut first = Connection::open_in_memory(alloc)?;
    make_first_tables(&mut first)?;
    let mut changed = Connection::open_in_memory(alloc)?;
    make_changed_tables(&mut changed)?;
    Ok(can_remake(alloc, conn.schema(), first.schema(), changed.schema())?)
}

// Reads the rows of the table.
fn read_table<S: Alter>(conn: &mut Connection<S>, table: Table) -> Result<FirstRows, MigrateFault>
    requires { conn.old.in_transaction ≡ false }
    ensures named { IfOk result (λ read. read.table ≡ table) }
    ensures typed { IfOk result (λ read. AreFirst read.table read.rows.items) }
    ensures shown { HasCleanDisk (state S.Store conn.new)
        → IfOk result (AreShown (state S.Store conn.old) (state S.Store conn.new)) }
    ensures same { HasCleanDisk (state S.Store conn.new)
        → OnOk result (IsUnchanged (state S.Store conn.old) (state S.Store conn.new)) }
    ensures unread { HasCleanDisk (state S.Store conn.new)
        → IfErr result (FailsToRead (state S.Store conn.old) (state S.Store conn.new) table) }
    ensures kept { HasCleanDisk (state S.Store conn.new)
        → IsKept (state S.Store conn.old) (state S.Store conn.new) }
    ensures mode { conn.new.in_transaction ≡ false }
    ensures crash { Survives (state S.Store conn.old) (state S.Store conn.new) (λ _. ⊥) }
{
    match ask(conn, first_select_text(table))? {
        Some(rows) => if are_first(table, &rows) {
            Ok(FirstRows { table, rows })
        } else {
            Err(MigrateFault::OtherTable)
        },
        None => Err(MigrateFault::OtherTable),
    }
}

/// Reads the rows of the tables, up to the first that is not of its schema.
pub(crate) fn read_tables<S: Alter>(
    alloc: Global,
    conn: &mut Connection<S>,
    tables: &[Table],
) -> Result<Vec<FirstRows>, MigrateFault>
    requires mode { conn.old.in_transaction ≡ false }
    requires open { HasCleanDisk (state S.Store conn.old)
        → IsTrue (state S.Store conn.old).is_open }
    ensures whole { IfOk result (λ reads. tables_in reads.items ≡ tables.now) }
    ensures typed { IfOk result (λ reads. AreAllFirst reads.items) }
    ensures shown { HasCleanDisk (state S.Store conn.new)
        → IfOk result (λ reads. All (AreShown (state S.Store conn.old) (state S.Store conn.new))
        reads.items) }
    ensures same { HasCleanDisk (state S.Store conn.new)
        → OnOk result (IsUnchanged (state S.Store conn.old) (state S.Store conn.new)) }
    ensures unread { HasCleanDisk (state S.Store conn.new)
        → IfErr result (FailsToReadAll (state S.Store conn.old) (state S.Store conn.new)) }
    ensures kept { HasCleanDisk (state S.Store conn.new)
        → IsKept (state S.Store conn.old) (state S.Store conn.new) }
    ensures mode { conn.new.in_transaction ≡ false }
    ensures crash { Survives (state S.Store conn.old) (state S.Store conn.new) (λ _. ⊥) }
{
    let mut reads = Vec::new(alloc);
    for table in tables {
        let read = read_table(conn, *table)?;
        match reads.push(read) {
            Ok(()) => {}
            Err(_) => return Err(MigrateFault::Memory),
        }
    }
    Ok(reads)
}
