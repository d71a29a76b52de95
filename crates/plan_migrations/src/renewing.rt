// The tables of schema 1 are made those of the current schema.

ghost use Rattle.std.specs.Prelude.{◌≡◌, false, IfErr, IfOk, IsTrue, OnErr, OnOk};
ghost use Rattle.std.specs.List.{All};
ghost use Rattle.sqlite.specs.State.{HasCleanDisk, IsUnchanged, Survives};
ghost use Rattle.sqlite.specs.Held.{state};
ghost use Rattle.plan_tables_schema.specs.Rows.{tables_of};
ghost use Rattle.plan_migrations_remaking.specs.FirstSchema.{CanRemake};
ghost use Rattle.plan_migrations_remaking.specs.Remaking.{AreAllFirst, AreWhole, CanRemakeOf, HaveStayingRowids};
ghost use Rattle.plan_migrations_remaking.specs.Remaking.{RemakesTo};
ghost use Rattle.plan_tables_opening.specs.Kept.{IsKept};
ghost use Rattle.plan_migrations.specs.FirstContent.{AreOfFirst};
ghost use Rattle.plan_migrations.specs.Migrating.{AreShown, FailsToRemake, IsRemade, IsRenewed};
ghost use Rattle.plan_migrations.specs.Migrating.{IsUnrenewed, MayRenew};

use crate::contents::{check_content, remake_fault};
use crate::faults::MigrateFault;
use crate::first_tables::{has_first_tables, read_tables};
use crate::rowids::check_rowids;
use plan_migrations_remaking::{FirstRows, remake_tables};
use plan_tables_schema::TABLES;
use sqlite::{Alter, Connection};
use std::alloc::Global;

// Replaces the tables by new ones with the rows that were read.
fn remake<S: Alter>(
    alloc: Global,
    conn: &mut Connection<S>,
    reads: &[FirstRows],
) -> Result<(), MigrateFault>
    requires mode { conn.old.in_transaction ≡ false }
    requires whole { AreWhole reads.now }
    requires typed { AreAllFirst reads.now }
    ensures remade { HasCleanDisk (state S.Store conn.new)
        → CanRemakeOf reads.now (state S.Store conn.old).now
        → OnOk result (IsRemade reads.now (state S.Store conn.old) (state S.Store conn.new)) }
    ensures failed { HasCleanDisk (state S.Store conn.new)
        → CanRemakeOf reads.now (state S.Store conn.old).now
        → IfErr result (FailsToRemake reads.now (state S.Store conn.old) (state S.Store conn.new)) }
    ensures kept { HasCleanDisk (state S.Store conn.new)
        → CanRemakeOf reads.now (state S.Store conn.old).now
        → OnErr result (IsKept (state S.Store conn.old) (state S.Store conn.new)) }
    ensures mode { conn.new.in_transaction ≡ false }
    ensures crash { Survives (state S.Store conn.old) (state S.Store conn.new)
        (λ db. CanRemakeOf reads.now (state S.Store conn.old).now
        → RemakesTo reads.now (state S.Store conn.old).now db) }
{
    match remake_tables(conn, alloc, reads) {
        Ok(()) => Ok(()),
        Err(error) => Err(remake_fault(&error)),
    }
}

// Reads the rows of the tables of schema 1, and checks the rowids of those that stay.
fn read_first<S: Alter>(
    alloc: Global,
    conn: &mut Connection<S>,
) -> Result<Vec<FirstRows>, MigrateFault>
    requires mode { conn.old.in_transaction ≡ false }
    requires first { CanRemake (state S.Store conn.old).now.schema }
    requires open { HasCleanDisk (state S.Store conn.old)
        → IsTrue (state S.Store conn.old).is_open }
    ensures whole { IfOk result (λ reads. AreWhole reads.items) }
    ensures typed { IfOk result (λ reads. AreAllFirst reads.items) }
    ensures shown { HasCleanDisk (state S.Store conn.new)
        → IfOk result (λ reads. All (AreShown (state S.Store conn.old) (state S.Store conn.new))
        reads.items) }
    ensures rowids { HasCleanDisk (state S.Store conn.new)
        → OnOk result (HaveStayingRowids (tables_of (state S.Store conn.old).now.trees)) }
    ensures same { HasCleanDisk (state S.Store conn.new)
        → OnOk result (IsUnchanged (state S.Store conn.old) (state S.Store conn.new)) }
    ensures unread { HasCleanDisk (state S.Store conn.new)
        → IfErr result (IsUnrenewed (state S.Store conn.old) (state S.Store conn.new)) }
    ensures kept { HasCleanDisk (state S.Store conn.new)
        → IsKept (state S.Store conn.old) (state S.Store conn.new) }
    ensures mode { conn.new.in_transaction ≡ false }
    ensures crash { Survives (state S.Store conn.old) (state S.Store conn.new) (λ _. ⊥) }
{
    // its clause says that an open connection has a database
    let _ = conn.schema();
    let reads = read_tables(alloc, conn, &TABLES)?;
    check_rowids(conn, &TABLES)?;
    Ok(reads)
}

// The same with the rows that the tables have, if their content is sound.
fn renew_first<S: Alter>(alloc: Global, conn: &mut Connection<S>) -> Result<(), MigrateFault>
    requires mode { conn.old.in_transaction ≡ false }
    requires first { CanRemake (state S.Store conn.old).now.schema }
    requires open { HasCleanDisk (state S.Store conn.old)
        → IsTrue (state S.Store conn.old).is_open }
    requires told { HasCleanDisk (state S.Store conn.old)
        → AreOfFirst (tables_of (state S.Store conn.old).now.trees) }
    ensures renewed { HasCleanDisk (state S.Store conn.new)
        → OnOk result (IsRenewed (state S.Store conn.old) (state S.Store conn.new)) }
    ensures unrenewed { HasCleanDisk (state S.Store conn.new)
        → IfErr result (IsUnrenewed (state S.Store conn.old) (state S.Store conn.new)) }
    ensures kept { HasCleanDisk (state S.Store conn.new)
        → OnErr result (IsKept (state S.Store conn.old) (state S.Store conn.new)) }
    ensures mode { conn.new.in_transaction ≡ false }
    ensures crash { Survives (state S.Store conn.old) (state S.Store conn.new)
        (MayRenew (state S.Store conn.old)) }
{
    // its clause says that an open connection has a database
    let _ = conn.schema();
    let reads = read_first(alloc, conn)?;
    check_content(alloc, &reads)?;
    remake(alloc, conn, &reads)
}

/// Makes the tables of schema 1 those of the current schema, with their rows, all of them or none, where their content
/// is sound.
pub(crate) fn renew<S: Alter>(alloc: Global, conn: &mut Connection<S>) -> Result<(), MigrateFault>
    requires mode { conn.old.in_transaction ≡ false }
    requires open { HasCleanDisk (state S.Store conn.old)
        → IsTrue (state S.Store conn.old).is_open }
    requires told { HasCleanDisk (state S.Store conn.old)
        → CanRemake (state S.Store conn.old).now.schema
        → AreOfFirst (tables_of (state S.Store conn.old).now.trees) }
    ensures renewed { HasCleanDisk (state S.Store conn.new)
        → OnOk result (IsRenewed (state S.Store conn.old) (state S.Store conn.new)) }
    ensures unrenewed { HasCleanDisk (state S.Store conn.new)
        → IfErr result (IsUnrenewed (state S.Store conn.old) (state S.Store conn.new)) }
    ensures kept { HasCleanDisk (state S.Store conn.new)
        → OnErr result (IsKept (state S.Store conn.old) (state S.Store conn.new)) }
    ensures mode { conn.new.in_transaction ≡ false }
    ensures crash { Survives (state S.Store conn.old) (state S.Store conn.new)
        (MayRenew (state S.Store conn.old)) }
{
    match has_first_tables(alloc, conn) {
        Ok(is_first) => if is_first {
            renew_first(alloc, conn)
        } else {
            Err(MigrateFault::OtherTable)
        },
        Err(_) => Err(MigrateFault::Memory),
    }
}
