// The tables of a plan are made in memory, with rows of schema 1.

ghost use Rattle.std.specs.Prelude.{◌≡◌, ◌⊎◌, false, None, IfErr, IfOk, IsTrue};
ghost use Rattle.sqlite.specs.Held.{state};
ghost use Rattle.sqlite.specs.Steps.{over_memory};
ghost use Rattle.sqlite.specs.declared.error.Error.TheVariants.{SqliteFailure};
ghost use Rattle.sqlite.specs.declared.error.ErrorCode.TheVariants.{OutOfMemory};
ghost use Rattle.plan_tables_schema.specs.Free.{IsFree};
ghost use Rattle.plan_tables_schema.specs.Rows.{IsPlan, no_rows, tables_of};
ghost use Rattle.plan_tables_schema.specs.Schema.{plan_schema};
ghost use Rattle.plan_tables_schema.specs.Writes.{Commits};
ghost use Rattle.plan_migrations_remaking.specs.Refusals.{FailsFor};
ghost use Rattle.plan_migrations_remaking.specs.Remaking.{AreAllFirst, AreRemade, AreWhole, CanFill, IsFilled, IsFilledOnce};
ghost use Rattle.plan_migrations_remaking.specs.Remaking.{RefusesToFill, RefusesToFillAll, with_all_put};
ghost use Rattle.plan_migrations_remaking.specs.Turns.{TurnsUnless};

use crate::putting::put_all;
use crate::rows::FirstRows;
use plan_tables_schema::make_all;
use sqlite::{Alter, Connection, Error, MemStore, Transaction};
use std::alloc::Global;

/// Makes the tables of a plan with these rows, in a transaction that is open.
pub(crate) fn fill<S: Alter>(
    tx: &mut Transaction<'_, S>,
    alloc: Global,
    reads: &[FirstRows],
) -> Result<(), Error>
    ensures { TurnsUnless S.Store tx.old tx.new result (CanFill reads.now) (IsFilled reads.now)
        (RefusesToFillAll reads.now) }
{
    make_all(tx)?;
    put_all(tx, alloc, reads)
}

// Makes the tables of a plan with these rows, where nothing is in their way.
fn fill_tables<S: Alter>(
    conn: &mut Connection<S>,
    alloc: Global,
    reads: &[FirstRows],
) -> Result<(), Error>
    requires mode { conn.old.in_transaction ≡ false }
    requires whole { AreWhole reads.now }
    requires typed { AreAllFirst reads.now }
    ensures { Commits S.Store conn.old conn.new result (λ s. IsFree s.now.schema)
        (IsFilledOnce reads.now)
        (λ old. FailsFor (RefusesToFillAll reads.now old.step_limit old.now) old)
        (λ _ db. AreRemade reads.now (tables_of db)) }
{
    let settled = conn.is_autocommit();
    prove!(settled);
    let mut tx = conn.transaction();
    fill(&mut tx, alloc, reads)?;
    tx.commit()?;
    Ok(())
}

/// A database in memory that has the tables of a plan alone, which show these rows of schema 1 as those of schema 2.
/// It fails if memory is refused, or because they don't accept one of the rows.
pub fn plan_in_memory(alloc: Global, reads: &[FirstRows]) -> Result<Connection<MemStore>, Error>
    requires whole { AreWhole reads.now }
    requires typed { AreAllFirst reads.now }
    ensures plan { IfOk result (λ conn. IsPlan (state over_memory conn)) }
    ensures rows { IfOk result (λ conn.
        AreRemade reads.now (tables_of (state over_memory conn).now.trees)) }
    ensures open { IfOk result (λ conn. IsTrue (state over_memory conn).is_open) }
    ensures limit { IfOk result (λ conn. (state over_memory conn).step_limit ≡ None) }
    ensures mode { IfOk result (λ conn. conn.in_transaction ≡ false) }
    ensures fails { IfErr result (λ e. (e ≡ SqliteFailure OutOfMemory)
        ⊎ RefusesToFill None plan_schema (with_all_put reads.now no_rows) e) }
{
    let mut conn = Connection::open_in_memory(alloc)?;
    fill_tables(&mut conn, alloc, reads)?;
    Ok(conn)
}
