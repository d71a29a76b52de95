// The tables of schema 1 that change are made anew.

ghost use Rattle.std.specs.Prelude.{◌≡◌, false, IfErr};
ghost use Rattle.sqlite.specs.State.{HasCleanDisk};
ghost use Rattle.sqlite.specs.Held.{state};
ghost use Rattle.plan_tables_schema.specs.Writes.{Commits};
ghost use Rattle.plan_migrations_remaking.specs.Refusals.{FailsFor};
ghost use Rattle.plan_migrations_remaking.specs.Remaking.{AreAllFirst, AreWhole, CanRemakeInside, CanRemakeOf};
ghost use Rattle.plan_migrations_remaking.specs.Remaking.{IsRemadeInside, IsRemadeOnce, RefusesToRemake, RemakesTo};
ghost use Rattle.plan_migrations_remaking.specs.Turns.{DeviceHasCause, TurnsUnless};

use crate::changing::make_changed;
use crate::dropping::drop_changed;
use crate::refilling::refill;
use crate::rows::FirstRows;
use sqlite::{Alter, Connection, Error, Transaction};
use std::alloc::Global;

// Makes the two tables anew with these rows, and replaces the row of `plan_meta`, in a transaction that is open.
fn remake<S: Alter>(
    tx: &mut Transaction<'_, S>,
    alloc: Global,
    reads: &[FirstRows],
) -> Result<(), Error>
    requires { AreWhole reads.now }
    ensures { TurnsUnless S.Store tx.old tx.new result (CanRemakeInside reads.now)
        (IsRemadeInside reads.now) (λ limit. RefusesToRemake limit reads.now) }
{
    drop_changed(tx)?;
    make_changed(tx)?;
    refill(tx, alloc, reads)
}

/// Makes the two tables of schema 1 that change anew as those of schema 2, with their rows, and replaces the row of
/// `plan_meta` by that of the current version, in one transaction: all of it or nothing, also over a crash. The other
/// tables stay as they are. `reads` has the rows of all tables.
pub fn remake_tables<S: Alter>(
    conn: &mut Connection<S>,
    alloc: Global,
    reads: &[FirstRows],
) -> Result<(), Error>
    requires mode { conn.old.in_transaction ≡ false }
    requires whole { AreWhole reads.now }
    requires typed { AreAllFirst reads.now }
    ensures commits { Commits S.Store conn.old conn.new result (λ s. CanRemakeOf reads.now s.now)
        (IsRemadeOnce reads.now)
        (λ old. FailsFor (RefusesToRemake old.step_limit reads.now old.now) old)
        (λ old. RemakesTo reads.now old.now) }
    ensures device { HasCleanDisk (state S.Store conn.new)
        → CanRemakeOf reads.now (state S.Store conn.old).now
        → IfErr result (DeviceHasCause (state S.Store conn.old) (state S.Store conn.new)) }
{
    let settled = conn.is_autocommit();
    prove!(settled);
    let mut tx = conn.transaction();
    remake(&mut tx, alloc, reads)?;
    tx.commit()?;
    Ok(())
}
