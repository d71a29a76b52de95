// The tables of a plan get the rows that a migration writes.

ghost use Rattle.plan_tables_schema.specs.Rows.{without_key};
ghost use Rattle.plan_tables_schema.specs.Writes.{WritesWhere};
ghost use Rattle.plan_tables_schema.specs.declared.tables.Table.TheVariants.{Meta};
ghost use Rattle.std.specs.Prelude.{⊤};
ghost use Rattle.sqlite.specs.Effect.{IsDatabase};
ghost use Rattle.plan_migrations_remaking.specs.Remaking.{AreWhole, CanRefill, IsRefilled, RefusesToRefill, meta_key};
ghost use Rattle.plan_migrations_remaking.specs.Remaking.{DeletesMeta};
ghost use Rattle.plan_migrations_remaking.specs.Turns.{TurnsUnless};

use crate::putting::put_all;
use crate::rows::FirstRows;
use crate::texts::delete_meta_text;
use sqlite::types::ValueRef;
use sqlite::{Alter, Error, Transaction};
use std::alloc::Global;

// Deletes the row of `plan_meta`.
fn delete_meta<S: Alter>(tx: &mut Transaction<'_, S>) -> Result<(), Error>
    ensures writes { WritesWhere (λ _. ⊤) S.Store tx.old tx.new result (without_key Meta meta_key) }
    ensures accepts { DeletesMeta S.Store tx.old tx.new result }
{
    tx.execute(delete_meta_text(), &[ValueRef::Int(1)])?;
    Ok(())
}

/// Replaces the row of `plan_meta` by that of the current version, and inserts the rows of the two tables that change
/// into those of schema 2, which are empty.
pub(crate) fn refill<S: Alter>(
    tx: &mut Transaction<'_, S>,
    alloc: Global,
    reads: &[FirstRows],
) -> Result<(), Error>
    requires { AreWhole reads.now }
    ensures { TurnsUnless S.Store tx.old tx.new result (CanRefill reads.now) (IsRefilled reads.now)
        (RefusesToRefill reads.now) }
{
    delete_meta(tx)?;
    put_all(tx, alloc, &reads[..1])?;
    put_all(tx, alloc, &reads[6..8])
}
