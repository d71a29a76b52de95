// The tables of schema 1 that change are dropped.

ghost use Rattle.std.specs.Prelude.{[], ◌∷◌};
ghost use Rattle.plan_tables_schema.specs.declared.tables.Table.TheVariants.{LinkInForce};
ghost use Rattle.plan_migrations_remaking.specs.FirstSchema.{changed};
ghost use Rattle.plan_migrations_remaking.specs.Refusals.{RefusesToLose};
ghost use Rattle.plan_migrations_remaking.specs.Turns.{IsLosing, TurnsUnless};

use crate::texts::{drop_links_text, drop_predecessors_text};
use sqlite::{Alter, Error, Transaction};

fn drop_links<S: Alter>(tx: &mut Transaction<'_, S>) -> Result<(), Error>
    ensures { TurnsUnless S.Store tx.old tx.new result (IsLosing [])
        (IsLosing (LinkInForce ∷ [])) RefusesToLose }
{
    tx.execute(drop_links_text(), &[])?;
    Ok(())
}

fn drop_predecessors<S: Alter>(tx: &mut Transaction<'_, S>) -> Result<(), Error>
    ensures { TurnsUnless S.Store tx.old tx.new result (IsLosing (LinkInForce ∷ []))
        (IsLosing changed) RefusesToLose }
{
    tx.execute(drop_predecessors_text(), &[])?;
    Ok(())
}

/// Drops the two tables.
pub(crate) fn drop_changed<S: Alter>(tx: &mut Transaction<'_, S>) -> Result<(), Error>
    ensures { TurnsUnless S.Store tx.old tx.new result (IsLosing []) (IsLosing changed)
        RefusesToLose }
{
    drop_links(tx)?;
    drop_predecessors(tx)
}
