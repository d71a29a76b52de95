// Queries of a database, whatever its tables are.

ghost use Rattle.std.specs.Prelude.{◌≡◌, false, [], None, IfErr, IfOk, IfSome, OnOk};
ghost use Rattle.sqlite.specs.State.{HasCleanDisk, IsUnchanged, Shown, Survives};
ghost use Rattle.sqlite.specs.Held.{state};
ghost use Rattle.plan_tables_opening.specs.Foreign.{RefusesToShow};
ghost use Rattle.plan_tables_opening.specs.Queries.{IsReading};
ghost use Rattle.plan_tables_opening.specs.Kept.{IsKept};
ghost use Rattle.plan_migrations.specs.Asking.{IsFailure};

use crate::faults::MigrateFault;
use plan_tables_opening::{OpenFault, fault_for};
use sqlite::{Alter, Connection, Row as Cells};

/// All rows that the text selects; `None` if the database refuses for another reason than memory or the device.
pub(crate) fn ask<S: Alter>(
    conn: &mut Connection<S>,
    text: &str,
) -> Result<Option<Vec<Cells>>, MigrateFault>
    requires reading { IsReading text.now }
    requires mode { conn.old.in_transaction ≡ false }
    ensures shown { HasCleanDisk (state S.Store conn.new)
        → IfOk result (λ found. IfSome found (λ rows.
        Shown text.now [] (state S.Store conn.old) (state S.Store conn.new) rows.items)) }
    ensures refused { HasCleanDisk (state S.Store conn.new)
        → IfOk result (λ found. found ≡ None
        → RefusesToShow text.now (state S.Store conn.old) (state S.Store conn.new)) }
    ensures failed { HasCleanDisk (state S.Store conn.new)
        → IfErr result (IsFailure text.now (state S.Store conn.old) (state S.Store conn.new)) }
    ensures same { HasCleanDisk (state S.Store conn.new)
        → OnOk result (IsUnchanged (state S.Store conn.old) (state S.Store conn.new)) }
    ensures kept { HasCleanDisk (state S.Store conn.new)
        → IsKept (state S.Store conn.old) (state S.Store conn.new) }
    ensures mode { conn.new.in_transaction ≡ false }
    ensures crash { Survives (state S.Store conn.old) (state S.Store conn.new) (λ _. ⊥) }
{
    let settled = conn.is_autocommit();
    prove!(settled);
    match conn.query_all(text, &[]) {
        Ok(rows) => Ok(Some(rows)),
        Err(error) => match fault_for(&error, OpenFault::Unopened) {
            OpenFault::Memory => Err(MigrateFault::Memory),
            OpenFault::Device => Err(MigrateFault::Device),
            _ => Ok(None),
        },
    }
}
