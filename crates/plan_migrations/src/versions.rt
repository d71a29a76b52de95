// The version of a plan.

ghost use Rattle.std.specs.Prelude.{◌≡◌, ◌⊎◌, ◌↔◌, false, IfErr, IfOk, IsSome, IsTrue, Some};
ghost use Rattle.sqlite.specs.State.{HasCleanDisk, Survives};
ghost use Rattle.sqlite.specs.Held.{state};
ghost use Rattle.plan_tables_schema.specs.declared.tables.TheConstants.{SCHEMA_VERSION};
ghost use Rattle.plan_tables_opening.specs.Foreign.{version_sql};
ghost use Rattle.plan_tables_opening.specs.Held.{HoldsPlan};
ghost use Rattle.plan_tables_opening.specs.Kept.{IsKept};
ghost use Rattle.plan_migrations.specs.Asking.{IsFailure};
ghost use Rattle.plan_migrations.specs.Schemas.{AreOf, TellsVersion};
ghost use Rattle.plan_migrations.specs.declared.versions.TheConstants.{FIRST_VERSION};

use crate::asking::ask;
use crate::faults::MigrateFault;
use plan_tables_opening::{is_known, version_text};
use plan_tables_schema::SCHEMA_VERSION;
use sqlite::types::ValueRef;
use sqlite::{Alter, Connection, Row as Cells};
use std::alloc::Global;

/// The version before the current one, whose lists of predecessors have no limits.
pub const FIRST_VERSION: u32 = 1;

// Whether these are the one row of the first version.
fn is_first(rows: &[Cells]) -> bool
    ensures { IsTrue result ↔ AreOf FIRST_VERSION rows.now }
{
    match rows {
        [cells] => match cells.get_ref(1) {
            Ok(ValueRef::Int(version)) => version == i64::from(FIRST_VERSION),
            _ => false,
        },
        _ => false,
    }
}

// The version that `plan_meta` shows.
fn shown_version<S: Alter>(conn: &mut Connection<S>) -> Result<Option<u32>, MigrateFault>
    requires { conn.old.in_transaction ≡ false }
    ensures tells { HasCleanDisk (state S.Store conn.new)
        → TellsVersion (state S.Store conn.old) (state S.Store conn.new) result }
    ensures kept { HasCleanDisk (state S.Store conn.new)
        → IsKept (state S.Store conn.old) (state S.Store conn.new) }
    ensures mode { conn.new.in_transaction ≡ false }
    ensures crash { Survives (state S.Store conn.old) (state S.Store conn.new) (λ _. ⊥) }
{
    match ask(conn, version_text())? {
        Some(rows) => if is_known(&rows) {
            Ok(Some(SCHEMA_VERSION))
        } else if is_first(&rows) {
            Ok(Some(FIRST_VERSION))
        } else {
            Err(MigrateFault::UnknownVersion)
        },
        None => Ok(None),
    }
}

/// The version of the plan that the database has. `None` if it has no tables of a plan, that is, if it refuses to show
/// a version for another reason than memory or the device. Nothing changes. It reads the version alone, so it returns
/// a known one whatever else is wrong with the tables; and it returns that of a sound plan unless one of the four
/// general errors or a limit on steps prevents it.
pub fn version<S: Alter>(
    _alloc: Global,
    conn: &mut Connection<S>,
) -> Result<Option<u32>, MigrateFault>
    requires { conn.old.in_transaction ≡ false }
    ensures tells { HasCleanDisk (state S.Store conn.new)
        → TellsVersion (state S.Store conn.old) (state S.Store conn.new) result }
    ensures known { HasCleanDisk (state S.Store conn.new) → HoldsPlan (state S.Store conn.old)
        → IfOk result (λ found. (found ≡ Some SCHEMA_VERSION)
        ⊎ IsSome (state S.Store conn.old).step_limit) }
    ensures common { HasCleanDisk (state S.Store conn.new) → HoldsPlan (state S.Store conn.old)
        → IfErr result (IsFailure version_sql (state S.Store conn.old) (state S.Store conn.new)) }
    ensures kept { HasCleanDisk (state S.Store conn.new)
        → IsKept (state S.Store conn.old) (state S.Store conn.new) }
    ensures mode { conn.new.in_transaction ≡ false }
    ensures crash { Survives (state S.Store conn.old) (state S.Store conn.new) (λ _. ⊥) }
{
    // its clause says that an open connection has a database
    let _ = conn.schema();
    shown_version(conn)
}
