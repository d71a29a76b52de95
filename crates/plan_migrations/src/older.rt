// A plan of an older version is migrated before it is adopted.

ghost use Rattle.std.specs.Prelude.{◌≡◌, false, IfErr, IfOk, None, Ok, OnErr, OnOk, Some};
ghost use Rattle.sqlite.specs.State.{HasCleanDisk, Survives};
ghost use Rattle.sqlite.specs.Held.{state};
ghost use Rattle.plan_tables_opening.specs.Foreign.{version_sql};
ghost use Rattle.plan_tables_opening.specs.Held.{HoldsPlan};
ghost use Rattle.plan_tables_opening.specs.Kept.{IsKept};
ghost use Rattle.plan_migrations.specs.Asking.{IsFailure};
ghost use Rattle.plan_migrations.specs.Migrating.{IsUnmigrated, MayRenew};
ghost use Rattle.plan_migrations.specs.Older.{IsCurrent, IsFoundAs};
ghost use Rattle.plan_migrations.specs.Schemas.{TellsVersion};

use crate::faults::MigrateFault;
use crate::migrating::migrate;
use crate::versions::{FIRST_VERSION, version};
use sqlite::{Alter, Connection};
use std::alloc::Global;

// The version that was found, or none where there are no tables.
fn version_of(found: u32) -> Option<u32>
    ensures none { found ≡ 0 → result ≡ None }
    ensures some { (found ≡ 0 → ⊥) → result ≡ Some found }
{
    if found == 0 { None } else { Some(found) }
}

/// Migrates a plan of an older version. One of the current version stays as it is, and so does a database without
/// tables: adoption checks its tables, so they are not read twice. Returns the version that it found. A database that
/// has a sound plan of the current schema is refused only for one of the four general errors.
pub fn migrate_older<S: Alter>(
    alloc: Global,
    conn: &mut Connection<S>,
) -> Result<Option<u32>, MigrateFault>
    requires { conn.old.in_transaction ≡ false }
    ensures current { HasCleanDisk (state S.Store conn.new)
        → OnOk result (IsCurrent (state S.Store conn.old) (state S.Store conn.new)) }
    ensures told { HasCleanDisk (state S.Store conn.new) → IfOk result (λ found. (mid : _)
        × TellsVersion (state S.Store conn.old) (state S.Store mid) (Ok found)) }
    ensures found { HasCleanDisk (state S.Store conn.new) → IfOk result (λ found.
        IsFoundAs found (state S.Store conn.old) (state S.Store conn.new)) }
    ensures unmigrated { HasCleanDisk (state S.Store conn.new)
        → IfErr result (IsUnmigrated (state S.Store conn.old) (state S.Store conn.new)) }
    ensures common { HasCleanDisk (state S.Store conn.new) → HoldsPlan (state S.Store conn.old)
        → (state S.Store conn.old).step_limit ≡ None
        → IfErr result (IsFailure version_sql (state S.Store conn.old) (state S.Store conn.new)) }
    ensures kept { HasCleanDisk (state S.Store conn.new)
        → OnErr result (IsKept (state S.Store conn.old) (state S.Store conn.new)) }
    ensures mode { conn.new.in_transaction ≡ false }
    ensures crash { Survives (state S.Store conn.old) (state S.Store conn.new)
        (MayRenew (state S.Store conn.old)) }
{
    match version(alloc, conn)? {
        Some(found) => if found == FIRST_VERSION {
            let (earlier, _) = migrate(alloc, conn)?;
            Ok(version_of(earlier))
        } else {
            Ok(Some(found))
        },
        None => Ok(None),
    }
}
