// A plan is migrated.

ghost use Rattle.std.specs.Prelude.{◌≡◌, false, IfErr, IfOk, OnErr};
ghost use Rattle.sqlite.specs.State.{HasCleanDisk, Survives};
ghost use Rattle.sqlite.specs.Held.{state};
ghost use Rattle.plan_tables_opening.specs.Kept.{IsKept};
ghost use Rattle.plan_migrations.specs.Migrating.{IsMigrated, IsUnmigrated, MayRenew};

use crate::faults::MigrateFault;
use crate::renewing::renew;
use crate::tables::check_tables;
use crate::versions::version;
use plan_tables_schema::{SCHEMA_VERSION, TABLES};
use sqlite::{Alter, Connection};
use std::alloc::Global;

/// Makes the tables of a plan those of the current schema, with their rows, all of them or none, even over a crash.
/// Returns the version that it found and the one that it left, (0, 0) if the database has no tables of a plan. Tables
/// of the current schema stay as they are, and so do all other tables. If the content of tables of schema 1 is not
/// sound, it refuses them, and they stay as they are.
pub fn migrate<S: Alter>(
    alloc: Global,
    conn: &mut Connection<S>,
) -> Result<(u32, u32), MigrateFault>
    requires { conn.old.in_transaction ≡ false }
    ensures migrated { HasCleanDisk (state S.Store conn.new)
        → IfOk result (λ both. IsMigrated (state S.Store conn.old) (state S.Store conn.new)
        both.0 both.1) }
    ensures unmigrated { HasCleanDisk (state S.Store conn.new)
        → IfErr result (IsUnmigrated (state S.Store conn.old) (state S.Store conn.new)) }
    ensures kept { HasCleanDisk (state S.Store conn.new)
        → OnErr result (IsKept (state S.Store conn.old) (state S.Store conn.new)) }
    ensures mode { conn.new.in_transaction ≡ false }
    ensures crash { Survives (state S.Store conn.old) (state S.Store conn.new)
        (MayRenew (state S.Store conn.old)) }
{
    // its clause says that an open connection has a database
    let _ = conn.schema();
    match version(alloc, conn)? {
        Some(found) => if found == SCHEMA_VERSION {
            check_tables(conn, &TABLES)?;
            Ok((found, found))
        } else {
            renew(alloc, conn)?;
            Ok((found, SCHEMA_VERSION))
        },
        None => Ok((0, 0)),
    }
}
