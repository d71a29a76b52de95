// A kept job is fetched.

ghost use Rattle.std.specs.Prelude.{◌≡◌, IfOk};
ghost use Rattle.sqlite.specs.State.{HasCleanDisk};
ghost use Rattle.sqlite.specs.Held.{state};
ghost use Rattle.planner_machine.specs.Content.{Content};
ghost use Rattle.plan_tables.specs.Kept.{IsKept, kept_in};
ghost use Rattle.plan_tables.specs.Session.{Asks, why_in};

use crate::keeping::{Unmade, why_of};
use plan_tables_queries::kept_job;
use planner_machine::Job;
use sqlite::{Alter, Connection};
use std::alloc::Global;

/// The job that the tables keep under the number, if there is one.
pub(crate) fn job_kept<S: Alter>(
    alloc: Global,
    conn: &mut Connection<S>,
    number: u64,
) -> Result<Option<Job>, Unmade>
    ensures found { HasCleanDisk (state S.Store conn.new) → (lists : Content)
        → IsKept (state S.Store conn.old) lists
        → IfOk result (λ job. job ≡ (kept_in (state S.Store conn.old) lists).jobs number) }
    ensures asks { (lists : Content) → Asks S.Store conn.old conn.new lists (why_in result) }
{
    // the jobs of a sound content have less
    if number >= 1 << 63 {
        return Ok(None);
    }
    match kept_job(alloc, conn, number) {
        Ok(found) => Ok(found),
        Err(fault) => Err(why_of(conn, &fault)),
    }
}
