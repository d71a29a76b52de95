// Queries.

ghost use Rattle.std.specs.Prelude.{◌≡◌, false, IfErr, IfOk, OnOk};
ghost use Rattle.sqlite.specs.State.{HasCleanDisk, IsUnchanged, Survives};
ghost use Rattle.sqlite.specs.Held.{state};
ghost use Rattle.sqlite.specs.Values.{bound};
ghost use Rattle.plan_tables_lookups.specs.Question.{Answers};
ghost use Rattle.plan_tables_lookups.specs.Looks.{AreAsked, look_sql, question};
ghost use Rattle.plan_tables_schema.specs.Rows.{MayFail, StaysOrIsUndone, tables_of};
ghost use Rattle.plan_tables_schema.specs.Schema.{HasTables};

use crate::looks::Look;
use plan_tables_schema::select_text;
use sqlite::types::ValueRef;
use sqlite::{Alter, Connection, Error, Row};

/// The text of the query.
pub(crate) fn look_text(look: Look) -> &'static str
    ensures { result.now ≡ look_sql look }
{
    match look {
        Look::InHistory => {
            "SELECT serial, app, ia, deadline, run_cycle FROM history_row WHERE serial = ?1"
        }
        Look::InDeletions => {
            "SELECT serial, app, ia, deadline, run_cycle, reason FROM deletion_row WHERE serial = ?1"
        }
        Look::LastOf => {
            "SELECT serial, app, ia, deadline, run_cycle FROM history_row WHERE app = ?1 AND ia <= ?2 \
             ORDER BY ia DESC LIMIT 1"
        }
        Look::DeletedFrom => {
            "SELECT serial, app, ia, deadline, run_cycle, reason FROM deletion_row WHERE reason = 'O' AND \
             ia >= ?1"
        }
        Look::JobOf => { "SELECT number, body, reply FROM job WHERE number = ?1" }
        Look::HistoryListed => {
            "SELECT serial, app, ia, deadline, run_cycle FROM history_row ORDER BY ia, app, serial"
        }
        Look::HistoryOf => {
            "SELECT serial, app, ia, deadline, run_cycle FROM history_row WHERE app = ?1 ORDER BY ia, app, \
             serial"
        }
        Look::DeletionsListed => {
            "SELECT serial, app, ia, deadline, run_cycle, reason FROM deletion_row ORDER BY ia, app, serial"
        }
        Look::DeletionsOf => {
            "SELECT serial, app, ia, deadline, run_cycle, reason FROM deletion_row WHERE app = ?1 ORDER BY \
             ia, app, serial"
        }
        Look::Whole(table) => select_text(table),
    }
}

/// The rows that the query matches with these values. Over a plan it fails only if memory is refused, the device
/// fails, the connection was closed, or a limit on steps is reached.
pub fn ask<S: Alter>(
    conn: &mut Connection<S>,
    look: Look,
    asked: &[ValueRef<'_>],
) -> Result<Vec<Row>, Error>
    ensures rows { HasCleanDisk (state S.Store conn.new)
        → HasTables (state S.Store conn.old).now.schema
        → IfOk result (λ rows. Answers (question look) (bound asked.now)
        (tables_of (state S.Store conn.old).now.trees) rows.items) }
    ensures same { HasCleanDisk (state S.Store conn.new)
        → HasTables (state S.Store conn.old).now.schema
        → OnOk result (IsUnchanged (state S.Store conn.old) (state S.Store conn.new)) }
    ensures fails { HasCleanDisk (state S.Store conn.new)
        → HasTables (state S.Store conn.old).now.schema → AreAsked look (bound asked.now)
        → IfErr result (MayFail (state S.Store conn.old) (state S.Store conn.new)) }
    ensures leaves { HasCleanDisk (state S.Store conn.new)
        → HasTables (state S.Store conn.old).now.schema
        → StaysOrIsUndone (state S.Store conn.old) (state S.Store conn.new) }
    ensures mode { conn.old.in_transaction ≡ false → conn.new.in_transaction ≡ false }
    ensures survives { Survives (state S.Store conn.old) (state S.Store conn.new)
        (λ _. HasTables (state S.Store conn.old).now.schema → ⊥) }
{
    // its clause says that an open connection has a database
    let _ = conn.schema();
    conn.query_all(look_text(look), asked)
}
