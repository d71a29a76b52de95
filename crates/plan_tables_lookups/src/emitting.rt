// Rows are yielded one at a time.

ghost use Rattle.std.specs.Prelude.{◌≡◌, false, map, IfErr, OnErr, OnOk};
ghost use Rattle.std.specs.List.Sorted.{IsPermutation};
ghost use Rattle.sqlite.specs.Order.{Row as Values};
ghost use Rattle.sqlite.specs.State.{HasCleanDisk, IsUnchanged, Survives};
ghost use Rattle.sqlite.specs.Held.{state};
ghost use Rattle.sqlite.specs.Values.{bound};
ghost use Rattle.plan_tables_lookups.specs.Emitting.{EmitsAll, EmitsPart, StopsFor};
ghost use Rattle.plan_tables_lookups.specs.Looks.{AreAsked, question};
ghost use Rattle.plan_tables_lookups.specs.Question.{Answers};
ghost use Rattle.plan_tables_schema.specs.Rows.{StaysOrIsUndone, shown, tables_of};
ghost use Rattle.plan_tables_schema.specs.Schema.{HasTables};

use crate::asking::look_text;
use crate::faults::Stopped;
use crate::looks::Look;
use plan_tables_schema::Table;
use sqlite::types::ValueRef;
use sqlite::{Alter, Connection, Error, ErrorCode, Row};

/// A sink refused a row.
#[derive(Clone, Copy, Debug, PartialEq, Eq)]
pub struct RowRefused;

/// What receives rows of values, one after another.
pub trait ValuesSink {
    // the sink after it has accepted a row
    ghost accepts: { Self → Values → Self → Type 0 };

    // the sink after it has refused a row
    ghost refuses: { Self → Values → Self → Type 0 };

    /// Accepts a row.
    fn accept(&mut self, row: &Row) -> Result<(), RowRefused>
        ensures taken { OnOk result (accepts self.old row.now self.new) }
        ensures refused { OnErr result (refuses self.old row.now self.new) };
}

/// Yields the rows that the query matches with these values, each before the next is read. It fails if the sink
/// refuses a row, and as `ask` does.
pub fn emit<S: Alter, K: ValuesSink>(
    conn: &mut Connection<S>,
    look: Look,
    asked: &[ValueRef<'_>],
    sink: &mut K,
) -> Result<(), Stopped<Error>>
    ensures all { HasCleanDisk (state S.Store conn.new)
        → HasTables (state S.Store conn.old).now.schema
        → OnOk result (EmitsAll K.accepts (Answers (question look) (bound asked.now)
        (tables_of (state S.Store conn.old).now.trees)) sink.old sink.new) }
    ensures part { HasCleanDisk (state S.Store conn.new)
        → HasTables (state S.Store conn.old).now.schema
        → IfErr result (EmitsPart K.accepts K.refuses (Answers (question look) (bound asked.now)
        (tables_of (state S.Store conn.old).now.trees)) sink.old sink.new) }
    ensures same { HasCleanDisk (state S.Store conn.new)
        → HasTables (state S.Store conn.old).now.schema
        → OnOk result (IsUnchanged (state S.Store conn.old) (state S.Store conn.new)) }
    ensures fails { HasCleanDisk (state S.Store conn.new)
        → HasTables (state S.Store conn.old).now.schema → AreAsked look (bound asked.now)
        → IfErr result (StopsFor (state S.Store conn.old) (state S.Store conn.new)) }
    ensures leaves { HasCleanDisk (state S.Store conn.new)
        → HasTables (state S.Store conn.old).now.schema
        → StaysOrIsUndone (state S.Store conn.old) (state S.Store conn.new) }
    ensures mode { conn.old.in_transaction ≡ false → conn.new.in_transaction ≡ false }
    ensures survives { Survives (state S.Store conn.old) (state S.Store conn.new)
        (λ _. HasTables (state S.Store conn.old).now.schema → ⊥) }
{
    // its clause says that an open connection has a database
    let _ = conn.schema();
    let mut rows = conn.query(look_text(look), asked)?;
    'rows: for _ in 0..u64::MAX {
        rows.advance()?;
        let Some(row) = rows.get() else {
            return Ok(());
        };
        if let Err(RowRefused) = sink.accept(row) {
            return Err(Stopped::Sink);
        }
    }
    // no memory has so many rows
    Err(Stopped::Fault(Error::SqliteFailure(ErrorCode::OutOfMemory)))
}

/// Yields all rows of the table, each before the next is read, in no order. It fails as `emit` does.
pub fn emit_all<S: Alter, K: ValuesSink>(
    conn: &mut Connection<S>,
    table: Table,
    sink: &mut K,
) -> Result<(), Stopped<Error>>
    ensures all { HasCleanDisk (state S.Store conn.new)
        → HasTables (state S.Store conn.old).now.schema
        → OnOk result (EmitsAll K.accepts (IsPermutation
        (map (shown table) (tables_of (state S.Store conn.old).now.trees table)))
        sink.old sink.new) }
    ensures part { HasCleanDisk (state S.Store conn.new)
        → HasTables (state S.Store conn.old).now.schema
        → IfErr result (EmitsPart K.accepts K.refuses (IsPermutation
        (map (shown table) (tables_of (state S.Store conn.old).now.trees table)))
        sink.old sink.new) }
    ensures same { HasCleanDisk (state S.Store conn.new)
        → HasTables (state S.Store conn.old).now.schema
        → OnOk result (IsUnchanged (state S.Store conn.old) (state S.Store conn.new)) }
    ensures fails { HasCleanDisk (state S.Store conn.new)
        → HasTables (state S.Store conn.old).now.schema
        → IfErr result (StopsFor (state S.Store conn.old) (state S.Store conn.new)) }
    ensures leaves { HasCleanDisk (state S.Store conn.new)
        → HasTables (state S.Store conn.old).now.schema
        → StaysOrIsUndone (state S.Store conn.old) (state S.Store conn.new) }
    ensures mode { conn.old.in_transaction ≡ false → conn.new.in_transaction ≡ false }
    ensures survives { Survives (state S.Store conn.old) (state S.Store conn.new)
        (λ _. HasTables (state S.Store conn.old).now.schema → ⊥) }
{
    emit(conn, Look::Whole(table), &[], sink)
}
