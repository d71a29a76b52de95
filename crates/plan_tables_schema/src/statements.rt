// Rows of values in the tables.

ghost use Rattle.std.specs.Prelude.{◌≡◌, map, false, Err, IfErr, IfOk, OnOk, IsTrue};
ghost use Rattle.std.specs.List.{AllByRecursion};
ghost use Rattle.std.specs.List.Sorted.{IsPermutation};
ghost use Rattle.sqlite.specs.State.{ExecutesInside, HasCleanDisk, IsUnchanged, Survives};
ghost use Rattle.sqlite.specs.Held.{state};
ghost use Rattle.sqlite.specs.Values.{bound};
ghost use Rattle.plan_tables_schema.specs.Rows.{AreOfKinds, IsAlone, MayFail, StaysOrIsUndone, shown, tables_of};
ghost use Rattle.plan_tables_schema.specs.Rows.{with_cells, with_several, without_key};
ghost use Rattle.plan_tables_schema.specs.Cells.{rows_given};
ghost use Rattle.plan_tables_schema.specs.Schema.{HasTables};
ghost use Rattle.plan_tables_schema.specs.Accepted.{AcceptsRow, AcceptsSeveral, LosesKey};
ghost use Rattle.plan_tables_schema.specs.Texts.{insert_sql, several_sql};
ghost use Rattle.plan_tables_schema.specs.Writes.{AcceptsWhere, WritesWhere};

use crate::tables::Table;
use crate::texts::{delete_text, insert_text, select_text, several_text};
use sqlite::types::ValueRef;
use sqlite::{Alter, Connection, Error, Row, Transaction};

/// Inserts a row of these values, one for each column, into the table. If it is refused, the transaction stays open.
pub fn insert<S: Alter>(
    tx: &mut Transaction<'_, S>,
    table: Table,
    values: &[ValueRef<'_>],
) -> Result<(), Error>
    ensures writes { WritesWhere (λ _. AreOfKinds table (bound values.now))
        S.Store tx.old tx.new result (with_cells table (bound values.now)) }
    ensures fails { HasCleanDisk (state S.Store tx.new.conn.now)
        → IsTrue (state S.Store tx.old.conn.now).in_transaction
        → IfErr result (λ e. ExecutesInside 0 (insert_sql table) (bound values.now)
        (state S.Store tx.old.conn.now) (state S.Store tx.new.conn.now) (Err e)) }
    ensures stays_open { HasCleanDisk (state S.Store tx.new.conn.now)
        → IsTrue (state S.Store tx.old.conn.now).in_transaction
        → OnOk result (IsTrue (state S.Store tx.new.conn.now).is_open) }
    ensures accepts { AcceptsWhere (AcceptsRow table (bound values.now)) S.Store tx.old tx.new result
        (with_cells table (bound values.now)) }
{
    tx.execute(insert_text(table), values)?;
    Ok(())
}

/// Inserts several rows into the table by one statement: three of occurrences, nine pairs, or one of any other table. Of
/// each row in turn it takes the values, one for each column. If it is refused, the transaction stays open.
pub fn insert_several<S: Alter>(
    tx: &mut Transaction<'_, S>,
    table: Table,
    values: &[ValueRef<'_>],
) -> Result<(), Error>
    ensures writes { WritesWhere
        (λ _. AllByRecursion (AreOfKinds table) (rows_given table (bound values.now)))
        S.Store tx.old tx.new result (with_several table (rows_given table (bound values.now))) }
    ensures fails { HasCleanDisk (state S.Store tx.new.conn.now)
        → IsTrue (state S.Store tx.old.conn.now).in_transaction
        → IfErr result (λ e. ExecutesInside 0 (several_sql table) (bound values.now)
        (state S.Store tx.old.conn.now) (state S.Store tx.new.conn.now) (Err e)) }
    ensures stays_open { HasCleanDisk (state S.Store tx.new.conn.now)
        → IsTrue (state S.Store tx.old.conn.now).in_transaction
        → OnOk result (IsTrue (state S.Store tx.new.conn.now).is_open) }
    ensures accepts { AcceptsWhere (AcceptsSeveral table (bound values.now)) S.Store tx.old tx.new result
        (with_several table (rows_given table (bound values.now))) }
{
    tx.execute(several_text(table), values)?;
    Ok(())
}

/// Deletes the rows that have the key: those of a name, of a serial, of a pair or of a number. Deleting run cycles
/// would delete their offsets too.
pub fn delete<S: Alter>(
    tx: &mut Transaction<'_, S>,
    table: Table,
    key: &[ValueRef<'_>],
) -> Result<(), Error>
    ensures writes { WritesWhere (IsAlone table (bound key.now)) S.Store tx.old tx.new result
        (without_key table (bound key.now)) }
    ensures accepts { AcceptsWhere (LosesKey table (bound key.now)) S.Store tx.old tx.new result
        (without_key table (bound key.now)) }
{
    tx.execute(delete_text(table), key)?;
    Ok(())
}

/// All rows of the table as they are shown, in some order. Over a plan it fails only if memory is refused, the device
/// fails, the connection was closed, or a limit on steps is reached.
pub fn select<S: Alter>(conn: &mut Connection<S>, table: Table) -> Result<Vec<Row>, Error>
    ensures rows { HasCleanDisk (state S.Store conn.new)
        → HasTables (state S.Store conn.old).now.schema
        → IfOk result (λ rows. IsPermutation
        (map (shown table) (tables_of (state S.Store conn.old).now.trees table)) rows.items) }
    ensures same { HasCleanDisk (state S.Store conn.new)
        → HasTables (state S.Store conn.old).now.schema
        → OnOk result (IsUnchanged (state S.Store conn.old) (state S.Store conn.new)) }
    ensures fails { HasCleanDisk (state S.Store conn.new)
        → HasTables (state S.Store conn.old).now.schema
        → IfErr result (MayFail (state S.Store conn.old) (state S.Store conn.new)) }
    ensures leaves { HasCleanDisk (state S.Store conn.new)
        → HasTables (state S.Store conn.old).now.schema
        → StaysOrIsUndone (state S.Store conn.old) (state S.Store conn.new) }
    ensures mode { conn.old.in_transaction ≡ false → conn.new.in_transaction ≡ false }
    ensures survives { Survives (state S.Store conn.old) (state S.Store conn.new)
        (λ _. HasTables (state S.Store conn.old).now.schema → ⊥) }
{
    // its clause says that an open connection has a database
    let _ = conn.schema();
    conn.query_all(select_text(table), &[])
}
