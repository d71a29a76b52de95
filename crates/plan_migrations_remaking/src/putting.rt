// Rows of schema 1 are inserted into the tables of schema 2.

ghost use Rattle.plan_tables_schema.specs.Rows.{tables_of, with_cells};
ghost use Rattle.plan_tables_schema.specs.Writes.{WritesWhere};
ghost use Rattle.plan_migrations_remaking.specs.Remaking.{AreAllFirst, PutsWhere, RefusesRow, RefusesToFill};
ghost use Rattle.plan_migrations_remaking.specs.Remaking.{remade_row, with_all_put, with_rows_put};
ghost use Rattle.plan_migrations_remaking.specs.Types.{AreFirst, HasTypes, first_types};

use crate::rows::{FirstRows, remade_values};
use plan_tables_schema::{Table, insert};
use sqlite::{Alter, Error, Row, Transaction};
use std::alloc::Global;

fn put_row<S: Alter>(
    tx: &mut Transaction<'_, S>,
    alloc: Global,
    table: Table,
    row: &Row,
) -> Result<(), Error>
    ensures writes { WritesWhere (λ _. HasTypes (first_types table) row.now)
        S.Store tx.old tx.new result (with_cells table (remade_row table row.now)) }
    ensures puts { PutsWhere (HasTypes (first_types table) row.now)
        (λ limit db. RefusesRow limit db table (remade_row table row.now))
        S.Store tx.old tx.new result }
{
    let values = remade_values(alloc, table, row)?;
    insert(tx, table, &values)
}

fn put_rows<S: Alter>(
    tx: &mut Transaction<'_, S>,
    alloc: Global,
    table: Table,
    rows: &[Row],
) -> Result<(), Error>
    ensures writes { WritesWhere (λ _. AreFirst table rows.now) S.Store tx.old tx.new result
        (with_rows_put table rows.now) }
    ensures puts { PutsWhere (AreFirst table rows.now)
        (λ limit db. RefusesToFill limit db.schema
        (with_rows_put table rows.now (tables_of db.trees))) S.Store tx.old tx.new result }
{
    for row in rows {
        put_row(tx, alloc, table, row)?;
    }
    Ok(())
}

/// Inserts all rows into their tables.
pub(crate) fn put_all<S: Alter>(
    tx: &mut Transaction<'_, S>,
    alloc: Global,
    reads: &[FirstRows],
) -> Result<(), Error>
    ensures writes { WritesWhere (λ _. AreAllFirst reads.now) S.Store tx.old tx.new result
        (with_all_put reads.now) }
    ensures puts { PutsWhere (AreAllFirst reads.now)
        (λ limit db. RefusesToFill limit db.schema
        (with_all_put reads.now (tables_of db.trees))) S.Store tx.old tx.new result }
{
    for read in reads {
        put_rows(tx, alloc, read.table, &read.rows)?;
    }
    Ok(())
}
