// Rows of schema 1, as the tables of schema 2 accept them.

ghost use Rattle.std.specs.Prelude.{◌≡◌, map, IfOk};
ghost use Rattle.sqlite.specs.Order.{column};
ghost use Rattle.sqlite.specs.Value.{owned};
ghost use Rattle.sqlite.specs.Values.{bound, bound_value};
ghost use Rattle.plan_migrations_remaking.specs.Remaking.{remade_row, with_version};

use plan_tables_schema::{SCHEMA_VERSION, Table};
use sqlite::Row;
use sqlite::types::ValueRef;
use std::alloc::{AllocError, Global};

/// What a table of schema 1 shows.
#[derive(Drop)]
pub struct FirstRows {
    /// The table.
    pub table: Table,
    /// All its rows.
    pub rows: Vec<Row>,
}

// The value in the column.
fn value_at(row: &Row, at: usize) -> ValueRef<'_>
    ensures { owned result ≡ column row.now at }
{
    match row.get_ref(at) {
        Ok(value) => value,
        Err(_) => ValueRef::Null,
    }
}

// The values of a row, as a statement binds them.
fn lend(alloc: Global, row: &Row) -> Result<Vec<ValueRef<'_>>, AllocError>
    ensures { IfOk result (λ values. bound values.items ≡ map bound_value row.now) }
{
    let mut values = Vec::new(alloc);
    for place in 0..row.column_count() {
        values.push(value_at(row, place))?;
    }
    Ok(values)
}

// Puts the current version in place of the old one.
fn put_version(values: &mut Vec<ValueRef<'_>>)
    ensures { bound values.new.items ≡ with_version (bound values.old.items) }
{
    if values.len() >= 2 {
        values[1] = ValueRef::Int(SCHEMA_VERSION as i64);
    }
}

/// The values of the row that stands for a row of schema 1.
pub(crate) fn remade_values(
    alloc: Global,
    table: Table,
    row: &Row,
) -> Result<Vec<ValueRef<'_>>, AllocError>
    ensures { IfOk result (λ values. bound values.items
        ≡ map bound_value (remade_row table row.now)) }
{
    let mut values = lend(alloc, row)?;
    match table {
        Table::Meta => put_version(&mut values),
        Table::Predecessor | Table::LinkInForce => values.push(ValueRef::Null)?,
        _ => {}
    }
    Ok(values)
}
