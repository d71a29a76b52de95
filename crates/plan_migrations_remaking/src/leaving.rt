// What is left of a schema once some of its tables are dropped.

ghost use Rattle.std.specs.Prelude.{◌≡◌, not, filter, IfOk};
ghost use Rattle.plan_tables_schema.specs.Named.{first_named};
ghost use Rattle.plan_migrations_remaking.specs.Leaving.{is_in, is_of, left_by};

use plan_tables_schema::first_named;
use sqlite_items::Items;
use sqlite_schema::schema::{Index, Schema, Table};
use std::alloc::{AllocError, Global};

// Whether the first table of the name is in the tree.
fn is_in(tables: &[Table], name: &[u8], tree: u32) -> bool
    ensures { result ≡ is_in tree (first_named tables.now name.now) }
{
    match first_named(tables, name) {
        Some(found) => tree == found.tree,
        None => false,
    }
}

// Whether the tree is that of a table with the name of one of these.
fn is_of(tables: &[Table], named: &[Table], tree: u32) -> bool
    ensures { result ≡ is_of tables.now named.now tree }
{
    named
        .iter()
        .any(|table| is_in(tables, table.name.as_slice(), tree))
}

// The tables whose name is that of none of these.
fn tables_left(alloc: Global, tables: &[Table], named: &[Table]) -> Result<Items<Table>, AllocError>
    ensures { IfOk result (λ left. left
        ≡ filter (λ t. not (is_of tables.now named.now t.tree)) tables.now) }
{
    let mut left = Items::new(alloc);
    for table in tables {
        if !is_of(tables, named, table.tree) {
            left.push(table.copy(alloc)?)?;
        }
    }
    Ok(left)
}

// The indexes of these tables.
fn indexes_left(
    alloc: Global,
    indexes: &[Index],
    tables: &[Table],
    named: &[Table],
) -> Result<Items<Index>, AllocError>
    ensures { IfOk result (λ left. left
        ≡ filter (λ i. not (is_of tables.now named.now i.table)) indexes.now) }
{
    let mut left = Items::new(alloc);
    for index in indexes {
        if !is_of(tables, named, index.table) {
            left.push(index.copy(alloc)?)?;
        }
    }
    Ok(left)
}

/// What is left of the schema without the tables that have the names of these, and without their indexes. It fails
/// only if memory is refused.
pub fn left_without(alloc: Global, schema: &Schema, named: &[Table]) -> Result<Schema, AllocError>
    ensures { IfOk result (λ left. left ≡ left_by schema.now named.now) }
{
    let mut left = schema.copy(alloc)?;
    left.tables = tables_left(alloc, schema.tables.as_slice(), named)?;
    left.indexes = indexes_left(
        alloc,
        schema.indexes.as_slice(),
        schema.tables.as_slice(),
        named,
    )?;
    Ok(left)
}
