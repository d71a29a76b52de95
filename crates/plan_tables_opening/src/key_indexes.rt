// Indexes of the tables of a plan.

ghost use Rattle.std.specs.Prelude.{◌≡◌, ◌↔◌, IfErr, IfOk, IsTrue};
ghost use Rattle.std.specs.List.{All};
ghost use Rattle.sqlite.specs.Held.{state};
ghost use Rattle.sqlite.specs.declared.error.Error.TheVariants.{SqliteFailure};
ghost use Rattle.sqlite.specs.declared.error.ErrorCode.TheVariants.{OutOfMemory};
ghost use Rattle.plan_tables_schema.specs.Schema.{HasOnlyKeyIndexes, HasTables};
ghost use Rattle.plan_tables_opening.specs.Indexes.{AreOwn, IsOfKey, IsOwn, IsOwnOf};

use crate::same_schema::tables::has_key;
use plan_tables_schema::{first_named, make_tables};
use sqlite::{Alter, Connection, Error};
use sqlite_schema::schema::{Index, Table};
use std::alloc::Global;

// Whether it is in another tree than the first table of the name, or is the index of its only key.
#[tactic(auto, unfolding(crate::specs::Indexes::IsOwnOf))]
fn is_own_of(index: &Index, tables: &[Table], made: &Table) -> bool
    ensures { IsTrue result ↔ IsOwnOf tables.now index.now made.now }
{
    match first_named(tables, made.name.as_slice()) {
        Some(found) => index.table != found.tree || has_key(made, index),
        None => false,
    }
}

// The same of each of these.
fn is_own(index: &Index, tables: &[Table], made: &[Table]) -> bool
    ensures { IsTrue result ↔ IsOwn tables.now made.now index.now }
{
    for table in made {
        if !is_own_of(index, tables, table) {
            return false;
        }
    }
    true
}

// Whether each of the indexes is.
fn are_own(indexes: &[Index], tables: &[Table], made: &[Table]) -> bool
    ensures { IsTrue result ↔ AreOwn tables.now made.now indexes.now }
{
    for index in indexes {
        if !is_own(index, tables, made) {
            return false;
        }
    }
    true
}

/// Whether the tables of the plan, in a database that has them, have no indexes but those of their keys: an index that
/// a user added may refuse a row. Its only error is lack of memory.
pub fn has_only_key_indexes<S: Alter>(alloc: Global, conn: &Connection<S>) -> Result<bool, Error>
    ensures own { IfOk result (λ own. HasTables (state S.Store conn.now).now.schema
        → (IsTrue own ↔ HasOnlyKeyIndexes (state S.Store conn.now).now.schema)) }
    ensures refused { IfErr result (λ error. error ≡ SqliteFailure OutOfMemory) }
{
    let mut made = Connection::open_in_memory(alloc)?;
    make_tables(&mut made)?;
    let (schema, plan) = (conn.schema(), made.schema());
    Ok(are_own(
        schema.indexes.as_slice(),
        schema.tables.as_slice(),
        plan.tables.as_slice(),
    ))
}
