//! Indexes that a migration loses: those of the two tables that it makes anew, unless SQLite made them.

ghost use Rattle.std.specs.Prelude.{◌≡◌, ◌↔◌, false, IsTrue};
ghost use Rattle.std.specs.List.{All};
ghost use Rattle.plan_files.specs.LostIndexes.{IsAside, IsKept, IsMadeAnew, KeepsIndexes};

use sqlite_schema::schema::{Index, Schema, Table};

/// How the names of indexes begin that SQLite makes itself.
const OF_SQLITE: &[u8] = b"sqlite_autoindex_";

/// Whether the table is one of the two that differ in schema 2.
fn is_made_anew(table: &Table) -> bool
    ensures { IsTrue result ↔ IsMadeAnew table.now }
{
    table.name.as_slice() == b"predecessor".as_slice()
        || table.name.as_slice() == b"link_in_force".as_slice()
}

/// Whether the index is of another table, or this one stays.
fn is_aside(table: &Table, index: &Index) -> bool
    ensures { IsTrue result ↔ IsAside index.now table.now }
{
    table.tree != index.table || !is_made_anew(table)
}

/// The same of each of these tables.
fn are_aside(tables: &[Table], index: &Index) -> bool
    ensures { IsTrue result ↔ All (IsAside index.now) tables.now }
{
    for table in tables {
        if !is_aside(table, index) {
            return false;
        }
    }
    true
}

/// Whether SQLite made the index, or it is of no table that is made anew.
fn is_kept(tables: &[Table], index: &Index) -> bool
    ensures { IsTrue result ↔ IsKept tables.now index.now }
{
    index.name.as_slice().starts_with(OF_SQLITE) || are_aside(tables, index)
}

/// The same of each of these indexes.
fn are_kept(tables: &[Table], indexes: &[Index]) -> bool
    ensures { IsTrue result ↔ All (IsKept tables.now) indexes.now }
{
    for index in indexes {
        if !is_kept(tables, index) {
            return false;
        }
    }
    true
}

/// Whether a migration loses an index that a user made.
pub(crate) fn loses_index(schema: &Schema) -> bool
    ensures { (result ≡ false) ↔ KeepsIndexes schema.now }
{
    !are_kept(schema.tables.as_slice(), schema.indexes.as_slice())
}
