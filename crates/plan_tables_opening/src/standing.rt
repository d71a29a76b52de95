// Whether the tables of one schema are in another, or can be made there.

ghost use Rattle.std.specs.Prelude.{◌≡◌, ◌≢◌, ◌<◌, ◌⊎◌, ◌↔◌, false, is_some, IsTrue};
ghost use Rattle.std.specs.List.{All, list_any};
ghost use Rattle.sqlite.specs.Does.{lacks_sequence};
ghost use Rattle.sqlite.specs.Rows.{sequence};
ghost use Rattle.sqlite_catalog.specs.Change.{is_used};
ghost use Rattle.sqlite_trees.specs.Tree.{IsAscending};
ghost use Rattle.plan_tables_schema.specs.Places.{TreesDiffer};
ghost use Rattle.plan_tables_schema.specs.Free.{AreAside, AreUnused, CanMake, FitsIn, IsAsideOf};
ghost use Rattle.plan_tables_opening.specs.Standing.{IsThere, OffsetsRefer, StandAmong};

use crate::same_schema::tables::is_alike;
use plan_tables_schema::first_named;
use sqlite_catalog::layout::{is_used, next_tree};
use sqlite_schema::names::same_name;
use sqlite_schema::schema::{Index, Reference, Schema, Table};

// Whether the first table of its name is like it.
#[tactic(auto, unfolding(crate::specs::Standing::IsThere))]
fn is_there(tables: &[Table], table: &Table) -> bool
    ensures { IsTrue result ↔ IsThere tables.now table.now }
{
    match first_named(tables, table.name.as_slice()) {
        Some(found) => found.tree < 1 << 31 && is_alike(found, table),
        None => false,
    }
}

// The same of each of these.
fn are_there(tables: &[Table], made: &[Table]) -> bool
    ensures { IsTrue result ↔ All (IsThere tables.now) made.now }
{
    for table in made {
        if !is_there(tables, table) {
            return false;
        }
    }
    true
}

// Whether the tree is that of none of the tables.
fn is_other_tree(tree: u32, tables: &[Table]) -> bool
    ensures { IsTrue result ↔ All (λ t. tree ≢ t.tree) tables.now }
{
    for table in tables {
        if tree == table.tree {
            return false;
        }
    }
    true
}

// Whether each table is in a tree of its own.
fn are_apart(tables: &[Table]) -> bool
    ensures { IsTrue result ↔ IsAscending TreesDiffer tables.now }
{
    let [first, others @ ..] = tables else {
        return true;
    };
    is_other_tree(first.tree, others) && are_apart(others)
}

// Whether the reference is to none of the tables.
fn is_aside(reference: &Reference, tables: &[Table]) -> bool
    ensures { IsTrue result ↔ IsAsideOf tables.now reference.now }
{
    for table in tables {
        if same_name(table.name.as_slice(), reference.parent.as_slice()) {
            return false;
        }
    }
    true
}

// Whether the table refers to none of these.
fn are_aside(child: &Table, tables: &[Table]) -> bool
    ensures { IsTrue result ↔ AreAside tables.now child.now }
{
    for reference in child.references.as_slice() {
        if !is_aside(reference, tables) {
            return false;
        }
    }
    true
}

// Whether the table is in the tree, or refers to none of these.
fn may_refer(child: &Table, tree: u32, made: &[Table]) -> bool
    ensures { IsTrue result ↔ ((child.now.tree ≡ tree) ⊎ AreAside made.now child.now) }
{
    child.tree == tree || are_aside(child, made)
}

// Whether none of the tables but that in the tree refers to one of these.
fn refers_alone(tables: &[Table], tree: u32, made: &[Table]) -> bool
    ensures { IsTrue result ↔ All (λ child. (child.tree ≡ tree) ⊎ AreAside made.now child)
        tables.now }
{
    for child in tables {
        if !may_refer(child, tree, made) {
            return false;
        }
    }
    true
}

// Whether no table but the offsets refers to one of these.
#[tactic(auto, unfolding(crate::specs::Standing::OffsetsRefer))]
fn offsets_refer(tables: &[Table], made: &[Table]) -> bool
    ensures { IsTrue result ↔ OffsetsRefer tables.now made.now }
{
    match first_named(tables, b"run_cycle_offset") {
        Some(offsets) => refers_alone(tables, offsets.tree, made),
        None => false,
    }
}

/// Whether these tables are among the others, in any place, each in a tree of its own, and none of the others refers
/// to one of them.
pub fn stand_among(tables: &[Table], made: &[Table]) -> bool
    ensures { IsTrue result ↔ StandAmong tables.now made.now }
{
    are_there(tables, made) && are_apart(tables) && offsets_refer(tables, made)
}

// Whether none of the names of these tables is used.
fn are_tables_new(schema: &Schema, made: &[Table]) -> bool
    ensures { IsTrue result ↔ All (λ t. is_used schema.now t.name ≡ false) made.now }
{
    for table in made {
        if is_used(schema, table.name.as_slice()) {
            return false;
        }
    }
    true
}

// Whether none of the names of these indexes is used.
fn are_indexes_new(schema: &Schema, made: &[Index]) -> bool
    ensures { IsTrue result ↔ All (λ i. is_used schema.now i.name ≡ false) made.now }
{
    for index in made {
        if is_used(schema, index.name.as_slice()) {
            return false;
        }
    }
    true
}

// Whether none of the names of the other's tables and indexes is used.
fn are_unused(schema: &Schema, made: &Schema) -> bool
    ensures { IsTrue result ↔ AreUnused schema.now made.now }
{
    are_tables_new(schema, made.tables.as_slice())
        && are_indexes_new(schema, made.indexes.as_slice())
}

// Whether there is room for the trees of the other.
fn fits_in(schema: &Schema, made: &Schema) -> bool
    ensures { IsTrue result ↔ FitsIn schema.now made.now }
{
    let tables = made.tables.len();
    let indexes = made.indexes.len();
    tables <= 65536
        && indexes <= 65536
        && next_tree(schema) + tables as u64 + indexes as u64 <= 65536
}

// Whether no table refers to one of these.
fn refers_none(tables: &[Table], made: &[Table]) -> bool
    ensures { IsTrue result ↔ All (AreAside made.now) tables.now }
{
    for child in tables {
        if !are_aside(child, made) {
            return false;
        }
    }
    true
}

// Whether each index is of a tree below that one.
fn are_below(indexes: &[Index], next: u64) -> bool
    ensures { IsTrue result ↔ All (λ i. i.table < next) indexes.now }
{
    for index in indexes {
        if u64::from(index.table) >= next {
            return false;
        }
    }
    true
}

// Whether a table has AUTOINCREMENT.
fn are_counted(tables: &[Table]) -> bool
    ensures { result ≡ list_any (λ t. t.is_counted) tables.now }
{
    tables.iter().any(|t| t.is_counted)
}

// Whether the table of AUTOINCREMENT is there.
fn has_sequence(schema: &Schema) -> bool
    ensures { result ≡ is_some (sequence schema.now) }
{
    first_named(schema.tables.as_slice(), b"sqlite_sequence").is_some()
}

// Whether a table has AUTOINCREMENT, and that table is missing.
fn lacks_sequence(schema: &Schema) -> bool
    ensures { result ≡ lacks_sequence schema.now }
{
    are_counted(schema.tables.as_slice()) && !has_sequence(schema)
}

/// Whether the tables of the other can be made in the schema: none of their names is used, there is room for their
/// trees, and no table refers to one of them.
pub fn can_make(schema: &Schema, made: &Schema) -> bool
    ensures { IsTrue result ↔ CanMake schema.now made.now }
{
    are_unused(schema, made)
        && fits_in(schema, made)
        && refers_none(schema.tables.as_slice(), made.tables.as_slice())
        && are_apart(schema.tables.as_slice())
        && are_below(schema.indexes.as_slice(), next_tree(schema))
        && !lacks_sequence(schema)
}
