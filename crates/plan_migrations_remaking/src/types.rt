// The types of what a table shows.

ghost use Rattle.std.specs.Prelude.{◌≡◌, ◌↔◌, ◌<◌, ℕ, length, slice_index_or, IsTrue};
ghost use Rattle.std.specs.List.{All};
ghost use Rattle.sqlite.specs.Order.{column};
ghost use Rattle.sqlite_value.specs.Value.{owned};
ghost use Rattle.plan_migrations_remaking.specs.Types.{AreFirst, AreTyped, HasTypes, first_types, has_type, types};

use plan_tables_schema::Table;
use sqlite::Row as Cells;
use sqlite::types::ValueRef;

// A letter for the type of each column: of an INTEGER, a TEXT or a BLOB; a small one where it may be NULL.
fn types_of(table: Table) -> &'static str
    ensures { result.now ≡ types table }
{
    match table {
        Table::Meta => "IIIIIIITI",
        Table::CalendarEntry => "TIII",
        Table::Period => "TITIi",
        Table::Application => "TIt",
        Table::RunCycle => "TTTTTIiIii",
        Table::Offset => "TTII",
        Table::Predecessor | Table::LinkInForce => "TTi",
        Table::LongTerm | Table::History => "ITIIt",
        Table::Current | Table::Deletion => "ITIItT",
        Table::Dependency => "II",
        Table::Job => "IBT",
    }
}

// Those of schema 1.
fn first_types_of(table: Table) -> &'static str
    ensures { result.now ≡ first_types table }
{
    match table {
        Table::Predecessor | Table::LinkInForce => "TT",
        _ => types_of(table),
    }
}

// Whether the value is of the type that the letter stands for.
fn has_type(letter: u8, value: ValueRef<'_>) -> bool
    ensures { result ≡ has_type letter (owned value.entry) }
{
    match value {
        ValueRef::Null => letter >= b'a',
        ValueRef::Int(_) => letter == b'I' || letter == b'i',
        ValueRef::Real(_) => letter == b'R' || letter == b'r',
        ValueRef::Text(_) => letter == b'T' || letter == b't',
        ValueRef::Blob(_) => letter == b'B' || letter == b'b',
    }
}

// Whether the value in the cell is of the type that the letter stands for.
fn cell_has_type(letter: u8, cells: &Cells, at: usize) -> bool
    ensures { result ≡ has_type letter (column cells.now at) }
{
    match cells.get_ref(at) {
        Ok(value) => has_type(letter, value),
        Err(_) => has_type(letter, ValueRef::Null),
    }
}

// Whether each value of the row is of the type that its letter stands for.
fn are_of_types(letters: &[u8], cells: &Cells) -> bool
    ensures { IsTrue result ↔ ((at : ℕ) → at < length letters.now
        → IsTrue (has_type (slice_index_or letters.now at 0) (column cells.now at))) }
{
    for at in 0..letters.len() {
        if !cell_has_type(letters[at], cells, at) {
            return false;
        }
    }
    true
}

// Whether there is a value for each letter, of the type that its letter stands for.
fn has_types(letters: &[u8], cells: &Cells) -> bool
    ensures { IsTrue result ↔ HasTypes letters.now cells.now }
{
    cells.column_count() == letters.len() && are_of_types(letters, cells)
}

// Whether each of the rows has these types.
fn have_types(letters: &[u8], rows: &[Cells]) -> bool
    ensures { IsTrue result ↔ All (HasTypes letters.now) rows.now }
{
    for cells in rows {
        if !has_types(letters, cells) {
            return false;
        }
    }
    true
}

/// Whether each row has a value for each column of the table, of its type.
pub fn are_typed(table: Table, rows: &[Cells]) -> bool
    ensures { IsTrue result ↔ AreTyped table rows.now }
{
    have_types(types_of(table).as_bytes(), rows)
}

/// The same by schema 1.
pub fn are_first(table: Table, rows: &[Cells]) -> bool
    ensures { IsTrue result ↔ AreFirst table rows.now }
{
    have_types(first_types_of(table).as_bytes(), rows)
}
