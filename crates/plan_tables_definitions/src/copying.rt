// Rows as they are shown, copied.

ghost use Rattle.std.specs.Prelude.{◌≡◌, IfOk};

use sqlite::Row as ShownRow;
use sqlite_value::row::Row;
use std::alloc::{AllocError, Global};

// A copy of a row that was read.
fn copied(alloc: Global, read: &ShownRow) -> Result<Row, AllocError>
    ensures { IfOk result (λ row. row ≡ read.now) }
{
    let mut row = Row::new(alloc);
    for place in 0..read.column_count() {
        match read.get_ref(place) {
            Ok(value) => row.push(value)?,
            Err(_) => unreachable!(),
        }
    }
    Ok(row)
}

/// The rows that were read.
pub(crate) fn copied_rows(alloc: Global, read: &[ShownRow]) -> Result<Vec<Row>, AllocError>
    ensures { IfOk result (λ rows. rows.items ≡ read.now) }
{
    let mut rows = Vec::new(alloc);
    for row in read {
        rows.push(copied(alloc, row)?)?;
    }
    Ok(rows)
}
