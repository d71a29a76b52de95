// Rows without their first column.

ghost use Rattle.std.specs.Prelude.{◌≡◌, drop, IfOk};

use sqlite_value::row::Row;
use std::alloc::{AllocError, Global};

/// The row without its first column.
pub(crate) fn tail_of(alloc: Global, row: &Row) -> Result<Row, AllocError>
    ensures { IfOk result (λ tail. tail ≡ drop 1 row.now) }
{
    let mut tail = Row::new(alloc);
    for place in 1..row.len() {
        tail.push(row.get(place))?;
    }
    Ok(tail)
}
