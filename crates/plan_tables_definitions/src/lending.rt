// Rows as they are bound to a statement.

ghost use Rattle.std.specs.Prelude.{◌≡◌, map, IfOk};
ghost use Rattle.sqlite.specs.Values.{bound, bound_value};

use sqlite::types::ValueRef;
use sqlite_value::row::Row;
use std::alloc::{AllocError, Global};

/// The values of a row, as a statement binds them.
pub fn lend(alloc: Global, row: &Row) -> Result<Vec<ValueRef<'_>>, AllocError>
    ensures { IfOk result (λ values. bound values.items ≡ map bound_value row.now) }
{
    let mut values = Vec::new(alloc);
    for place in 0..row.len() {
        values.push(row.get(place))?;
    }
    Ok(values)
}
