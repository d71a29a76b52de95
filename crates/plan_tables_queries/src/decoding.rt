// What the rows of an answer encode.

ghost use Rattle.std.specs.Prelude.{◌≡◌, map, IfErr, IfOk};
ghost use Rattle.plan_tables_queries.specs.Decoding.{TellsFound, TellsNone, TellsNot, told_by};

use plan_tables_loading::Decode;
use plan_tables_lookups::TableFault;
use sqlite::{Error, Row};
use std::alloc::{AllocError, Global};

// What was decoded of a row, or why nothing was.
fn told_by<X>(found: Result<Option<X>, AllocError>) -> Result<X, TableFault>
    ensures { result ≡ told_by found }
{
    match found {
        Ok(Some(fact)) => Ok(fact),
        Ok(None) => Err(TableFault::Malformed),
        Err(AllocError) => Err(TableFault::Memory),
    }
}

/// What the row encodes.
pub(crate) fn decode_row<X: Decode>(alloc: Global, row: &Row) -> Result<X, TableFault>
    ensures told { IfOk result (λ x. X.values x ≡ row.now) }
    ensures untold { IfErr result (TellsNone X.has_form X.values row.now) }
{
    told_by(X::decode(alloc, row))
}

/// What the first of the rows found encodes; `None` if there is none.
pub(crate) fn decode_found<X: Decode>(
    alloc: Global,
    found: Result<Vec<Row>, Error>,
) -> Result<Option<X>, TableFault>
    ensures { TellsFound X.has_form X.values found result }
{
    let rows = found?;
    let Some(row) = rows.first() else {
        return Ok(None);
    };
    Ok(Some(decode_row(alloc, row)?))
}

/// What the rows encode, one after another.
pub(crate) fn decode_each<X: Decode + Drop>(
    alloc: Global,
    rows: &[Row],
) -> Result<Vec<X>, TableFault>
    ensures told { IfOk result (λ xs. map X.values xs.items ≡ rows.now) }
    ensures untold { IfErr result (TellsNot X.has_form X.values rows.now) }
{
    let mut xs = Vec::with_capacity(alloc, rows.len())?;
    for row in rows {
        let fact = decode_row(alloc, row)?;
        xs.push(fact)?;
    }
    Ok(xs)
}
