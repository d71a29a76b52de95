// What all rows of a table encode.

ghost use Rattle.std.specs.Prelude.{◌≡◌, [], ◌∷◌, ◌++◌, map, IfErr, OnOk};
ghost use Rattle.std.specs.List.Sorted.{IsPermutation};
ghost use Rattle.plan_tables_schema.specs.Rows.{shown};
ghost use Rattle.plan_tables_queries.specs.Decoding.{HasMalformed, TellsNone, TellsTables};

use crate::decoding::decode_row;
use plan_tables_loading::Decode;
use plan_tables_lookups::{RowRefused, Stopped, TableFault, ValuesSink, emit_all};
use plan_tables_schema::Table;
use sqlite::{Alter, Connection, Row};
use std::alloc::Global;

/// Keeps what each row encodes that it accepts.
#[derive(Drop)]
struct Collector<X> {
    alloc: Global,
    // what the rows encode that it accepted
    xs: Vec<X>,
    // why it refused a row, if it did
    why: TableFault,
}

// Appends what the row encodes.
fn put<X: Decode + Drop>(alloc: Global, xs: &mut Vec<X>, row: &Row) -> Result<(), TableFault>
    ensures put { OnOk result (map X.values xs.new.items
        ≡ map X.values xs.old.items ++ row.now ∷ []) }
    ensures untold { IfErr result (TellsNone X.has_form X.values row.now) }
{
    let x = decode_row(alloc, row)?;
    xs.push(x)?;
    Ok(())
}

impl<X: Decode + Drop> ValuesSink for Collector<X> {
    ghost accepts = { λ old row new.
        map X.values new.xs.items ≡ map X.values old.xs.items ++ row ∷ [] };

    ghost refuses = { λ old row new. TellsNone X.has_form X.values row new.why };

    fn accept(&mut self, row: &Row) -> Result<(), RowRefused> {
        match put(self.alloc, &mut self.xs, row) {
            Ok(()) => Ok(()),
            Err(fault) => {
                self.why = fault;
                Err(RowRefused)
            }
        }
    }
}

/// What all rows of the table encode, each decoded before the next is read, in some order.
pub(crate) fn decode_all<X: Decode + Drop, S: Alter>(
    alloc: Global,
    conn: &mut Connection<S>,
    table: Table,
) -> Result<Vec<X>, TableFault>
    ensures { TellsTables S.Store conn.old conn.new result
        (λ all xs. IsPermutation (map (shown table) (all table)) (map X.values xs.items))
        (λ all. HasMalformed X.has_form X.values (map (shown table) (all table))) }
{
    let mut told: Collector<X> = Collector {
        alloc,
        xs: Vec::new(alloc),
        why: TableFault::Memory,
    };
    match emit_all(conn, table, &mut told) {
        Ok(()) => Ok(told.xs),
        Err(Stopped::Fault(error)) => Err(TableFault::Store(error)),
        Err(Stopped::Sink) => Err(told.why),
    }
}
