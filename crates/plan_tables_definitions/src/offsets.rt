// Rows of the offsets of run cycles.

ghost use Rattle.std.specs.Prelude.{◌<◌, ◌^◌, length, IfOk, OnOk};
ghost use Rattle.std.proofs.Common.{ap};
ghost use Rattle.sqlite.specs.Order.{Row as Values, column};
ghost use Rattle.app_definition_records.specs.Rising.{AreRising};
ghost use Rattle.plan_tables_content.specs.Facts.{IsOffsetRow};
ghost use Rattle.plan_tables_definitions.specs.Adding.{Adds, HaveOwnKeys, IsOfPlace};
ghost use Rattle.plan_tables_definitions.specs.Parts.{IsOffsetAt, IsOffsetOf};
ghost use Rattle.plan_tables_definitions.specs.Storing.{AreRowsOf};

use crate::cells::row_of;
use crate::encoding::{Encoding, rows_of};
use app_definitions::{ByName, RunCycles};
use run_cycles::RunCycle;
use sqlite::types::ValueRef;
use sqlite_value::row::Row;
use std::alloc::{AllocError, Global};
use work_calendars::{Name, Short};

// The row of an offset.
fn offset_row<'n>(
    alloc: Global,
    app: &'n Name,
    name: &'n Short,
    place: usize,
    offset: &i16,
) -> Result<Row, AllocError>
    requires { place < 2 ^ 63 }
    ensures { IfOk result (IsOffsetAt app.now name.now place offset.now) }
{
    row_of(
        alloc,
        &[
            ValueRef::Text(app.as_bytes()),
            ValueRef::Text(name.as_bytes()),
            ValueRef::Int(place as i64),
            ValueRef::Int(i64::from(*offset)),
        ],
    )
}

// Appends the rows of these offsets.
fn push_offsets(
    alloc: Global,
    rows: &mut Vec<Row>,
    app: &Name,
    name: &Short,
    offsets: &[i16],
) -> Result<(), AllocError>
    ensures { OnOk result (Adds 3
        (IsOfPlace (IsOffsetAt app.now name.now) offsets.now (length offsets.now))
        rows.old.items rows.new.items) }
{
    for place in 0..offsets.len() {
        let row = offset_row(alloc, app, name, place, &offsets[place])?;
        rows.push(row)?;
    }
    Ok(())
}

// Appends the rows of the offsets of a run cycle.
fn push_of_cycle(
    alloc: Global,
    rows: &mut Vec<Row>,
    app: &Name,
    cycle: &RunCycle,
) -> Result<(), AllocError>
    ensures { OnOk result (Adds 3 (IsOffsetOf app.now cycle.now) rows.old.items rows.new.items) }
{
    push_offsets(alloc, rows, app, &cycle.name, cycle.offsets.as_slice())
}

// Appends the rows of the offsets of these run cycles.
fn push_of_cycles(
    alloc: Global,
    rows: &mut Vec<Row>,
    app: &Name,
    cycles: &[RunCycle],
) -> Result<(), AllocError>
    requires { AreRising (λ cycle. cycle.name) cycles.now }
    ensures { OnOk result (Adds 3
        (IsOfPlace (λ _. IsOffsetOf app.now) cycles.now (length cycles.now))
        rows.old.items rows.new.items) }
{
    for cycle in cycles {
        push_of_cycle(alloc, rows, app, cycle)?;
    }
    Ok(())
}

struct OffsetRows;

impl Encoding for OffsetRows {
    type Of = RunCycles;

    ghost IsRow = { IsOffsetRow };

    ghost cells = { 2 };

    ghost named = { λ app listed v (cycle, has, place, k, at, is).
        ap (λ (r : Values). column r 0) is };

    fn push(
        alloc: Global,
        rows: &mut Vec<Row>,
        name: &Name,
        definition: &RunCycles,
    ) -> Result<(), AllocError> {
        push_of_cycles(alloc, rows, name, definition.as_slice())
    }
}

/// The rows of the offsets of the run cycles in the table `run_cycle_offset`.
pub fn offset_rows(alloc: Global, run_cycles: &ByName<RunCycles>) -> Result<Vec<Row>, AllocError>
    ensures rows { IfOk result (λ rows. AreRowsOf IsOffsetRow rows.items run_cycles.now) }
    ensures keys { IfOk result (λ rows. HaveOwnKeys 3 rows.items) }
{
    rows_of::<OffsetRows>(alloc, run_cycles)
}
