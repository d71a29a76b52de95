// Rows of run cycles, without their offsets.

ghost use Rattle.std.specs.Prelude.{◌≡◌, length, option_map, IfOk, OnOk};
ghost use Rattle.std.proofs.Common.{ap};
ghost use Rattle.sqlite.specs.Order.{Row as Values, column};
ghost use Rattle.sqlite.specs.Value.{owned};
ghost use Rattle.run_cycles.specs.declared.cycles.Deadline.{Deadline as DeadlineValue};
ghost use Rattle.app_definition_records.specs.CycleRecords.{rule_text};
ghost use Rattle.app_definition_records.specs.Rising.{AreRising};
ghost use Rattle.plan_tables_content.specs.Facts.{IsCycleRow, deadline_of, natural, or_null, type_letter};
ghost use Rattle.plan_tables_definitions.specs.Adding.{Adds, HaveOwnKeys, IsOfPlace};
ghost use Rattle.plan_tables_definitions.specs.Parts.{IsRowOfCycle};
ghost use Rattle.plan_tables_definitions.specs.Storing.{AreRowsOf};

use crate::cells::{number, optional_day, row_of};
use crate::encoding::{Encoding, rows_of};
use app_definitions::{ByName, RunCycles};
use run_cycles::{CycleType, Deadline, Rule, RunCycle};
use sqlite::types::ValueRef;
use sqlite_value::row::Row;
use std::alloc::{AllocError, Global};
use work_calendars::Name;

fn letter_of(kind: &CycleType) -> &'static [u8]
    ensures { result.now ≡ type_letter kind.now }
{
    match kind {
        CycleType::Normal(_) => b"N",
        CycleType::Negative(_) => b"X",
    }
}

fn rule_of(rule: Rule) -> &'static [u8]
    ensures { result.now ≡ rule_text rule }
{
    match rule {
        Rule::WorkDaysOnly => b"E",
        Rule::Before => b"1",
        Rule::After => b"2",
        Rule::Same => b"3",
        Rule::Skip => b"4",
    }
}

fn deadline_of(kind: &CycleType) -> Option<Deadline>
    ensures { result ≡ deadline_of kind.now }
{
    match kind {
        CycleType::Normal(deadline) => Some(*deadline),
        CycleType::Negative(deadline) => *deadline,
    }
}

// The days of the deadline, or NULL.
fn days_of(deadline: &Option<Deadline>) -> ValueRef<'static>
    ensures { owned result
        ≡ or_null (option_map (λ (d : DeadlineValue). natural d.days) deadline.now) }
{
    match deadline {
        Some(deadline) => number(u32::from(deadline.days)),
        None => ValueRef::Null,
    }
}

// The time of the deadline, or NULL.
fn time_of(deadline: &Option<Deadline>) -> ValueRef<'static>
    ensures { owned result
        ≡ or_null (option_map (λ (d : DeadlineValue). natural d.time) deadline.now) }
{
    match deadline {
        Some(deadline) => number(deadline.time.number()),
        None => ValueRef::Null,
    }
}

// The row of a run cycle.
fn cycle_row(alloc: Global, app: &Name, cycle: &RunCycle) -> Result<Row, AllocError>
    ensures { IfOk result (IsRowOfCycle app.now cycle.now) }
{
    let deadline = deadline_of(&cycle.kind);
    row_of(
        alloc,
        &[
            ValueRef::Text(app.as_bytes()),
            ValueRef::Text(cycle.name.as_bytes()),
            ValueRef::Text(letter_of(&cycle.kind)),
            ValueRef::Text(cycle.period.as_bytes()),
            ValueRef::Text(rule_of(cycle.rule)),
            number(cycle.in_effect.number()),
            optional_day(&cycle.out_effect),
            number(cycle.ia.number()),
            days_of(&deadline),
            time_of(&deadline),
        ],
    )
}

// Appends the rows of these run cycles.
fn push_cycles(
    alloc: Global,
    rows: &mut Vec<Row>,
    app: &Name,
    cycles: &[RunCycle],
) -> Result<(), AllocError>
    requires { AreRising (λ cycle. cycle.name) cycles.now }
    ensures { OnOk result (Adds 2
        (IsOfPlace (λ _. IsRowOfCycle app.now) cycles.now (length cycles.now))
        rows.old.items rows.new.items) }
{
    for cycle in cycles {
        let row = cycle_row(alloc, app, cycle)?;
        rows.push(row)?;
    }
    Ok(())
}

struct CycleRows;

impl Encoding for CycleRows {
    type Of = RunCycles;

    ghost IsRow = { IsCycleRow };

    ghost cells = { 1 };

    ghost named = { λ app listed v (cycle, has, is). ap (λ (r : Values). column r 0) is };

    fn push(
        alloc: Global,
        rows: &mut Vec<Row>,
        name: &Name,
        definition: &RunCycles,
    ) -> Result<(), AllocError> {
        push_cycles(alloc, rows, name, definition.as_slice())
    }
}

/// The rows of the run cycles in the table `run_cycle`.
pub fn cycle_rows(alloc: Global, run_cycles: &ByName<RunCycles>) -> Result<Vec<Row>, AllocError>
    ensures rows { IfOk result (λ rows. AreRowsOf IsCycleRow rows.items run_cycles.now) }
    ensures keys { IfOk result (λ rows. HaveOwnKeys 2 rows.items) }
{
    rows_of::<CycleRows>(alloc, run_cycles)
}
