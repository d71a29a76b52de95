// Run cycles of applications, read from their rows and those of their offsets.

ghost use Rattle.std.specs.Prelude.{◌≡◌, ◌↔◌, ℕ, List, map, All, IfOk, IfSome, IsSome, IsTrue};
ghost use Rattle.std.specs.FinMap as maps;
ghost use Rattle.sqlite.specs.Order.{Row as Values};
ghost use Rattle.work_calendars.specs.Name.{IsShort};
ghost use Rattle.run_cycles.specs.declared.cycles.RunCycle.{RunCycle as RunCycleValue};
ghost use Rattle.app_definition_records.specs.Rising.{AreRising};
ghost use Rattle.plan_tables_content.specs.Content.{AreEach, ByName as Defined};
ghost use Rattle.plan_tables_content.specs.Facts.{IsCycleRow, IsOffsetRow};
ghost use Rattle.plan_tables_definitions.specs.Gathering.{AreSound};
ghost use Rattle.plan_tables_definitions.specs.Storing.{AreRowsOf};
ghost use Rattle.plan_tables_definitions.specs.Representable.{AreCycles};
ghost use Rattle.plan_tables_definitions.specs.WholeCycles.{ArePartsOf, AreSoundCycles, AreWide, HaveShortNames};
ghost use Rattle.plan_tables_definitions.specs.WholeCycles.{IsEitherRow, IsKept, cycle_of, either_named, kept_named};
ghost use Rattle.plan_tables_definitions.specs.declared.cycle_parts.CyclePart.{CyclePart as PartValue};

use crate::cycle_parts::{CyclePart, PartDraft};
use crate::gathering::{Draft, gathered};
use crate::tails::tail_of;
use app_definitions::{ByName, RunCycles};
use run_cycles::RunCycle;
use sqlite_value::row::Row;
use std::alloc::{AllocError, Global};
use work_calendars::{Name, Short};

// The run cycle of this name, or none if the name is too long.
fn cycle_with(name: &Name, part: &CyclePart) -> Result<Option<RunCycle>, AllocError>
    ensures made { IfOk result (λ found. IfSome found (λ cycle.
        cycle ≡ cycle_of (name.now, part.now))) }
    ensures found { IfOk result (λ found. IsSome found ↔ IsShort name.now) }
{
    let Some(name) = Short::from_text(name.as_str()) else {
        return Ok(None);
    };
    Ok(Some(RunCycle {
        name,
        kind: part.told.kind,
        period: part.told.period,
        rule: part.told.rule,
        offsets: part.offsets.clone()?,
        in_effect: part.told.in_effect,
        out_effect: part.told.out_effect,
        ia: part.told.ia,
    }))
}

// The run cycles of these parts, or none if a name is too long.
fn cycles_with(
    alloc: Global,
    parts: &[(Name, CyclePart)],
) -> Result<Option<Vec<RunCycle>>, AllocError>
    ensures made { IfOk result (λ found. IfSome found (λ cycles.
        cycles.items ≡ map cycle_of parts.now)) }
    ensures found { IfOk result (λ found. HaveShortNames parts.now → IsSome found) }
{
    let mut cycles = Vec::new(alloc);
    for part in parts {
        match cycle_with(&part.0, &part.1)? {
            Some(cycle) => cycles.push(cycle)?,
            None => return Ok(None),
        }
    }
    Ok(Some(cycles))
}

// The run cycles of an application that have these parts, or none if a name is too long.
fn cycles_of(alloc: Global, parts: ByName<CyclePart>) -> Result<Option<RunCycles>, AllocError>
    ensures made { IfOk result (λ found. IfSome found (ArePartsOf parts)) }
    ensures rising { IfOk result (λ found. IfSome found (AreRising (λ cycle. cycle.name))) }
    ensures found { IfOk result (λ found. ((name : List ℕ) (part : PartValue)
        → maps.get parts name ≡ Some part
        → IsShort name) → IsSome found) }
{
    let parts = parts.into_vec(alloc)?;
    match cycles_with(alloc, &parts)? {
        Some(cycles) => Ok(RunCycles::from_vec(cycles)),
        None => Ok(None),
    }
}

// What was decoded of the run cycles of an application so far: rows without it.
#[derive(Drop)]
struct CyclesDraft {
    tails: Vec<Row>,
}

impl Draft for CyclesDraft {
    type Of = RunCycles;

    ghost IsRow = { IsEitherRow };

    ghost IsSound = { AreSoundCycles };

    ghost IsTold = { AreCycles };

    ghost IsRead = { λ app x. IsKept app x.tails.items };

    fn begin(alloc: Global) -> CyclesDraft {
        CyclesDraft {
            tails: Vec::new(alloc),
        }
    }

    fn join(&mut self, _name: &Name, row: &Row) -> Result<bool, AllocError> {
        let tail = tail_of(*self.tails.allocator(), row)?;
        self.tails.push(tail)?;
        Ok(true)
    }

    fn finish(&self, alloc: Global, _name: &Name) -> Result<Option<RunCycles>, AllocError> {
        match gathered::<PartDraft>(alloc, &self.tails)? {
            Some(parts) => cycles_of(alloc, parts),
            None => Ok(None),
        }
    }

    ghost named = { either_named };

    ghost read_named = { λ app x v is. kept_named app x.tails.items v is };
}

// Whether each of the rows has that many columns.
fn are_wide(rows: &[Row], width: usize) -> bool
    ensures { IsTrue result ↔ AreWide width rows.now }
{
    rows.iter().all(|row| row.len() == width)
}

/// The run cycles that have exactly these rows, and these rows of offsets, or none where no sound ones have.
pub(crate) fn read_cycles(
    alloc: Global,
    mut rows: Vec<Row>,
    mut offsets: Vec<Row>,
) -> Result<Option<ByName<RunCycles>>, AllocError>
    ensures cycles { IfOk result (λ found. IfSome found (AreRowsOf IsCycleRow rows.items)) }
    ensures offsets { IfOk result (λ found. IfSome found (AreRowsOf IsOffsetRow offsets.items)) }
    ensures told { IfOk result (λ found. IfSome found (AreEach AreCycles)) }
    ensures found { IfOk result (λ found. (all : Defined (List RunCycleValue))
        → AreSound AreSoundCycles all
        → AreRowsOf IsCycleRow rows.items all → AreRowsOf IsOffsetRow offsets.items all
        → IsSome found) }
{
    if !are_wide(&rows, 10) {
        return Ok(None);
    }
    if !are_wide(&offsets, 4) {
        return Ok(None);
    }
    rows.append(&mut offsets)?;
    gathered::<CyclesDraft>(alloc, &rows)
}
