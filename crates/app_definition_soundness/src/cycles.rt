// Run cycles.

ghost use Rattle.std.specs.Prelude.{◌↔◌, IsTrue};
ghost use Rattle.std.specs.List.{All};
ghost use Rattle.app_definition_records.specs.CycleRecords.{AreRunCyclesOf, FitsRunCycle};
ghost use Rattle.app_definition_records.specs.FieldCounts.{HasCycleFields};
ghost use Rattle.run_cycles.specs.Offset.{IsOffsets};
ghost use Rattle.app_definition_soundness.specs.Given.{IsGiven};
ghost use Rattle.app_definition_soundness.specs.Values.{AreCycleValues, HasDeadline, IsCycleValue, IsDeadlineValue};

use crate::given::Given;
use crate::names::{is_day, is_end, is_minute, is_name, is_short};
use app_definitions::RunCycles;
use run_cycles::{CycleType, Deadline, MAX_DEADLINE_DAYS, Offsets, RunCycle};
use std::alloc::{AllocError, Global};
use work_calendars::Name;

// Whether the deadline lies no more days later than it may.
fn is_deadline(deadline: &Deadline) -> bool
    ensures { IsTrue result ↔ IsDeadlineValue deadline.now }
{
    deadline.days <= MAX_DEADLINE_DAYS && is_minute(deadline.time)
}

// Whether so it is of the deadline of the type, if it has one.
fn has_deadline(kind: &CycleType) -> bool
    ensures { IsTrue result ↔ HasDeadline kind.now }
{
    match kind {
        CycleType::Normal(deadline) => is_deadline(deadline),
        CycleType::Negative(Some(deadline)) => is_deadline(deadline),
        CycleType::Negative(None) => true,
    }
}

// Offsets are in reach by their type.
fn are_offsets(offsets: &Offsets) -> bool
    ensures { IsTrue result ↔ IsOffsets offsets.now }
{
    !offsets.as_slice().is_empty()
}

// Whether all parts of the run cycle are such as a record spells.
fn is_cycle(cycle: &RunCycle) -> bool
    ensures { IsTrue result ↔ IsCycleValue cycle.now }
{
    is_short(&cycle.name)
        && has_deadline(&cycle.kind)
        && is_short(&cycle.period)
        && are_offsets(&cycle.offsets)
        && is_day(cycle.in_effect)
        && is_end(&cycle.out_effect)
        && is_minute(cycle.ia)
}

fn are_cycles(cycles: &[RunCycle]) -> bool
    ensures { IsTrue result ↔ All IsCycleValue cycles.now }
{
    for cycle in cycles {
        if !is_cycle(cycle) {
            return false;
        }
    }
    true
}

fn are_run_cycles(name: &Name, cycles: &[RunCycle]) -> bool
    ensures { IsTrue result ↔ AreCycleValues name.now cycles.now }
{
    is_name(name) && !cycles.is_empty() && are_cycles(cycles)
}

impl Given for RunCycles {
    ghost IsGiven = { IsGiven HasCycleFields FitsRunCycle AreRunCyclesOf };

    fn is_given(&self, _alloc: Global, name: &Name) -> Result<bool, AllocError> {
        Ok(are_run_cycles(name, self.as_slice()))
    }
}
