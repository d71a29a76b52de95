// All definitions, read from the tables.

ghost use Rattle.std.specs.Prelude.{◌≡◌, ℕ, List, IfOk, IfSome, IsSome};
ghost use Rattle.work_calendars.specs.Calendar.{CalendarEntries};
ghost use Rattle.app_definition_records.specs.declared.applications.Application.{Application as ApplicationValue};
ghost use Rattle.app_definition_records.specs.declared.predecessors.Predecessor.{Predecessor as PredecessorValue};
ghost use Rattle.app_definitions.specs.declared.definitions.Definitions.{Definitions as DefinitionsValue};
ghost use Rattle.run_cycles.specs.declared.cycles.RunCycle.{RunCycle as RunCycleValue};
ghost use Rattle.plan_tables_definitions.specs.Storing.{AreRowsOf, HaveRows};
ghost use Rattle.plan_tables_content.specs.Content.{AreEach, ByName as Defined, HasEntry, IsApplicationRow, IsTold};
ghost use Rattle.plan_tables_definitions.specs.Defined.{AreSoundDefinitions};
ghost use Rattle.plan_tables_definitions.specs.Drafted.{AreSoundPredecessors, IsSoundApplication, IsSoundCalendar};
ghost use Rattle.plan_tables_definitions.specs.DraftedPeriods.{IsSoundPeriodOfDays};
ghost use Rattle.plan_tables_definitions.specs.Gathering.{AreSound};
ghost use Rattle.plan_tables_definitions.specs.Representable.{AreCycles, ArePredecessors};
ghost use Rattle.plan_tables_definitions.specs.WholeCycles.{AreSoundCycles};
ghost use Rattle.plan_periods.specs.declared.periods.Period.{Period as PeriodValue};
ghost use Rattle.plan_tables_content.specs.Facts.{IsCalendarRow, IsCycleRow, IsOffsetRow, IsPeriodRow, IsPredecessorRow};

use crate::applications::read_applications;
use crate::calendars::read_calendars;
use crate::copying::copied_rows;
use crate::periods::read_periods;
use crate::predecessors::read_predecessors;
use crate::whole_cycles::read_cycles;
use app_definitions::{
    Application, ByName, DefinedPeriod, Definitions, Options, Predecessors, RunCycles,
};
use sqlite::Row;
use std::alloc::{AllocError, Global};
use work_calendars::Calendar;

/// The rows of the tables of definitions, as they are shown.
#[derive(Drop)]
pub struct StoredRows {
    /// Of `calendar_entry`.
    pub calendars: Vec<Row>,
    /// Of `plan_period`.
    pub periods: Vec<Row>,
    /// Of `application`.
    pub applications: Vec<Row>,
    /// Of `run_cycle`.
    pub run_cycles: Vec<Row>,
    /// Of `run_cycle_offset`.
    pub offsets: Vec<Row>,
    /// Of `predecessor`.
    pub predecessors: Vec<Row>,
}

/// The calendars that have exactly these rows, or none where no sound ones have.
pub fn calendars_of_rows(
    alloc: Global,
    shown: &[Row],
) -> Result<Option<ByName<Calendar>>, AllocError>
    ensures made { IfOk result (λ found. IfSome found (AreRowsOf IsCalendarRow shown.now)) }
    ensures told { IfOk result (λ found. IfSome found (AreEach IsTold)) }
    ensures found { IfOk result (λ found. (all : Defined CalendarEntries)
        → AreSound IsSoundCalendar all
        → AreRowsOf IsCalendarRow shown.now all → IsSome found) }
{
    let rows = copied_rows(alloc, shown)?;
    read_calendars(alloc, &rows)
}

/// The periods that have exactly these rows, or none where no sound ones have.
pub fn periods_of_rows(
    alloc: Global,
    shown: &[Row],
) -> Result<Option<ByName<DefinedPeriod>>, AllocError>
    ensures made { IfOk result (λ found. IfSome found (AreRowsOf IsPeriodRow shown.now)) }
    ensures told { IfOk result (λ found. IfSome found (AreEach HasEntry)) }
    ensures found { IfOk result (λ found. (all : Defined PeriodValue)
        → AreSound IsSoundPeriodOfDays all
        → AreRowsOf IsPeriodRow shown.now all → IsSome found) }
{
    let rows = copied_rows(alloc, shown)?;
    read_periods(alloc, &rows)
}

/// The applications that have exactly these rows, or none where no sound ones have.
pub fn applications_of_rows(
    alloc: Global,
    shown: &[Row],
) -> Result<Option<ByName<Application>>, AllocError>
    ensures made { IfOk result (λ found. IfSome found (AreRowsOf IsApplicationRow shown.now)) }
    ensures found { IfOk result (λ found. (all : Defined ApplicationValue)
        → AreSound IsSoundApplication all
        → AreRowsOf IsApplicationRow shown.now all → IsSome found) }
{
    let rows = copied_rows(alloc, shown)?;
    read_applications(alloc, &rows)
}

/// The lists of predecessors that have exactly these rows, or none where no sound ones have.
pub fn predecessors_of_rows(
    alloc: Global,
    shown: &[Row],
) -> Result<Option<ByName<Predecessors>>, AllocError>
    ensures made { IfOk result (λ found. IfSome found (AreRowsOf IsPredecessorRow shown.now)) }
    ensures told { IfOk result (λ found. IfSome found (AreEach ArePredecessors)) }
    ensures found { IfOk result (λ found. (all : Defined (List PredecessorValue))
        → AreSound AreSoundPredecessors all
        → AreRowsOf IsPredecessorRow shown.now all → IsSome found) }
{
    let rows = copied_rows(alloc, shown)?;
    read_predecessors(alloc, &rows)
}

/// The run cycles that have exactly these rows, and exactly these rows of offsets, or none where no sound ones have.
pub fn run_cycles_of_rows(
    alloc: Global,
    shown: &[Row],
    offsets: &[Row],
) -> Result<Option<ByName<RunCycles>>, AllocError>
    ensures cycles { IfOk result (λ found. IfSome found (AreRowsOf IsCycleRow shown.now)) }
    ensures offsets { IfOk result (λ found. IfSome found (AreRowsOf IsOffsetRow offsets.now)) }
    ensures told { IfOk result (λ found. IfSome found (AreEach AreCycles)) }
    ensures found { IfOk result (λ found. (all : Defined (List RunCycleValue))
        → AreSound AreSoundCycles all
        → AreRowsOf IsCycleRow shown.now all → AreRowsOf IsOffsetRow offsets.now all
        → IsSome found) }
{
    let rows = copied_rows(alloc, shown)?;
    let offset_rows = copied_rows(alloc, offsets)?;
    read_cycles(alloc, rows, offset_rows)
}

// The definitions of days.
#[derive(Drop)]
struct Days {
    calendars: ByName<Calendar>,
    periods: ByName<DefinedPeriod>,
}

// The definitions of applications, without their run cycles.
#[derive(Drop)]
struct Listed {
    applications: ByName<Application>,
    predecessors: ByName<Predecessors>,
}

// The calendars and the periods that have exactly these rows, or none where no sound ones have.
fn days_of_rows(alloc: Global, stored: &StoredRows) -> Result<Option<Days>, AllocError>
    ensures calendars { IfOk result (λ found. IfSome found
        (λ days. AreRowsOf IsCalendarRow stored.now.calendars.items days.calendars)) }
    ensures periods { IfOk result (λ found. IfSome found
        (λ days. AreRowsOf IsPeriodRow stored.now.periods.items days.periods)) }
    ensures told { IfOk result (λ found. IfSome found (λ days. AreEach IsTold days.calendars)) }
    ensures entries { IfOk result (λ found. IfSome found (λ days. AreEach HasEntry days.periods)) }
    ensures found { IfOk result (λ found. (calendars : Defined CalendarEntries)
        (periods : Defined PeriodValue)
        → AreSound IsSoundCalendar calendars → AreSound IsSoundPeriodOfDays periods
        → AreRowsOf IsCalendarRow stored.now.calendars.items calendars
        → AreRowsOf IsPeriodRow stored.now.periods.items periods → IsSome found) }
{
    let Some(calendars) = calendars_of_rows(alloc, &stored.calendars)? else {
        return Ok(None);
    };
    let Some(periods) = periods_of_rows(alloc, &stored.periods)? else {
        return Ok(None);
    };
    Ok(Some(Days { calendars, periods }))
}

// The applications and the lists of predecessors that have exactly these rows, or none where no sound ones have.
fn listed_of_rows(alloc: Global, stored: &StoredRows) -> Result<Option<Listed>, AllocError>
    ensures applications { IfOk result (λ found. IfSome found
        (λ listed. AreRowsOf IsApplicationRow stored.now.applications.items listed.applications)) }
    ensures predecessors { IfOk result (λ found. IfSome found
        (λ listed. AreRowsOf IsPredecessorRow stored.now.predecessors.items listed.predecessors)) }
    ensures told { IfOk result (λ found. IfSome found (λ listed.
        AreEach ArePredecessors listed.predecessors)) }
    ensures found { IfOk result (λ found. (applications : Defined ApplicationValue)
        (predecessors : Defined (List PredecessorValue))
        → AreSound IsSoundApplication applications → AreSound AreSoundPredecessors predecessors
        → AreRowsOf IsApplicationRow stored.now.applications.items applications
        → AreRowsOf IsPredecessorRow stored.now.predecessors.items predecessors → IsSome found) }
{
    let Some(applications) = applications_of_rows(alloc, &stored.applications)? else {
        return Ok(None);
    };
    let Some(predecessors) = predecessors_of_rows(alloc, &stored.predecessors)? else {
        return Ok(None);
    };
    Ok(Some(Listed {
        applications,
        predecessors,
    }))
}

// The run cycles that have exactly these rows, or none where no sound ones have.
fn cycles_of_stored(
    alloc: Global,
    stored: &StoredRows,
) -> Result<Option<ByName<RunCycles>>, AllocError>
    ensures cycles { IfOk result (λ found.
        IfSome found (AreRowsOf IsCycleRow stored.now.run_cycles.items)) }
    ensures offsets { IfOk result (λ found.
        IfSome found (AreRowsOf IsOffsetRow stored.now.offsets.items)) }
    ensures told { IfOk result (λ found. IfSome found (AreEach AreCycles)) }
    ensures found { IfOk result (λ found. (all : Defined (List RunCycleValue))
        → AreSound AreSoundCycles all
        → AreRowsOf IsCycleRow stored.now.run_cycles.items all
        → AreRowsOf IsOffsetRow stored.now.offsets.items all → IsSome found) }
{
    run_cycles_of_rows(alloc, &stored.run_cycles, &stored.offsets)
}

/// The definitions that have exactly these rows, with these options, or none where no sound ones have.
pub fn definitions_of_rows(
    alloc: Global,
    stored: &StoredRows,
    options: Options,
) -> Result<Option<Definitions>, AllocError>
    ensures made { IfOk result (λ found. IfSome found (HaveRows stored.now options)) }
    ensures found { IfOk result (λ found. (all : DefinitionsValue) → AreSoundDefinitions all
        → HaveRows stored.now options all → IsSome found) }
{
    let Some(days) = days_of_rows(alloc, stored)? else {
        return Ok(None);
    };
    let Some(run_cycles) = cycles_of_stored(alloc, stored)? else {
        return Ok(None);
    };
    let Some(listed) = listed_of_rows(alloc, stored)? else {
        return Ok(None);
    };
    Ok(Some(joined(days, listed, run_cycles, options)))
}

// The definitions of these parts.
fn joined(
    days: Days,
    listed: Listed,
    run_cycles: ByName<RunCycles>,
    options: Options,
) -> Definitions
    ensures { result ≡ record {
      applications = listed.applications;
      calendars = days.calendars;
      periods = days.periods;
      predecessors = listed.predecessors;
      run_cycles = run_cycles;
      options = options;
    } }
{
    Definitions {
        applications: listed.applications,
        calendars: days.calendars,
        periods: days.periods,
        predecessors: listed.predecessors,
        run_cycles,
        options,
    }
}
