// Active applications: their calendars and run cycles, and what these lack.

ghost use Rattle.std.specs.Prelude.{◌≡◌, ◌↔◌, IsTrue, IfNone, IfSome, None};
ghost use Rattle.std.specs.FinMap as map;
ghost use Rattle.run_cycles.specs.Occurrence.{HaveOwnNames};
ghost use Rattle.app_definition_records.specs.declared.applications.Application.{Application as ApplicationValue};
ghost use Rattle.app_occurrences.specs.Active.{IsActive, LacksCalendar, LacksPeriod, calendar_name, cycles_of};

use app_definitions::{Application, Definitions};
use run_cycles::RunCycle;
use work_calendars::{App, Name, Short};

// The name under which a period of that short name is defined.
pub(crate) fn period_name(short: &Short) -> Name
    ensures { result ≡ short.now }
{
    match Name::from_text(short.as_str()) {
        Some(name) => name,
        None => unreachable!(),
    }
}

/// The application of this name, if it is defined and active.
pub fn active(all: &Definitions, app: &App) -> Option<Application>
    ensures found { IfSome result (IsActive all.now app.now) }
    ensures none { IfNone result ((a : ApplicationValue) → ¬ (IsActive all.now app.now a)) }
{
    match all.applications.get(app) {
        Some(application) if application.active => Some(*application),
        Some(_) | None => None,
    }
}

/// The name of the calendar that an application uses.
pub fn calendar_name(all: &Definitions, application: &Application) -> Name
    ensures { result ≡ calendar_name all.now application.now }
{
    application.calendar.unwrap_or(all.options.default_calendar)
}

/// The run cycles of an application, none where none are defined. No two have one name.
pub fn cycles_of<'a>(all: &'a Definitions, app: &App) -> &'a [RunCycle]
    ensures value { result.now ≡ cycles_of all.entry.now app.now }
    ensures own_names { HaveOwnNames result.now }
{
    match all.run_cycles.get(app) {
        Some(cycles) => cycles.as_slice(),
        None => &[],
    }
}

/// Whether the application names a calendar that isn't defined, and that isn't the default one.
pub fn lacks_calendar(all: &Definitions, application: &Application) -> bool
    ensures { IsTrue result ↔ LacksCalendar all.now application.now }
{
    match application.calendar {
        Some(name) => { all.calendars.get(&name).is_none() && name != all.options.default_calendar }
        None => false,
    }
}

// Whether the period that a run cycle names isn't defined.
fn lacks_period_of(all: &Definitions, cycle: &RunCycle) -> bool
    ensures { IsTrue result ↔ (map.get all.now.periods cycle.now.period ≡ None) }
{
    all.periods.get(&period_name(&cycle.period)).is_none()
}

/// Whether one of the application's run cycles names a period that isn't defined.
pub fn lacks_period(all: &Definitions, app: &App) -> bool
    ensures { IsTrue result ↔ LacksPeriod all.now app.now }
{
    cycles_of(all, app)
        .iter()
        .any(|cycle| lacks_period_of(all, cycle))
}
