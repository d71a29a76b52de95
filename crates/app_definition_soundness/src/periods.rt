// Periods.

ghost use Rattle.std.specs.Prelude.{◌↔◌, IsTrue};
ghost use Rattle.std.specs.List.{All};
ghost use Rattle.app_definition_records.specs.Periods.{FitsPeriod, IsPeriodOf};
ghost use Rattle.app_definition_records.specs.FieldCounts.{HasPeriodFields};
ghost use Rattle.app_definition_soundness.specs.Given.{IsGiven};
ghost use Rattle.app_definition_soundness.specs.Values.{HasDaysInRange, IsEntryValue, IsPeriodValue};

use crate::given::Given;
use crate::names::{is_day, is_end, is_short_enough};
use app_definitions::DefinedPeriod;
use plan_periods::Period;
use std::alloc::{AllocError, Global};
use work_calendars::{Day, Name};

fn is_entry(entry: &(Day, Option<Day>)) -> bool
    ensures { IsTrue result ↔ IsEntryValue entry.now }
{
    is_day(entry.0) && is_end(&entry.1)
}

fn are_entries(entries: &[(Day, Option<Day>)]) -> bool
    ensures { IsTrue result ↔ All IsEntryValue entries.now }
{
    for entry in entries {
        if !is_entry(entry) {
            return false;
        }
    }
    true
}

// Whether its days are days.
fn has_days(period: &Period) -> bool
    ensures { IsTrue result ↔ HasDaysInRange period.now }
{
    match period {
        Period::All { origin, .. } => is_day(*origin),
        Period::Work { origin, .. } => is_day(*origin),
        Period::Listed(origins) => are_entries(origins.as_slice()),
    }
}

fn is_period(name: &Name, period: &Period) -> bool
    ensures { IsTrue result ↔ IsPeriodValue name.now period.now }
{
    is_short_enough(name) && has_days(period)
}

impl Given for DefinedPeriod {
    ghost IsGiven = { IsGiven HasPeriodFields FitsPeriod IsPeriodOf };

    fn is_given(&self, _alloc: Global, name: &Name) -> Result<bool, AllocError> {
        Ok(is_period(name, self.period()))
    }
}
