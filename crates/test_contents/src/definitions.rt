//! Whether two stores have the same definitions, field by field.
use app_definition_records::{Application, ByName, DefinedPeriod, Predecessors, RunCycles};
use app_definitions::{Definitions, Options};
use plan_periods::Period;
use run_cycles::RunCycle;
use std::alloc::{AllocError, Global};
use work_calendars::{Calendar, Weekday};

/// The days of a week.
const WEEK: [Weekday; 7] = [
    Weekday::Monday,
    Weekday::Tuesday,
    Weekday::Wednesday,
    Weekday::Thursday,
    Weekday::Friday,
    Weekday::Saturday,
    Weekday::Sunday,
];

/// A definition that can be compared with another.
trait Compared {
    /// Whether both are the same.
    fn is_same(&self, alloc: Global, other: &Self) -> Result<bool, AllocError>;
}

impl Compared for Application {
    fn is_same(&self, _alloc: Global, other: &Self) -> Result<bool, AllocError> {
        Ok(self.active == other.active && self.calendar == other.calendar)
    }
}

impl Compared for Calendar {
    fn is_same(&self, alloc: Global, other: &Self) -> Result<bool, AllocError> {
        for weekday in WEEK {
            if self.weekday_status(weekday) != other.weekday_status(weekday) {
                return Ok(false);
            }
        }
        let dates = self.dates(alloc)?;
        let wanted = other.dates(alloc)?;
        Ok(dates.as_slice() == wanted.as_slice())
    }
}

impl Compared for DefinedPeriod {
    fn is_same(&self, _alloc: Global, other: &Self) -> Result<bool, AllocError> {
        Ok(match (self.period(), other.period()) {
            (
                Period::All { origin, interval },
                Period::All {
                    origin: other_origin,
                    interval: other_interval,
                },
            ) => *origin == *other_origin && *interval == *other_interval,
            (
                Period::Work { origin, interval },
                Period::Work {
                    origin: other_origin,
                    interval: other_interval,
                },
            ) => *origin == *other_origin && *interval == *other_interval,
            (Period::Listed(entries), Period::Listed(others)) => {
                entries.as_slice() == others.as_slice()
            }
            (Period::All { .. } | Period::Work { .. } | Period::Listed(_), _) => false,
        })
    }
}

impl Compared for Predecessors {
    fn is_same(&self, _alloc: Global, other: &Self) -> Result<bool, AllocError> {
        Ok(self.as_slice() == other.as_slice())
    }
}

impl Compared for RunCycles {
    fn is_same(&self, _alloc: Global, other: &Self) -> Result<bool, AllocError> {
        let (cycles, others) = (self.as_slice(), other.as_slice());
        Ok(
            cycles.len() == others.len()
                && cycles
                    .iter()
                    .zip(others.iter())
                    .all(|(a, b)| is_same_cycle(a, b)),
        )
    }
}

/// Whether both run cycles are the same.
fn is_same_cycle(a: &RunCycle, b: &RunCycle) -> bool {
    a.name == b.name
        && a.kind == b.kind
        && a.period == b.period
        && a.rule == b.rule
        && a.offsets.as_slice() == b.offsets.as_slice()
        && a.in_effect == b.in_effect
        && a.out_effect == b.out_effect
        && a.ia == b.ia
}

/// Whether both have the same names, and the same under each.
fn are_same<D: Compared>(
    alloc: Global,
    kept: &ByName<D>,
    wanted: &ByName<D>,
) -> Result<bool, AllocError> {
    let names = wanted.names(alloc)?;
    if kept.names(alloc)?.as_slice() != names.as_slice() {
        return Ok(false);
    }
    for name in &names {
        let same = match (kept.get(name), wanted.get(name)) {
            (Some(a), Some(b)) => a.is_same(alloc, b)?,
            (Some(_), None) | (None, _) => false,
        };
        if !same {
            return Ok(false);
        }
    }
    Ok(true)
}

/// Whether both options are the same.
fn are_same_options(a: &Options, b: &Options) -> bool {
    a.default_calendar == b.default_calendar && a.max_extension_hours == b.max_extension_hours
}

/// The first kind of definitions in which they are not as they should be.
pub fn unlike_definitions(
    alloc: Global,
    kept: &Definitions,
    wanted: &Definitions,
) -> Result<Option<&'static str>, AllocError> {
    if !are_same(alloc, &kept.applications, &wanted.applications)? {
        return Ok(Some("applications"));
    }
    if !are_same(alloc, &kept.calendars, &wanted.calendars)? {
        return Ok(Some("calendars"));
    }
    if !are_same(alloc, &kept.periods, &wanted.periods)? {
        return Ok(Some("periods"));
    }
    if !are_same(alloc, &kept.predecessors, &wanted.predecessors)? {
        return Ok(Some("lists of predecessors"));
    }
    if !are_same(alloc, &kept.run_cycles, &wanted.run_cycles)? {
        return Ok(Some("run cycles"));
    }
    if !are_same_options(&kept.options, &wanted.options) {
        return Ok(Some("options"));
    }
    Ok(None)
}
