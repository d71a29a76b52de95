ghost use Rattle.std.specs.Prelude.{◌↔◌, Any, IsTrue};
ghost use Rattle.work_calendars.specs.WorkIndex.{is_work_in};
ghost use Rattle.plan_periods.specs.Period.{IsSoundPeriod};
ghost use Rattle.run_cycles.specs.NamedDay.{GivesDay, IsValidOn, NamesDay};
ghost use Rattle.run_cycles.specs.Offset.{offset_of};

use crate::counting::{any_offset_counts, any_offset_has_place};
use crate::raw::{any_raw_day, raw_days_of};
use crate::{Rule, RunCycle};
use plan_periods::Period;
use work_calendars::{Day, WorkIndex};

/// Whether the run cycle, whose period this is, names the day: it is in effect on it, and one of its offsets gives it.
/// Allocates no memory.
pub fn names(cycle: &RunCycle, period: &Period, index: &WorkIndex, day: Day) -> bool
    requires { IsSoundPeriod period.now }
    ensures { IsTrue result ↔ NamesDay cycle.now period.now (is_work_in index.now) day }
{
    is_valid_on(cycle, day)
        && any_offset_gives(cycle.offsets.as_slice(), period, cycle.rule, index, day)
}

// Whether the run cycle is in effect on the day.
fn is_valid_on(cycle: &RunCycle, day: Day) -> bool
    ensures { IsTrue result ↔ IsValidOn cycle.now day }
{
    cycle.in_effect <= day && cycle.out_effect.is_none_or(|out| day < out)
}

// Whether one of the offsets gives the day.
fn any_offset_gives(
    offsets: &[i16],
    period: &Period,
    rule: Rule,
    index: &WorkIndex,
    day: Day,
) -> bool
    requires { IsSoundPeriod period.now }
    ensures { IsTrue result
        ↔ Any (λ k. GivesDay period.now rule (is_work_in index.now) day (offset_of k)) offsets.now }
{
    match (period, rule) {
        (Period::Work { origin, interval }, _) => {
            any_offset_has_place(offsets, *origin, *interval, index, day)
        }
        (Period::All { .. } | Period::Listed(_), Rule::WorkDaysOnly) => {
            any_offset_counts(offsets, period, index, day)
        }
        (
            Period::All { .. } | Period::Listed(_),
            Rule::Before | Rule::After | Rule::Same | Rule::Skip,
        ) => match raw_days_of(rule, index, day) {
            Some((low, high)) => any_raw_day(offsets, period, low, high),
            None => false,
        },
    }
}
