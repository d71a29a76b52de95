//! `run_cycles`: run cycles, the days that one names, and the occurrences that several name.
ghost use Rattle.std.specs.Prelude.{◌≤◌};
ghost use Rattle.work_calendars.specs.Day.{last_kept_day};
ghost use Rattle.plan_periods.specs.Period.{IsSoundPeriod};
ghost use Rattle.run_cycles.specs.Occurrence.{HaveOwnNames};

use plan_periods::Period;
use run_cycles::{CycleType, Deadline, JumpDays, Named, Offsets, Periods, Rule, RunCycle};
use std::alloc::Global;
use work_calendars::{CountedIndex, Day, Memory, Minute, Moment, Short, WorkIndex};

// Here the deadline is part of the type: a run cycle of type N has one, and one of type X may have one. Offsets are a
// type of their own over a vector.
pub fn run_cycle(
    name: Short,
    period: Short,
    rule: Rule,
    offsets: Offsets,
    in_effect: Day,
    out_effect: Option<Day>,
    ia: Minute,
    deadline_days: u8,
    deadline: Minute,
) -> RunCycle {
    RunCycle {
        name,
        kind: CycleType::Normal(Deadline {
            days: deadline_days,
            time: deadline,
        }),
        period,
        rule,
        offsets,
        in_effect,
        out_effect,
        ia,
    }
}

pub fn deadline_of(kind: CycleType) -> Option<Deadline> {
    match kind {
        CycleType::Normal(deadline) => Some(deadline),
        CycleType::Negative(deadline) => deadline,
    }
}

/// A rule as a record spells it.
pub fn letter(rule: Rule) -> u8 {
    match rule {
        Rule::WorkDaysOnly => b'E',
        Rule::Before => b'1',
        Rule::After => b'2',
        Rule::Same => b'3',
        Rule::Skip => b'4',
    }
}

pub fn names(cycle: &RunCycle, period: &Period, index: &WorkIndex, day: Day) -> bool
    requires { IsSoundPeriod period.now }
{
    run_cycles::names(cycle, period, index, day)
}

pub fn generate(
    alloc: Global,
    cycles: &[RunCycle],
    periods: &Periods,
    index: &WorkIndex,
    from: Day,
    to: Day,
) -> Result<Vec<Named>, Memory>
    requires names { HaveOwnNames cycles.now }
    requires planned { to ≤ last_kept_day }
{
    run_cycles::generate(alloc, cycles, periods, index, from, to)
}

pub fn named(day: Day, time: Minute, run_cycle: Short, deadline: Moment) -> Named {
    Named {
        day,
        time,
        run_cycle,
        deadline,
    }
}

pub fn jump<'a>(
    alloc: Global,
    cycle: &RunCycle,
    period: &Period,
    index: CountedIndex<'a>,
    from: Day,
    to: Day,
) -> Result<JumpDays<'a>, Memory>
    requires { IsSoundPeriod period.now }
{
    JumpDays::new(alloc, cycle, period, index, from, to)
}

pub fn next_day(days: &mut JumpDays<'_>) -> Option<Day> {
    days.next()
}

pub fn counts(days: &JumpDays<'_>) -> (usize, u64) {
    (days.visited(), days.asked())
}
