ghost use Rattle.plan_periods.specs.Period.{IsSoundPeriod};

use super::{cycle_of, index_of, period_of, two_days};
use plan_periods::Period;
use run_cycles::{JumpDays, Offsets, Rule, RunCycle, names};
use std::alloc::{AllocError, Global};
use std::process::Abort;
use work_calendars::{CountedIndex, Day, WorkIndex};

// How many days from the first to the last the run cycle names, tried day by day; none unless the jump gives these.
fn walk(
    jump: &mut JumpDays<'_>,
    cycle: &RunCycle,
    period: &Period,
    index: &WorkIndex,
    window: (Day, Day),
) -> Option<usize>
    requires { IsSoundPeriod period.now }
{
    let (from, to) = window;
    let mut given = 0usize;
    for number in from.number()..to.number() + 1 {
        let day = Day::from_number(number)?;
        if names(cycle, period, index, day) {
            if jump.next() != Some(day) {
                return None;
            }
            given = given.saturating_add(1);
        }
    }
    (jump.next().is_none() && jump.next().is_none()).then_some(given)
}

// How many days of the window the run cycle names, which the jump has to give.
fn agree(
    rt: &impl Abort,
    alloc: Global,
    cycle: &RunCycle,
    period: &Period,
    index: &WorkIndex,
    (from, to): (Day, Day),
) -> Result<usize, AllocError> {
    assert!(rt; period.check().is_ok());
    let mut jump = JumpDays::new(alloc, cycle, period, CountedIndex::new(index), from, to)?;
    let given = walk(&mut jump, cycle, period, index, (from, to));
    Ok(given.expect(rt, "the days that are named"))
}

// The same in the whole window and in each day of it as a window.
fn agree_on(
    rt: &impl Abort,
    alloc: Global,
    cycle: &RunCycle,
    period: &Period,
    index: &WorkIndex,
    (from, to): (Day, Day),
) -> Result<usize, AllocError> {
    let whole = agree(rt, alloc, cycle, period, index, (from, to))?;
    let mut by_day = 0usize;
    for number in from.number()..to.number() + 1 {
        let day = Day::from_number(number).expect(rt, "a day");
        by_day = by_day.saturating_add(agree(rt, alloc, cycle, period, index, (day, day))?);
    }
    assert!(rt; by_day == whole);
    Ok(whole)
}

// Intervals of 1 to 6 days or work days; and listed ones, to their own end or the next origin, overlapping, and open.
const PERIODS: &str = "\
A 2024-01-03 1
A 2024-01-03 2
A 2024-01-03 3
A 2024-01-03 4
A 2024-01-03 5
A 2024-01-03 6
W 2024-01-03 1
W 2024-01-03 2
W 2024-01-03 3
W 2024-01-03 4
W 2024-01-03 5
W 2024-01-03 6
N 2023-12-20 2024-01-04;2024-01-06 -;2024-01-11 2024-01-30;2024-01-13 2024-01-14;2024-02-03 -
N 2024-01-03 2024-01-09;2024-01-20 2024-02-01;2024-01-31 -;2024-02-20 2024-03-01";

// How many days are given in all, over all the periods. The window of 60 days begins before the run cycle is in effect.
fn agree_by_periods(
    rt: &impl Abort,
    alloc: Global,
    cycle: &RunCycle,
    index: &WorkIndex,
) -> Result<usize, AllocError> {
    let window = two_days(rt, "2023-12-30 2024-02-27");
    let mut given = 0usize;
    for text in PERIODS.lines() {
        let period = period_of(rt, alloc, text)?;
        given = given.saturating_add(agree_on(rt, alloc, cycle, &period, index, window)?);
    }
    Ok(given)
}

// A run cycle with this rule, and the offsets 2 and this one.
fn cycle_at(
    rt: &impl Abort,
    alloc: Global,
    rule: Rule,
    offset: i16,
) -> Result<RunCycle, AllocError> {
    let mut cycle = cycle_of(rt, alloc, "RC E 1 2024-01-02 2024-02-26 08.00 0 18.00")?;
    cycle.rule = rule;
    let offsets = vec![in alloc; offset, 2]?;
    cycle.offsets = Offsets::from_vec(offsets).expect(rt, "offsets");
    Ok(cycle)
}

fn agree_at(
    rt: &impl Abort,
    alloc: Global,
    rule: Rule,
    offset: i16,
    index: &WorkIndex,
) -> Result<usize, AllocError> {
    let cycle = cycle_at(rt, alloc, rule, offset)?;
    agree_by_periods(rt, alloc, &cycle, index)
}

const RULES: [Rule; 5] = [
    Rule::WorkDaysOnly,
    Rule::Before,
    Rule::After,
    Rule::Same,
    Rule::Skip,
];

// Saturdays and Sundays are free, and so are 2024-01-08 to 01-12 and 2024-01-31 to 02-02.
const CLUSTERS: &str =
    "2024-01-08 2024-01-09 2024-01-10 2024-01-11 2024-01-12 2024-01-31 2024-02-01 2024-02-02";

#[test]
fn jumps_as_named(rt: HostRuntime) -> Result<(), AllocError> {
    let index = index_of(&rt, rt.alloc(), CLUSTERS)?;
    let mut given = 0usize;
    for rule in RULES {
        for offset in [-7, -6, -5, -4, -3, -2, -1, 1, 2, 3, 4, 5, 6, 7] {
            let days = agree_at(&rt, rt.alloc(), rule, offset, &index)?;
            given = given.saturating_add(days);
        }
    }
    assert!(rt; given > 1000, "{given} days");
    Ok(())
}

// How many days the jump gives, how many intervals it visited, and how many questions it asked.
fn counts(
    rt: &impl Abort,
    alloc: Global,
    index: &WorkIndex,
    period: &Period,
    cycle: &RunCycle,
    (from, to): (Day, Day),
) -> Result<(usize, usize, u64), AllocError> {
    assert!(rt; period.check().is_ok());
    let mut jump = JumpDays::new(alloc, cycle, period, CountedIndex::new(index), from, to)?;
    let mut given = 0usize;
    for _ in from.number()..to.number() + 2 {
        given = given.saturating_add(jump.next().is_some() as usize);
    }
    Ok((given, jump.visited(), jump.asked()))
}

// The same of a period, a run cycle and a window, separated by `|`.
fn counts_of(rt: &impl Abort, alloc: Global, row: &str) -> Result<(usize, usize, u64), AllocError> {
    let mut parts = row.split('|');
    let index = index_of(rt, alloc, "")?;
    let period = period_of(rt, alloc, parts.next().unwrap_or(""))?;
    let cycle = cycle_of(rt, alloc, parts.next().unwrap_or(""))?;
    let window = two_days(rt, parts.next().unwrap_or(""));
    counts(rt, alloc, &index, &period, &cycle, window)
}

// With 1 offset and with 64 no more than four of the two weeks' intervals are visited; the longest interval is visited
// with two more at most, and asked for twenty times at most.
#[test]
fn visits_of_two_weeks(rt: HostRuntime) -> Result<(), AllocError> {
    let rows = [
        (ONE_OFFSET, 2, 4, 18),
        (MANY_OFFSETS, 14, 4, 522),
        (LONG, 2, 3, 20),
    ];
    for (row, days, visited, asked) in rows {
        let found = counts_of(&rt, rt.alloc(), row)?;
        let holds = found.0 == days && found.1 <= visited && found.2 <= asked;
        assert!(rt; holds, "{row}: {found:?}");
    }
    Ok(())
}

const ONE_OFFSET: &str = "A 2024-01-01 7|RC 3 1 2024-01-01 - 08.00 0 18.00|2024-01-01 2024-01-14";

const MANY_OFFSETS: &str =
    "A 2024-01-01 7|RC 3 1,2,3,4,5,6,7,8,9,10,11,12,13,14,15,16,17,18,19,20,21,22,23,24,25,\
26,27,28,29,30,31,32,-1,-2,-3,-4,-5,-6,-7,-8,-9,-10,-11,-12,-13,-14,-15,-16,-17,-18,-19,-20,-21,-22,-23,-24,-25,-26,\
-27,-28,-29,-30,-31,-32 2024-01-01 - 08.00 0 18.00|2024-01-01 2024-01-14";

const LONG: &str =
    "A 1972-01-01 999|RC 3 -999,999 1972-01-01 - 08.00 0 18.00|1972-01-01 1974-09-25";
