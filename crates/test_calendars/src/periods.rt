ghost use Rattle.std.specs.Prelude.{◌≡◌, IfOk};
ghost use Rattle.work_calendars.specs.Day.{IsDay};

use crate::cycles::{period_of, two_days};
use plan_periods::{Interval, Intervals, MAX_INTERVAL, Origins, Period, PeriodFault};
use std::alloc::{AllocError, Global};
use std::process::Abort;
use work_calendars::Day;

// 2024-01-01
const NEW_YEAR: u32 = 19723;

fn day(number: u32) -> Day
    requires { IsDay number }
    ensures { result ≡ number }
{
    Day::from_number(number).unwrap()
}

// The number of the period's fault, 0 where it has none.
fn fault_of(rt: &impl Abort, alloc: Global, text: &str) -> Result<u32, AllocError> {
    let period = period_of(rt, alloc, text)?;
    Ok(match period.check() {
        Ok(()) => 0,
        Err(fault) => u32::from(fault.number()),
    })
}

fn fault_is(rt: &impl Abort, alloc: Global, row: &str) -> Result<bool, AllocError> {
    let (text, fault) = row.split_once('|').unwrap_or((row, ""));
    Ok(fault.parse() == Ok(fault_of(rt, alloc, text)?))
}

#[test]
fn checks_periods(rt: HostRuntime) -> Result<(), AllocError> {
    for row in CHECKED.lines() {
        let holds = fault_is(&rt, rt.alloc(), row)?;
        assert!(rt; holds, "{row}");
    }
    assert_eq!(rt; MAX_INTERVAL, 1_999);
    Ok(())
}

// Intervals of no day, of one, and of as many as there may be; a list without an origin; ends before their origins, and
// origins that stand still or fall.
const CHECKED: &str = "\
A 2024-01-01 0|1
A 2024-01-01 1|0
A 2024-01-01 1999|0
A 2024-01-01 2000|1
A 2024-01-01 65535|1
W 2024-01-01 0|1
W 2024-01-01 1|0
W 2024-01-01 1999|0
W 2024-01-01 2000|1
W 2024-01-01 65535|1
N |4
N 2024-01-01 -;2024-02-01 -;2024-03-01 -|0
N 2024-01-01 2024-01-10;2024-01-08 2024-01-12|0
N 2024-01-01 2024-01-01|0
N 2024-01-01 -;2024-01-08 2024-01-07|2
N 2024-01-01 -;2024-01-01 -|3
N 2024-01-01 -;2024-01-03 -;2024-01-02 -|3
N 2024-01-08 -;2024-01-01 2023-12-31|2";

#[test]
fn numbers_faults(rt: HostRuntime) {
    assert_eq!(rt; PeriodFault::IntervalOutOfRange.number(), 1);
    assert_eq!(rt; PeriodFault::EndBeforeOrigin.number(), 2);
    assert_eq!(rt; PeriodFault::OriginsNotRising.number(), 3);
    assert_eq!(rt; PeriodFault::NoOrigin.number(), 4);
}

// Whether these are the origins, as they are lent and as a vector.
fn are_origins(origins: Origins, entries: &[(Day, Option<Day>)]) -> bool {
    let lent = origins.len() == entries.len() && origins.as_slice() == entries;
    let some = !origins.is_empty();
    let items = origins.into_vec();
    lent && some && items.as_slice() == entries
}

fn gives_back(alloc: Global, entries: &[(Day, Option<Day>)]) -> Result<bool, AllocError> {
    let items = entries.to_vec(alloc)?;
    Ok(are_origins(Origins::new(items), entries))
}

#[test]
fn gives_origins_back(rt: HostRuntime) -> Result<(), AllocError> {
    let entries = [(day(NEW_YEAR), None), (day(19754), Some(day(19760)))];
    assert!(rt; gives_back(rt.alloc(), &entries)?);
    Ok(())
}

// A copy equals what it was made of.
fn copied(period: &Period) -> Result<Period, AllocError>
    ensures { IfOk result (λ copy. copy ≡ period.now) }
{
    period.clone()
}

// Whether the period is one of this letter and interval, or lists the origin alone and another with its end.
fn is_it(period: &Period, letter: char, length: u16) -> bool {
    match period {
        Period::All { interval, .. } => letter == 'A' && *interval == length,
        Period::Work { interval, .. } => letter == 'W' && *interval == length,
        Period::Listed(origins) => {
            let entries = [(day(NEW_YEAR), None), (day(19754), Some(day(19760)))];
            letter == 'N' && origins.as_slice() == entries.as_slice()
        }
    }
}

fn copy_is(period: &Period, letter: char, length: u16) -> Result<bool, AllocError> {
    let copy = copied(period)?;
    Ok(is_it(&copy, letter, length))
}

fn list_is_copied(rt: &impl Abort, alloc: Global) -> Result<bool, AllocError> {
    let months = period_of(rt, alloc, "N 2024-01-01 -;2024-02-01 2024-02-07")?;
    copy_is(&months, 'N', 0)
}

#[test]
fn clones_periods(rt: HostRuntime) -> Result<(), AllocError> {
    let origin = day(NEW_YEAR);
    let (interval, work_days) = (7, 5);
    let all = Period::All { origin, interval };
    assert!(rt; copy_is(&all, 'A', interval)?);
    let work = Period::Work {
        origin,
        interval: work_days,
    };
    assert!(rt; copy_is(&work, 'W', work_days)?);
    assert!(rt; list_is_copied(&rt, rt.alloc())?);
    Ok(())
}

// Whether the interval has the first and the last day of the text, `-` for none.
fn is_spelled(interval: &Interval, text: &str) -> bool {
    let (first, last) = text.split_once(' ').unwrap_or((text, ""));
    Day::from_text(first) == Some(interval.first) && Day::from_text(last) == interval.last
}

// Whether a walk over the range gives the intervals of the text and ends, and how many it has looked at then.
fn walk(period: &Period, (from, to): (Day, Day), wanted: &str) -> Option<usize> {
    if period.check().is_err() {
        return None;
    }
    let mut intervals = Intervals::new(period, from, to);
    let mut holds = intervals.visited() == 0;
    for text in wanted.split_terminator(';') {
        match intervals.next() {
            Some(interval) => holds = holds & is_spelled(&interval, text),
            None => holds = false,
        }
    }
    holds = holds & intervals.next().is_none() & intervals.next().is_none();
    holds.then_some(intervals.visited())
}

// Whether that is so of a row: the period, the range, how many intervals are looked at, and those that it gives.
fn walk_holds(rt: &impl Abort, alloc: Global, row: &str) -> Result<bool, AllocError> {
    let mut parts = row.split('|');
    let period = period_of(rt, alloc, parts.next().unwrap_or(""))?;
    let range = two_days(rt, parts.next().unwrap_or(""));
    let visited = parts.next().unwrap_or("").parse().ok();
    Ok(visited.is_some() && walk(&period, range, parts.next().unwrap_or("")) == visited)
}

#[test]
fn walks_give_intervals(rt: HostRuntime) -> Result<(), AllocError> {
    for row in WALKS.lines() {
        let holds = walk_holds(&rt, rt.alloc(), row)?;
        assert!(rt; holds, "{row}");
    }
    Ok(())
}

// Weeks, months and a period of work days, which has none; the longest intervals, of which 36 end by the last day of
// all and the next would end after it; intervals that overlap; the ends of the days; ranges that meet nothing.
const WALKS: &str = "\
A 2024-01-01 7|2024-01-01 2024-01-14|2|2024-01-01 2024-01-07;2024-01-08 2024-01-14
A 2024-01-01 7|2024-01-07 2024-01-08|2|2024-01-01 2024-01-07;2024-01-08 2024-01-14
A 2024-01-01 7|2024-01-05 2024-01-05|1|2024-01-01 2024-01-07
N 2024-01-01 -;2024-02-01 -;2024-03-01 -|2024-01-01 2024-12-31|3|2024-01-01 2024-01-31;\
2024-02-01 2024-02-29;2024-03-01 -
N 2024-01-01 -;2024-02-01 -;2024-03-01 -|2024-01-31 2024-02-01|3|2024-01-01 2024-01-31;2024-02-01 2024-02-29
N 2024-01-01 -;2024-02-01 -;2024-03-01 -|1972-01-01 2023-12-31|3|
N 2024-01-01 -;2024-02-01 -;2024-03-01 -|2071-12-31 2071-12-31|3|2024-03-01 -
W 2024-01-06 5|2024-01-06 2024-01-16|0|
A 1972-01-01 999|1972-01-01 1974-09-25|1|1972-01-01 1974-09-25
A 1972-01-01 999|1974-09-25 1974-09-26|2|1972-01-01 1974-09-25;1974-09-26 1977-06-20
A 1972-01-01 999|2070-06-18 2071-12-31|1|2067-09-24 2070-06-18
A 1972-01-01 999|2070-06-19 2071-12-31|0|
N 2024-01-01 2024-01-10;2024-01-08 2024-01-12|2024-01-01 2024-01-31|2|2024-01-01 2024-01-10;2024-01-08 2024-01-12
N 2024-01-01 2024-01-10;2024-01-08 2024-01-12|2024-01-09 2024-01-09|2|2024-01-01 2024-01-10;2024-01-08 2024-01-12
N 2024-01-01 2024-01-10;2024-01-08 2024-01-12|2024-01-11 2024-01-31|2|2024-01-08 2024-01-12
N 2024-01-01 2024-01-10;2024-01-08 2024-01-12|2024-01-13 2024-01-31|2|
A 2071-12-31 1|1972-01-01 2071-12-31|1|2071-12-31 2071-12-31
A 2071-12-31 2|1972-01-01 2071-12-31|0|
A 2071-12-25 7|2071-12-31 2071-12-31|1|2071-12-25 2071-12-31
A 1972-01-01 1|1972-01-01 1972-01-03|3|1972-01-01 1972-01-01;1972-01-02 1972-01-02;1972-01-03 1972-01-03
A 2024-01-01 7|1972-01-01 2023-12-31|0|
A 2024-01-01 7|2024-01-04 2024-01-03|0|
N 2024-01-01 -|2024-01-04 2024-01-03|1|
N 2024-01-01 -|2024-01-01 2024-01-01|1|2024-01-01 -";

#[test]
fn walks_in_a_loop(rt: HostRuntime) {
    let week = Period::All {
        origin: day(NEW_YEAR),
        interval: 7,
    };
    let mut firsts = 0u32;
    for interval in Intervals::new(&week, day(19723), day(20088)) {
        assert!(rt; interval.first.number() >= 19723);
        firsts += 1;
        if firsts > 60 {
            break;
        }
    }
    assert_eq!(rt; firsts, 53);
}
