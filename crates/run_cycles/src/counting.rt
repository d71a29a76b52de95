ghost use Rattle.std.specs.Prelude.{◌≡◌, ◌↔◌, ◌+◌, ◌^◌, ◌<◌, Any, IsTrue, option_map};
ghost use Rattle.work_calendars.specs.WorkDay.{work_days_before};
ghost use Rattle.work_calendars.specs.WorkIndex.{is_work_in};
ghost use Rattle.plan_periods.specs.Interval.{HoldsDay};
ghost use Rattle.plan_periods.specs.Period.{IsIntervalLength, IsSoundPeriod};
ghost use Rattle.plan_periods.specs.declared.periods.Period.TheVariants.{Work};
ghost use Rattle.run_cycles.specs.CountedDay.{HasPlace, IsCountedDay, IsCountedInInterval, IsWorkDayAt};
ghost use Rattle.run_cycles.specs.Offset.{offset_of};
ghost use Rattle.run_cycles.specs.Searches.{HasCount};

use plan_periods::{Interval, Intervals, Period};
use work_calendars::{Day, WorkIndex};

/// Whether one of the offsets counts the day by its place among the intervals of a period of work days.
pub(crate) fn any_offset_has_place(
    offsets: &[i16],
    origin: Day,
    interval: u16,
    index: &WorkIndex,
    day: Day,
) -> bool
    requires { IsIntervalLength interval }
    ensures { IsTrue result
        ↔ Any (λ k. IsCountedDay (Work origin interval) (offset_of k)
        (is_work_in index.now) day) offsets.now }
{
    if !index.is_work(day) || day < origin {
        return false;
    }
    any_has_place(offsets, interval, index.rank(day) - index.rank(origin))
}

// Whether a day with that many work days between the origin and it has the place of one of the offsets.
fn any_has_place(offsets: &[i16], interval: u16, before: usize) -> bool
    requires { 0 < interval }
    ensures { IsTrue result ↔ Any (λ k. HasPlace (offset_of k) interval before) offsets.now }
{
    offsets
        .iter()
        .any(|offset| has_place(*offset, interval, before))
}

fn has_place(offset: i16, interval: u16, before: usize) -> bool
    requires { 0 < interval }
    ensures { IsTrue result ↔ HasPlace (offset_of offset) interval before }
{
    let interval = usize::from(interval);
    let place = before % interval;
    let count = usize::from(offset.unsigned_abs());
    if offset > 0 {
        place + 1 == count
    } else {
        place + count == interval
    }
}

/// Whether one of the offsets counts the day among the work days of an interval.
pub(crate) fn any_offset_counts(
    offsets: &[i16],
    period: &Period,
    index: &WorkIndex,
    day: Day,
) -> bool
    requires { IsSoundPeriod period.now }
    ensures { IsTrue result
        ↔ Any (λ k. IsCountedInInterval period.now (offset_of k)
        (is_work_in index.now) day) offsets.now }
{
    any_interval_counts(Intervals::new(period, day, day), offsets, index, day)
}

// Whether one of the offsets counts the day among the work days of one of the intervals.
fn any_interval_counts(
    mut intervals: Intervals,
    offsets: &[i16],
    index: &WorkIndex,
    day: Day,
) -> bool
    ensures { IsTrue result
        ↔ Any (λ i. Any (λ k. IsWorkDayAt (is_work_in index.now)
        (offset_of k) i.first i.last day) offsets.now) intervals.entry.left }
{
    intervals.any(|interval| any_counts_in(offsets, &interval, index, day))
}

// Whether one of the offsets counts the day among the work days of the interval.
fn any_counts_in(offsets: &[i16], interval: &Interval, index: &WorkIndex, day: Day) -> bool
    ensures { IsTrue result
        ↔ Any (λ k. IsWorkDayAt (is_work_in index.now)
        (offset_of k) interval.now.first interval.now.last day) offsets.now }
{
    if !index.is_work(day) || !holds(interval, day) {
        return false;
    }
    let up_to_last = up_to(index, interval.last);
    any_has_count(
        offsets,
        index.rank(day),
        index.rank(interval.first),
        up_to_last,
    )
}

// Whether the day lies in the interval.
fn holds(interval: &Interval, day: Day) -> bool
    ensures { IsTrue result ↔ HoldsDay interval.now.first interval.now.last day }
{
    interval.first <= day && interval.last.is_none_or(|last| day <= last)
}

// How many work days there are up to the last day, if there is one.
fn up_to(index: &WorkIndex, last: Option<Day>) -> Option<usize>
    ensures { result ≡ option_map (λ last. work_days_before (is_work_in index.now)
        (last + 1)) last }
{
    match last {
        Some(last) => Some(rank_after(index, last)),
        None => None,
    }
}

// How many work days there are up to the day.
fn rank_after(index: &WorkIndex, day: Day) -> usize
    ensures { result ≡ work_days_before (is_work_in index.now) (day + 1) }
{
    let before = index.rank(day);
    if index.is_work(day) {
        before + 1
    } else {
        before
    }
}

// Whether one of the offsets is a work day's, by how many work days come before it, before the first day of an
// interval, and up to its last.
fn any_has_count(
    offsets: &[i16],
    before: usize,
    before_first: usize,
    up_to_last: Option<usize>,
) -> bool
    requires before { before < 2 ^ 32 }
    requires before_first { before_first < 2 ^ 32 }
    ensures { IsTrue result ↔ Any (λ k.
        HasCount (offset_of k) before before_first up_to_last) offsets.now }
{
    offsets.iter().any(|offset| has_count(*offset, before, before_first, up_to_last))
}

fn has_count(offset: i16, before: usize, before_first: usize, up_to_last: Option<usize>) -> bool
    requires before { before < 2 ^ 32 }
    requires before_first { before_first < 2 ^ 32 }
    ensures { IsTrue result ↔ HasCount (offset_of offset) before before_first up_to_last }
{
    let count = usize::from(offset.unsigned_abs());
    if offset >= 0 {
        before + 1 == before_first + count
    } else {
        up_to_last == Some(before + count)
    }
}
