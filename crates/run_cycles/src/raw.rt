ghost use Rattle.std.specs.Prelude.{◌≡◌, ℕ, ◌↔◌, ◌+◌, ◌^◌, ◌<◌, ◌≤◌, Some, Any, IsTrue, IsFalse, IfNone, IfSome};
ghost use Rattle.std.specs.Prelude.{option_map};
ghost use Rattle.work_calendars.specs.Day.{IsDay};
ghost use Rattle.work_calendars.specs.WorkIndex.{is_work_in};
ghost use Rattle.plan_periods.specs.Period.{IsSoundPeriod};
ghost use Rattle.run_cycles.specs.Offset.{offset_of};
ghost use Rattle.run_cycles.specs.Searches.{IsDayAtWithin, IsPlaceAt, IsRawDayWithin};
ghost use Rattle.run_cycles.specs.Shift.{IsShifted};

use crate::Rule;
use plan_periods::{Interval, Intervals, Period};
use work_calendars::{Day, WorkIndex};

/// The first and the last of the raw days that the rule turns into the day, if there are any. All between them are.
pub(crate) fn raw_days_of(rule: Rule, index: &WorkIndex, day: Day) -> Option<(Day, Day)>
    ensures none { IfNone result ((x : ℕ) → ¬ (IsShifted rule (is_work_in index.now) x day)) }
    ensures some { IfSome result
        (λ r. (x : ℕ) → IsDay x → (IsShifted rule (is_work_in index.now) x day
        ↔ ((r.0 ≤ x) × (x ≤ r.1)))) }
{
    if rule == Rule::Same {
        return Some((day, day));
    }
    if !index.is_work(day) {
        return None;
    }
    match rule {
        Rule::Before => Some((day, day_before_next_work(index, day))),
        Rule::After => Some((day_after_last_work(index, day), day)),
        Rule::WorkDaysOnly | Rule::Same | Rule::Skip => Some((day, day)),
    }
}

// The day before the next work day, or the last day of all where no work day follows.
fn day_before_next_work(index: &WorkIndex, day: Day) -> Day
    ensures from { day ≤ result }
    ensures free { (x : ℕ) → day < x → x ≤ result → IsFalse (is_work_in index.now x) }
    ensures next { (x : ℕ) → IsDay x → result < x → IsTrue (is_work_in index.now (result + 1)) }
{
    match index.next_work(day) {
        Some(next) => Day::from_number(next.number() - 1).unwrap(),
        None => Day::LAST,
    }
}

// The day after the last work day before it, or the first day of all where there is none.
fn day_after_last_work(index: &WorkIndex, day: Day) -> Day
    ensures to { result ≤ day }
    ensures free { (x : ℕ) → result ≤ x → x < day → IsFalse (is_work_in index.now x) }
    ensures last { (x : ℕ) → IsDay x → x < result → (e : ℕ) × (e + 1 ≡ result)
        × IsTrue (is_work_in index.now e) }
{
    match index.prev_work(day) {
        Some(last) => Day::from_number(last.number() + 1).unwrap(),
        None => Day::FIRST,
    }
}

/// Whether some day from `low` to `high` is the raw day of one of the offsets.
pub(crate) fn any_raw_day(offsets: &[i16], period: &Period, low: Day, high: Day) -> bool
    requires { IsSoundPeriod period.now }
    ensures { IsTrue result ↔ Any (λ k. IsRawDayWithin low high period.now
        (offset_of k)) offsets.now }
{
    any_interval_has_day(Intervals::new(period, low, high), offsets, low, high)
}

// Whether some day from `low` to `high` is at one of the offsets of one of the intervals.
fn any_interval_has_day(mut intervals: Intervals, offsets: &[i16], low: Day, high: Day) -> bool
    ensures { IsTrue result
        ↔ Any (λ i. Any (λ k. IsDayAtWithin low high
        (offset_of k) i.first i.last) offsets.now) intervals.entry.left }
{
    intervals.any(|interval| any_day_at(offsets, interval, low, high))
}

// Whether some day from `low` to `high` is at one of the offsets of the interval.
fn any_day_at(offsets: &[i16], interval: Interval, low: Day, high: Day) -> bool
    ensures { IsTrue result
        ↔ Any (λ k. IsDayAtWithin low high (offset_of k) interval.first interval.last) offsets.now }
{
    offsets
        .iter()
        .any(|offset| is_day_at_within(*offset, interval, low, high))
}

// Whether some day from `low` to `high` is at the offset of the interval.
fn is_day_at_within(offset: i16, interval: Interval, low: Day, high: Day) -> bool
    ensures { IsTrue result ↔ IsDayAtWithin low high
        (offset_of offset) interval.first interval.last }
{
    match place_at(
        offset,
        interval.first.number() as usize,
        end_of(interval.last),
    ) {
        Some(x) => low.number() as usize <= x && x <= high.number() as usize,
        None => false,
    }
}

/// The number of the day after the last one, if there is one.
pub(crate) fn end_of(last: Option<Day>) -> Option<usize>
    ensures { result ≡ option_map (λ last. last + 1) last }
{
    match last {
        Some(last) => Some(last.number() as usize + 1),
        None => None,
    }
}

/// The number at the offset among those from `start` to before `end`, if there is one.
pub(crate) fn place_at(offset: i16, start: usize, end: Option<usize>) -> Option<usize>
    requires { start < 2 ^ 32 }
    ensures found { IfSome result (λ x. IsPlaceAt (offset_of offset) start end x) }
    ensures only { (x : ℕ) → IsPlaceAt (offset_of offset) start end x → result ≡ Some x }
{
    let count = usize::from(offset.unsigned_abs());
    if offset > 0 {
        match end {
            Some(end) if start + count > end => None,
            Some(_) | None => Some(start + count - 1),
        }
    } else {
        match end {
            Some(end) if count > 0 && start + count <= end => Some(end - count),
            Some(_) | None => None,
        }
    }
}
