ghost use Rattle.std.specs.Prelude.{◌≡◌, ℕ, ◌↔◌, ◌+◌, ◌*◌, ◌^◌, ◌<◌, ◌≤◌, Some, IfOk, IfSome, OnOk, All, length};
ghost use Rattle.std.specs.Prelude.{option_map, [], ◌∷◌, MatchOption};
ghost use Rattle.work_calendars.specs.WorkDay.{work_days_before};
ghost use Rattle.work_calendars.specs.WorkIndex.{is_work_in};
ghost use Rattle.plan_periods.specs.Period.{IsIntervalLength, IsSoundPeriod};
ghost use Rattle.plan_periods.specs.Walk.{GoesOn, VisitsFew};
ghost use Rattle.plan_periods.specs.declared.periods.Period.TheVariants.{Work as WorkPeriod};
ghost use Rattle.run_cycles.specs.CountedDay.{IsCountedDay};
ghost use Rattle.run_cycles.specs.Jump.{IsAfterPreviousWork, IsBeforeNextWork, IsRawRange};
ghost use Rattle.run_cycles.specs.NamedDay.{IsValidOn};
ghost use Rattle.run_cycles.specs.Offset.{IsOffset, offset_of};
ghost use Rattle.run_cycles.specs.Searches.{AddsDays, AsksAtMost, GivesPlace, GivesIn, GivesInMet, IsGivenAt};
ghost use Rattle.run_cycles.specs.Searches.{IsInWindow, questions_of};
ghost use Rattle.run_cycles.specs.Searches.{AddsWithin, KeepsWithin, reach_of};
ghost use Rattle.run_cycles.specs.Shift.{IsMoved};
ghost use Rattle.run_cycles.specs.declared.rules.Rule.TheVariants.{WorkDaysOnly};

use crate::offsets::MAX_OFFSET;
use crate::raw::{end_of, place_at};
use crate::{Rule, RunCycle};
use plan_periods::{Interval, Intervals, Period};
use std::alloc::{AllocError, Global};
use std::marker::Model;
use work_calendars::{CountedIndex, Day};

// The days from the first number to before the second.
#[derive(Drop)]
struct Window {
    low: u32,
    high: u32,
}

// How far from either end of an interval of the period an offset can name a day. A listed interval may be open.
fn reach(period: &Period) -> u16
    ensures { result ≡ reach_of period.now }
{
    match period {
        Period::All { interval, .. } | Period::Work { interval, .. } => *interval,
        Period::Listed(_) => MAX_OFFSET,
    }
}

// Appends the offset if it is within reach and not in the list yet.
fn push_within(kept: &mut Vec<i16>, offset: i16, reach: u16) -> Result<(), AllocError>
    ensures kept { OnOk result (AddsWithin reach offset kept.old.items kept.new.items) }
    ensures few { length kept.new.items ≤ length kept.old.items + 1 }
{
    if offset.unsigned_abs() <= reach && !kept.contains(&offset) {
        kept.push(offset)?;
    }
    Ok(())
}

// The offsets within reach, each once. The others name nothing.
fn offsets_within(alloc: Global, offsets: &[i16], reach: u16) -> Result<Vec<i16>, AllocError>
    requires { All IsOffset offsets.now }
    ensures kept { IfOk result (λ kept. KeepsWithin reach offsets.now kept.items) }
    ensures few { IfOk result (λ kept. length kept.items ≤ length offsets.now) }
{
    let mut kept = Vec::with_capacity(alloc, offsets.len())?;
    for offset in offsets {
        push_within(&mut kept, *offset, reach)?;
    }
    Ok(kept)
}

// The day that the number gives, if it gives one: the work day of that place where work days count alone, else what the
// rule makes of the day of that number.
fn day_of_place(index: &mut CountedIndex, rule: Rule, place: usize) -> Option<Day>
    ensures found { IfSome result (λ d. GivesPlace rule (is_work_in index.old.statuses) place d) }
    ensures only { (d : ℕ) → GivesPlace rule (is_work_in index.old.statuses) place d
        → result ≡ Some d }
    ensures asked { AsksAtMost (questions_of rule) index.old index.new }
{
    match rule {
        Rule::WorkDaysOnly => index.nth(place),
        Rule::Before | Rule::After | Rule::Same | Rule::Skip => shifted(index, rule, place),
    }
}

// What the rule makes of the day of that number, if it is one and gives one.
fn shifted(index: &mut CountedIndex, rule: Rule, number: usize) -> Option<Day>
    requires { ¬ (rule ≡ WorkDaysOnly) }
    ensures found { IfSome result (λ d. GivesPlace rule (is_work_in index.old.statuses) number d) }
    ensures only { (d : ℕ) → GivesPlace rule (is_work_in index.old.statuses) number d
        → result ≡ Some d }
    ensures asked { AsksAtMost 2 index.old index.new }
{
    if number > Day::LAST.number() as usize {
        return None;
    }
    let day = Day::from_number(number as u32)?;
    if index.is_work(day) {
        return Some(day);
    }
    moved(index, rule, day)
}

// Where the rule moves the free day, if anywhere.
fn moved(index: &mut CountedIndex, rule: Rule, day: Day) -> Option<Day>
    ensures found { IfSome result (λ d. IsMoved rule (is_work_in index.old.statuses) day d) }
    ensures only { (d : ℕ) → IsMoved rule (is_work_in index.old.statuses) day d → result ≡ Some d }
    ensures asked { AsksAtMost 1 index.old index.new }
{
    match rule {
        Rule::Before => index.prev_work(day),
        Rule::After => index.next_work(day),
        Rule::Same => Some(day),
        Rule::Skip | Rule::WorkDaysOnly => None,
    }
}

// Appends the day at the offset among the numbers from `start` to before `end`, if there is one and the window has it.
fn push_day(
    days: &mut Vec<Day>,
    index: &mut CountedIndex,
    rule: Rule,
    window: &Window,
    offset: i16,
    start: usize,
    end: Option<usize>,
) -> Result<(), AllocError>
    requires { start < 2 ^ 32 }
    ensures days { OnOk result (AddsDays
        (λ d. (window.now.low ≤ d) × (d < window.now.high)
        × IsGivenAt rule (is_work_in index.old.statuses) start end (offset_of offset) d)
        days.old.items days.new.items) }
    ensures asked { AsksAtMost (questions_of rule) index.old index.new }
{
    if let Some(place) = place_at(offset, start, end) {
        if let Some(day) = day_of_place(index, rule, place) {
            if window.low <= day.number() && day.number() < window.high {
                days.push(day)?;
            }
        }
    }
    Ok(())
}

// Appends the days at the offsets among the numbers from `start` to before `end`, as far as the window has them.
fn push_days(
    days: &mut Vec<Day>,
    index: &mut CountedIndex,
    rule: Rule,
    window: &Window,
    offsets: &[i16],
    start: usize,
    end: Option<usize>,
) -> Result<(), AllocError>
    requires start { start < 2 ^ 32 }
    requires offsets { All IsOffset offsets.now }
    ensures days { OnOk result (AddsDays
        (IsInWindow window.now.low window.now.high
        (IsGivenAt rule (is_work_in index.old.statuses) start end) offsets.now)
        days.old.items days.new.items) }
    ensures asked { OnOk result
        (AsksAtMost (length offsets.now * questions_of rule) index.old index.new) }
{
    for offset in offsets {
        push_day(days, index, rule, window, *offset, start, end)?;
    }
    Ok(())
}

// Appends the days that the offsets give in the interval, as far as the window has them.
fn push_interval(
    days: &mut Vec<Day>,
    index: &mut CountedIndex,
    rule: Rule,
    window: &Window,
    offsets: &[i16],
    interval: &Interval,
) -> Result<(), AllocError>
    requires { All IsOffset offsets.now }
    ensures days { OnOk result (AddsDays
        (IsInWindow window.now.low window.now.high
        (GivesIn rule (is_work_in index.old.statuses) interval.now.first interval.now.last) offsets.now)
        days.old.items days.new.items) }
    ensures asked { OnOk result (AsksAtMost (2 * length offsets.now + 2) index.old index.new) }
{
    if offsets.is_empty() {
        return Ok(());
    }
    match rule {
        Rule::WorkDaysOnly => {
            let start = index.rank(interval.first);
            let end = up_to(index, interval.last);
            push_days(days, index, rule, window, offsets, start, end)
        }
        Rule::Before | Rule::After | Rule::Same | Rule::Skip => {
            let start = interval.first.number() as usize;
            push_days(
                days,
                index,
                rule,
                window,
                offsets,
                start,
                end_of(interval.last),
            )
        }
    }
}

// How many work days there are up to the last day, if there is one.
fn up_to(index: &mut CountedIndex, last: Option<Day>) -> Option<usize>
    ensures value { result
        ≡ option_map (λ last. work_days_before (is_work_in index.old.statuses) (last + 1)) last }
    ensures asked { AsksAtMost 2 index.old index.new }
{
    match last {
        Some(last) => Some(rank_after(index, last)),
        None => None,
    }
}

// How many work days there are up to the day.
fn rank_after(index: &mut CountedIndex, day: Day) -> usize
    ensures value { result ≡ work_days_before (is_work_in index.old.statuses) (day + 1) }
    ensures asked { AsksAtMost 2 index.old index.new }
{
    let before = index.rank(day);
    if index.is_work(day) {
        before + 1
    } else {
        before
    }
}

// Appends the days that the offsets give in the intervals that meet the range, as far as the window has them, and
// returns how many intervals the walk visited.
fn push_intervals(
    days: &mut Vec<Day>,
    index: &mut CountedIndex,
    rule: Rule,
    window: &Window,
    offsets: &[i16],
    period: &Period,
    low: Day,
    high: Day,
) -> Result<usize, AllocError>
    requires sound { IsSoundPeriod period.now }
    requires offsets { All IsOffset offsets.now }
    ensures days { OnOk result (AddsDays
        (IsInWindow window.now.low window.now.high
        (GivesInMet period.now rule (is_work_in index.old.statuses) low high) offsets.now)
        days.old.items days.new.items) }
    ensures visited { IfOk result (λ visited. VisitsFew period.now low high visited) }
    ensures asked { IfOk result (λ visited.
        AsksAtMost (visited * (2 * length offsets.now + 2)) index.old index.new) }
{
    let mut intervals = Intervals::new(period, low, high);
    while let Some(interval) = next_met(&mut intervals) {
        push_interval(days, index, rule, window, offsets, &interval)?;
    }
    Ok(intervals.visited())
}

// The next interval of the walk.
fn next_met(intervals: &mut Intervals) -> Option<Interval>
    ensures step { MatchOption result (intervals.old.left ≡ []) (λ x. intervals.old.left
        ≡ x ∷ intervals.new.left) }
    ensures goes_on { GoesOn intervals.old result intervals.new }
{
    intervals.next()
}

// Appends the days that the offsets give by their place from the origin of a period of work days on, as far as the
// window, which is one of the days from `from` to `to`, has them.
fn push_work_intervals(
    days: &mut Vec<Day>,
    index: &mut CountedIndex,
    window: &Window,
    offsets: &[i16],
    origin: Day,
    interval: u16,
    from: Day,
    to: Day,
) -> Result<(), AllocError>
    requires sound { IsIntervalLength interval }
    requires offsets { All IsOffset offsets.now }
    requires low { from ≤ window.now.low }
    requires high { window.now.high ≤ to + 1 }
    ensures days { OnOk result (AddsDays
        (IsInWindow window.now.low window.now.high
        (λ k d. IsCountedDay (WorkPeriod origin interval) k
        (is_work_in index.old.statuses) d) offsets.now) days.old.items days.new.items) }
    ensures statuses { OnOk result (index.new.statuses ≡ index.old.statuses) }
{
    let length = usize::from(interval);
    let before_origin = index.rank(origin);
    // days before the origin lie in no interval
    let first = index.rank(from).saturating_sub(before_origin) / length;
    let last = index.rank(to).saturating_sub(before_origin) / length;
    for place in first..last + 1 {
        let start = before_origin + place * length;
        push_days(
            days,
            index,
            Rule::WorkDaysOnly,
            window,
            offsets,
            start,
            Some(start + length),
        )?;
    }
    Ok(())
}

// Where the raw days lie that the rule may bring into the days from `from` to `to`: the first of them and the last.
fn raw_range(index: &mut CountedIndex, rule: Rule, from: Day, to: Day) -> (Day, Day)
    ensures range { IsRawRange rule (is_work_in index.old.statuses) from to result.0 result.1 }
    ensures asked { AsksAtMost 1 index.old index.new }
{
    match rule {
        Rule::Before => (from, day_before_next_work(index, to)),
        Rule::After => (day_after_last_work(index, from), to),
        Rule::WorkDaysOnly | Rule::Same | Rule::Skip => (from, to),
    }
}

// The day before the next work day, or the last day of all where no work day follows.
fn day_before_next_work(index: &mut CountedIndex, day: Day) -> Day
    ensures value { IsBeforeNextWork (is_work_in index.old.statuses) day result }
    ensures asked { AsksAtMost 1 index.old index.new }
{
    match index.next_work(day) {
        Some(next) => Day::from_number(next.number() - 1).unwrap(),
        None => Day::LAST,
    }
}

// The day after the last work day before it, or the first day of all where there is none.
fn day_after_last_work(index: &mut CountedIndex, day: Day) -> Day
    ensures value { IsAfterPreviousWork (is_work_in index.old.statuses) day result }
    ensures asked { AsksAtMost 1 index.old index.new }
{
    match index.prev_work(day) {
        Some(last) => Day::from_number(last.number() + 1).unwrap(),
        None => Day::FIRST,
    }
}

// The days from `from` to `to` on which the run cycle is in effect.
fn window_of(cycle: &RunCycle, from: Day, to: Day) -> Window
    ensures days { (d : ℕ) → ((result.low ≤ d) × (d < result.high))
        ↔ ((from ≤ d) × (d ≤ to) × IsValidOn cycle.now d) }
    ensures low { from ≤ result.low }
    ensures high { result.high ≤ to + 1 }
{
    let end = to.number() + 1;
    Window {
        low: from.number().max(cycle.in_effect.number()),
        high: match cycle.out_effect {
            Some(out) => end.min(out.number()),
            None => end,
        },
    }
}

/// The days that one run cycle names in a window, rising, each once, found by jumps from interval to interval of its
/// period. Only `new` allocates memory.
#[derive(Debug, Drop)]
pub struct JumpDays<'a> {
    days: Vec<Day>,
    // how many of them were given
    given: usize,
    visited: usize,
    index: CountedIndex<'a>,
}

impl<'a> Model for JumpDays<'a> {
    ghost use Rattle.std.specs.Prelude.{drop};
    ghost use Rattle.run_cycles.specs.Jump.{Jump};

    ghost Value = { Jump };

    ghost view = { λ j. record {
      left = drop j.given j.days.items;
      visited = j.visited;
      asked = j.index.asked;
    } };
}

impl<'a> JumpDays<'a> {
    ghost use Rattle.std.specs.Prelude.{◌≡◌, AllPairs, Contains};
    ghost use Rattle.run_cycles.specs.Jump.{AsksFew, ListsNamedDays, WalksRawRange};

    /// The days from `from` to `to` that the run cycle names, whose period this is; none where `to` is before `from`.
    /// The index that is passed has counted no question yet.
    pub fn new(
        alloc: Global,
        cycle: &RunCycle,
        period: &Period,
        index: CountedIndex<'a>,
        from: Day,
        to: Day,
    ) -> Result<JumpDays<'a>, AllocError>
        requires { IsSoundPeriod period.now }
        ensures lists { IfOk result
            (λ j. ListsNamedDays cycle.now period.now
            (is_work_in index.entry.statuses) from to j.left) }
        ensures visited { IfOk result
            (λ j. WalksRawRange period.now cycle.now.rule
            (is_work_in index.entry.statuses) from to j.visited) }
        ensures asked { IfOk result
            (λ j. index.entry.asked ≡ 0
            → AsksFew period.now j.visited (length cycle.now.offsets) j.asked) }
    {
        let mut index = index;
        let mut days = Vec::new(alloc);
        let window = window_of(cycle, from, to);
        let useful = offsets_within(alloc, cycle.offsets.as_slice(), reach(period))?;
        let offsets = useful.as_slice();
        match period {
            Period::Work { origin, interval } => {
                push_work_intervals(
                    &mut days, &mut index, &window, offsets, *origin, *interval, from, to,
                )?;
                Ok(JumpDays::sorted(days, 0, index))
            }
            Period::All { .. } | Period::Listed(_) => {
                let (low, high) = raw_range(&mut index, cycle.rule, from, to);
                let visited = push_intervals(
                    &mut days, &mut index, cycle.rule, &window, offsets, period, low, high,
                )?;
                Ok(JumpDays::sorted(days, visited, index))
            }
        }
    }

    // These days in order, each once.
    fn sorted(days: Vec<Day>, visited: usize, index: CountedIndex<'a>) -> JumpDays<'a>
        ensures exactly { (d : ℕ) → Contains result.left d ↔ Contains days.items d }
        ensures rising { AllPairs (λ a b. a < b) result.left }
        ensures visited { result.visited ≡ visited }
        ensures asked { result.asked ≡ index.entry.asked }
    {
        let mut days = days;
        days.sort_unstable();
        days.dedup();
        JumpDays {
            days,
            given: 0,
            visited,
            index,
        }
    }

    /// How many intervals of the period the walk visited; 0 for a period of work days.
    pub fn visited(&self) -> usize
        ensures { result ≡ self.now.visited }
    {
        self.visited
    }

    /// How many questions the index of work days was asked.
    pub fn asked(&self) -> u64
        ensures { result ≡ self.now.asked }
    {
        self.index.asked()
    }
}

impl<'a> Iterator for JumpDays<'a> {
    ghost use Rattle.std.specs.Iterator.{YieldsFirst, item_count, MakesProgress};
    ghost use Rattle.std.specs.Prelude.{⊤};
    ghost use Rattle.run_cycles.specs.Jump.{Jump, KeepsCounts};

    type Item = Day;

    ghost next_gives = { YieldsFirst (λ j. j.left) };

    ghost remaining = { item_count (λ j. j.left) };

    fn next(&mut self) -> Option<Day>
        ensures steps { YieldsFirst (λ j. j.left) self.old result self.new }
        ensures goes { MakesProgress (λ (_ : Jump). ⊤)
            (item_count (λ j. j.left)) self.old result self.new }
        ensures keeps { KeepsCounts self.old self.new }
    {
        if self.given >= self.days.len() {
            return None;
        }
        let day = self.days[self.given];
        self.given += 1;
        Some(day)
    }
}
