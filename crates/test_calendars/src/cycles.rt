use crate::calendars::weekdays;
use plan_periods::{Origins, Period};
use run_cycles::{CycleType, Deadline, Offsets, Periods, Rule, RunCycle};
use std::alloc::{AllocError, Global};
use std::process::Abort;
use std::str::SplitWhitespace;
use work_calendars::{Calendar, Day, DayStatus, Minute, Short, WorkIndex};

mod deadlines;
mod jump;
mod types;
mod windows;

fn day(rt: &impl Abort, text: &str) -> Day {
    Day::from_text(text).expect(rt, "a day")
}

fn short(rt: &impl Abort, text: &str) -> Short {
    Short::from_text(text).expect(rt, "a short name")
}

fn minute(rt: &impl Abort, text: &str) -> Minute {
    Minute::from_text(text).expect(rt, "a time")
}

// The first two days of a text.
pub(crate) fn two_days(rt: &impl Abort, text: &str) -> (Day, Day) {
    let mut words = text.split_whitespace();
    let from = day(rt, words.next().unwrap_or(""));
    (from, day(rt, words.next().unwrap_or("")))
}

// Saturdays and Sundays are free, and so are these dates.
fn calendar_of(rt: &impl Abort, alloc: Global, dates: &str) -> Result<Calendar, AllocError> {
    let mut calendar = weekdays(alloc);
    for date in dates.split_whitespace() {
        calendar.set_date(day(rt, date), DayStatus::Free)?;
    }
    Ok(calendar)
}

fn index_of(rt: &impl Abort, alloc: Global, dates: &str) -> Result<WorkIndex, AllocError> {
    let calendar = calendar_of(rt, alloc, dates)?;
    WorkIndex::build(alloc, &calendar)
}

// Offsets separated by commas.
fn offsets_of(rt: &impl Abort, alloc: Global, text: &str) -> Result<Offsets, AllocError> {
    let mut items = Vec::new(alloc);
    for offset in text.split(',') {
        let offset: i16 = offset.parse().ok().expect(rt, "an offset");
        items.push(offset)?;
    }
    Ok(Offsets::from_vec(items).expect(rt, "offsets"))
}

fn rule_of(text: &str) -> Rule {
    match text {
        "E" => Rule::WorkDaysOnly,
        "1" => Rule::Before,
        "2" => Rule::After,
        "3" => Rule::Same,
        _ => Rule::Skip,
    }
}

// The day, or none for `-`.
fn day_or_none(rt: &impl Abort, text: &str) -> Option<Day> {
    if text == "-" {
        None
    } else {
        Some(day(rt, text))
    }
}

fn word<'a>(words: &mut SplitWhitespace<'a>) -> &'a str {
    words.next().unwrap_or("")
}

// A day after that of the occurrence, and a time.
fn deadline_of(rt: &impl Abort, words: &mut SplitWhitespace<'_>) -> Deadline {
    let days = word(words).parse().ok().expect(rt, "a number of days");
    let time = minute(rt, word(words));
    Deadline { days, time }
}

// A run cycle by its name, rule, offsets, the days from which on and before which it is in effect (`-` for none), time,
// and deadline.
fn cycle_of(rt: &impl Abort, alloc: Global, text: &str) -> Result<RunCycle, AllocError> {
    let mut words = text.split_whitespace();
    let name = word(&mut words);
    let rule = rule_of(word(&mut words));
    let offsets = offsets_of(rt, alloc, word(&mut words))?;
    let in_effect = day(rt, word(&mut words));
    let out_effect = day_or_none(rt, word(&mut words));
    let ia = minute(rt, word(&mut words));
    let deadline = deadline_of(rt, &mut words);
    Ok(RunCycle {
        name: short(rt, name),
        kind: CycleType::Normal(deadline),
        period: short(rt, "WEEK"),
        rule,
        offsets,
        in_effect,
        out_effect,
        ia,
    })
}

// Intervals by origin and end, `-` for none, separated by `;`.
fn origins_of(
    rt: &impl Abort,
    alloc: Global,
    text: &str,
) -> Result<Vec<(Day, Option<Day>)>, AllocError> {
    let mut origins = Vec::new(alloc);
    for entry in text.split_terminator(';') {
        let (origin, end) = entry.split_once(' ').unwrap_or(("", ""));
        origins.push((day(rt, origin), day_or_none(rt, end)))?;
    }
    Ok(origins)
}

// A period by its letter, and its origin and interval or its origins.
pub(crate) fn period_of(rt: &impl Abort, alloc: Global, text: &str) -> Result<Period, AllocError> {
    let (kind, rest) = text.split_once(' ').unwrap_or(("", ""));
    if kind == "N" {
        return Ok(Period::Listed(Origins::new(origins_of(rt, alloc, rest)?)));
    }
    let (origin, interval) = rest.split_once(' ').unwrap_or(("", ""));
    let origin = day(rt, origin);
    let interval = interval.parse().ok().expect(rt, "an interval");
    if kind == "A" {
        Ok(Period::All { origin, interval })
    } else {
        Ok(Period::Work { origin, interval })
    }
}

// The period `WEEK` alone.
fn periods_of(rt: &impl Abort, alloc: Global, text: &str) -> Result<Periods, AllocError> {
    let period = period_of(rt, alloc, text)?;
    assert!(rt; period.check().is_ok());
    let mut periods = Periods::new(alloc);
    periods.insert(short(rt, "WEEK"), period)?;
    Ok(periods)
}
