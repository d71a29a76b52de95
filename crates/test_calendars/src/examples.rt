//! The examples of the libraries. `lib.rt` and the `README.md` of each have the lines between the two marks.
use crate::calendars::weekdays;
use occurrences::{Action, Place, Status, next_status};
use plan_periods::{Intervals, Period};
use run_cycles::{CycleType, Deadline, Offsets, Periods, Rule, RunCycle, generate};
use std::alloc::Global;
use std::test::Fail;
use work_calendars::{Calendar, Day, DayStatus, Minute, Short, Weekday, WorkIndex};

#[test]
fn example_of_work_calendars(rt: HostRuntime) -> Result<(), Fail> {
    let alloc = rt.alloc();
    // example of work_calendars
    let mut calendar = Calendar::new(alloc);
    calendar.set_weekday(Weekday::Saturday, DayStatus::Free);
    calendar.set_weekday(Weekday::Sunday, DayStatus::Free);
    let index = WorkIndex::build(alloc, &calendar)?;
    let friday = Day::from_text("2024-01-05").ok_or("no day")?;
    assert_eq!(rt; index.next_work(friday), Day::from_text("2024-01-08"));
    // end of the example
    Ok(())
}

#[test]
fn example_of_plan_periods(rt: HostRuntime) -> Result<(), Fail> {
    let monday = Day::from_text("2024-01-01").ok_or("no day")?;
    let sunday = Day::from_text("2024-01-07").ok_or("no day")?;
    let year_end = Day::from_text("2024-12-31").ok_or("no day")?;
    // example of plan_periods
    // seven days from 2024-01-01 on, again and again
    let (origin, interval) = (monday, 7);
    let weeks = Period::All { origin, interval };
    weeks.check()?;
    // the first of the intervals that meet 2024
    let mut intervals = Intervals::new(&weeks, monday, year_end);
    let week = intervals.next().ok_or("no interval")?;
    assert_eq!(rt; (week.first, week.last), (monday, Some(sunday)));
    // end of the example
    Ok(())
}

// The name of a period, and the period of seven days from this day on under it.
fn weeks(alloc: Global, origin: Day) -> Result<(Short, Periods), Fail> {
    let week = Period::All {
        origin,
        interval: 7,
    };
    week.check()?;
    let name = Short::from_text("WEEK").ok_or("no name")?;
    let mut periods = Periods::new(alloc);
    periods.insert(name, week)?;
    Ok((name, periods))
}

// The run cycle's name, its type, and its input arrival time.
fn weekly() -> Option<(Short, CycleType, Minute)> {
    let ia = Minute::from_text("08.00")?;
    let time = Minute::from_text("18.00")?;
    let kind = CycleType::Normal(Deadline { days: 0, time });
    Some((Short::from_text("WEEKLY")?, kind, ia))
}

#[test]
fn example_of_run_cycles(rt: HostRuntime) -> Result<(), Fail> {
    let alloc = rt.alloc();
    let monday = Day::from_text("2024-01-01").ok_or("no day")?;
    let friday = Day::from_text("2024-01-05").ok_or("no day")?;
    let sunday = Day::from_text("2024-01-07").ok_or("no day")?;
    assert!(rt; sunday.number() <= 36_159, "past the last planning day");
    let (period, periods) = weeks(alloc, monday)?;
    let (name, kind, ia) = weekly().ok_or("no run cycle")?;
    let index = WorkIndex::build(alloc, &weekdays(alloc))?;
    // example of run_cycles
    // day 6 of each week from Monday 2024-01-01 on, a free Saturday: rule 1 gives the work day before it
    let cycles = [RunCycle {
        name,
        kind,
        period,
        rule: Rule::Before,
        offsets: Offsets::from_vec(vec![in alloc; 6]?).ok_or("no offsets")?,
        in_effect: monday,
        out_effect: None,
        ia,
    }];
    let named = generate(alloc, &cycles, &periods, &index, monday, sunday)?;
    assert_eq!(rt; named.first().map(|first| first.day), Some(friday));
    // end of the example
    Ok(())
}

#[test]
fn example_of_occurrences(rt: HostRuntime) {
    // example of occurrences
    let waiting = Place::Current(Status::W);
    assert!(rt; waiting.is_live() && waiting.is_open() && !waiting.is_complete());
    assert_eq!(rt; next_status(Status::W, Action::Start), Some(Status::S));
    assert_eq!(rt; next_status(Status::S, Action::Delete), None);
    // end of the example
}
