ghost use Rattle.std.specs.Prelude.{◌≡◌, IfOk};

use std::alloc::{AllocError, Global};
use std::test::Fail;
use work_calendars::{Calendar, CountedIndex, Day, DayStatus, Minute, Moment, Weekday, WorkIndex};

// The numbers of 1972-01-01, 2071-12-31, 2065-12-31 and 2068-12-31 from an almanac, and how many days the first two
// span.
const FIRST: u32 = 730;

const LAST: u32 = 37_254;

const LAST_PLANNING: u32 = 35_063;

const LAST_KEPT: u32 = 36_159;

const DAYS: usize = 36_525;

// Whether the moment's text is this one, its day's text the beginning, and its day and minute make it again.
fn is_written(moment: Moment, text: &str) -> bool {
    let mut spelled = [0; 16];
    moment.write_text(&mut spelled);
    let mut day = [0; 10];
    moment.day().write_text(&mut day);
    let again = Moment::new(moment.day(), moment.minute()) == moment
        && Moment::from_number(moment.number()) == Some(moment);
    again && spelled.as_slice() == text.as_bytes() && day.as_slice() == &spelled[..10]
}

// Whether the row is a moment's text, its number, those of its day and minute, and the weekday.
fn row_holds(row: &str) -> Option<bool> {
    let mut words = row.split_whitespace();
    let text = words.next()?;
    let moment = Moment::from_text(text)?;
    let day = moment.day();
    let mut holds = is_written(moment, text);
    for number in [
        moment.number(),
        day.number(),
        moment.minute().number(),
        u32::from(day.weekday()),
    ] {
        holds = holds & (words.next()?.parse() == Ok(number));
    }
    Some(holds)
}

// Days have their numbers and weekdays from an almanac, Monday 0.
#[test]
fn moments_have_numbers(rt: HostRuntime) {
    for row in MOMENTS.lines() {
        assert!(rt; row_holds(row) == Some(true), "{row}");
    }
    // These two no line can have.
    assert!(rt; Moment::from_text("2024-01-01 08.00").is_none());
    assert!(rt; Moment::from_text("2024-01-01/08.00 ").is_none());
}

const MOMENTS: &str = "\
1972-01-01/00.00 1051200 730 0 5
1972-02-29/00.59 1136219 789 59 1
1999-12-31/01.00 15776700 10956 60 4
2000-01-01/08.05 15778565 10957 485 5
2000-02-29/23.59 15864479 11016 1439 1
2024-01-01/08.00 28401600 19723 480 0
2024-02-29/00.01 28486081 19782 1 3
2024-03-01/12.30 28488270 19783 750 4
2068-12-31/23.59 52070399 36159 1439 0
2071-12-31/23.59 53647199 37254 1439 3";

fn number_of(day: Option<Day>) -> u32 {
    match day {
        Some(day) => day.number(),
        None => 0,
    }
}

#[test]
fn days_have_a_first_and_a_last(rt: HostRuntime) {
    let (first, last) = (FIRST, LAST);
    let found = [
        Day::FIRST.number(),
        Day::LAST.number(),
        Day::LAST_PLANNING.number(),
        Day::LAST_KEPT.number(),
        number_of(Day::from_number(first - 1)),
        number_of(Day::from_number(first)),
        number_of(Day::from_number(last)),
        number_of(Day::from_number(last + 1)),
        number_of(Day::FIRST.previous()),
        number_of(Day::FIRST.next()),
        number_of(Day::LAST.previous()),
        number_of(Day::LAST.next()),
        number_of(Day::FIRST.plus(last - first)),
        number_of(Day::FIRST.plus(u32::MAX)),
        number_of(Day::LAST.minus(last - first)),
        number_of(Day::LAST.minus(last - first + 1)),
    ];
    let (planned, kept) = (LAST_PLANNING, LAST_KEPT);
    let (second, earlier) = (first + 1, last - 1);
    let wanted = [
        first, last, planned, kept, 0, first, last, 0, 0, second, earlier, 0, last, 0, first, 0,
    ];
    assert_eq!(rt; found, wanted);
}

#[test]
fn minutes_and_moments_have_a_last(rt: HostRuntime) {
    assert!(rt; Minute::from_number(1439) == Some(Minute::LAST));
    assert!(rt; Minute::from_number(1440).is_none());
    assert!(rt; Moment::from_number(1_051_199).is_none());
    assert!(rt; Moment::from_number(53_647_200).is_none());
}

// Saturdays and Sundays are free.
pub(crate) fn weekdays(alloc: Global) -> Calendar {
    let mut calendar = Calendar::new(alloc);
    calendar.set_weekday(Weekday::Saturday, DayStatus::Free);
    calendar.set_weekday(Weekday::Sunday, DayStatus::Free);
    calendar
}

// What the calendar lists for the first of two days, and whether each is a work day.
fn statuses(calendar: &Calendar, [day, later]: [Day; 2]) -> (Option<DayStatus>, [bool; 2]) {
    let are_work = [calendar.is_work(day), calendar.is_work(later)];
    (calendar.date_status(day), are_work)
}

// The same of the calendar whose Saturdays and Sundays are free: before the first day is listed as free and then as a
// work day, and after that.
fn listed_twice(
    alloc: Global,
    days: [Day; 2],
) -> Result<[(Option<DayStatus>, [bool; 2]); 2], AllocError> {
    let mut calendar = weekdays(alloc);
    let before = statuses(&calendar, days);
    calendar.set_date(days[0], DayStatus::Free)?;
    calendar.set_date(days[0], DayStatus::Work)?;
    Ok([before, statuses(&calendar, days)])
}

// The dates that a calendar lists after two are listed, the later one first, and then the later one anew.
fn two_dates(alloc: Global, [day, later]: [Day; 2]) -> Result<Vec<(Day, DayStatus)>, AllocError> {
    let mut calendar = weekdays(alloc);
    calendar.set_date(later, DayStatus::Free)?;
    calendar.set_date(day, DayStatus::Free)?;
    calendar.set_date(later, DayStatus::Work)?;
    calendar.dates(alloc)
}

#[test]
fn dates_are_listed_in_rising_order(rt: HostRuntime) -> Result<(), Fail> {
    let day = Day::from_text("2024-01-06").ok_or("no day")?;
    let later = Day::from_text("2024-01-08").ok_or("no day")?;
    let dates = two_dates(rt.alloc(), [day, later])?;
    assert_eq!(rt;
        dates.as_slice(),
        [(day, DayStatus::Free), (later, DayStatus::Work)].as_slice()
    );
    Ok(())
}

#[test]
fn a_date_goes_before_its_weekday(rt: HostRuntime) -> Result<(), Fail> {
    let saturday = Day::from_text("2024-01-06").ok_or("no day")?;
    let next = Day::from_text("2024-01-13").ok_or("no day")?;
    let [before, after] = listed_twice(rt.alloc(), [saturday, next])?;
    assert!(rt; before == (None, [false, false]));
    assert!(rt; after == (Some(DayStatus::Work), [true, false]));
    Ok(())
}

// A copy equals what it was copied from.
fn copied(calendar: &Calendar) -> Result<Calendar, AllocError>
    ensures { IfOk result (λ copy. copy ≡ calendar.now) }
{
    calendar.clone()
}

// Whether a Saturday and the Sunday after it are work days; none where a text is no day.
fn weekend(calendar: &Calendar) -> Option<(bool, bool)> {
    let saturday = calendar.is_work(Day::from_text("2024-01-13")?);
    Some((saturday, calendar.is_work(Day::from_text("2024-01-14")?)))
}

// The same of a copy.
fn weekend_of_copy(calendar: &Calendar) -> Result<Option<(bool, bool)>, AllocError> {
    let copy = copied(calendar)?;
    Ok(weekend(&copy))
}

// What is listed for Saturdays and for Mondays.
fn listed_weekdays(calendar: &Calendar) -> [Option<DayStatus>; 2] {
    [
        calendar.weekday_status(Weekday::Saturday),
        calendar.weekday_status(Weekday::Monday),
    ]
}

// The weekend of the calendar whose Sundays alone are free, and that of its copy.
fn weekends(alloc: Global) -> Result<[Option<(bool, bool)>; 2], AllocError> {
    let mut calendar = weekdays(alloc);
    calendar.set_weekday(Weekday::Saturday, DayStatus::Work);
    Ok([weekend(&calendar), weekend_of_copy(&calendar)?])
}

#[test]
fn a_weekday_is_listed_anew(rt: HostRuntime) -> Result<(), AllocError> {
    let listed = listed_weekdays(&weekdays(rt.alloc()));
    assert!(rt; listed == [Some(DayStatus::Free), None]);
    assert!(rt; weekends(rt.alloc())? == [Some((true, false)); 2]);
    Ok(())
}

// The work days at the place of the first day, of the last and after it; those after the first day and the last, and
// before each.
fn ends(index: &WorkIndex) -> [Option<Day>; 7] {
    [
        index.nth(0),
        index.nth(DAYS - 1),
        index.nth(DAYS),
        index.next_work(Day::FIRST),
        index.next_work(Day::LAST),
        index.prev_work(Day::FIRST),
        index.prev_work(Day::LAST),
    ]
}

// The same of the calendar's index, whether the first day is a work day, and how many there are before the last.
fn ends_of(
    alloc: Global,
    calendar: Calendar,
) -> Result<(bool, usize, [Option<Day>; 7]), AllocError> {
    let index = WorkIndex::build(alloc, &calendar)?;
    Ok((
        index.is_work(Day::FIRST),
        index.rank(Day::LAST),
        ends(&index),
    ))
}

#[test]
fn every_day_is_a_work_day(rt: HostRuntime) -> Result<(), AllocError> {
    let (is_work, rank, ends) = ends_of(rt.alloc(), Calendar::new(rt.alloc()))?;
    let second = Day::FIRST.next();
    let last_but_one = Day::LAST.previous();
    let wanted = [
        Some(Day::FIRST),
        Some(Day::LAST),
        None,
        second,
        None,
        None,
        last_but_one,
    ];
    assert!(rt; is_work && rank == DAYS - 1 && ends == wanted);
    Ok(())
}

fn without_work_days(alloc: Global) -> Calendar {
    let mut calendar = Calendar::new(alloc);
    for weekday in [
        Weekday::Monday,
        Weekday::Tuesday,
        Weekday::Wednesday,
        Weekday::Thursday,
        Weekday::Friday,
        Weekday::Saturday,
        Weekday::Sunday,
    ] {
        calendar.set_weekday(weekday, DayStatus::Free);
    }
    calendar
}

#[test]
fn no_day_is_a_work_day(rt: HostRuntime) -> Result<(), AllocError> {
    let (is_work, rank, ends) = ends_of(rt.alloc(), without_work_days(rt.alloc()))?;
    assert!(rt; !is_work && rank == 0 && ends == [None; 7]);
    Ok(())
}

// A Monday, the Friday after it, and the next Monday.
fn week() -> Option<[Day; 3]> {
    Some([
        Day::from_text("2024-01-01")?,
        Day::from_text("2024-01-05")?,
        Day::from_text("2024-01-08")?,
    ])
}

// What seven questions are answered: whether Friday is a work day, how many work days there are from Monday to the day
// before Friday, and four days; and how many questions are counted before, after the first, the third and the last.
fn questions(
    counted: &mut CountedIndex<'_>,
    [monday, friday, next]: [Day; 3],
) -> (bool, usize, [Option<Day>; 4], [u64; 4]) {
    let before = counted.asked();
    let is_work = counted.is_work(friday);
    let first = counted.asked();
    let later = counted.next_work(friday);
    let earlier = counted.prev_work(next);
    let third = counted.asked();
    let rank = counted.rank(monday);
    let work_days = counted.rank(friday).wrapping_sub(rank);
    let same = counted.nth(rank);
    let past = counted.nth(DAYS);
    let asked = [before, first, third, counted.asked()];
    (is_work, work_days, [later, earlier, same, past], asked)
}

// The same, of the calendar whose Saturdays and Sundays are free.
fn questions_of(
    alloc: Global,
    days: [Day; 3],
) -> Result<(bool, usize, [Option<Day>; 4], [u64; 4]), AllocError> {
    let index = WorkIndex::build(alloc, &weekdays(alloc))?;
    Ok(questions(&mut CountedIndex::new(&index), days))
}

#[test]
fn questions_are_counted(rt: HostRuntime) -> Result<(), Fail> {
    let days = week().ok_or("no day")?;
    let [monday, friday, next] = days;
    let (is_work, work_days, found, asked) = questions_of(rt.alloc(), days)?;
    assert!(rt; is_work && work_days == 4 && asked == [0, 1, 3, 7]);
    assert!(rt; found == [Some(next), Some(friday), Some(monday), None]);
    Ok(())
}

// Lists the day that comes so many days after the first as free, and tells whether that was taken. None where it is a
// work day then, or where a refusal changed it.
fn takes(calendar: &mut Calendar, place: u32) -> Option<bool> {
    let day = Day::FIRST.plus(place)?;
    let before = calendar.is_work(day);
    match calendar.set_date(day, DayStatus::Free) {
        Ok(()) => (!calendar.is_work(day)).then_some(true),
        Err(_) => {
            let is_kept = calendar.is_work(day) == before && calendar.date_status(day).is_none();
            is_kept.then_some(false)
        }
    }
}

fn lists(calendar: &Calendar, place: u32) -> bool {
    match Day::FIRST.plus(place) {
        Some(day) => calendar.date_status(day) == Some(DayStatus::Free),
        None => false,
    }
}

// A setter that is refused memory leaves the calendar as it was: run with an allocation that fails.
#[test]
fn a_refused_date_changes_nothing(rt: HostRuntime) {
    let mut calendar = weekdays(rt.alloc());
    let mut taken = 0u32;
    for place in 0..50 {
        let is_taken = takes(&mut calendar, place);
        assert!(rt; is_taken.is_some(), "{place}");
        taken = taken.saturating_add((is_taken == Some(true)) as u32);
    }
    let mut listed = 0u32;
    for place in 0..50 {
        listed = listed.saturating_add(lists(&calendar, place) as u32);
    }
    assert_eq!(rt; listed, taken);
    assert!(rt; taken >= 49);
}
