//! `work_calendars`: days, minutes, moments and names as texts; calendars, and the work days of one.
use std::alloc::Global;
use work_calendars::{
    App, Calendar, CountedIndex, Day, DayStatus, Memory, Minute, Moment, Name, Short, Weekday,
    WorkIndex,
};

pub fn days_and_minutes(text: &str) -> (Option<Day>, Option<Minute>, Option<Moment>) {
    (
        Day::from_text(text),
        Minute::from_text(text),
        Moment::from_text(text),
    )
}

pub fn names(text: &str) -> (Option<Name>, Option<Short>) {
    (Name::from_text(text), Short::from_text(text))
}

// `App` is another word for `Name`.
pub fn app(name: Name) -> App {
    name
}

pub fn write_day(day: Day, text: &mut [u8; 10]) {
    day.write_text(text);
}

pub fn write_minute(minute: Minute, text: &mut [u8; 5]) {
    minute.write_text(text);
}

pub fn write_moment(moment: Moment, text: &mut [u8; 16]) {
    moment.write_text(text);
}

pub fn name_text(name: &Name) -> &str {
    name.as_str()
}

pub fn short_text(short: &Short) -> &str {
    short.as_str()
}

pub fn weekday(day: Day) -> u8 {
    day.weekday()
}

pub fn new_calendar(alloc: Global) -> Calendar {
    Calendar::new(alloc)
}

pub fn set_weekday(calendar: &mut Calendar, weekday: Weekday, status: DayStatus) {
    calendar.set_weekday(weekday, status);
}

pub fn set_date(calendar: &mut Calendar, day: Day, status: DayStatus) -> Result<(), Memory> {
    calendar.set_date(day, status)
}

pub fn is_work(calendar: &Calendar, day: Day) -> bool {
    calendar.is_work(day)
}

pub fn status(is_work: bool) -> DayStatus {
    if is_work {
        DayStatus::Work
    } else {
        DayStatus::Free
    }
}

pub fn build(alloc: Global, calendar: &Calendar) -> Result<WorkIndex, Memory> {
    WorkIndex::build(alloc, calendar)
}

pub fn rank(index: &WorkIndex, day: Day) -> (bool, usize) {
    (index.is_work(day), index.rank(day))
}

pub fn search(index: &WorkIndex, place: usize, day: Day) -> [Option<Day>; 3] {
    [index.nth(place), index.next_work(day), index.prev_work(day)]
}

pub fn counted(index: &WorkIndex) -> CountedIndex<'_> {
    CountedIndex::new(index)
}

pub fn counted_rank(index: &mut CountedIndex<'_>, day: Day) -> (bool, usize, u64) {
    (index.is_work(day), index.rank(day), index.asked())
}

pub fn counted_search(
    index: &mut CountedIndex<'_>,
    place: usize,
    day: Day,
) -> (Option<Day>, Option<Day>, Option<Day>) {
    (index.nth(place), index.next_work(day), index.prev_work(day))
}
