// Rows of calendars.

ghost use Rattle.std.specs.Prelude.{◌≡◌, ◌≢◌, ◌∷◌, ◌↔◌, ◌<◌, ℕ, [], length, IfOk, IfSome, IsTrue, OnOk, List, IsSome};
ghost use Rattle.std.specs.Prelude.{◌^◌, AllPairs, Contains, map};
ghost use Rattle.sqlite.specs.declared.types.Value.TheVariants.{Text};
ghost use Rattle.jiff.specs.Words.{monday_zero};
ghost use Rattle.work_calendars.specs.declared.statuses.DayStatus.{DayStatus as Status};
ghost use Rattle.plan_tables_content.specs.Content.{IsTold};
ghost use Rattle.plan_tables_content.specs.Facts.{IsCalendarRow, is_work, natural};
ghost use Rattle.plan_tables_definitions.specs.Adding.{Adds, HaveOwnKeys, IsOfPlace, IsUpTo};
ghost use Rattle.plan_tables_definitions.specs.Parts.{IsDateRow, IsWeekdayRow};
ghost use Rattle.sqlite.specs.Order.{column};
ghost use Rattle.work_calendars.specs.Calendar.{CalendarEntries};
ghost use Rattle.plan_tables_content.specs.Content.{AreEach, ByName as Defined};
ghost use Rattle.plan_tables_definitions.specs.Drafted.{IsSoundCalendar, RepresentsEntry, calendar_named, calendar_values};
ghost use Rattle.plan_tables_definitions.specs.Gathering.{AreSound, Joins, Within};
ghost use Rattle.plan_tables_definitions.specs.Storing.{AreRowsOf};

use crate::cells::{number, row_of, work};
use crate::columns::{number_at, status_at};
use crate::encoding::{Encoding, rows_of};
use crate::gathering::{Draft, gathered};
use app_definitions::ByName;
use sqlite::types::ValueRef;
use sqlite_value::row::Row;
use std::alloc::{AllocError, Global};
use work_calendars::{Calendar, Day, DayStatus, Name, Weekday};

// Monday is the first, at 0.
fn weekday_at(place: u32) -> Weekday
    requires { place < 7 }
    ensures { monday_zero result ≡ place }
{
    match place {
        0 => Weekday::Monday,
        1 => Weekday::Tuesday,
        2 => Weekday::Wednesday,
        3 => Weekday::Thursday,
        4 => Weekday::Friday,
        5 => Weekday::Saturday,
        _ => Weekday::Sunday,
    }
}

// The row of an entry of a calendar: kind 0 is a weekday, 1 a date.
fn entry_row(
    alloc: Global,
    name: &Name,
    kind: u32,
    day: u32,
    status: DayStatus,
) -> Result<Row, AllocError>
    ensures { IfOk result (λ row.
        row ≡ Text name.now ∷ natural kind ∷ natural day ∷ is_work status ∷ []) }
{
    row_of(
        alloc,
        &[
            ValueRef::Text(name.as_bytes()),
            number(kind),
            number(day),
            work(status),
        ],
    )
}

// Appends the row of what is listed for that weekday.
fn push_weekday(
    alloc: Global,
    rows: &mut Vec<Row>,
    name: &Name,
    calendar: &Calendar,
    place: u32,
) -> Result<(), AllocError>
    requires { place < 7 }
    ensures { OnOk result
        (Adds 3 (IsWeekdayRow name.now calendar.now place) rows.old.items rows.new.items) }
{
    match calendar.weekday_status(weekday_at(place)) {
        Some(status) => {
            let row = entry_row(alloc, name, 0, place, status)?;
            rows.push(row)?;
            Ok(())
        }
        None => Ok(()),
    }
}

// Appends the rows of what is listed for weekdays.
fn push_weekdays(
    alloc: Global,
    rows: &mut Vec<Row>,
    name: &Name,
    calendar: &Calendar,
) -> Result<(), AllocError>
    ensures { OnOk result
        (Adds 3 (IsUpTo (IsWeekdayRow name.now calendar.now) 7) rows.old.items rows.new.items) }
{
    for place in 0..7 {
        push_weekday(alloc, rows, name, calendar, place)?;
    }
    Ok(())
}

// Appends the row of what is listed for that date.
fn push_date(
    alloc: Global,
    rows: &mut Vec<Row>,
    name: &Name,
    calendar: &Calendar,
    day: Day,
) -> Result<(), AllocError>
    ensures { OnOk result
        (Adds 3 (IsDateRow name.now calendar.now day) rows.old.items rows.new.items) }
{
    match calendar.date_status(day) {
        Some(status) => {
            let row = entry_row(alloc, name, 1, day.number(), status)?;
            rows.push(row)?;
            Ok(())
        }
        None => Ok(()),
    }
}

// The days of these dates.
fn all_days(alloc: Global, dates: &[(Day, DayStatus)]) -> Result<Vec<Day>, AllocError>
    ensures { IfOk result (λ days. days.items ≡ map (λ (e : ℕ × Status). e.0) dates.now) }
{
    dates.iter().map(|entry| entry.0).collect(alloc)
}

// The same in order, each once.
fn listed_days(alloc: Global, dates: &[(Day, DayStatus)]) -> Result<Vec<Day>, AllocError>
    ensures rising { IfOk result (λ days. AllPairs (λ a b. a < b) days.items) }
    ensures exactly { IfOk result (λ days. (day : ℕ) → Contains days.items day
        ↔ Contains (map (λ (e : ℕ × Status). e.0) dates.now) day) }
{
    let mut days = all_days(alloc, dates)?;
    days.sort_unstable();
    days.dedup();
    Ok(days)
}

// Appends the rows of these dates.
fn push_dates(
    alloc: Global,
    rows: &mut Vec<Row>,
    name: &Name,
    calendar: &Calendar,
    days: &[Day],
) -> Result<(), AllocError>
    requires { AllPairs (λ a b. a < b) days.now }
    ensures { OnOk result (Adds 3
        (IsOfPlace (λ _. IsDateRow name.now calendar.now) days.now (length days.now))
        rows.old.items rows.new.items) }
{
    for day in days {
        push_date(alloc, rows, name, calendar, *day)?;
    }
    Ok(())
}

// Appends the rows of a calendar.
fn push_entries(
    alloc: Global,
    rows: &mut Vec<Row>,
    name: &Name,
    calendar: &Calendar,
) -> Result<(), AllocError>
    ensures added { OnOk result
        (Adds 3 (IsCalendarRow name.now calendar.now) rows.old.items rows.new.items) }
    ensures week { length calendar.now.weekdays ≡ 7 }
{
    let dates = calendar.dates(alloc)?;
    let days = listed_days(alloc, &dates)?;
    push_weekdays(alloc, rows, name, calendar)?;
    push_dates(alloc, rows, name, calendar, &days)
}

struct CalendarRows;

impl Encoding for CalendarRows {
    type Of = Calendar;

    ghost IsRow = { IsCalendarRow };

    ghost cells = { 2 };

    ghost named = { calendar_named };

    fn push(
        alloc: Global,
        rows: &mut Vec<Row>,
        name: &Name,
        definition: &Calendar,
    ) -> Result<(), AllocError> {
        push_entries(alloc, rows, name, definition)
    }
}

/// The rows of the calendars in the table `calendar_entry`.
pub fn calendar_rows(alloc: Global, calendars: &ByName<Calendar>) -> Result<Vec<Row>, AllocError>
    ensures rows { IfOk result (λ rows. AreRowsOf IsCalendarRow rows.items calendars.now) }
    ensures keys { IfOk result (λ rows. HaveOwnKeys 3 rows.items) }
{
    rows_of::<CalendarRows>(alloc, calendars)
}

// The kind, the number and the status that a row of this calendar encodes.
fn entry_at(row: &Row, name: &Name) -> Option<(u32, u32, DayStatus)>
    requires { column row.now 0 ≡ Text name.now }
    ensures value { IfSome result (λ e. row.now ≡ calendar_values name.now e.0 e.1 e.2) }
    ensures found { (kind day : ℕ) (status : Status) → kind < 2 ^ 32 → day < 2 ^ 32
        → row.now ≡ calendar_values name.now kind day status → result ≡ Some (kind, day, status) }
{
    if row.len() != 4 {
        return None;
    }
    let kind = number_at(row, 1)?;
    let day = number_at(row, 2)?;
    let status = status_at(row, 3)?;
    Some((kind, day, status))
}

fn is_same(status: DayStatus, other: DayStatus) -> bool
    ensures { IsTrue result ↔ (status ≡ other) }
{
    match status {
        DayStatus::Work => matches!(other, DayStatus::Work),
        DayStatus::Free => matches!(other, DayStatus::Free),
    }
}

// Lists the weekday. Returns false if it is listed with another status.
fn list_weekday(calendar: &mut Calendar, place: u32, status: DayStatus) -> bool
    requires place { place < 7 }
    requires week { length calendar.old.weekdays ≡ 7 }
    ensures kept { length calendar.new.weekdays ≡ 7 }
    ensures taken { (name : List ℕ) → IsTrue result → Joins (IsCalendarRow name calendar.old)
        (calendar_values name 0 place status) (IsCalendarRow name calendar.new) }
    ensures refused { (d : CalendarEntries) (name : List ℕ) → RepresentsEntry d 0 place status
        → Within (IsCalendarRow name calendar.old) (IsCalendarRow name d) → IsTrue result }
{
    match calendar.weekday_status(weekday_at(place)) {
        Some(listed) => is_same(listed, status),
        None => {
            calendar.set_weekday(weekday_at(place), status);
            true
        }
    }
}

// The same, where the number may be none of a weekday.
fn list_week_entry(calendar: &mut Calendar, place: u32, status: DayStatus) -> bool
    requires { length calendar.old.weekdays ≡ 7 }
    ensures kept { length calendar.new.weekdays ≡ 7 }
    ensures taken { (name : List ℕ) → IsTrue result → Joins (IsCalendarRow name calendar.old)
        (calendar_values name 0 place status) (IsCalendarRow name calendar.new) }
    ensures refused { (d : CalendarEntries) (name : List ℕ) → IsSoundCalendar name d
        → RepresentsEntry d 0 place status
        → Within (IsCalendarRow name calendar.old) (IsCalendarRow name d)
        → IsTrue result }
{
    if place < 7 {
        list_weekday(calendar, place, status)
    } else {
        false
    }
}

// Lists the date. Returns false if it is listed with another status.
fn list_date(calendar: &mut Calendar, day: Day, status: DayStatus) -> Result<bool, AllocError>
    requires { length calendar.old.weekdays ≡ 7 }
    ensures kept { length calendar.new.weekdays ≡ 7 }
    ensures taken { IfOk result (λ b. (name : List ℕ) → IsTrue b
        → Joins (IsCalendarRow name calendar.old)
        (calendar_values name 1 day status) (IsCalendarRow name calendar.new)) }
    ensures refused { IfOk result (λ b. (d : CalendarEntries) (name : List ℕ)
        → RepresentsEntry d 1 day status
        → Within (IsCalendarRow name calendar.old) (IsCalendarRow name d) → IsTrue b) }
{
    match calendar.date_status(day) {
        Some(listed) => Ok(is_same(listed, status)),
        None => {
            calendar.set_date(day, status)?;
            Ok(true)
        }
    }
}

// The same, where the number may be none of a day.
fn list_day_entry(
    calendar: &mut Calendar,
    number: u32,
    status: DayStatus,
) -> Result<bool, AllocError>
    requires { length calendar.old.weekdays ≡ 7 }
    ensures kept { length calendar.new.weekdays ≡ 7 }
    ensures taken { IfOk result (λ b. (name : List ℕ) → IsTrue b
        → Joins (IsCalendarRow name calendar.old)
        (calendar_values name 1 number status) (IsCalendarRow name calendar.new)) }
    ensures refused { IfOk result (λ b. (d : CalendarEntries) (name : List ℕ)
        → IsSoundCalendar name d
        → RepresentsEntry d 1 number status
        → Within (IsCalendarRow name calendar.old) (IsCalendarRow name d)
        → IsTrue b) }
{
    match Day::from_number(number) {
        Some(day) => list_date(calendar, day, status),
        None => Ok(false),
    }
}

// Lists an entry of that kind. Returns false if it is listed with another status.
fn list_entry(
    calendar: &mut Calendar,
    kind: u32,
    number: u32,
    status: DayStatus,
) -> Result<bool, AllocError>
    requires { length calendar.old.weekdays ≡ 7 }
    ensures kept { length calendar.new.weekdays ≡ 7 }
    ensures taken { IfOk result (λ b. (name : List ℕ) → IsTrue b
        → Joins (IsCalendarRow name calendar.old)
        (calendar_values name kind number status) (IsCalendarRow name calendar.new)) }
    ensures refused { IfOk result (λ b. (d : CalendarEntries) (name : List ℕ)
        → IsSoundCalendar name d
        → RepresentsEntry d kind number status
        → Within (IsCalendarRow name calendar.old) (IsCalendarRow name d)
        → IsTrue b) }
{
    if kind == 0 {
        return Ok(list_week_entry(calendar, number, status));
    }
    if kind == 1 {
        return list_day_entry(calendar, number, status);
    }
    Ok(false)
}

fn copied(calendar: &Calendar) -> Result<Calendar, AllocError>
    ensures { IfOk result (λ c. c ≡ calendar.now) }
{
    calendar.clone()
}

// The calendar that the rows encode.
#[derive(Drop)]
struct CalendarDraft {
    calendar: Calendar,
    ghost week: { length calendar.weekdays ≡ 7 },
}

impl Draft for CalendarDraft {
    type Of = Calendar;

    ghost IsRow = { IsCalendarRow };

    ghost IsSound = { IsSoundCalendar };

    ghost IsTold = { IsTold };

    ghost IsRead = { λ name x. IsCalendarRow name x.calendar };

    fn begin(alloc: Global) -> CalendarDraft {
        CalendarDraft {
            calendar: Calendar::new(alloc),
        }
    }

    fn join(&mut self, name: &Name, row: &Row) -> Result<bool, AllocError> {
        let Some((kind, day, status)) = entry_at(row, name) else {
            return Ok(false);
        };
        list_entry(&mut self.calendar, kind, day, status)
    }

    fn finish(&self, _alloc: Global, _name: &Name) -> Result<Option<Calendar>, AllocError> {
        Ok(Some(copied(&self.calendar)?))
    }

    ghost named = { calendar_named };

    ghost read_named = { λ name x v is. calendar_named name x.calendar v is };
}

/// The calendars that have exactly these rows, or none where no sound ones have.
pub(crate) fn read_calendars(
    alloc: Global,
    rows: &[Row],
) -> Result<Option<ByName<Calendar>>, AllocError>
    ensures made { IfOk result (λ found. IfSome found (AreRowsOf IsCalendarRow rows.now)) }
    ensures told { IfOk result (λ found. IfSome found (AreEach IsTold)) }
    ensures found { IfOk result (λ found. (all : Defined CalendarEntries)
        → AreSound IsSoundCalendar all
        → AreRowsOf IsCalendarRow rows.now all → IsSome found) }
{
    gathered::<CalendarDraft>(alloc, rows)
}
