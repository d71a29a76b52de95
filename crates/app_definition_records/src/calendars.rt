// Calendars.

ghost use Rattle.std.specs.Prelude.{◌≡◌, ◌↔◌, ℕ, IsSome, IfSome, IfOk};
ghost use Rattle.csv.specs.Records.{fields_of};
ghost use Rattle.jiff_core.specs.Weekday.{monday_zero};
ghost use Rattle.app_definition_records.specs.ByName.{Joins};
ghost use Rattle.app_definition_records.specs.Calendars.{FitsCalendar, IsCalendarOf, IsWeekdayText, IsStatusText};
ghost use Rattle.app_definition_records.specs.Calendars.{status_of};
ghost use Rattle.app_definition_records.specs.Records.{Records};
ghost use Rattle.app_definition_records.specs.FieldCounts.{HasCalendarFields};

use crate::by_name::Definition;
use crate::columns::{CALENDAR_ENTRY, CALENDAR_FIELDS, CALENDAR_STATUS};
use crate::fields::{day_of, field_at};
use csv::ByteRecord;
use std::alloc::{AllocError, Global};
use work_calendars::{Calendar, DayStatus, Weekday};

// The weekday that these three letters name.
fn weekday_of(bytes: &[u8]) -> Option<Weekday>
    ensures valid { IsSome result ↔ ((w : ℕ) × IsWeekdayText bytes.now w) }
    ensures value { IfSome result (λ w. IsWeekdayText bytes.now (monday_zero w)) }
{
    match bytes {
        b"MON" => Some(Weekday::Monday),
        b"TUE" => Some(Weekday::Tuesday),
        b"WED" => Some(Weekday::Wednesday),
        b"THU" => Some(Weekday::Thursday),
        b"FRI" => Some(Weekday::Friday),
        b"SAT" => Some(Weekday::Saturday),
        b"SUN" => Some(Weekday::Sunday),
        _ => None,
    }
}

// The status that these bytes name.
fn status_of(bytes: &[u8]) -> Option<DayStatus>
    ensures valid { IsSome result ↔ IsStatusText bytes.now }
    ensures value { IfSome result (λ s. s ≡ status_of bytes.now) }
{
    match bytes {
        b"WORK" => Some(DayStatus::Work),
        b"FREE" => Some(DayStatus::Free),
        _ => None,
    }
}

// Adds the entry of a record to the calendar, or answers that the record is faulty.
fn add_entry(calendar: &mut Calendar, row: &ByteRecord) -> Result<bool, AllocError>
    ensures { (before : Records) → IsCalendarOf calendar.old before
        → IfOk result (Joins FitsCalendar IsCalendarOf before (fields_of row.now) calendar.new) }
{
    let Some(status) = status_of(field_at(row, CALENDAR_STATUS)) else {
        return Ok(false);
    };
    let entry = field_at(row, CALENDAR_ENTRY);
    if let Some(weekday) = weekday_of(entry) {
        if calendar.weekday_status(weekday).is_some() {
            return Ok(false);
        }
        calendar.set_weekday(weekday, status);
        return Ok(true);
    }
    let Some(day) = day_of(entry) else {
        return Ok(false);
    };
    if calendar.date_status(day).is_some() {
        return Ok(false);
    }
    calendar.set_date(day, status)?;
    Ok(true)
}

impl Definition for Calendar {
    ghost HasFields = { HasCalendarFields };

    ghost FitsName = { FitsCalendar };

    ghost IsMadeOf = { IsCalendarOf };

    fn has_fields(count: usize) -> bool {
        count == CALENDAR_FIELDS
    }

    fn begin(alloc: Global, row: &ByteRecord) -> Result<Option<Calendar>, AllocError> {
        let mut calendar = Calendar::new(alloc);
        if add_entry(&mut calendar, row)? {
            Ok(Some(calendar))
        } else {
            Ok(None)
        }
    }

    fn copy(&self) -> Result<Calendar, AllocError> {
        self.clone()
    }

    fn join(&mut self, row: &ByteRecord) -> Result<bool, AllocError> {
        add_entry(self, row)
    }
}
