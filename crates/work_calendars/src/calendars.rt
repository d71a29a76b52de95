ghost use Rattle.std.specs.Prelude.{◌≡◌, ℕ, ◌+◌, ◌<◌, Bool, false, OnOk, OnErr, IfOk};
ghost use Rattle.std.specs.FinMap as map;
ghost use Rattle.std.specs.List.{All, slice_index_or};
ghost use Rattle.std.specs.Prelude.{None, length};
ghost use Rattle.work_calendars.specs.Calendar.{CalendarEntries, is_work_day, is_work_status, is_work_weekday};
ghost use Rattle.work_calendars.specs.Calendar.{weekday_status, no_entries, with_weekday, with_date, without_dates};
ghost use Rattle.work_calendars.specs.Day.{IsDay, first_day};
ghost use Rattle.work_calendars.specs.WorkIndex.{AreStatuses};
ghost use Rattle.jiff.specs.Words.{monday_zero};

use crate::days::DAYS;
use crate::{Day, DayStatus};
use jiff::civil::Weekday;
use std::alloc::{AllocError, Global};
use std::collections::BTreeMap;
use std::marker::Model;

// So many weeks, from the first day on, hold each day.
const WEEKS: usize = DAYS / 7 + 1;

/// Which days are work days: a listed date has its own status, else its weekday's, and a weekday that is not listed is
/// a work day. Contracts see the listed statuses.
#[derive(Clone, Debug, Drop)]
pub struct Calendar {
    weekdays: [Option<DayStatus>; 7],
    dates: BTreeMap<Day, DayStatus>,
}

impl Model for Calendar {
    ghost use Rattle.std.specs.Prelude.{◌≡◌, length};
    ghost use Rattle.std.specs.FinMap.{from_entries};
    ghost use Rattle.work_calendars.specs.Calendar.{CalendarEntries, entries_code};
    ghost use Rattle.work_calendars.specs.contracts.statuses.DayStatus as status;

    ghost Value = { CalendarEntries };

    ghost coded = { entries_code status.the_row.coded };

    ghost view = { λ c. record { weekdays = c.weekdays; dates = from_entries c.dates.entries } };

    ghost invariant = { λ c. length c.weekdays ≡ 7 };
}

impl Calendar {
    /// A calendar that lists nothing, in which every day is a work day.
    pub fn new(alloc: Global) -> Calendar
        ensures { result ≡ no_entries }
    {
        Calendar {
            weekdays: [None; 7],
            dates: BTreeMap::new(alloc),
        }
    }

    /// Lists that weekday, in place of what was listed for it.
    pub fn set_weekday(&mut self, weekday: Weekday, status: DayStatus)
        ensures { self.new ≡ with_weekday self.old (monday_zero weekday) status }
    {
        let place = weekday.to_monday_zero_offset() as usize;
        self.weekdays[place] = Some(status);
    }

    /// Lists that date, in place of what was listed for it. Where memory is refused, nothing changes.
    pub fn set_date(&mut self, day: Day, status: DayStatus) -> Result<(), AllocError>
        ensures ok { OnOk result (self.new ≡ with_date self.old day status) }
        ensures err { OnErr result (self.new ≡ self.old) }
    {
        self.dates.insert(day, status)?;
        Ok(())
    }

    /// What is listed for the weekday.
    pub fn weekday_status(&self, weekday: Weekday) -> Option<DayStatus>
        ensures { result ≡ slice_index_or self.now.weekdays (monday_zero weekday) None }
    {
        self.weekdays[weekday.to_monday_zero_offset() as usize]
    }

    /// What is listed for the date.
    pub fn date_status(&self, day: Day) -> Option<DayStatus>
        ensures { result ≡ map.get self.now.dates day }
    {
        self.dates.get(&day).copied()
    }

    /// The listed dates and their statuses, in rising order. All of them are days of the range, and a week has seven
    /// weekdays.
    pub fn dates(&self, alloc: Global) -> Result<Vec<(Day, DayStatus)>, AllocError>
        ensures all { IfOk result (λ dates. map.from_entries dates.items ≡ self.now.dates) }
        ensures in_range { IfOk result (λ dates. All (λ entry. IsDay entry.0) dates.items) }
        ensures week { length self.now.weekdays ≡ 7 }
    {
        let mut dates = Vec::new(alloc);
        for (day, status) in self.dates.iter() {
            let _number = day.number();
            dates.push((*day, *status))?;
        }
        Ok(dates)
    }

    /// Whether the day is a work day: by the date's status if it is listed, else by its weekday's, else it is.
    pub fn is_work(&self, day: Day) -> bool
        ensures { result ≡ is_work_day self.now day }
    {
        let of_weekday = self.weekdays[day.weekday() as usize].unwrap_or(DayStatus::Work);
        self.date_status(day).unwrap_or(of_weekday).is_work()
    }

    /// For each day of the range, whether it is a work day: by the status of its date if that is listed, else by that
    /// of its weekday.
    pub(crate) fn statuses(&self, alloc: Global) -> Result<Vec<bool>, AllocError>
        ensures { IfOk result (λ statuses. AreStatuses (is_work_day self.now) statuses.items) }
    {
        let mut statuses = self.weekday_statuses(alloc)?;
        for (day, status) in self.dates.iter() {
            statuses[day.place()] = status.is_work();
        }
        Ok(statuses)
    }

    // The same, as if no date were listed: week after week, up to the last day.
    fn weekday_statuses(&self, alloc: Global) -> Result<Vec<bool>, AllocError>
        ensures { IfOk result (λ statuses.
            AreStatuses (is_work_day (without_dates self.now)) statuses.items) }
    {
        let week = self.first_week();
        let mut statuses = Vec::with_capacity(alloc, WEEKS * 7)?;
        'weeks: for _week in 0..WEEKS {
            statuses.extend_from_slice(&week)?;
        }
        statuses.truncate(DAYS);
        Ok(statuses)
    }

    // Of each of the seven days from the first day on, whether its weekday is one of work days.
    fn first_week(&self) -> [bool; 7]
        ensures { (i : ℕ) → i < 7 → slice_index_or result i false
            ≡ is_work_weekday self.now (first_day + i) }
    {
        let mut week = self.week();
        week.rotate_left(Day::FIRST.weekday() as usize);
        week
    }

    // Of each weekday, whether it is one of work days.
    fn week(&self) -> [bool; 7]
        ensures { (w : ℕ) → w < 7 → slice_index_or result w false
            ≡ is_work_status (weekday_status self.now w) }
    {
        self.weekdays
            .map(|status| status.unwrap_or(DayStatus::Work).is_work())
    }
}
