// The index of work days of one calendar, with what that calendar lists.

ghost use Rattle.std.specs.Prelude.{◌≡◌, ℕ, IfOk, IfSome, IsTrue, length};
ghost use Rattle.std.specs.FinMap as map;
ghost use Rattle.work_calendars.specs.Calendar.{is_work_day};
ghost use Rattle.work_calendars.specs.WorkIndex.{is_work_in};
ghost use Rattle.app_occurrences.specs.CalendarIndex.{IsIndexOf};
ghost use Rattle.app_occurrences.specs.NamedOccurrences.{work_in};

use app_definitions::Definitions;
use std::alloc::{AllocError, Global};
use std::marker::Model;
use work_calendars::{Calendar, Day, DayStatus, Name, Weekday, WorkIndex};

/// The index of the work days of one calendar, with what that calendar lists: it is valid as long as the calendar
/// lists the same. Contracts see the statuses of the days.
#[derive(Drop)]
pub struct CalendarIndex {
    // what is listed for each weekday from Monday on
    weekdays: [Option<DayStatus>; 7],
    // the listed dates
    dates: Vec<(Day, DayStatus)>,
    index: WorkIndex,
}

impl Model for CalendarIndex {
    ghost use Rattle.std.specs.Prelude.{Bool, List};
    ghost use Rattle.app_occurrences.specs.CalendarIndex.{IsIndexOf};

    ghost Value = { List Bool };

    ghost view = { λ c. c.index };

    ghost invariant = { λ c. IsIndexOf c.weekdays c.dates.items c.index };
}

impl CalendarIndex {
    /// The index itself.
    pub fn index(&self) -> &WorkIndex
        ensures { result.now ≡ self.now }
    {
        &self.index
    }

    // Whether its calendar listed these weekdays and dates.
    fn is_of(&self, weekdays: &[Option<DayStatus>; 7], dates: &[(Day, DayStatus)]) -> bool
        ensures { IsTrue result → IsIndexOf weekdays.now dates.now self.now }
    {
        self.weekdays == *weekdays && self.dates.as_slice() == dates
    }
}

/// How many indexes are kept at most.
pub const MOST_KEPT_INDEXES: usize = 8;

/// A cache of at most [`MOST_KEPT_INDEXES`] indexes that were used lately. An index is out of the cache while it is in
/// use. Contracts see the cached indexes, the oldest one first.
#[derive(Drop)]
pub struct CalendarIndexes {
    kept: Vec<CalendarIndex>,
}

impl Model for CalendarIndexes {
    ghost use Rattle.std.specs.Prelude.{Bool, List, length, ◌≤◌};

    ghost Value = { List (List Bool) };

    ghost view = { λ c. c.kept.items };

    ghost invariant = { λ c. length c.kept.items ≤ 8 };
}

impl CalendarIndexes {
    /// An empty cache.
    pub fn new(alloc: Global) -> CalendarIndexes {
        CalendarIndexes {
            kept: Vec::new(alloc),
        }
    }

    /// The index of the calendar of that name: a cached one if the calendar still lists the same, else a new one.
    pub fn of(
        &mut self,
        alloc: Global,
        all: &Definitions,
        name: &Name,
    ) -> Result<CalendarIndex, AllocError>
        ensures { IfOk result (λ index. (d : ℕ) → is_work_in index d ≡ work_in all.now name.now d) }
    {
        match all.calendars.get(name) {
            Some(calendar) => self.of_calendar(alloc, calendar),
            None => self.of_calendar(alloc, &Calendar::new(alloc)),
        }
    }

    /// Puts the index into the cache. If that has too many then, the oldest one is dropped.
    pub fn keep(&mut self, index: CalendarIndex) -> Result<(), AllocError> {
        if self.kept.len() >= MOST_KEPT_INDEXES {
            drop(self.kept.remove(0));
        }
        self.kept.push(index)?;
        Ok(())
    }

    // The cached index of a calendar that lists the same, or a new one.
    fn of_calendar(
        &mut self,
        alloc: Global,
        calendar: &Calendar,
    ) -> Result<CalendarIndex, AllocError>
        ensures { IfOk result (λ index. (d : ℕ) → is_work_in index d ≡ is_work_day calendar.now d) }
    {
        let weekdays = weekdays_of(calendar);
        let dates = calendar.dates(alloc)?;
        if let Some(kept) = self.take(&weekdays, &dates) {
            return Ok(kept);
        }
        let index = WorkIndex::build(alloc, calendar)?;
        Ok(CalendarIndex {
            weekdays,
            dates,
            index,
        })
    }

    // Takes the index of the calendar with these weekdays and dates out of the cache, if it is there.
    fn take(
        &mut self,
        weekdays: &[Option<DayStatus>; 7],
        dates: &[(Day, DayStatus)],
    ) -> Option<CalendarIndex>
        ensures { IfSome result (λ index. IsIndexOf weekdays.now dates.now index) }
    {
        for at in 0..self.kept.len() {
            if self.kept[at].is_of(weekdays, dates) {
                return Some(self.kept.remove(at));
            }
        }
        None
    }
}

// What is listed for each weekday, from Monday on.
fn weekdays_of(calendar: &Calendar) -> [Option<DayStatus>; 7]
    ensures { length calendar.now.weekdays ≡ 7 → result ≡ calendar.now.weekdays }
{
    [
        calendar.weekday_status(Weekday::Monday),
        calendar.weekday_status(Weekday::Tuesday),
        calendar.weekday_status(Weekday::Wednesday),
        calendar.weekday_status(Weekday::Thursday),
        calendar.weekday_status(Weekday::Friday),
        calendar.weekday_status(Weekday::Saturday),
        calendar.weekday_status(Weekday::Sunday),
    ]
}
