ghost use Rattle.std.specs.Prelude.{◌≡◌, ℕ, ◌↔◌, ◌+◌, ◌<◌, ◌≤◌, Bool, IsNone, IsSome, IfSome, IfOk, List, [], ◌∷◌};
ghost use Rattle.std.specs.Prelude.{◌++◌, cond};
ghost use Rattle.work_calendars.specs.Calendar.{is_work_day};
ghost use Rattle.work_calendars.specs.Day.{first_day, last_day};
ghost use Rattle.work_calendars.specs.WorkDay.{work_days_before, IsNthWorkDay, IsNextWorkDay, IsPreviousWorkDay};
ghost use Rattle.work_calendars.specs.WorkDay.{HasNoWorkDayAfter, HasNoWorkDayBefore};
ghost use Rattle.work_calendars.specs.WorkIndex.{is_work_in};

use crate::days::{DAYS, FIRST_NUMBER, LAST_NUMBER};
use crate::{Calendar, Day};
use std::alloc::{AllocError, Global};
use std::marker::Model;

/// The work days of a calendar over the whole range, counted once, so that each question takes a fixed time. Contracts
/// see the statuses of the days.
#[derive(Debug, Drop)]
pub struct WorkIndex {
    // of each day from the first on, whether it is a work day
    statuses: Vec<bool>,
    // of each day from the first to the one after the last, how many work days come before it
    ranks: Vec<u16>,
    // the work days, in order
    days: Vec<Day>,
}

impl Model for WorkIndex {
    ghost use Rattle.std.specs.Prelude.{Bool, List};
    ghost use Rattle.work_calendars.specs.WorkIndex.{IsIndex};

    ghost Value = { List Bool };

    ghost view = { λ x. x.statuses.items };

    ghost invariant = { λ x. IsIndex x.statuses.items x.ranks.items x.days.items };
}

impl WorkIndex {
    /// The index of the calendar's work days.
    pub fn build(alloc: Global, calendar: &Calendar) -> Result<WorkIndex, AllocError>
        ensures { IfOk result (λ index. (d : ℕ) → is_work_in index d ≡ is_work_day calendar.now d) }
    {
        let statuses = calendar.statuses(alloc)?;
        let mut ranks = Vec::with_capacity(alloc, DAYS + 1)?;
        let mut days = Vec::with_capacity(alloc, DAYS)?;
        for number in FIRST_NUMBER..LAST_NUMBER + 1 {
            let day = Day { number };
            ranks.push(days.len() as u16)?;
            push_work_day(&mut days, day, statuses[day.place()])?;
        }
        ranks.push(days.len() as u16)?;
        Ok(WorkIndex {
            statuses,
            ranks,
            days,
        })
    }

    /// Whether the day is a work day.
    pub fn is_work(&self, day: Day) -> bool
        ensures { result ≡ is_work_in self.now day }
    {
        self.statuses[day.place()]
    }

    /// How many work days come before the day.
    pub fn rank(&self, day: Day) -> usize
        ensures { result ≡ work_days_before (is_work_in self.now) day }
    {
        self.count_before(day.place())
    }

    // How many work days come before the day that lies that many days after the first.
    fn count_before(&self, days: usize) -> usize
        requires { first_day + days ≤ last_day + 1 }
        ensures { result ≡ work_days_before (is_work_in self.now) (first_day + days) }
    {
        self.ranks[days] as usize
    }

    /// The work day before which there are that many work days.
    pub fn nth(&self, place: usize) -> Option<Day>
        ensures none { IsNone result ↔ ((d : ℕ) → ¬ (IsNthWorkDay (is_work_in self.now) place d)) }
        ensures value { IfSome result (IsNthWorkDay (is_work_in self.now) place) }
        ensures found { IsSome result
            ↔ (place < work_days_before (is_work_in self.now) (last_day + 1)) }
    {
        self.days.get(place).copied()
    }

    /// The first work day after the day.
    pub fn next_work(&self, day: Day) -> Option<Day>
        ensures none { IsNone result ↔ HasNoWorkDayAfter (is_work_in self.now) day }
        ensures value { IfSome result (IsNextWorkDay (is_work_in self.now) day) }
    {
        self.nth(self.count_before(day.place() + 1))
    }

    /// The last work day before the day.
    pub fn prev_work(&self, day: Day) -> Option<Day>
        ensures none { IsNone result ↔ HasNoWorkDayBefore (is_work_in self.now) day }
        ensures value { IfSome result (IsPreviousWorkDay (is_work_in self.now) day) }
    {
        let days = day.place();
        let count = self.count_before(days);
        if count == 0 {
            return None;
        }
        self.nth(count - 1)
    }
}

// Appends the day if it is a work day.
fn push_work_day(days: &mut Vec<Day>, day: Day, is_work: bool) -> Result<(), AllocError>
    ensures { IfOk result (λ _. days.new.items ≡ days.old.items ++ cond is_work (day ∷ []) []) }
{
    if is_work {
        days.push(day)?;
    }
    Ok(())
}
