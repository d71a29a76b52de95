ghost use Rattle.std.specs.Prelude.{◌≡◌, ℕ, ◌↔◌, ◌+◌, ◌<◌, IsNone, IsSome, IfSome};
ghost use Rattle.work_calendars.specs.CountedIndex.{nothing_asked, one_asked};
ghost use Rattle.work_calendars.specs.Day.{last_day};
ghost use Rattle.work_calendars.specs.WorkDay.{work_days_before, IsNthWorkDay, IsNextWorkDay, IsPreviousWorkDay};
ghost use Rattle.work_calendars.specs.WorkDay.{HasNoWorkDayAfter, HasNoWorkDayBefore};
ghost use Rattle.work_calendars.specs.WorkIndex.{is_work_in};

use crate::{Day, WorkIndex};
use std::marker::Model;

/// An index of work days that counts the questions put to it, and answers each as the index does. It can't be copied,
/// and gives no other access to the index. It allocates no memory.
#[derive(Debug, Drop)]
pub struct CountedIndex<'a> {
    index: &'a WorkIndex,
    asked: u64,
}

impl<'a> Model for CountedIndex<'a> {
    ghost use Rattle.work_calendars.specs.CountedIndex.{CountedStatuses};

    ghost Value = { CountedStatuses };

    ghost view = { λ c. record { statuses = c.index.now; asked = c.asked } };
}

impl<'a> CountedIndex<'a> {
    /// The index, with no question asked.
    pub fn new(index: &'a WorkIndex) -> CountedIndex<'a>
        ensures { result ≡ nothing_asked index.now }
    {
        CountedIndex { index, asked: 0 }
    }

    /// How many questions were asked, at most `u64::MAX`.
    pub fn asked(&self) -> u64
        ensures { result ≡ self.now.asked }
    {
        self.asked
    }

    // Counts a question, and returns the index that answers it.
    fn ask(&mut self) -> &'a WorkIndex
        ensures index { result.now ≡ self.old.statuses }
        ensures counted { self.new ≡ one_asked self.old }
    {
        self.asked = self.asked.saturating_add(1);
        self.index
    }

    /// Whether the day is a work day.
    pub fn is_work(&mut self, day: Day) -> bool
        ensures value { result ≡ is_work_in self.old.statuses day }
        ensures counted { self.new ≡ one_asked self.old }
    {
        self.ask().is_work(day)
    }

    /// How many work days come before the day.
    pub fn rank(&mut self, day: Day) -> usize
        ensures value { result ≡ work_days_before (is_work_in self.old.statuses) day }
        ensures counted { self.new ≡ one_asked self.old }
    {
        self.ask().rank(day)
    }

    /// The work day before which there are that many work days.
    pub fn nth(&mut self, place: usize) -> Option<Day>
        ensures none { IsNone result
            ↔ ((d : ℕ) → ¬ (IsNthWorkDay (is_work_in self.old.statuses) place d)) }
        ensures value { IfSome result (IsNthWorkDay (is_work_in self.old.statuses) place) }
        ensures found { IsSome result
            ↔ (place < work_days_before (is_work_in self.old.statuses) (last_day + 1)) }
        ensures counted { self.new ≡ one_asked self.old }
    {
        self.ask().nth(place)
    }

    /// The first work day after the day.
    pub fn next_work(&mut self, day: Day) -> Option<Day>
        ensures none { IsNone result ↔ HasNoWorkDayAfter (is_work_in self.old.statuses) day }
        ensures value { IfSome result (IsNextWorkDay (is_work_in self.old.statuses) day) }
        ensures counted { self.new ≡ one_asked self.old }
    {
        self.ask().next_work(day)
    }

    /// The last work day before the day.
    pub fn prev_work(&mut self, day: Day) -> Option<Day>
        ensures none { IsNone result ↔ HasNoWorkDayBefore (is_work_in self.old.statuses) day }
        ensures value { IfSome result (IsPreviousWorkDay (is_work_in self.old.statuses) day) }
        ensures counted { self.new ≡ one_asked self.old }
    {
        self.ask().prev_work(day)
    }
}
