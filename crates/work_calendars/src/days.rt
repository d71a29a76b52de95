ghost use Rattle.std.specs.Prelude.{◌≡◌, ℕ, ◌+◌, ◌<◌, ◌≤◌, ◌↔◌, IsSome, IfSome};
ghost use Rattle.std.specs.Prelude.{pos, ◌≤ℤ◌, List};
ghost use Rattle.jiff_core.specs.Calendar.{IsDate};
ghost use Rattle.jiff_core.specs.Date.{epoch_day, IsYmd};
ghost use Rattle.work_calendars.specs.Day.{IsDay, first_day, last_day, weekday_of_day};
ghost use Rattle.work_calendars.specs.Spelling.{SpellsDay};

use crate::digits::{digit, two_digits_value};
use jiff::civil::Date;
use std::marker::Model;

// The numbers of the first and the last day, of the last day that a statement plans, and of the last day that a plan
// may have: 1972-01-01, 2071-12-31, 2065-12-31 and 2068-12-31. The definitions cite them, and `specs/Limits.antt`
// states their values once more.
pub(crate) const FIRST_NUMBER: u16 = 730;

pub(crate) const LAST_NUMBER: u16 = 37254;

pub(crate) const LAST_PLANNING_NUMBER: u16 = 35063;

pub(crate) const LAST_KEPT_NUMBER: u16 = 36159;

/// How many days there are.
pub(crate) const DAYS: usize = LAST_NUMBER as usize + 1 - FIRST_NUMBER as usize;

/// A day from 1972-01-01 to 2071-12-31. Contracts see its number: the days since 1970-01-01.
#[derive(Clone, Copy, Debug, PartialEq, Eq, PartialOrd, Ord, Hash)]
pub struct Day {
    pub(crate) number: u16,
}

impl Model for Day {
    ghost Value = { ℕ };

    ghost view = { λ d. d.number };

    ghost invariant = { λ d. IsDay d.number };

    ghost inverse = { λ n. record { number = n } };
}

impl Day {
    /// 1972-01-01, the first day.
    pub const FIRST: Day = Day {
        number: FIRST_NUMBER,
    };

    /// 2071-12-31, the last day.
    pub const LAST: Day = Day {
        number: LAST_NUMBER,
    };

    /// 2065-12-31, the last day that a statement plans.
    pub const LAST_PLANNING: Day = Day {
        number: LAST_PLANNING_NUMBER,
    };

    /// 2068-12-31, the last day that a plan may have: one that was made earlier may reach so far.
    pub const LAST_KEPT: Day = Day {
        number: LAST_KEPT_NUMBER,
    };

    /// The day with this number, if it is in range.
    pub fn from_number(number: u32) -> Option<Day>
        ensures valid { IsSome result ↔ IsDay number }
        ensures value { IfSome result (λ d. d ≡ number) }
    {
        if number < FIRST_NUMBER as u32 || number > LAST_NUMBER as u32 {
            return None;
        }
        Some(Day {
            number: number as u16,
        })
    }

    /// The days since 1970-01-01.
    pub fn number(self) -> u32
        ensures value { result ≡ self }
        ensures in_range { IsDay result }
    {
        self.number as u32
    }

    /// The day after it, if that is in range.
    pub fn next(self) -> Option<Day>
        ensures valid { IsSome result ↔ (self < last_day) }
        ensures value { IfSome result (λ d. d ≡ self + 1) }
    {
        self.plus(1)
    }

    /// The day before it, if that is in range.
    pub fn previous(self) -> Option<Day>
        ensures valid { IsSome result ↔ (first_day < self) }
        ensures value { IfSome result (λ d. d + 1 ≡ self) }
    {
        self.minus(1)
    }

    /// The day that comes that many days after it, if that is in range.
    pub fn plus(self, days: u32) -> Option<Day>
        ensures valid { IsSome result ↔ (self + days ≤ last_day) }
        ensures value { IfSome result (λ d. d ≡ self + days) }
    {
        Day::from_number(self.number().checked_add(days)?)
    }

    /// The day that comes that many days before it, if that is in range.
    pub fn minus(self, days: u32) -> Option<Day>
        ensures valid { IsSome result ↔ (first_day + days ≤ self) }
        ensures value { IfSome result (λ d. d + days ≡ self) }
    {
        Day::from_number(self.number().checked_sub(days)?)
    }

    /// How many days it comes after the first day.
    pub(crate) fn place(self) -> usize
        ensures value { first_day + result ≡ self }
        ensures in_range { IsDay self }
    {
        (self.number - FIRST_NUMBER) as usize
    }

    /// The weekday, from 0 for Monday to 6 for Sunday.
    pub fn weekday(self) -> u8
        ensures value { result ≡ weekday_of_day self }
        ensures in_week { result < 7 }
        ensures in_range { IsDay self }
    {
        ((self.number() + 3) % 7) as u8
    }

    /// The day's date.
    pub fn to_date(self) -> Date
        ensures value { epoch_day result ≡ pos self }
        ensures in_range { IsDay self }
        ensures natural { pos 0 ≤ℤ result.year }
    {
        match jiff_core::civil::Date::from_unix_epoch_day(self.number as i64) {
            Ok(date) => Date::from_plain(date),
            Err(_) => unreachable!(),
        }
    }

    /// The day of the date, if it is in range.
    pub fn from_date(date: Date) -> Option<Day>
        ensures valid { IsSome result ↔ ((d : ℕ) × IsDay d × (epoch_day date ≡ pos d)) }
        ensures value { IfSome result (λ d. IsDay d × (epoch_day date ≡ pos d)) }
    {
        let number = date.to_plain().to_unix_epoch_day();
        if number >= FIRST_NUMBER as i32 && number <= LAST_NUMBER as i32 {
            Some(Day {
                number: number as u16,
            })
        } else {
            None
        }
    }

    /// Writes the date as `YYYY-MM-DD`, the only text that spells the day.
    pub fn write_text(self, text: &mut [u8; 10])
        ensures spelled { SpellsDay text.new self }
        ensures only { (s : List ℕ) → SpellsDay s self → s ≡ text.new }
    {
        let date = self.to_date().to_plain();
        let year = natural(date.year);
        let month = date.month as u32;
        let day = date.day as u32;
        *text = [
            digit(year / 1000),
            digit(year / 100 % 10),
            digit(year / 10 % 10),
            digit(year % 10),
            b'-',
            digit(month / 10),
            digit(month % 10),
            b'-',
            digit(day / 10),
            digit(day % 10),
        ];
    }

    /// The day whose date the text spells as `YYYY-MM-DD`.
    pub fn from_text(text: &str) -> Option<Day>
        ensures valid { IsSome result ↔ ((d : ℕ) × SpellsDay text.now d) }
        ensures value { IfSome result (SpellsDay text.now) }
        ensures only { IfSome result (λ day. (d : ℕ) → SpellsDay text.now d → d ≡ day) }
    {
        Day::from_bytes(text.as_bytes())
    }

    /// The same, of the text's bytes.
    pub(crate) fn from_bytes(text: &[u8]) -> Option<Day>
        ensures valid { IsSome result ↔ ((d : ℕ) × SpellsDay text.now d) }
        ensures value { IfSome result (SpellsDay text.now) }
        ensures only { IfSome result (λ day. (d : ℕ) → SpellsDay text.now d → d ≡ day) }
    {
        if text.len() != 10 {
            return None;
        }
        let year = two_digits_value(text, 0) * 100 + two_digits_value(text, 2);
        let month = two_digits_value(text, 5);
        let day = two_digits_value(text, 8);
        let date = civil_date(year, month, day)?;
        let day = Day::from_date(date)?;
        let mut spelled = [0; 10];
        day.write_text(&mut spelled);
        if text == &spelled[..] {
            Some(day)
        } else {
            None
        }
    }
}

fn natural(number: i16) -> u32
    requires { pos 0 ≤ℤ number }
    ensures { number ≡ pos result }
{
    number as u32
}

fn civil_date(year: u32, month: u32, day: u32) -> Option<Date>
    requires year { year < 10000 }
    requires month { month < 100 }
    requires day { day < 100 }
    ensures valid { IsSome result ↔ IsDate (pos year) (pos month) (pos day) }
    ensures value { IfSome result (IsYmd (pos year) (pos month) (pos day)) }
{
    Date::new(year as i16, month as i8, day as i8).ok()
}
