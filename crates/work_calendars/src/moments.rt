ghost use Rattle.std.specs.Prelude.{◌≡◌, ℕ, ◌↔◌, IsSome, IfSome};
ghost use Rattle.std.specs.Prelude.{List};
ghost use Rattle.work_calendars.specs.Day.{IsDay};
ghost use Rattle.work_calendars.specs.Minute.{IsMinute};
ghost use Rattle.work_calendars.specs.Moment.{IsMoment, moment_of, day_of_moment, minute_of_moment};
ghost use Rattle.work_calendars.specs.Spelling.{SpellsMoment};

use crate::minutes::MINUTES_PER_DAY;
use crate::{Day, Minute};
use std::marker::Model;

/// A minute of a day. Contracts see its number: the minutes since 1970-01-01 00.00.
#[derive(Clone, Copy, Debug, PartialEq, Eq, PartialOrd, Ord, Hash)]
pub struct Moment {
    number: u32,
}

impl Model for Moment {
    ghost Value = { ℕ };

    ghost view = { λ m. m.number };

    ghost invariant = { λ m. IsMoment m.number };

    ghost inverse = { λ n. record { number = n } };
}

impl Moment {
    /// That minute of that day.
    pub fn new(day: Day, minute: Minute) -> Moment
        ensures value { result ≡ moment_of day minute }
        ensures in_range { IsMoment result }
        ensures day { day_of_moment result ≡ day }
        ensures minute { minute_of_moment result ≡ minute }
    {
        Moment {
            number: day.number() * MINUTES_PER_DAY + minute.number(),
        }
    }

    /// The moment with this number, if its day is in range.
    pub fn from_number(number: u32) -> Option<Moment>
        ensures valid { IsSome result ↔ IsMoment number }
        ensures value { IfSome result (λ m. m ≡ number) }
    {
        let _day = Day::from_number(number / MINUTES_PER_DAY)?;
        Some(Moment { number })
    }

    /// The minutes since 1970-01-01 00.00.
    pub fn number(self) -> u32
        ensures value { result ≡ self }
        ensures in_range { IsMoment result }
    {
        self.number
    }

    /// The moment's day.
    pub fn day(self) -> Day
        ensures value { result ≡ day_of_moment self }
        ensures in_range { IsDay result }
    {
        Day {
            number: (self.number / MINUTES_PER_DAY) as u16,
        }
    }

    /// The moment's minute of its day.
    pub fn minute(self) -> Minute
        ensures value { result ≡ minute_of_moment self }
        ensures in_range { IsMinute result }
    {
        Minute {
            number: (self.number % MINUTES_PER_DAY) as u16,
        }
    }

    /// Writes the moment as `YYYY-MM-DD/HH.MM`, the only text that spells it.
    pub fn write_text(self, text: &mut [u8; 16])
        ensures spelled { SpellsMoment text.new self }
        ensures only { (s : List ℕ) → SpellsMoment s self → s ≡ text.new }
    {
        let mut day = [0; 10];
        self.day().write_text(&mut day);
        let mut minute = [0; 5];
        self.minute().write_text(&mut minute);
        text[..10].copy_from_slice(&day);
        text[10] = b'/';
        text[11..].copy_from_slice(&minute);
    }

    /// The moment that the text spells as `YYYY-MM-DD/HH.MM`.
    pub fn from_text(text: &str) -> Option<Moment>
        ensures valid { IsSome result ↔ ((m : ℕ) × SpellsMoment text.now m) }
        ensures value { IfSome result (SpellsMoment text.now) }
        ensures only { IfSome result (λ moment. (m : ℕ) → SpellsMoment text.now m → m ≡ moment) }
    {
        let text = text.as_bytes();
        if text.len() != 16 || text[10] != b'/' {
            return None;
        }
        let day = Day::from_bytes(&text[..10])?;
        let minute = Minute::from_bytes(&text[11..])?;
        Some(Moment::new(day, minute))
    }
}
