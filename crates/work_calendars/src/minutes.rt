ghost use Rattle.std.specs.Prelude.{◌≡◌, ℕ, ◌↔◌, IsSome, IfSome};
ghost use Rattle.std.specs.Prelude.{List};
ghost use Rattle.work_calendars.specs.Minute.{IsMinute};
ghost use Rattle.work_calendars.specs.Spelling.{SpellsMinute};

use crate::digits::{digit, two_digits_value};
use std::marker::Model;

// The definitions cite it, and `specs/Limits.antt` states its value once more.
pub(crate) const MINUTES_PER_DAY: u32 = 1440;

/// A minute of the day, from 00.00 to 23.59. Contracts see its number, the minutes since 00.00.
#[derive(Clone, Copy, Debug, PartialEq, Eq, PartialOrd, Ord, Hash)]
pub struct Minute {
    pub(crate) number: u16,
}

impl Model for Minute {
    ghost Value = { ℕ };

    ghost view = { λ m. m.number };

    ghost invariant = { λ m. IsMinute m.number };

    ghost inverse = { λ n. record { number = n } };
}

impl Minute {
    /// 00.00, the first minute of a day.
    pub const FIRST: Minute = Minute { number: 0 };

    /// 23.59, the last minute of a day.
    pub const LAST: Minute = Minute {
        number: MINUTES_PER_DAY as u16 - 1,
    };

    /// The minute with this number, if there is one.
    pub fn from_number(number: u32) -> Option<Minute>
        ensures valid { IsSome result ↔ IsMinute number }
        ensures value { IfSome result (λ m. m ≡ number) }
    {
        if number < MINUTES_PER_DAY {
            Some(Minute {
                number: number as u16,
            })
        } else {
            None
        }
    }

    /// The minutes since 00.00.
    pub fn number(self) -> u32
        ensures value { result ≡ self }
        ensures in_range { IsMinute result }
    {
        self.number as u32
    }

    /// Writes the minute as `HH.MM`, the only text that spells it.
    pub fn write_text(self, text: &mut [u8; 5])
        ensures spelled { SpellsMinute text.new self }
        ensures only { (s : List ℕ) → SpellsMinute s self → s ≡ text.new }
    {
        let hour = self.number() / 60;
        let minute = self.number() % 60;
        *text = [
            digit(hour / 10),
            digit(hour % 10),
            b'.',
            digit(minute / 10),
            digit(minute % 10),
        ];
    }

    /// The minute that the text spells as `HH.MM`.
    pub fn from_text(text: &str) -> Option<Minute>
        ensures valid { IsSome result ↔ ((m : ℕ) × SpellsMinute text.now m) }
        ensures value { IfSome result (SpellsMinute text.now) }
        ensures only { IfSome result (λ minute. (m : ℕ) → SpellsMinute text.now m → m ≡ minute) }
    {
        Minute::from_bytes(text.as_bytes())
    }

    /// The same, of the text's bytes.
    pub(crate) fn from_bytes(text: &[u8]) -> Option<Minute>
        ensures valid { IsSome result ↔ ((m : ℕ) × SpellsMinute text.now m) }
        ensures value { IfSome result (SpellsMinute text.now) }
        ensures only { IfSome result (λ minute. (m : ℕ) → SpellsMinute text.now m → m ≡ minute) }
    {
        if text.len() != 5 {
            return None;
        }
        let number = two_digits_value(text, 0) * 60 + two_digits_value(text, 3);
        let minute = Minute::from_number(number)?;
        let mut spelled = [0; 5];
        minute.write_text(&mut spelled);
        if text == &spelled[..] {
            Some(minute)
        } else {
            None
        }
    }
}
