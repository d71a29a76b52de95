ghost use Rattle.std.specs.Prelude.{◌≡◌, ℕ, ◌↔◌, IsSome, IfSome};
ghost use Rattle.work_calendars.specs.Within.{IsWithinHours};

use std::marker::Model;

/// The most hours of a limit on predecessors.
pub const MAX_WITHIN: u16 = 9999;

/// How many hours at most a predecessor may arrive before its successor, from 1 to `MAX_WITHIN`. Contracts see the
/// hours.
#[derive(Clone, Copy, Debug, PartialEq, Eq, PartialOrd, Ord, Hash)]
pub struct Within {
    pub(crate) hours: u16,
}

impl Model for Within {
    ghost Value = { ℕ };

    ghost view = { λ w. w.hours };

    ghost invariant = { λ w. IsWithinHours w.hours };

    ghost inverse = { λ n. record { hours = n } };
}

impl Within {
    /// The limit of that many hours, if it is one.
    pub fn from_hours(hours: u32) -> Option<Within>
        ensures valid { IsSome result ↔ IsWithinHours hours }
        ensures value { IfSome result (λ w. w ≡ hours) }
    {
        if hours < 1 || hours > MAX_WITHIN as u32 {
            return None;
        }
        Some(Within {
            hours: hours as u16,
        })
    }

    /// Its hours.
    pub fn hours(self) -> u32
        ensures value { result ≡ self }
        ensures in_range { IsWithinHours result }
    {
        self.hours as u32
    }
}
