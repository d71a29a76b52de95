ghost use Rattle.std.specs.Prelude.{◌≡◌, ℕ, ◌≤◌, ◌↔◌, IsSome, IfSome};
ghost use Rattle.occurrences.specs.Serial.{IsSerial};

use std::marker::Model;

/// The greatest number that an occurrence can have.
pub const GREATEST_SERIAL: u32 = 999_999_999;

/// The number of an occurrence, 1 to [`GREATEST_SERIAL`]. Each number is given once.
#[derive(Clone, Copy, Debug, PartialEq, Eq, PartialOrd, Ord, Hash)]
pub struct Serial {
    number: u32,
}

impl Model for Serial {
    ghost Value = { ℕ };

    ghost view = { λ s. s.number };

    ghost invariant = { λ s. IsSerial s.number };

    ghost inverse = { λ n. record { number = n } };
}

impl Serial {
    /// The serial of this number; `None` where it is 0 or above [`GREATEST_SERIAL`].
    pub fn new(number: u32) -> Option<Self>
        ensures valid { IsSome result ↔ IsSerial number }
        ensures value { IfSome result (λ s. s ≡ number) }
    {
        if number >= 1 && number <= GREATEST_SERIAL {
            Some(Serial { number })
        } else {
            None
        }
    }

    /// Its number.
    pub fn get(self) -> u32
        ensures number { result ≡ self }
        ensures range { IsSerial result }
    {
        self.number
    }
}
