ghost use Rattle.std.specs.Prelude.{◌≡◌};
ghost use Rattle.plan_periods.specs.Fault.{number_of_fault};

use thiserror::Error;

/// What is wrong with a period. The faults are numbered from 1, and a check returns the one of the least number.
#[derive(Clone, Copy, Debug, PartialEq, Eq, Hash, Error)]
pub enum PeriodFault {
    /// The interval has fewer days, or work days, than 1, or more than `MAX_INTERVAL`.
    #[error("the interval has fewer days than 1, or more than the limit")]
    IntervalOutOfRange,
    /// A listed interval ends before its origin.
    #[error("an interval ends before its origin")]
    EndBeforeOrigin,
    /// A listed origin is not later than the one before it.
    #[error("an origin isn't later than the one before it")]
    OriginsNotRising,
    /// The list has no origin.
    #[error("the period lists no origin")]
    NoOrigin,
}

impl PeriodFault {
    /// The fault's number, from 1 to 4.
    pub fn number(self) -> u8
        ensures { result ≡ number_of_fault self }
    {
        match self {
            PeriodFault::IntervalOutOfRange => 1,
            PeriodFault::EndBeforeOrigin => 2,
            PeriodFault::OriginsNotRising => 3,
            PeriodFault::NoOrigin => 4,
        }
    }
}
