//! `plan_periods`: periods, what is wrong with one, and the intervals of one.
ghost use Rattle.plan_periods.specs.Period.{IsSoundPeriod};

use plan_periods::{Interval, Intervals, Origins, Period, PeriodFault};
use work_calendars::Day;

pub fn all(origin: Day, interval: u16) -> Period {
    Period::All { origin, interval }
}

pub fn work(origin: Day, interval: u16) -> Period {
    Period::Work { origin, interval }
}

// Here a list of origins is a type of its own, which is made from a vector.
pub fn listed(origins: Vec<(Day, Option<Day>)>) -> Period {
    Period::Listed(Origins::new(origins))
}

pub fn fields(period: &Period) -> (Option<Day>, u16, &[(Day, Option<Day>)]) {
    match period {
        Period::All { origin, interval } => (Some(*origin), *interval, &[]),
        Period::Work { origin, interval } => (Some(*origin), *interval, &[]),
        Period::Listed(origins) => (None, 0, origins.as_slice()),
    }
}

pub fn check(period: &Period) -> Result<(), PeriodFault> {
    period.check()
}

/// The number of a fault.
pub fn number(fault: PeriodFault) -> u8 {
    match fault {
        PeriodFault::IntervalOutOfRange => 1,
        PeriodFault::EndBeforeOrigin => 2,
        PeriodFault::OriginsNotRising => 3,
        PeriodFault::NoOrigin => 4,
    }
}

pub fn intervals<'a>(period: &'a Period, from: Day, to: Day) -> Intervals<'a>
    requires { IsSoundPeriod period.now }
{
    Intervals::new(period, from, to)
}

pub fn next_interval(intervals: &mut Intervals<'_>) -> Option<Interval> {
    intervals.next()
}

pub fn visited(intervals: &Intervals<'_>) -> usize {
    intervals.visited()
}

// The numbers of the four faults.
#[test]
fn faults_of_periods_have_their_numbers(rt: HostRuntime) {
    for fault in [
        PeriodFault::IntervalOutOfRange,
        PeriodFault::EndBeforeOrigin,
        PeriodFault::OriginsNotRising,
        PeriodFault::NoOrigin,
    ] {
        assert_eq!(rt; fault.number(), number(fault));
    }
}
