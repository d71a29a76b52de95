ghost use Rattle.std.specs.Prelude.{◌≡◌, IsOk, IfErr, OnOk, IsTrue, ◌↔◌};
ghost use Rattle.std.specs.List.{Any};
ghost use Rattle.plan_periods.specs.Period.{IsSoundPeriod, IsIntervalLength, IsSoundList};
ghost use Rattle.plan_periods.specs.Period.{EndsBeforeOrigin, HasRisingOrigins};
ghost use Rattle.plan_periods.specs.Fault.{HasNoFault, IsLeastFault, IsLeastListFault};
ghost use Rattle.plan_periods.specs.declared.faults.PeriodFault.TheVariants.{IntervalOutOfRange};

use crate::{Origins, PeriodFault};
use std::alloc::AllocError;
use work_calendars::Day;

/// The greatest number of days, or work days, of an interval.
pub const MAX_INTERVAL: u16 = 1999;

/// Divides the days into intervals.
#[derive(Debug, Drop)]
pub enum Period {
    /// Intervals of `interval` days one after another, the first from `origin` on.
    All { origin: Day, interval: u16 },
    /// Intervals of `interval` work days each, the first from the first work day at or after `origin` on.
    Work { origin: Day, interval: u16 },
    /// One interval for each origin.
    Listed(Origins),
}

impl Period {
    /// Whether the period is sound: an interval in 1 to `MAX_INTERVAL`, or at least one origin, each later than the
    /// one before it, with no end before its origin. Where several faults hold, the answer is the one of least number.
    pub fn check(&self) -> Result<(), PeriodFault>
        ensures sound { IsOk result ↔ IsSoundPeriod self.now }
        ensures no_fault { IsOk result ↔ HasNoFault self.now }
        ensures least_fault { IfErr result (IsLeastFault self.now) }
    {
        match self {
            Period::All { interval, .. } => check_interval(*interval),
            Period::Work { interval, .. } => check_interval(*interval),
            Period::Listed(origins) => check_origins(origins.as_slice()),
        }
    }
}

impl Clone for Period {
    ghost is_clone = { λ old new. new ≡ old };

    fn clone(&self) -> Result<Period, AllocError> {
        Ok(match self {
            Period::All { origin, interval } => Period::All {
                origin: *origin,
                interval: *interval,
            },
            Period::Work { origin, interval } => Period::Work {
                origin: *origin,
                interval: *interval,
            },
            Period::Listed(origins) => Period::Listed(origins.clone()?),
        })
    }
}

fn check_interval(interval: u16) -> Result<(), PeriodFault>
    ensures ok { IsOk result ↔ IsIntervalLength interval }
    ensures err { IfErr result (λ f. f ≡ IntervalOutOfRange) }
{
    if interval < 1 || interval > MAX_INTERVAL {
        return Err(PeriodFault::IntervalOutOfRange);
    }
    Ok(())
}

fn check_origins(entries: &[(Day, Option<Day>)]) -> Result<(), PeriodFault>
    ensures ok { OnOk result (IsSoundList entries.now) }
    ensures err { IfErr result (IsLeastListFault entries.now) }
{
    if any_end_before_origin(entries) {
        return Err(PeriodFault::EndBeforeOrigin);
    }
    if !has_rising_origins(entries) {
        return Err(PeriodFault::OriginsNotRising);
    }
    if entries.is_empty() {
        return Err(PeriodFault::NoOrigin);
    }
    Ok(())
}

fn any_end_before_origin(entries: &[(Day, Option<Day>)]) -> bool
    ensures { IsTrue result ↔ Any EndsBeforeOrigin entries.now }
{
    entries.iter().any(ends_before_origin)
}

fn ends_before_origin(entry: &(Day, Option<Day>)) -> bool
    ensures { IsTrue result ↔ EndsBeforeOrigin entry.now }
{
    match entry {
        (origin, Some(end)) => end.number() < origin.number(),
        (_, None) => false,
    }
}

fn has_rising_origins(entries: &[(Day, Option<Day>)]) -> bool
    ensures { IsTrue result ↔ HasRisingOrigins entries.now }
{
    for i in 1..entries.len() {
        if entries[i].0.number() <= entries[i - 1].0.number() {
            return false;
        }
    }
    true
}
