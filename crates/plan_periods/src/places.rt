ghost use Rattle.std.specs.Prelude.{◌≡◌, ◌+◌, ◌-◌, ◌*◌, ◌≤◌, ◌<◌, length, drop, Some, ◌∷◌};
ghost use Rattle.work_calendars.specs.Day.{last_day};
ghost use Rattle.plan_periods.specs.Period.{IsIntervalLength, HasRisingOrigins};
ghost use Rattle.plan_periods.specs.Places.{StepsMeet, FindsNext, listed};

use crate::Interval;
use work_calendars::Day;

/// The places of the intervals of `interval` days that meet the range: from the first one to before the second one.
/// Only intervals that end by the last day of all are there.
pub fn steps_meeting(origin: Day, interval: u16, from: Day, to: Day) -> (usize, usize)
    requires { IsIntervalLength interval }
    ensures { StepsMeet origin interval from to result.0 result.1 }
{
    let days = u32::from(interval);
    let (origin, from, to) = (origin.number(), from.number(), to.number());
    let latest = to.min(Day::LAST.number() + 1 - days);
    if to < from || latest < origin {
        return (0, 0);
    }
    // a range that begins before the origin meets the intervals from the first on
    let start = from.saturating_sub(origin) / days;
    let end = (latest - origin) / days + 1;
    (start as usize, end as usize)
}

/// The interval of `interval` days at a place, counted from 0.
pub fn step_interval(origin: Day, interval: u16, place: usize) -> Interval
    requires length { IsIntervalLength interval }
    requires exists { origin + place * interval + interval - 1 ≤ last_day }
    ensures first { result.first ≡ origin + place * interval }
    ensures last { result.last ≡ Some (origin + place * interval + interval - 1) }
{
    let days = u32::from(interval);
    let first = origin.number() + place as u32 * days;
    Interval {
        first: Day::from_number(first).unwrap(),
        last: Day::from_number(first + days - 1),
    }
}

/// The first interval from place `next` on that meets the range, and the place after it.
pub fn find_listed(
    entries: &[(Day, Option<Day>)],
    next: usize,
    from: Day,
    to: Day,
) -> (Option<Interval>, usize)
    requires rising { HasRisingOrigins entries.now }
    requires within { next ≤ length entries.now }
    ensures found { FindsNext entries.now from to next result.0 result.1 }
    ensures within { result.1 ≤ length entries.now }
{
    for place in next..entries.len() {
        let interval = listed_interval(entries, place);
        if interval.meets(from, to) {
            return (Some(interval), place + 1);
        }
    }
    (None, entries.len())
}

fn listed_interval(entries: &[(Day, Option<Day>)], place: usize) -> Interval
    requires rising { HasRisingOrigins entries.now }
    requires within { place < length entries.now }
    ensures { listed (drop place entries.now) ≡ result ∷ listed (drop (place + 1) entries.now) }
{
    let (first, end) = entries[place];
    if end.is_some() || place + 1 == entries.len() {
        return Interval { first, last: end };
    }
    let (next, _) = entries[place + 1];
    prove!(first.number() < next.number());
    Interval {
        first,
        last: Day::from_number(next.number() - 1),
    }
}
