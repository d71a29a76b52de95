// Names and days, which have their forms and ranges by their types.

ghost use Rattle.std.specs.Prelude.{◌↔◌, IsTrue, IfSome};
ghost use Rattle.std.specs.List.{All};
ghost use Rattle.work_calendars.specs.Day.{IsDay};
ghost use Rattle.work_calendars.specs.Minute.{IsMinute};
ghost use Rattle.work_calendars.specs.Name.{IsName, IsShort};
ghost use Rattle.work_calendars.specs.Within.{IsWithinHours};

use app_definitions::Predecessor;
use work_calendars::{Day, LONGEST_SHORT_NAME, Minute, Name, Short, Within};

pub(crate) fn is_name(name: &Name) -> bool
    ensures { IsTrue result ↔ IsName name.now }
{
    !name.as_bytes().is_empty()
}

// Whether all are named.
pub(crate) fn all_named(listed: &[Predecessor]) -> bool
    ensures { IsTrue result ↔ All (λ p. IsName p.name) listed.now }
{
    for predecessor in listed {
        if !is_name(&predecessor.name) {
            return false;
        }
    }
    true
}

// Whether all limits are such, where there are any.
pub(crate) fn all_limits(listed: &[Predecessor]) -> bool
    ensures { IsTrue result ↔ All (λ p. IfSome p.within IsWithinHours) listed.now }
{
    for predecessor in listed {
        if !is_limit(&predecessor.within) {
            return false;
        }
    }
    true
}

fn is_limit(within: &Option<Within>) -> bool
    ensures { IsTrue result ↔ IfSome within.now IsWithinHours }
{
    match within {
        Some(within) => within.hours() >= 1,
        None => true,
    }
}

// Whether the name is short enough for a period.
pub(crate) fn is_short_enough(name: &Name) -> bool
    ensures { IsTrue result ↔ IsShort name.now }
{
    name.as_bytes().len() <= LONGEST_SHORT_NAME
}

pub(crate) fn is_short(name: &Short) -> bool
    ensures { IsTrue result ↔ IsShort name.now }
{
    !name.as_bytes().is_empty()
}

pub(crate) fn is_day(day: Day) -> bool
    ensures { IsTrue result ↔ IsDay day }
{
    day.number() >= Day::FIRST.number()
}

pub(crate) fn is_end(end: &Option<Day>) -> bool
    ensures { IsTrue result ↔ IfSome end.now IsDay }
{
    match end {
        Some(day) => is_day(*day),
        None => true,
    }
}

pub(crate) fn is_minute(minute: Minute) -> bool
    ensures { IsTrue result ↔ IsMinute minute }
{
    minute.number() < 1440
}
