use crate::Period;
use crate::places::{find_listed, step_interval, steps_meeting};
use std::marker::Model;
use work_calendars::Day;

/// An interval of a period: its first day, and its last day, or none where the interval is open.
#[derive(Clone, Copy, Debug, PartialEq, Eq, Hash)]
pub struct Interval {
    /// Its first day.
    pub first: Day,
    /// Its last day, or none where it is open.
    pub last: Option<Day>,
}

impl Interval {
    ghost use Rattle.std.specs.Prelude.{◌≡◌};
    ghost use Rattle.plan_periods.specs.Places.{meets_range};

    /// Whether some day from `from` to `to` lies in the interval.
    pub(crate) fn meets(&self, from: Day, to: Day) -> bool
        ensures { result ≡ meets_range from to self.now }
    {
        from.number() <= to.number()
            && self.first.number() <= to.number()
            && self.last.is_none_or(|last| from.number() <= last.number())
    }
}

/// The intervals of a period that meet a range of days, each once, by rising first day. A period of work days has none
/// here, because its intervals depend on a calendar.
#[derive(Debug, Drop)]
pub struct Intervals<'a> {
    period: &'a Period,
    from: Day,
    to: Day,
    start: usize,
    next: usize,
    end: usize,
}

impl<'a> Model for Intervals<'a> {
    ghost use Rattle.std.specs.Prelude.{◌-◌};
    ghost use Rattle.plan_periods.specs.Walk.{Walk};

    ghost Value = { Walk };

    ghost use Rattle.plan_periods.specs.Places.{left_of, IsWalkState};

    ghost view = { λ a. record {
      period = a.period.now;
      from = a.from;
      to = a.to;
      left = left_of a.period.now a.from a.to a.next a.end;
      visited = a.next - a.start;
    } };

    ghost invariant = { λ a. IsWalkState a.period.now a.from a.to a.start a.next a.end };
}

impl<'a> Intervals<'a> {
    ghost use Rattle.std.specs.Prelude.{◌≡◌};
    ghost use Rattle.plan_periods.specs.Period.{IsSoundPeriod};
    ghost use Rattle.plan_periods.specs.Walk.{ListsMeeting, VisitsFew};

    /// A walk over the intervals that meet the days from `from` to `to`, both included. None does where `to` is
    /// before `from`.
    pub fn new(period: &'a Period, from: Day, to: Day) -> Intervals<'a>
        requires { IsSoundPeriod period.now }
        ensures period { result.period ≡ period.now }
        ensures from { result.from ≡ from }
        ensures to { result.to ≡ to }
        ensures left { ListsMeeting period.now from to result.left }
        ensures visited { result.visited ≡ 0 }
    {
        let (start, end) = match period {
            Period::All { origin, interval } => steps_meeting(*origin, *interval, from, to),
            Period::Work { .. } => (0, 0),
            Period::Listed(origins) => (0, origins.len()),
        };
        Intervals {
            period,
            from,
            to,
            start,
            next: start,
            end,
        }
    }

    /// How many intervals the walk has looked at. Over a period of days those are the ones that it gave: no more
    /// than fit into the range, and two.
    pub fn visited(&self) -> usize
        ensures value { result ≡ self.now.visited }
        ensures few { VisitsFew self.now.period self.now.from self.now.to result }
    {
        self.next - self.start
    }
}

impl<'a> Iterator for Intervals<'a> {
    ghost use Rattle.std.specs.Iterator.{YieldsFirst, item_count, MakesProgress};
    ghost use Rattle.std.specs.Prelude.{⊤};
    ghost use Rattle.plan_periods.specs.Walk.{Walk, GoesOn};

    type Item = Interval;

    ghost next_gives = { YieldsFirst (λ walk. walk.left) };

    ghost remaining = { item_count (λ walk. walk.left) };

    fn next(&mut self) -> Option<Interval>
        ensures steps { YieldsFirst (λ walk. walk.left) self.old result self.new }
        ensures goes { MakesProgress (λ (_ : Walk). ⊤)
            (item_count (λ walk. walk.left)) self.old result self.new }
        ensures goes_on { GoesOn self.old result self.new }
    {
        match self.period {
            Period::All { origin, interval } => {
                if self.next >= self.end {
                    return None;
                }
                let step = step_interval(*origin, *interval, self.next);
                self.next += 1;
                Some(step)
            }
            Period::Work { .. } => None,
            Period::Listed(origins) => {
                let (found, next) = find_listed(origins.as_slice(), self.next, self.from, self.to);
                self.next = next;
                found
            }
        }
    }
}
