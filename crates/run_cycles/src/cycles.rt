use crate::{Offsets, Rule};
use work_calendars::{Day, Minute, Short};

/// When an occurrence has to be done: a time of the day that lies this many days after its input arrival date.
#[derive(Clone, Copy, Debug, PartialEq, Eq, PartialOrd, Ord, Hash)]
pub struct Deadline {
    /// From 0 to `MAX_DEADLINE_DAYS` in all that is defined.
    pub days: u8,
    /// The time of that day.
    pub time: Minute,
}

/// The greatest number of days between input arrival date and deadline.
pub const MAX_DEADLINE_DAYS: u8 = 99;

/// The type of a run cycle: whether it gives occurrences or takes them away.
#[derive(Clone, Copy, Debug, PartialEq, Eq, Hash)]
pub enum CycleType {
    /// Type N: gives an occurrence at its input arrival time on each day that it names.
    Normal(Deadline),
    /// Type X: takes away what others give at its input arrival time on the days that it names. Its deadline is not
    /// used.
    Negative(Option<Deadline>),
}

/// Names days of a period, counted by offsets, for an application.
#[derive(Clone, Debug, Drop)]
pub struct RunCycle {
    /// Its name, which no other run cycle of its application has.
    pub name: Short,
    /// Its type, with its deadline.
    pub kind: CycleType,
    /// The name of its period.
    pub period: Short,
    /// What its offsets count, and where a free day goes.
    pub rule: Rule,
    /// The places that it names in each interval of its period.
    pub offsets: Offsets,
    /// The first day that it may name.
    pub in_effect: Day,
    /// The first day from which on it names nothing, or none. It may lie before `in_effect`.
    pub out_effect: Option<Day>,
    /// The input arrival time of its occurrences.
    pub ia: Minute,
}
