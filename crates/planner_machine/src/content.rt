use occurrences::{Key, Origin};
use work_calendars::{Day, Moment};

/// How far the plans reach.
#[derive(Clone, Copy, Debug, PartialEq, Eq, Hash)]
pub struct Bounds {
    /// The first day of the long-term plan.
    pub first_day: Day,
    /// The last day of the long-term plan.
    pub last_day: Day,
    /// Where the current plan ends and the rows of the long-term plan begin.
    pub plan_end: Moment,
}

/// An occurrence that is still to be made: a row without its serial.
#[derive(Clone, Copy, Debug, PartialEq, Eq, Hash)]
pub struct Draft {
    /// Its application and its input arrival.
    pub key: Key,
    /// When it is to be done.
    pub deadline: Moment,
    /// The run cycle that names it, or that it is added.
    pub origin: Origin,
}
