use work_calendars::{Day, Minute, Moment, Short};

/// A day and time at which an application is named, with the run cycle that names it and its deadline.
#[derive(Clone, Copy, Debug, PartialEq, Eq, Hash)]
pub struct Named {
    /// The input arrival date.
    pub day: Day,
    /// The input arrival time.
    pub time: Minute,
    /// The run cycle that names it, the one of least name where several do.
    pub run_cycle: Short,
    /// When it has to be done.
    pub deadline: Moment,
}
