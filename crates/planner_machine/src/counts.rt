/// Which days an extension of the current plan counts.
#[derive(Clone, Copy, Debug, PartialEq, Eq)]
pub enum Count {
    /// All days.
    AllDays,
    /// The work days of the default calendar; every day is one where that isn't defined.
    WorkDays,
}
