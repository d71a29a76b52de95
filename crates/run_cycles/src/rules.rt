/// What the offsets of a run cycle count, and where a day that falls on a free day goes.
/// In periods of work days, offsets count work days under every rule.
#[derive(Clone, Copy, Debug, PartialEq, Eq, Hash)]
pub enum Rule {
    /// Rule E: offsets count the work days alone.
    WorkDaysOnly,
    /// Rule 1: offsets count all days; a free day gives the closest work day before it.
    Before,
    /// Rule 2: offsets count all days; a free day gives the closest work day after it.
    After,
    /// Rule 3: offsets count all days; a free day is named itself.
    Same,
    /// Rule 4: offsets count all days; a free day gives nothing.
    Skip,
}
