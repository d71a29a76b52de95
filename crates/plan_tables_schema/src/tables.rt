// The tables, and the version of their schema.

/// The version of the schema, which is stored in `plan_meta`.
pub const SCHEMA_VERSION: u32 = 2;

/// A table of the plan.
#[derive(Clone, Copy, Debug, PartialEq, Eq)]
pub enum Table {
    /// `plan_meta`: how far the plans reach, how many serials are issued, and the options.
    Meta,
    /// `calendar_entry`: what calendars list for weekdays and dates.
    CalendarEntry,
    /// `plan_period`: periods, a row for each of their entries.
    Period,
    /// `application`: applications.
    Application,
    /// `run_cycle`: run cycles.
    RunCycle,
    /// `run_cycle_offset`: the offsets of run cycles.
    Offset,
    /// `predecessor`: predecessors as they are defined.
    Predecessor,
    /// `link_in_force`: predecessors as they are in force.
    LinkInForce,
    /// `ltp_row`: the long-term plan.
    LongTerm,
    /// `cp_row`: the current plan.
    Current,
    /// `history_row`: history.
    History,
    /// `deletion_row`: the deletions.
    Deletion,
    /// `dependency`: pairs of occurrences.
    Dependency,
    /// `job`: the kept jobs.
    Job,
}

/// All tables, in the order in which they are made: those that others refer to before them.
pub const TABLES: [Table; 14] = [
    Table::Meta,
    Table::CalendarEntry,
    Table::Period,
    Table::Application,
    Table::RunCycle,
    Table::Offset,
    Table::Predecessor,
    Table::LinkInForce,
    Table::LongTerm,
    Table::Current,
    Table::History,
    Table::Deletion,
    Table::Dependency,
    Table::Job,
];
