// Kinds of definitions, and what a block of each holds.

use crate::options::Options;
use app_definition_records::{Application, ByName, DefinedPeriod, Predecessors, RunCycles};
use work_calendars::Calendar;

/// A kind of definitions.
#[derive(Clone, Copy, Debug, PartialEq, Eq)]
pub enum Kind {
    /// Applications.
    Applications,
    /// Calendars.
    Calendars,
    /// Periods.
    Periods,
    /// Lists of predecessors, by application.
    Predecessors,
    /// Run cycles, by application.
    RunCycles,
    /// The options.
    Options,
}

/// The definitions that a data block gives, all of one kind.
#[derive(Drop)]
pub enum Block {
    /// Applications by name.
    Applications(ByName<Application>),
    /// Calendars by name.
    Calendars(ByName<Calendar>),
    /// Periods by name.
    Periods(ByName<DefinedPeriod>),
    /// Lists of predecessors by application.
    Predecessors(ByName<Predecessors>),
    /// Run cycles by application.
    RunCycles(ByName<RunCycles>),
    /// The options.
    Options(Options),
}
