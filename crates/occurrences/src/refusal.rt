ghost use Rattle.std.specs.Prelude.{◌≡◌, ◌≤◌, ◌↔◌, IsTrue};
ghost use Rattle.occurrences.specs.Refusal.{refusal_number};

use thiserror::Error;
use work_calendars::App;

/// Why a statement was refused, with the detail that its line shows. If several hold, the reply has the one of the
/// smallest number.
#[derive(Clone, Copy, Debug, PartialEq, Eq, Hash, Error)]
pub enum Refusal {
    /// 10: the line is no statement.
    #[error("not a statement")]
    NotAStatement,
    /// 11: a record of the block is faulty, the first of them by number; 0 where the block has no end or is too long.
    #[error("faulty data, record {record}")]
    FaultyData {
        /// The record's number, or 0.
        record: usize,
    },
    /// 12: the job number was used with another text.
    #[error("the job number belongs to another text")]
    JobWithAnotherText,
    /// 13: the name is not defined.
    #[error("the name is not defined")]
    NotDefined,
    /// 20: there is no long-term plan.
    #[error("there is no long-term plan")]
    NoPlan,
    /// 21: there is a long-term plan already.
    #[error("there is a long-term plan already")]
    PlanExists,
    /// 22: an application names a calendar that isn't defined, the least such application.
    #[error("the calendar of {} is not defined", app.as_str())]
    CalendarUndefined {
        /// The application that names the calendar.
        app: App,
    },
    /// 23: a run cycle of an application names a period that isn't defined, the least such application.
    #[error("a period of {} is not defined", app.as_str())]
    PeriodUndefined {
        /// The application whose run cycle names the period.
        app: App,
    },
    /// 24: dates out of order or past a limit.
    #[error("dates out of order or past a limit")]
    DatesOutOfRange,
    /// 25: the lists that would be in force have a loop, the least application on one.
    #[error("{} stands on a loop of predecessors", app.as_str())]
    Loop {
        /// The least application on a loop.
        app: App,
    },
    /// 26: the application is unknown or pending.
    #[error("the application is unknown or pending")]
    NoActiveApplication,
    /// 27: a live occurrence has the key.
    #[error("a live occurrence has this key")]
    KeyIsLive,
    /// 28: no occurrence there has the key.
    #[error("no such occurrence")]
    NoSuchOccurrence,
    /// 29: the status doesn't allow the change.
    #[error("the status does not allow it")]
    StatusForbids,
    /// 30: a predecessor isn't complete, the least such serial.
    #[error("predecessor {serial} is not complete")]
    PredecessorUncompleted {
        /// The number of the least serial of such a predecessor.
        serial: u32,
    },
    /// 31: too many rows in the plans, or no serials left.
    #[error("too many rows, or no serials left")]
    TooManyRows,
    /// 32: the new plan end is not later, past the last day, or too many hours on.
    #[error("the new plan end is out of range")]
    PlanEndOutOfRange,
}

impl Refusal {
    /// The number that its line shows.
    pub fn number(self) -> u8
        ensures { result ≡ refusal_number self }
    {
        match self {
            Refusal::NotAStatement => 10,
            Refusal::FaultyData { .. } => 11,
            Refusal::JobWithAnotherText => 12,
            Refusal::NotDefined => 13,
            Refusal::NoPlan => 20,
            Refusal::PlanExists => 21,
            Refusal::CalendarUndefined { .. } => 22,
            Refusal::PeriodUndefined { .. } => 23,
            Refusal::DatesOutOfRange => 24,
            Refusal::Loop { .. } => 25,
            Refusal::NoActiveApplication => 26,
            Refusal::KeyIsLive => 27,
            Refusal::NoSuchOccurrence => 28,
            Refusal::StatusForbids => 29,
            Refusal::PredecessorUncompleted { .. } => 30,
            Refusal::TooManyRows => 31,
            Refusal::PlanEndOutOfRange => 32,
        }
    }

    /// Whether the job keeps it as its reply: those of number 13 and above.
    pub fn is_kept(self) -> bool
        ensures { IsTrue result ↔ (13 ≤ refusal_number self) }
    {
        self.number() >= 13
    }
}
