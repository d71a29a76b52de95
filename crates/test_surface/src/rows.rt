//! `occurrences`: serials, keys, rows, statuses, deletions, replies and refusals.
use occurrences::{Action, Deletion, Key, Origin, Reason, Refusal, Reply, Row, Serial, Status};
use work_calendars::{App, Moment, Short};

pub fn key(app: App, ia: Moment) -> Key {
    Key { app, ia }
}

pub fn row(serial: Serial, key: Key, deadline: Moment, origin: Origin) -> Row {
    Row {
        serial,
        key,
        deadline,
        origin,
    }
}

pub fn deletion(row: Row, reason: Reason) -> Deletion {
    Deletion { row, reason }
}

pub fn run_cycle(origin: Origin) -> Option<Short> {
    match origin {
        Origin::Generated(name) => Some(name),
        Origin::Added => None,
    }
}

pub fn reason_letter(reason: Reason) -> u8 {
    match reason {
        Reason::Operator => b'O',
        Reason::Withdrawn => b'W',
        Reason::Plan => b'P',
    }
}

pub fn status_letter(status: Status) -> u8 {
    match status {
        Status::W => b'W',
        Status::S => b'S',
        Status::E => b'E',
        Status::C => b'C',
        Status::D => b'D',
    }
}

/// The status that an action leads to, if it is allowed in any.
pub fn target(action: Action) -> Status {
    match action {
        Action::Start => Status::S,
        Action::Complete => Status::C,
        Action::Fail => Status::E,
        Action::Reset => Status::W,
        Action::Delete => Status::D,
    }
}

pub fn next_status(status: Status, action: Action) -> Option<Status> {
    occurrences::next_status(status, action)
}

// Here the two replies that show a serial have its number: a kept reply may show 0, which is no serial.
pub fn numbers(reply: Reply) -> [usize; 4] {
    match reply {
        Reply::Defined { names } => [names, 0, 0, 0],
        Reply::Undefined => [0; 4],
        Reply::Made { made, withdrawn } => [made, withdrawn, 0, 0],
        Reply::Numbered { serial } => [serial as usize, 0, 0, 0],
        Reply::Changed { serial, status: _ } => [serial as usize, 0, 0, 0],
        Reply::Moved {
            moved,
            carried,
            completed,
            deleted,
        } => [moved, carried, completed, deleted],
        Reply::Rows { rows } => [rows, 0, 0, 0],
    }
}

/// A refusal as its number and its detail.
// Here it is an enum, a variant for each number, which has the detail of that number.
pub fn number(refusal: Refusal) -> (u8, Option<App>, Option<usize>) {
    match refusal {
        Refusal::NotAStatement => (10, None, None),
        Refusal::FaultyData { record } => (11, None, Some(record)),
        Refusal::JobWithAnotherText => (12, None, None),
        Refusal::NotDefined => (13, None, None),
        Refusal::NoPlan => (20, None, None),
        Refusal::PlanExists => (21, None, None),
        Refusal::CalendarUndefined { app } => (22, Some(app), None),
        Refusal::PeriodUndefined { app } => (23, Some(app), None),
        Refusal::DatesOutOfRange => (24, None, None),
        Refusal::Loop { app } => (25, Some(app), None),
        Refusal::NoActiveApplication => (26, None, None),
        Refusal::KeyIsLive => (27, None, None),
        Refusal::NoSuchOccurrence => (28, None, None),
        Refusal::StatusForbids => (29, None, None),
        Refusal::PredecessorUncompleted { serial } => (30, None, Some(serial as usize)),
        Refusal::TooManyRows => (31, None, None),
        Refusal::PlanEndOutOfRange => (32, None, None),
    }
}
