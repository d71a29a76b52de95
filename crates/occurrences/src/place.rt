ghost use Rattle.std.specs.Prelude.{◌≡◌, ◌↔◌, IsTrue};
ghost use Rattle.occurrences.specs.Place.{IsLive, IsOpen, IsComplete, reason_letter};

use crate::row::Row;
use crate::status::Status;

/// Why an occurrence is in the deletions.
#[derive(Clone, Copy, Debug, PartialEq, Eq, PartialOrd, Ord, Hash)]
pub enum Reason {
    /// An operator deleted it from the long-term plan.
    Operator,
    /// It was withdrawn: its run cycles no longer named its key.
    Withdrawn,
    /// It was deleted in the current plan, and a daily plan moved it.
    Plan,
}

/// A row of the current plan.
#[derive(Clone, Copy, Debug, PartialEq, Eq, PartialOrd, Ord, Hash)]
pub struct CurrentRow {
    /// The row.
    pub row: Row,
    /// How far it is.
    pub status: Status,
}

/// A row of the deletions.
#[derive(Clone, Copy, Debug, PartialEq, Eq, PartialOrd, Ord, Hash)]
pub struct Deletion {
    /// The row as it was before.
    pub row: Row,
    /// Why it was deleted.
    pub reason: Reason,
}

/// Where an occurrence is. Each is in exactly one place.
#[derive(Clone, Copy, Debug, PartialEq, Eq, PartialOrd, Ord, Hash)]
pub enum Place {
    /// In the long-term plan.
    LongTerm,
    /// In the current plan, with a status.
    Current(Status),
    /// In history, complete.
    History,
    /// In the deletions, for a reason.
    Deleted(Reason),
}

impl Reason {
    /// The letter that lists and tables show for it.
    pub fn letter(self) -> u8
        ensures { result ≡ reason_letter self }
    {
        match self {
            Reason::Operator => b'O',
            Reason::Withdrawn => b'W',
            Reason::Plan => b'P',
        }
    }

    /// The reason of this letter, if there is one.
    pub fn from_letter(letter: u8) -> Option<Self>
        ensures { (r : Reason) → (result ≡ Some r) ↔ (letter ≡ reason_letter r) }
    {
        match letter {
            b'O' => Some(Reason::Operator),
            b'W' => Some(Reason::Withdrawn),
            b'P' => Some(Reason::Plan),
            _ => None,
        }
    }
}

impl Place {
    /// Whether an occurrence here is live: in the long-term plan, in the current plan with a status other than
    /// deleted, or in history.
    pub fn is_live(self) -> bool
        ensures { IsTrue result ↔ IsLive self }
    {
        match self {
            Place::LongTerm | Place::History => true,
            Place::Current(status) => status != Status::D,
            Place::Deleted(_) => false,
        }
    }

    /// Whether an occurrence here is open: in the long-term plan, or in the current plan and waiting.
    pub fn is_open(self) -> bool
        ensures { IsTrue result ↔ IsOpen self }
    {
        match self {
            Place::LongTerm => true,
            Place::Current(status) => status == Status::W,
            Place::History | Place::Deleted(_) => false,
        }
    }

    /// Whether an occurrence here is complete: in the current plan and completed, or in history.
    pub fn is_complete(self) -> bool
        ensures { IsTrue result ↔ IsComplete self }
    {
        match self {
            Place::Current(status) => status == Status::C,
            Place::History => true,
            Place::LongTerm | Place::Deleted(_) => false,
        }
    }
}
