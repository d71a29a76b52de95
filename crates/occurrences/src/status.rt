ghost use Rattle.std.specs.Prelude.{◌≡◌, ℕ, ◌↔◌};
ghost use Rattle.occurrences.specs.Status.{changed_status, status_letter};

/// How far an occurrence of the current plan is.
#[derive(Clone, Copy, Debug, PartialEq, Eq, PartialOrd, Ord, Hash)]
pub enum Status {
    /// Waiting.
    W,
    /// Started.
    S,
    /// Ended in error.
    E,
    /// Complete.
    C,
    /// Deleted.
    D,
}

/// What can be done to an occurrence of the current plan.
#[derive(Clone, Copy, Debug, PartialEq, Eq, PartialOrd, Ord, Hash)]
pub enum Action {
    /// It begins.
    Start,
    /// It ends, all done.
    Complete,
    /// It ends in error.
    Fail,
    /// It waits again.
    Reset,
    /// It is not to be done.
    Delete,
}

/// The status that an action leads to; `None` where the status doesn't allow it.
/// W is started to S and deleted to D, S completed to C and failed to E, E completed to C, reset to W and
/// deleted to D. There are no other changes.
pub fn next_status(status: Status, action: Action) -> Option<Status>
    ensures { result ≡ changed_status status action }
{
    match (status, action) {
        (Status::W, Action::Start) => Some(Status::S),
        (Status::S, Action::Complete) | (Status::E, Action::Complete) => Some(Status::C),
        (Status::S, Action::Fail) => Some(Status::E),
        (Status::E, Action::Reset) => Some(Status::W),
        (Status::W, Action::Delete) | (Status::E, Action::Delete) => Some(Status::D),
        _ => None,
    }
}

impl Status {
    /// The letter that lists and tables show for it.
    pub fn letter(self) -> u8
        ensures { result ≡ status_letter self }
    {
        match self {
            Status::W => b'W',
            Status::S => b'S',
            Status::E => b'E',
            Status::C => b'C',
            Status::D => b'D',
        }
    }

    /// The status of this letter, if there is one.
    pub fn from_letter(letter: u8) -> Option<Self>
        ensures { (s : Status) → (result ≡ Some s) ↔ (letter ≡ status_letter s) }
    {
        match letter {
            b'W' => Some(Status::W),
            b'S' => Some(Status::S),
            b'E' => Some(Status::E),
            b'C' => Some(Status::C),
            b'D' => Some(Status::D),
            _ => None,
        }
    }
}
