ghost use Rattle.std.specs.Prelude.{◌≡◌};

use crate::key::Key;
use crate::serial::Serial;
use work_calendars::{Moment, Short};

/// Where an occurrence comes from. Added ones come first, then generated ones by name in byte order.
#[derive(Clone, Copy, Debug, PartialEq, Eq, PartialOrd, Ord, Hash)]
pub enum Origin {
    /// Added by hand.
    Added,
    /// Named by the run cycle of this name.
    Generated(Short),
}

impl Origin {
    ghost use Rattle.occurrences.specs.Row.{run_cycle_of};

    /// The run cycle that named it, if one did.
    pub fn run_cycle(self) -> Option<Short>
        ensures { result ≡ run_cycle_of self }
    {
        match self {
            Origin::Generated(name) => Some(name),
            Origin::Added => None,
        }
    }
}

/// An occurrence, as the plans keep it.
/// Rows are ordered by key, then by serial; rows of one key and one serial by deadline and origin.
#[derive(Clone, Copy, Debug, PartialEq, Eq, PartialOrd, Ord, Hash)]
pub struct Row {
    /// Its input arrival and its application.
    pub key: Key,
    /// Its number.
    pub serial: Serial,
    /// When it is to be done.
    pub deadline: Moment,
    /// The run cycle that named it, or that it was added.
    pub origin: Origin,
}
