use crate::status::Status;

/// What an accepted statement answers, one variant for each line that begins with `ok`. A serial is its number here:
/// a kept reply that is read back may show any number from 0 to 999,999,999.
#[derive(Clone, Copy, Debug, PartialEq, Eq, Hash)]
pub enum Reply {
    /// `ok defined N`: how many names a block gave.
    Defined {
        /// The names of the block.
        names: usize,
    },
    /// `ok undefined`: a name was taken away.
    Undefined,
    /// `ok made M withdrawn W`: how many occurrences a planning statement made and withdrew.
    Made {
        /// Those made.
        made: usize,
        /// Those withdrawn.
        withdrawn: usize,
    },
    /// `ok serial S`: the occurrence that was added to a plan, or deleted from the long-term plan.
    Numbered {
        /// The number of its serial.
        serial: u32,
    },
    /// `ok serial S status X`: an occurrence of the current plan, and the status that it took.
    Changed {
        /// The number of its serial.
        serial: u32,
        /// Its status from now on.
        status: Status,
    },
    /// `ok moved M carried K completed C deleted D`: how many occurrences a daily plan took from the long-term plan,
    /// left in the current plan, and moved to history and to the deletions.
    Moved {
        /// Those taken from the long-term plan.
        moved: usize,
        /// Those left in the current plan.
        carried: usize,
        /// Those moved to history.
        completed: usize,
        /// Those moved to the deletions.
        deleted: usize,
    },
    /// `ok rows N`: how many rows a list printed.
    Rows {
        /// The rows printed.
        rows: usize,
    },
}
