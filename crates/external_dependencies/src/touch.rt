ghost use Rattle.std.specs.Prelude.{◌≡◌, [], IfOk, map};
ghost use Rattle.occurrences.specs.declared.row.Row.{Row as RowValue};

use occurrences::{Row, Serial};
use std::alloc::{AllocError, Global};
use work_calendars::App;

/// What a change touches. Each list is in any order.
#[derive(Drop)]
pub struct Touch {
    /// The occurrences that were made.
    pub made: Vec<Row>,
    /// The occurrences that were withdrawn: they lived, and live no more.
    pub withdrawn: Vec<Row>,
    /// The occurrences that were opened: they live on, and wait again.
    pub opened: Vec<Serial>,
    /// The occurrences that were closed: they live on, and wait no more. They keep the pairs that they had.
    pub closed: Vec<Serial>,
    /// The applications whose lists changed.
    pub lists: Vec<App>,
}

impl Touch {
    /// What touches nothing.
    pub fn new(alloc: Global) -> Touch
        ensures made { result.made.items ≡ [] }
        ensures withdrawn { result.withdrawn.items ≡ [] }
        ensures opened { result.opened.items ≡ [] }
        ensures closed { result.closed.items ≡ [] }
        ensures lists { result.lists.items ≡ [] }
    {
        Touch {
            made: Vec::new(alloc),
            withdrawn: Vec::new(alloc),
            opened: Vec::new(alloc),
            closed: Vec::new(alloc),
            lists: Vec::new(alloc),
        }
    }
}

// The serials of rows.
pub(crate) fn row_serials(alloc: Global, rows: &[Row]) -> Result<Vec<Serial>, AllocError>
    ensures { IfOk result (λ serials.
        serials.items ≡ map (λ (row : RowValue). row.serial) rows.now) }
{
    rows.iter().map(|row| row.serial).collect(alloc)
}
