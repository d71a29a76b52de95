ghost use Rattle.std.specs.Prelude.{OnOk, OnErr};
ghost use Rattle.plan_store.specs.Listings.{Shown, item_shown};

use external_dependencies::Link;
use occurrences::Row;
use thiserror::Error;

/// What a listing shows.
#[derive(Clone, Copy, Debug, PartialEq, Eq)]
pub enum What {
    /// The long-term plan.
    Ltp,
    /// The current plan.
    Cp,
    /// History.
    History,
    /// The deletions.
    Deletions,
    /// The pairs of successors and predecessors.
    Dependencies,
    /// The lists in force.
    Links,
}

/// One thing that a listing shows.
#[derive(Clone, Copy)]
pub enum Item<'a> {
    /// A row of the long-term plan.
    Plan(&'a Row),
    /// A row of another set, and its letter: the status, in history C, in the deletions the reason.
    Marked(&'a Row, u8),
    /// A successor and its predecessor.
    Pair(&'a Row, &'a Row),
    /// An application and a predecessor in its list, with its limit.
    Link(&'a Link),
}

/// A sink refused an item. The sink knows why.
#[derive(Clone, Copy, Debug, PartialEq, Eq, Error)]
#[error("the item was refused")]
pub struct SinkFault;

/// What receives the items of a listing, one after another.
pub trait RowSink {
    // the sink after it has accepted an item
    ghost accepts: { Self → Shown → Self → Type 0 };

    // the sink after it has refused an item
    ghost refuses: { Self → Shown → Self → Type 0 };

    /// Accepts an item.
    fn take(&mut self, item: Item<'_>) -> Result<(), SinkFault>
        ensures taken { OnOk result (accepts self.old (item_shown item.entry) self.new) }
        ensures refused { OnErr result (refuses self.old (item_shown item.entry) self.new) };
}

/// Why a listing ended before its last item.
#[derive(Clone, Copy, Debug, PartialEq, Eq, Error)]
pub enum ListFault {
    /// Memory was refused.
    #[error("out of memory")]
    Memory,
    /// The device failed. The store returns this until it is opened again.
    #[error("the device failed")]
    Device,
    /// The sink refused an item. The store can still be used.
    #[error("the item was refused")]
    Sink(SinkFault),
}
