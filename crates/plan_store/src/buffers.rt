ghost use Rattle.std.specs.Prelude.{◌≡◌, []};

use occurrences::{CurrentRow, Deletion, Key, Row};
use plan_store_lists::{PairBlocks, RowBlocks};
use std::alloc::Global;

// What windows show that is no part of a list of the content. It is filled before a window is lent.
#[derive(Drop)]
pub(crate) struct Buffer {
    // the rows of the long-term plan that the latest daily window shows
    pub(crate) early: RowBlocks<Row>,
    // the rows of history that the latest window on a key or on the long-term plan shows
    pub(crate) lasts: Vec<Row>,
    // the key of the latest window, if it is on one
    pub(crate) key: Option<Key>,
    // the pairs of a window that shows none
    pub(crate) no_pairs: PairBlocks,
    // the rows of a set of which a window shows none
    pub(crate) no_rows: RowBlocks<Row>,
    pub(crate) no_current: RowBlocks<CurrentRow>,
    pub(crate) no_deletions: RowBlocks<Deletion>,
    ghost none: { no_pairs ≡ [] },
    ghost no_row: { no_rows.items ≡ [] },
    ghost no_current_row: { no_current.items ≡ [] },
    ghost no_deletion: { no_deletions.items ≡ [] },
}

impl Buffer {
    // An empty buffer.
    pub(crate) fn new(alloc: Global) -> Buffer {
        Buffer {
            early: RowBlocks::new(alloc),
            lasts: Vec::new(alloc),
            key: None,
            no_pairs: PairBlocks::new(alloc),
            no_rows: RowBlocks::new(alloc),
            no_current: RowBlocks::new(alloc),
            no_deletions: RowBlocks::new(alloc),
        }
    }
}
