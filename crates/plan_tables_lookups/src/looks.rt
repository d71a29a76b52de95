// Queries.

use plan_tables_schema::Table;

/// A query on one table.
#[derive(Clone, Copy, Debug, PartialEq, Eq)]
pub enum Look {
    /// The row of history that has the serial.
    InHistory,
    /// The row of the deletions that has the serial.
    InDeletions,
    /// Of the history of an application, the row that arrives last at a moment or before it.
    LastOf,
    /// The deletions by the operator that arrive at a moment or after it.
    DeletedFrom,
    /// The job of a number.
    JobOf,
    /// History, by arrival, application and serial.
    HistoryListed,
    /// The history of an application, in the same order.
    HistoryOf,
    /// The deletions, in the same order.
    DeletionsListed,
    /// The deletions of an application, in the same order.
    DeletionsOf,
    /// All rows of a table, in no order.
    Whole(Table),
}
