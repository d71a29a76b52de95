//! Facts that are fetched from the tables of a plan: kept jobs, rows of history and deletions, by a number, by a
//! moment, or all of a table.
//! Listings of the tables of a plan: history and the deletions, each row yielded before the next is read.
//!
//! ```text
//! let rows = completed_of(alloc, &mut conn, &a)?;
//! assert_eq!(rt; rows.len(), 2);
//! // the second row is in history, and not among the deletions
//! let row = completed_row(alloc, &mut conn, second)?;
//! assert!(rt; row.is_some_and(|row| row.origin == Origin::Added));
//! assert!(rt; deleted_row(alloc, &mut conn, second)?.is_none());
//! ```
#![tactic(auto)]

mod collecting;
mod decoding;
mod finding;
mod listed_rows;
mod listing;

pub use finding::{
    completed_of, completed_row, completed_rows, deleted_row, deleted_rows, deletions_from,
    kept_job, last_completed,
};
pub use listing::{list_deletions, list_history};
