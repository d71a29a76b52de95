//! What a change makes of the tables of a plan, in one transaction.
//!
//! ```text
//! // a row is added to history, and no definition changes
//! let moves = DefinitionMoves {
//!     kind: None,
//!     names: Vec::new(alloc),
//!     rows: Vec::new(alloc),
//!     offsets: Vec::new(alloc),
//! };
//! let (mut content, mut change) = (Content::new(alloc), Change::none(alloc));
//! change.history.put.push(row)?;
//! let staged = content.stage(alloc, change)?;
//! commit_change(&mut conn, alloc, &content, &moves, &staged, b"")?;
//! assert_eq!(rt; select(&mut conn, Table::History)?.len(), 1);
//! ```
#![tactic(auto)]

mod cells;
mod facts;
mod lone_rows;
mod loops;
mod many;
mod moves;
mod redefining;
mod steps;
mod writing;

pub use redefining::DefinitionMoves;
pub use writing::commit_change;
