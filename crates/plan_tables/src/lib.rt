//! What a planner knows, kept in the tables of a database.
//!
//! ```text
//! // the store of a planner before its first statement, over an empty database
//! let Ok(mut store) = TableStore::adopt(alloc, conn) else {
//!     return Err(Fail::new("not adopted"));
//! };
//! assert!(rt; store.bounds()?.is_none() && store.job(alloc, 7)?.is_none());
//! let view = store.read_window(alloc, Need::LongTerm(None))?;
//! assert_eq!(rt; view.issued(), 0);
//! ```
#![tactic(auto)]

mod answers;
mod closing;
mod definition_moves;
mod ends;
mod gone;
mod keeping;
mod listing;
mod looking;
mod opening;
mod prepared;
mod seeking;
mod session;
mod table_store;

pub use plan_tables_constraints::fitting_changes_are_accepted;
pub use plan_tables_opening::{OpenFault, open_connection};
pub use table_store::TableStore;
