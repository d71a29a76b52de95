//! The two tables of schema 1 that change are replaced by those of schema 2, with their rows, in one transaction.
//!
//! ```text
//! // a link of schema 1 has no hours
//! make_first_tables(&mut conn)?;
//! conn.execute_batch("INSERT INTO link_in_force VALUES ('B', 'A')")?;
//! let rows = conn.query_all(first_select_text(Table::LinkInForce), &[])?;
//! assert_eq!(rt; rows.len(), 1);
//! assert!(rt; are_first(Table::LinkInForce, &rows) && !are_typed(Table::LinkInForce, &rows));
//! ```
#![tactic(auto)]

mod changing;
mod dropping;
mod filling;
mod leaving;
mod making;
mod putting;
mod refilling;
mod remaking;
mod rows;
mod texts;
mod types;

pub use changing::make_changed_tables;
pub use filling::plan_in_memory;
pub use leaving::left_without;
pub use making::make_first_tables;
pub use remaking::remake_tables;
pub use rows::FirstRows;
pub use texts::first_select_text;
pub use types::{are_first, are_typed};
