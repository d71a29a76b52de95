//! Queries for rows of the tables: by a number, by a name and a moment, one after another in an order.
//!
//! ```text
//! // the last row of A that arrived by 09.00 on 2024-01-01
//! let row = last_of(&mut conn, "A", 28_401_660)?.ok_or("no row")?;
//! assert_eq!(rt; row.get::<u64>(0)?, 1);
//! assert_eq!(rt; history_of_serial(&mut conn, 2)?.len(), 1);
//! assert_eq!(rt; history_of_serial(&mut conn, 3)?.len(), 0);
//! ```
#![tactic(auto)]

mod asking;
mod emitting;
mod faults;
mod finding;
mod looks;

pub use asking::ask;
pub use emitting::{RowRefused, ValuesSink, emit, emit_all};
pub use faults::{Stopped, TableFault};
pub use finding::{
    deletion_of_serial, history_of_serial, job_of_number, last_of, operator_deletions_from,
};
pub use looks::Look;
