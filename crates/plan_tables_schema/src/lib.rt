//! The tables of the plan: their schema, and statements that insert rows of values, delete rows and select them.
//!
//! ```text
//! let mut conn = Connection::open_in_memory(alloc)?;
//! if conn.is_autocommit() {
//!     make_tables(&mut conn)?;
//! }
//! conn.execute_batch("INSERT INTO plan_period VALUES ('DAY', 0, 'A', 19723, 1)")?;
//! assert_eq!(rt; select(&mut conn, Table::Period)?.len(), 1);
//! assert_eq!(rt; select(&mut conn, Table::History)?.len(), 0);
//! ```
#![tactic(auto)]

mod making;
mod named;
mod statements;
mod tables;
mod texts;

pub use making::{make_all, make_tables};
pub use named::first_named;
pub use statements::{delete, insert, insert_several, select};
pub use tables::{SCHEMA_VERSION, TABLES, Table};
pub use texts::{create_text, select_text};
