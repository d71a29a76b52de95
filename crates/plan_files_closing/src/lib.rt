//! The end of a connection over files: the log is copied, and what a crash leaves is known even if that fails.
//!
//! ```text
//! // the log has a table, and is copied into the database file
//! conn.execute_batch("CREATE TABLE t (x INTEGER)")?;
//! let closed = close_connection(alloc, conn);
//! assert!(rt; closed.was_open && closed.copied.is_ok());
//! ```
#![tactic(auto)]

mod closing;
mod copying;

pub use closing::{ClosedFiles, close_connection};
pub use copying::{CopyFault, copy_log};
