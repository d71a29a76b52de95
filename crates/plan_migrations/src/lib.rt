//! The version of a plan in a database, and the migration of its tables to the current schema: those of schema 1 are
//! replaced, with their rows; others are checked.
//!
//! ```text
//! // a plan of the current schema stays as it is
//! assert_eq!(rt; version(alloc, &mut conn)?, Some(2));
//! assert_eq!(rt; migrate(alloc, &mut conn)?, (2, 2));
//! ```
#![tactic(auto)]

mod asking;
mod contents;
mod faults;
mod first_tables;
mod migrating;
mod older;
mod renewing;
mod rowids;
mod tables;
mod versions;

pub use faults::{MigrateFault, migrate_fault_number};
pub use migrating::migrate;
pub use older::migrate_older;
pub use versions::{FIRST_VERSION, version};
