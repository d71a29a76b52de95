//! What the tables of a content accept.
//!
//! ```text
//! // a change that fits the content of the tables, and leaves it sound, breaks none of their constraints
//! fitting_changes_are_accepted();
//! let mut content = Content::new(alloc);
//! let staged = content.stage(alloc, Change::none(alloc))?;
//! commit_change(&mut conn, alloc, &content, &moves, &staged, b"")?;
//! assert!(rt; conn.is_autocommit());
//! ```
#![tactic(auto)]

mod accepting;

pub use accepting::fitting_changes_are_accepted;
