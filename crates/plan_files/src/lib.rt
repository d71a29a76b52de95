//! A run of the planner over files, from their bytes to their bytes, and the life of a plan over all its runs.
//!
//! ```text
//! // the files hold no plan, so they get one, and the reader has a line; it is no statement
//! let opening = IfNew { text: b"help\n".as_slice() };
//! let mut writer = Vec::new(alloc);
//! let Ok((ended, _)) = run_over_connection(alloc, conn, opening, &mut writer) else {
//!     return Err(Fail::new("not run"));
//! };
//! assert!(rt; ended.is_whole && ended.closed.copied.is_ok());
//! assert_eq!(rt; writer.as_slice(), b"refused 10\n".as_slice());
//! ```
#![tactic(auto)]

mod life;
mod lost_indexes;
mod next;
mod openers;
mod openings;
mod over_files;
mod refusals;
mod running;

pub use life::{file_life, plan_life};
pub use next::{carries_on, next_run};
pub use openers::FileOpener;
pub use openings::{Opening, StartingPlan};
pub use over_files::{run_over_connection, run_over_files};
pub use refusals::Unrun;
pub use running::Ended;
