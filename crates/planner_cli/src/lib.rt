//! The planner's job stream: what each statement changes and what its reply is, and a run over a whole stream.
//!
//! ```text
//! // neither line is a statement
//! let mut reader = b"list\nhelp\n".as_slice();
//! let mut writer = Vec::new(alloc);
//! let outcome = run_lists(alloc, &mut reader, &mut writer);
//! assert_eq!(rt; writer.as_slice(), b"refused 10\nrefused 10\n".as_slice());
//! assert_eq!(rt; exit_status(&outcome), 4);
//! ```
#![tactic(auto)]

mod answers;
mod daily_plans;
mod days;
mod decisions;
mod define;
mod faults;
mod jobs;
mod kinds;
mod laws;
mod lists;
mod occurrence_changes;
mod over_lists;
mod plans;
mod rows;
mod steps;
mod stream;
mod tally;
mod texts;
mod trials;
mod well_formed;
mod writing;

pub use faults::{FaultSource, RunFault};
pub use laws::{fresh_plans, reruns};
pub use over_lists::run_lists;
pub use stream::{exit_status, run, run_reported};
pub use tally::Tally;
