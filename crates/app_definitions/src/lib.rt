//! The definitions that a planner works from, as data blocks give them: calendars, periods, applications, run cycles,
//! lists of predecessors and options.
//!
//! A block of a kind is read whole, or refused at its first faulty record. What was read is merged, and found by name:
//!
//! ```text
//! let mut all = Definitions::new(alloc);
//! let block = read_block(alloc, Kind::Applications, b"Z,A,HERE\nY,P,\nD,A,DEFAULT\n")?;
//! assert_eq!(rt; all.merge(block)?, 3);
//! // Z names a calendar of its own
//! let found = all.applications.get(&z).ok_or("not defined")?;
//! assert_eq!(rt; found.calendar, Some(here));
//! ```
#![tactic(auto)]

mod blocks;
mod definitions;
mod kinds;
mod laws;
mod option_blocks;
mod options;
mod replacing;

pub use app_definition_records::{
    Application, BlockFault, ByName, DefinedPeriod, LONGEST_BLOCK, Predecessor, Predecessors,
    RunCycles,
};
pub use blocks::{
    read_applications, read_block, read_calendars, read_periods, read_predecessors, read_run_cycles,
};
pub use definitions::Definitions;
pub use kinds::{Block, Kind};
pub use laws::{is_faulty_once, merge_is_rolled_back, reads_as_one, reads_or_is_faulty};
pub use option_blocks::read_options;
pub use options::{MAX_EXTENSION_HOURS, Options};
pub use replacing::Replaced;
