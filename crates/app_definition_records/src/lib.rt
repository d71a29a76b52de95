//! The records of data blocks, and definitions by name as they give them: applications, calendars, periods, lists of
//! predecessors and run cycles.
//!
//! Definitions are found by name, and listed in byte order of their names:
//!
//! ```text
//! // PAY waits for a BILL of the 24 hours before it
//! let listed = vec![in alloc; Predecessor { name: bill, within }]?;
//! let listed = Predecessors::from_vec(listed).ok_or("not in byte order")?;
//! let mut lists = ByName::new(alloc);
//! lists.insert(pay, listed)?;
//! assert_eq!(rt; lists.names(alloc)?.as_slice(), [pay].as_slice());
//! assert!(rt; lists.remove(&pay) && lists.get(&pay).is_none());
//! ```
#![tactic(auto)]

mod applications;
mod by_name;
mod calendars;
mod columns;
mod cycle_records;
mod fields;
mod periods;
mod predecessors;
mod records;

pub use applications::Application;
pub use by_name::{ByName, Definition};
pub use cycle_records::RunCycles;
pub use periods::DefinedPeriod;
pub use predecessors::{Predecessor, Predecessors};
pub use records::{BlockFault, LONGEST_BLOCK, collect_records};
