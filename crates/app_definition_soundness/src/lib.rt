//! Whether definitions are such as data blocks give, where anyone may have written what they were read from.
//!
//! ```text
//! let mut all = Definitions::new(alloc);
//! let block = read_block(alloc, Kind::Calendars, b"DEFAULT,SAT,FREE\n")?;
//! all.merge(block)?;
//! assert!(rt; are_definitions(alloc, &all)?);
//! // no data block gives a calendar that lists nothing
//! all.calendars.insert(empty, Calendar::new(alloc))?;
//! assert!(rt; !are_definitions(alloc, &all)?);
//! ```
#![tactic(auto)]

mod applications;
mod calendars;
mod cycles;
mod definitions;
mod given;
mod names;
mod periods;
mod predecessors;

pub use definitions::are_definitions;
