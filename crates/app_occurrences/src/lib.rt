//! What the applications of definitions are, lack and are named on: which are active, their calendars, run cycles and
//! predecessors, the least that lacks a definition, and the occurrences that run cycles name.
//!
//! Each call reads the definitions, and changes nothing:
//!
//! ```text
//! let mut all = Definitions::new(alloc);
//! let block = read_block(alloc, Kind::Applications, b"Z,A,HERE\nY,A,\nD,A,DEFAULT\n")?;
//! all.merge(block)?;
//! // Z names a calendar that isn't defined; Y and D use the default one
//! assert_eq!(rt; least_without_calendar(&all), Some(z));
//! ```
#![tactic(auto)]

mod applications;
mod calendar_index;
mod least_names;
mod links;
mod named;
mod work_indexes;

pub use applications::{active, calendar_name, cycles_of, lacks_calendar, lacks_period};
pub use calendar_index::{CalendarIndex, CalendarIndexes, MOST_KEPT_INDEXES};
pub use least_names::{least_without_calendar, least_without_period};
pub use links::defined_links;
pub use named::{named_by_index, named_occurrences};
pub use work_indexes::{WorkIndexes, work_index};
