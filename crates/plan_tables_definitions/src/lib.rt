//! Definitions as rows of the tables of a plan, and back.
//!
//! ```text
//! let mut calendar = Calendar::new(alloc);
//! calendar.set_weekday(Weekday::Saturday, DayStatus::Free);
//! calendar.set_weekday(Weekday::Sunday, DayStatus::Free);
//! let mut calendars = ByName::new(alloc);
//! calendars.insert(name, calendar)?;
//! // a row for each weekday that the calendar lists
//! let rows = calendar_rows(alloc, &calendars)?;
//! assert_eq!(rt; rows.len(), 2);
//! ```
#![tactic(auto)]

mod applications;
mod calendars;
mod cells;
mod columns;
mod copying;
mod cycle_parts;
mod cycles;
mod decoded_cycles;
mod drafts;
mod encoding;
mod gathering;
mod lending;
mod offsets;
mod periods;
mod places;
mod predecessors;
mod stored;
mod tails;
mod whole_cycles;

pub use applications::application_rows;
pub use calendars::calendar_rows;
pub use cycles::cycle_rows;
pub use lending::lend;
pub use offsets::offset_rows;
pub use periods::period_rows;
pub use predecessors::predecessor_rows;
pub use stored::{
    StoredRows, applications_of_rows, calendars_of_rows, definitions_of_rows, periods_of_rows,
    predecessors_of_rows, run_cycles_of_rows,
};
