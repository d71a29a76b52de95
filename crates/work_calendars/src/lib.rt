//! Which days are work days. Days, minutes, moments and names as values that hold only what their spellings allow;
//! calendars of work days and free days; and the index of a calendar's work days, which counts and finds them without
//! reading the calendar again.
//!
//! ```text
//! let mut calendar = Calendar::new(alloc);
//! calendar.set_weekday(Weekday::Saturday, DayStatus::Free);
//! calendar.set_weekday(Weekday::Sunday, DayStatus::Free);
//! let index = WorkIndex::build(alloc, &calendar)?;
//! let friday = Day::from_text("2024-01-05").ok_or("no day")?;
//! assert_eq!(rt; index.next_work(friday), Day::from_text("2024-01-08"));
//! ```
#![tactic(auto)]

mod calendars;
mod counted_index;
mod days;
mod digits;
mod limits;
mod minutes;
mod moments;
mod names;
mod statuses;
mod within;
mod work_index;

pub use calendars::Calendar;
pub use counted_index::CountedIndex;
pub use days::Day;
pub use jiff::civil::Weekday;
pub use limits::limits_hold;
pub use minutes::Minute;
pub use moments::Moment;
pub use names::{App, LONGEST_NAME, LONGEST_SHORT_NAME, Name, NameWithin, Short};
pub use statuses::DayStatus;
pub use std::alloc::AllocError as Memory;
pub use within::{MAX_WITHIN, Within};
pub use work_index::WorkIndex;
