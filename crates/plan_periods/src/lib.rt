//! Periods, which give run cycles the intervals that offsets are counted in, and the walk over the intervals that
//! meet a range of days.
//!
//! ```text
//! // seven days from 2024-01-01 on, again and again
//! let (origin, interval) = (monday, 7);
//! let weeks = Period::All { origin, interval };
//! weeks.check()?;
//! // the first of the intervals that meet 2024
//! let mut intervals = Intervals::new(&weeks, monday, year_end);
//! let week = intervals.next().ok_or("no interval")?;
//! assert_eq!(rt; (week.first, week.last), (monday, Some(sunday)));
//! ```
#![tactic(auto)]

mod faults;
mod intervals;
mod origins;
mod periods;
mod places;

pub use faults::PeriodFault;
pub use intervals::{Interval, Intervals};
pub use origins::Origins;
pub use periods::{MAX_INTERVAL, Period};
