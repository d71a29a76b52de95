//! Run cycles: the days that they name, and the occurrences that an application's run cycles give.
//!
//! ```text
//! // day 6 of each week from Monday 2024-01-01 on, a free Saturday: rule 1 gives the work day before it
//! let cycles = [RunCycle {
//!     name,
//!     kind,
//!     period,
//!     rule: Rule::Before,
//!     offsets: Offsets::from_vec(vec![in alloc; 6]?).ok_or("no offsets")?,
//!     in_effect: monday,
//!     out_effect: None,
//!     ia,
//! }];
//! let named = generate(alloc, &cycles, &periods, &index, monday, sunday)?;
//! assert_eq!(rt; named.first().map(|first| first.day), Some(friday));
//! ```
#![tactic(auto)]

mod counting;
mod cycles;
mod generation;
mod jump;
mod named;
mod naming;
mod namings;
mod offsets;
mod periods;
mod raw;
mod rules;

pub use cycles::{CycleType, Deadline, MAX_DEADLINE_DAYS, RunCycle};
pub use generation::generate;
pub use jump::JumpDays;
pub use named::Named;
pub use naming::names;
pub use offsets::{MAX_OFFSET, MAX_OFFSETS, Offsets};
pub use periods::Periods;
pub use rules::Rule;
