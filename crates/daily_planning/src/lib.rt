//! What the statements on the current plan decide: a daily plan carries unfinished work into the next day's plan, an
//! action changes the status of an occurrence, and an addition makes one. A decision sees the content through a
//! window, and changes nothing.
//!
//! ```text
//! // the two rows of the first day move from the long-term plan to the current plan
//! let view = store.read_window(alloc, Need::Daily(to))?;
//! let Verdict::Done(change, reply) = extend(alloc, &view, to)? else {
//!     return Err(Fail::new("refused"));
//! };
//! assert!(rt; change.ltp.gone.len() == 2 && change.cp.put.len() == 2);
//! assert!(rt; matches!(reply, Reply::Moved { moved: 2, .. }));
//! ```
#![tactic(auto)]

mod actions;
mod additions;
mod daily_plans;
mod laws;
mod new_ends;

pub use actions::cp_action;
pub use additions::cp_add;
pub use daily_plans::{daily_need, end_by, extend, extend_by, replan};
pub use laws::status_changes_leave_pairs;
pub use new_ends::new_end;
pub use planner_machine::Count;
