//! What both plans share: the live occurrences as a list, an addition by hand, and the pairs after a statement: those
//! of open occurrences with their nearest predecessors, and of those that are live and no longer open the pairs that
//! they had. Each statement finds them anew only where it reaches.
//!
//! ```text
//! // B is added at 12.00 of the second day, and follows A of 08.00, which is the third row
//! let view = store.read_window(alloc, Need::Key(key))?;
//! let Verdict::Done(change, _reply) = add(alloc, &view, Plan::LongTerm, &key)? else {
//!     return Err(Fail::new("refused"));
//! };
//! let pair = change.pairs.added.as_slice().first();
//! assert_eq!(rt; pair.map(|pair| pair.predecessor), Some(third));
//! ```
#![tactic(auto)]

mod additions;
mod by_applications;
mod change;
mod gathering;
mod later;
mod listing;
mod planned;
mod row_pairs;
mod scratch;
mod singles;
mod touches;
mod withdrawals;

pub use additions::{Plan, add};
pub use by_applications::{are_few, live_rows_of, reached_apps};
pub use change::pair_change;
pub use later::planned_for;
pub use listing::{live_rows, live_rows_with};
pub use planned::{pairs_of_apps, pairs_of_plans, pairs_of_rows};
pub use row_pairs::row_pairs_of;
pub use scratch::settled_pairs;
pub use singles::single;
pub use touches::{touch_of, touch_of_list, touch_of_rows};
pub use withdrawals::pairs_without;
