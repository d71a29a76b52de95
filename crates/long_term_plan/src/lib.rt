//! What the statements on the long-term plan decide. A decision sees the content through a window, and changes nothing.
//!
//! ```text
//! // two applications are named on each of two days
//! let view = store.read_window(alloc, Need::LongTerm(None))?;
//! let Verdict::Done(change, reply) = create(alloc, &view, first, last)? else {
//!     return Err(Fail::new("refused"));
//! };
//! let (made, withdrawn) = (4, 0);
//! assert_eq!(rt; change.ltp.put.len(), made);
//! assert_eq!(rt; reply, Reply::Made { made, withdrawn });
//! ```
#![tactic(auto)]

mod addition;
mod creation;
mod deletion;
mod drafts;
mod extension;
mod lists;
mod making;
mod modification;
mod parting;
mod refusals;

pub use addition::add;
pub use creation::{create, create_refusal};
pub use deletion::delete;
pub use extension::{extend, extend_refusal};
pub use modification::{modify_all, modify_one, modify_refusal};
