//! What a planner keeps between two statements, the window through which a decision sees it, the change that a
//! decision makes, and the stores that keep it.
//!
//! ```text
//! let mut store = ListStore::new(alloc);
//! assert!(rt; store.job(alloc, 7)?.is_none());
//! // what a decision on the long-term plan sees, before there is one
//! let view = store.read_window(alloc, Need::LongTerm(None))?;
//! assert!(rt; view.bounds().is_none() && view.ltp().is_empty());
//! assert_eq!(rt; view.issued(), 0);
//! ```
#![tactic(auto)]

mod app_pairs;
mod arrivals;
mod buffers;
mod changes;
mod contents;
mod fitting;
mod in_force;
mod jobs;
mod lasts;
mod list_store;
mod listed;
mod listings;
mod moving;
mod pairs;
mod parts;
mod queries;
mod redefining;
mod room;
mod slices;
mod spans;
mod staged;
mod stores;
mod views;

pub use changes::{Change, DefinitionChange, Moves, NewLists, Verdict};
pub use contents::Content;
pub use list_store::ListStore;
pub use listed::deletions_to;
pub use listings::{Item, ListFault, RowSink, SinkFault, What};
pub use planner_machine::{Answer, Bounds, Job, JobText};
pub use queries::{LastQuery, last_queries_of};
pub use spans::between;
pub use staged::Staged;
pub use stores::{Need, PlanStore, StoreFault};
pub use views::View;
