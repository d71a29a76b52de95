//! What the rows of the tables encode: facts, and the content that has exactly these facts.
//!
//! ```text
//! let lists = read_lists(alloc, &mut conn)?.ok_or("malformed rows")?;
//! let content = content_of_lists(alloc, Definitions::new(alloc), lists)?;
//! assert!(rt; content.ltp.is_empty() && content.bounds.is_none());
//! assert_eq!(rt; content.history.len(), 2);
//! ```
#![tactic(auto)]

mod answers;
mod cells;
mod collecting;
mod contents;
mod decode;
mod jobs;
mod links;
mod lists;
mod meta;
mod order;
mod pairs;
mod parts;
mod reading;
mod tables;

pub use contents::content_of_lists;
pub use decode::Decode;
pub use lists::{PlanLists, PlanRows};
pub use meta::Meta;
pub use order::place_of;
pub use parts::TablePart;
pub use reading::read_lists;
