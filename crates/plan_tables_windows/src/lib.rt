//! Lists that have a part of history and of the deletions, because all of it is stored elsewhere: what has to be
//! loaded before a window is lent or a change is made, so that the result is that of the whole.
//! What lists lack of history and of the deletions is fetched from the tables of a plan and loaded into them: before a
//! window is lent, and before a change is made.
//!
//! ```text
//! let mut lists = Content::new(alloc);
//! load_for_need(alloc, &mut conn, &mut lists, &Need::Key(key))?;
//! // of history the last row of A at the arrival of the key or before it
//! let rows = lists.history.of_app(&app);
//! assert_eq!(rt; rows.first().map(|row| row.serial.get()), Some(1));
//! assert_eq!(rt; lists.history.len(), 1);
//! ```
#![tactic(auto)]

mod fetching;
mod lasts;
mod loading;
mod needs;
mod unknown;

pub use needs::{load_for_change, load_for_need};
pub use unknown::{Unknown, unknown_for_key, unknown_of};
