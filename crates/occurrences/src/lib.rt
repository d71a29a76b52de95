//! Occurrences of applications: their serials, keys and rows, the places and statuses that they go through,
//! and what a statement answers.
//!
//! A [`Row`] is one run of an application that the plans know of. It is in one [`Place`] at a time, in the current
//! plan with a [`Status`], which changes by the table of [`next_status`] alone:
//!
//! ```text
//! let waiting = Place::Current(Status::W);
//! assert!(rt; waiting.is_live() && waiting.is_open() && !waiting.is_complete());
//! assert_eq!(rt; next_status(Status::W, Action::Start), Some(Status::S));
//! assert_eq!(rt; next_status(Status::S, Action::Delete), None);
//! ```
#![tactic(auto)]

mod key;
mod laws;
mod limits;
mod place;
mod refusal;
mod reply;
mod row;
mod serial;
mod status;

pub use key::Key;
pub use laws::{key_order, places, row_order, status_changes};
pub use limits::limits_hold;
pub use place::{CurrentRow, Deletion, Place, Reason};
pub use refusal::Refusal;
pub use reply::Reply;
pub use row::{Origin, Row};
pub use serial::{GREATEST_SERIAL, Serial};
pub use status::{Action, Status, next_status};
