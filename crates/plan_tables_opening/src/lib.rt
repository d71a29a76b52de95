//! A database of a plan is opened: it has the tables of the plan, or gets them, and they have a sound content.
//!
//! ```text
//! // an empty database gets the tables of a plan of which nothing is known
//! assert!(rt; !has_meta(&conn));
//! let content = open_content(alloc, &mut conn)?;
//! assert!(rt; content.bounds.is_none() && has_meta(&conn));
//! ```
#![tactic(auto)]

mod faults;
mod files;
mod judging;
mod key_indexes;
mod making;
mod opening;
mod rowid_texts;
mod rowids;
mod same_schema;
mod schemas;
mod standing;
mod stored;
mod table_places;
mod version_texts;
mod whole;

pub use faults::{OpenFault, fault_for, open_fault_number};
pub use files::{open_connection, open_connection_from, open_connection_with};
pub use key_indexes::has_only_key_indexes;
pub use opening::{is_known, open_content};
pub use rowid_texts::rowid_text;
pub use rowids::are_rowids;
pub use schemas::has_meta;
pub use standing::{can_make, stand_among};
pub use version_texts::version_text;
