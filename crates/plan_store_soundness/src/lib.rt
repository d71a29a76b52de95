//! Whether what a planner keeps is sound, where anyone may have written what it was read from.
//!
//! ```text
//! let mut content = Content::new(alloc);
//! assert!(rt; is_sound(alloc, &content)?);
//! // a serial is issued, and no row has it
//! content.issued = 1;
//! assert!(rt; !is_sound(alloc, &content)?);
//! ```
#![tactic(auto)]

mod arrivals;
mod bounds;
mod closed;
mod depths;
mod jobs;
mod keys;
mod links;
mod listing;
mod pairs;
mod ranges;
mod rows;
mod rules;
mod seats;
mod sizes;
mod sound;

pub use sound::is_sound;
