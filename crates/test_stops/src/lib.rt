//! What a stream does over files in memory of which one stops at some call, and a plan of schema 1 that is migrated over
//! such files.
#![tactic(auto)]

mod disks;
mod first_tables;
mod items;
mod migrated;
mod stops;
mod stores;
mod streams;

pub use items::middle_of;
pub use migrated::{Migrations, try_migrations};
pub use stops::{Stops, try_stops};
