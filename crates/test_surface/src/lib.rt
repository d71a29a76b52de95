//! The public surface that the product promises, in its spelling: each path, type, field and variant, and each call with
//! the order of its arguments and its result, used in a function that has to compile. What the crates spell in another
//! way has a comment that begins with "Here"; `docs/DECISIONS.md` has the reason. The gate proves a crate a second time
//! with its tests; this one has nothing else to prove.
#![tactic(auto)]

#[cfg(test)]
mod calendars;
#[cfg(test)]
mod cycles;
#[cfg(test)]
mod decisions;
#[cfg(test)]
mod definitions;
#[cfg(test)]
mod dependencies;
#[cfg(test)]
mod lines;
#[cfg(test)]
mod migrations;
#[cfg(test)]
mod periods;
#[cfg(test)]
mod rows;
#[cfg(test)]
mod runs;
#[cfg(test)]
mod stores;
#[cfg(test)]
mod tables;
