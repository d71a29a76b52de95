//! Tests of the crates above the planner's machine, by their public calls alone, where no stream can show it: the line
//! of a row that no stream makes, what windows show, what a run reads of its store and which pairs it changes, and runs
//! whose writer fails as no device of a program does. The gate proves a crate a second time with its tests; this one has
//! nothing else to prove.
#![tactic(auto)]

#[cfg(test)]
mod examples;
#[cfg(test)]
mod listings;
#[cfg(test)]
mod recorded;
#[cfg(test)]
mod windows;
#[cfg(test)]
mod writers;
