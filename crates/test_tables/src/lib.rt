//! Tests of the crates of tables below, by their public calls alone. The gate proves a crate a second time with its
//! tests; this one has nothing else to prove.
#![tactic(auto)]

#[cfg(test)]
mod facts;
#[cfg(test)]
mod lookups;
