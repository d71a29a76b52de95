//! Tests of the crates that open and migrate the tables of a plan, by their public calls alone. The gate proves a crate a
//! second time with its tests; this one has nothing else to prove.
#![tactic(auto)]

#[cfg(test)]
mod plans;
