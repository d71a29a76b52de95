//! How the content of a store differs from what a run of a stream over lists leaves, for trials of other stores.
#![tactic(auto)]

mod contents;
mod definitions;

pub use contents::has_run;
