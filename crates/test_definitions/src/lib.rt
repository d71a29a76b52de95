//! Tests of the crates that read a stream and its definitions, `statement_words`, `app_definitions` and
//! `external_dependencies`, by their public calls alone: what the streams of `test_streams` can't show. The gate proves
//! a crate a second time with its tests; this one has nothing else to prove.
#![tactic(auto)]

#[cfg(test)]
mod blocks;
#[cfg(test)]
mod dependencies;
#[cfg(test)]
mod examples;
#[cfg(test)]
mod names;
#[cfg(test)]
mod words;
