//! Tests of the crates of days below, `work_calendars`, `plan_periods`, `run_cycles` and `occurrences`, by their public
//! calls alone. The gate proves a crate a second time with its tests; this one has nothing else to prove.
#![tactic(auto)]

#[cfg(test)]
mod calendars;
#[cfg(test)]
mod cycles;
#[cfg(test)]
mod examples;
#[cfg(test)]
mod occurrence_rows;
#[cfg(test)]
mod periods;
