//! A window that ends before it begins, which no stream shows: `days` refuses it.
use super::{cycle_of, index_of, periods_of, two_days};
use run_cycles::generate;
use std::alloc::{AllocError, Global};
use std::process::Abort;

// How many occurrences a run cycle names from the second Monday of 2024 to the Sunday before it.
fn named_in_no_days(rt: &impl Abort, alloc: Global) -> Result<usize, AllocError> {
    let index = index_of(rt, alloc, "")?;
    let periods = periods_of(rt, alloc, "A 2024-01-01 7")?;
    let cycles = [cycle_of(rt, alloc, "RC 3 1,2,3 2024-01-01 - 08.00 0 18.00")?];
    let (from, to) = two_days(rt, "2024-01-08 2024-01-07");
    assert!(rt; to.number() <= 36159, "past the last planning day");
    Ok(generate(alloc, &cycles, &periods, &index, from, to)?.len())
}

#[test]
fn no_days_name_nothing(rt: HostRuntime) -> Result<(), AllocError> {
    assert_eq!(rt; named_in_no_days(&rt, rt.alloc())?, 0);
    Ok(())
}
