//! Run cycles that are not in the order of their names, which no stream shows: definitions keep them in that order.
use super::{cycle_of, index_of, periods_of, two_days};
use run_cycles::{Named, generate};
use std::alloc::{AllocError, Global};
use std::process::Abort;
use work_calendars::{Minute, Short};

// The name of the run cycle and the time of the deadline that an occurrence has.
fn given_by(named: &Named) -> (Short, Minute) {
    (named.run_cycle, named.deadline.minute())
}

// What is named on 2024-01-01, a Monday, by two run cycles of which the first has the greater name.
fn given_at_one_moment(rt: &impl Abort, alloc: Global) -> Result<Vec<(Short, Minute)>, AllocError> {
    let index = index_of(rt, alloc, "")?;
    let periods = periods_of(rt, alloc, "A 2024-01-01 7")?;
    let first = cycle_of(rt, alloc, "LATER 3 1 2024-01-01 - 08.00 0 18.00")?;
    let second = cycle_of(rt, alloc, "EARLIER 3 1 2024-01-01 - 08.00 0 12.00")?;
    assert!(rt; first.name != second.name, "one name");
    let (from, to) = two_days(rt, "2024-01-01 2024-01-01");
    assert!(rt; to.number() <= 36159, "past the last planning day");
    let named = generate(alloc, &[first, second], &periods, &index, from, to)?;
    let mut given = Vec::new(alloc);
    for one in &named {
        given.push(given_by(one))?;
    }
    Ok(given)
}

#[test]
fn the_least_name_gives_the_deadline(rt: HostRuntime) -> Result<(), AllocError> {
    let given = given_at_one_moment(&rt, rt.alloc())?;
    let name = Short::from_text("EARLIER").expect(&rt, "a short name");
    let noon = Minute::from_number(720).expect(&rt, "a time");
    assert!(rt; given.as_slice() == [(name, noon)].as_slice());
    Ok(())
}
