ghost use Rattle.std.specs.Prelude.{◌≡◌, IfOk};

use super::cycle_of;
use plan_periods::Period;
use run_cycles::{MAX_OFFSETS, Offsets, Periods, RunCycle};
use std::alloc::{AllocError, Global};
use std::test::Fail;
use work_calendars::{Day, Short};

// Whether 5 and the offset are offsets.
fn takes(alloc: Global, offset: i16) -> Result<bool, AllocError> {
    let items = vec![in alloc; 5, offset]?;
    Ok(Offsets::from_vec(items).is_some())
}

// Whether a vector of this length holds offsets.
fn takes_so_many(alloc: Global, number: usize) -> Result<bool, AllocError> {
    let items = vec![in alloc; 7i16; number]?;
    Ok(Offsets::from_vec(items).is_some())
}

// How many offsets the copy has, if its vector equals what it was made of.
fn copied_offsets(offsets: &Offsets) -> Result<usize, AllocError> {
    let copy = offsets.clone()?;
    let number = copy.as_slice().len();
    let items = copy.into_vec();
    Ok(if items.as_slice() == offsets.as_slice() {
        number
    } else {
        0
    })
}

// The same of as many offsets as there may be.
fn copied_full(alloc: Global) -> Result<usize, AllocError> {
    let full = vec![in alloc; 7i16; MAX_OFFSETS]?;
    match Offsets::from_vec(full) {
        Some(offsets) => copied_offsets(&offsets),
        None => Ok(0),
    }
}

#[test]
fn offsets_have_their_range(rt: HostRuntime) -> Result<(), AllocError> {
    for (offset, good) in [
        (1, true),
        (1999, true),
        (-1, true),
        (-1999, true),
        (0, false),
        (2000, false),
        (-2000, false),
        (i16::MIN, false),
    ] {
        assert!(rt; takes(rt.alloc(), offset)? == good, "at {offset}");
    }
    for (number, good) in [(0, false), (MAX_OFFSETS, true), (65, false)] {
        assert!(rt;
            takes_so_many(rt.alloc(), number)? == good,
            "{number} of them"
        );
    }
    assert_eq!(rt; copied_full(rt.alloc())?, MAX_OFFSETS);
    Ok(())
}

// The length of the period's intervals, 0 where there is none under the name.
fn length_of(periods: &Periods, name: &Short) -> u16 {
    match periods.get(name) {
        Some(Period::All { interval, .. }) => *interval,
        Some(_) => 9999,
        None => 0,
    }
}

// Puts a period whose intervals have this length under the name.
fn put(periods: &mut Periods, name: Short, interval: u16) -> Result<(), AllocError> {
    let origin = Day::FIRST;
    let period = Period::All { origin, interval };
    if period.check().is_ok() {
        periods.insert(name, period)?;
    }
    Ok(())
}

// The lengths under both names where two periods were put under the first, and that under the first before that and
// after the names were taken away; and whether the second and the first were there to be taken away.
fn found(alloc: Global, week: Short, day: Short) -> Result<([u16; 4], [bool; 2]), AllocError> {
    let mut periods = Periods::new(alloc);
    let before = length_of(&periods, &week);
    put(&mut periods, week, 7)?;
    put(&mut periods, week, 14)?;
    let lengths = (length_of(&periods, &week), length_of(&periods, &day));
    let removed = [periods.remove(&day), periods.remove(&week)];
    let after = length_of(&periods, &week);
    Ok(([lengths.0, lengths.1, before, after], removed))
}

// The last one under a name stays.
#[test]
fn periods_are_found_by_name(rt: HostRuntime) -> Result<(), Fail> {
    let week = Short::from_text("WEEK").ok_or("a name")?;
    let day = Short::from_text("DAY").ok_or("a name")?;
    let (lengths, removed) = found(rt.alloc(), week, day)?;
    assert!(rt; lengths == [14, 0, 0, 0]);
    assert!(rt; removed == [false, true]);
    Ok(())
}

// A copy equals what it was made of.
fn copied(cycle: &RunCycle) -> Result<RunCycle, AllocError>
    ensures { IfOk result (λ copy. copy ≡ cycle.now) }
{
    cycle.clone()
}

// Whether the copy has the name of what it was made of, and the offsets 1 and -1.
fn is_copied(cycle: &RunCycle) -> Result<bool, AllocError> {
    let copy = copied(cycle)?;
    Ok(copy.name == cycle.name && copy.offsets.as_slice() == [1, -1].as_slice())
}

#[test]
fn run_cycles_are_copied(rt: HostRuntime) -> Result<(), AllocError> {
    let cycle = cycle_of(&rt, rt.alloc(), "RC 2 1,-1 2024-01-01 - 08.00 0 18.00")?;
    let holds = is_copied(&cycle)?;
    assert!(rt; holds);
    Ok(())
}
