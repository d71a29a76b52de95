ghost use Rattle.std.specs.Prelude.{◌≡◌, ℕ, ◌↔◌, ◌+◌, ◌<◌, ◌≤◌, All, Some, IfOk, IfSome, IsTrue};
ghost use Rattle.std.specs.Prelude.{length, slice_index_or};
ghost use Rattle.work_calendars.specs.Day.{last_kept_day};
ghost use Rattle.work_calendars.specs.WorkIndex.{is_work_in};
ghost use Rattle.run_cycles.specs.declared.named.Named.{Named};
ghost use Rattle.run_cycles.specs.declared.namings.Naming.{Naming};
ghost use Rattle.run_cycles.specs.Naming.{DecidesAt, InOrder, IsDecidedBefore, IsTogether, named_by};
ghost use Rattle.run_cycles.specs.Occurrence.{HaveOwnNames, ListsInOrder, ListsOccurrences, deadline_of};

use crate::namings::{Given, Naming, all_namings};
use crate::{Deadline, Named, Periods, RunCycle};
use std::alloc::{AllocError, Global};
use work_calendars::{Day, Minute, Moment, WorkIndex};

// The moment of a deadline, for an occurrence of the day.
fn moment_of_deadline(day: Day, deadline: Deadline) -> Moment
    requires { day ≤ last_kept_day }
    ensures { result ≡ deadline_of day deadline }
{
    let last = Day::from_number(day.number() + u32::from(deadline.days)).unwrap();
    Moment::new(last, deadline.time)
}

// The occurrence that is given on the day and at the time.
fn named_by(day: Day, time: Minute, given: Given) -> Named
    requires { day ≤ last_kept_day }
    ensures { result ≡ named_by day time given }
{
    Named {
        day,
        time,
        run_cycle: given.run_cycle,
        deadline: moment_of_deadline(day, given.deadline),
    }
}

// Whether both are of one day and time.
fn are_together(a: &Naming, b: &Naming) -> bool
    ensures { IsTrue result ↔ IsTogether a.now b.now }
{
    a.day == b.day && a.time == b.time
}

// Whether the naming at the place is the first of its day and time.
fn is_first(namings: &[Naming], place: usize) -> bool
    requires { place < length namings.now }
    ensures { IsTrue result ↔ ((j : ℕ) (z : Naming) → j + 1 ≡ place
        → ¬ (IsTogether (slice_index_or namings.now j z) (slice_index_or namings.now place z))) }
{
    place == 0 || !are_together(&namings[place - 1], &namings[place])
}

// The occurrence that the naming at the place gives, if it is the first of its day and time.
fn decided(namings: &[Naming], place: usize) -> Option<Named>
    requires place { place < length namings.now }
    requires planned { All (λ x. x.day ≤ last_kept_day) namings.now }
    ensures found { IfSome result (λ x. DecidesAt namings.now place x) }
    ensures only { (x : Named) → DecidesAt namings.now place x → result ≡ Some x }
{
    if !is_first(namings, place) {
        return None;
    }
    let Naming { day, time, given } = namings[place];
    match given {
        Some(given) => Some(named_by(day, time, given)),
        None => None,
    }
}

// What the first naming of each day and time gives.
fn all_decided(alloc: Global, namings: &[Naming]) -> Result<Vec<Named>, AllocError>
    requires planned { All (λ x. x.day ≤ last_kept_day) namings.now }
    requires order { InOrder namings.now }
    ensures { IfOk result (λ list.
        ListsInOrder (IsDecidedBefore namings.now (length namings.now)) list.items) }
{
    let mut list = Vec::new(alloc);
    for place in 0..namings.len() {
        if let Some(named) = decided(namings, place) {
            list.push(named)?;
        }
    }
    Ok(list)
}

/// The named occurrences of the days from `from` to `to`, by day and time, none twice; none where `to` is before
/// `from`.
///
/// An occurrence is at a day and time at which some run cycle of type N names the day and no run cycle of type X does.
/// It has the run cycle of least name among those of type N, and the deadline of that. The run cycles are those of one
/// application. A run cycle whose period is not among `periods` names nothing.
pub fn generate(
    alloc: Global,
    cycles: &[RunCycle],
    periods: &Periods,
    index: &WorkIndex,
    from: Day,
    to: Day,
) -> Result<Vec<Named>, AllocError>
    requires names { HaveOwnNames cycles.now }
    requires planned { to ≤ last_kept_day }
    ensures { IfOk result
        (λ list. ListsOccurrences cycles.now periods.now
        (is_work_in index.now) from to list.items) }
{
    let namings = all_namings(alloc, cycles, periods, index, from, to)?;
    let list = all_decided(alloc, &namings)?;
    Ok(list)
}
