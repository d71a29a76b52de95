ghost use Rattle.std.specs.Prelude.{◌≡◌, ◌↔◌, ◌≤◌, Any, All, Contains, IfOk, OnOk, map};
ghost use Rattle.work_calendars.specs.WorkIndex.{is_work_in};
ghost use Rattle.plan_periods.specs.Period.{IsSoundPeriod};
ghost use Rattle.run_cycles.specs.declared.namings.Naming.{Naming};
ghost use Rattle.run_cycles.specs.Naming.{AddsNamings, InOrder, IsNamingOf, IsNamingWith, RisesByDay};
ghost use Rattle.run_cycles.specs.Naming.{given_by, naming_on};

use crate::{CycleType, Deadline, JumpDays, Periods, RunCycle};
use itertools::Itertools;
use plan_periods::Period;
use std::alloc::{AllocError, Global};
use std::marker::Model;
use work_calendars::{CountedIndex, Day, Minute, Short, WorkIndex};

/// What a run cycle of type N gives: its name and its deadline.
#[derive(Clone, Copy, Debug, PartialEq, Eq, PartialOrd, Ord)]
pub(crate) struct Given {
    pub(crate) run_cycle: Short,
    pub(crate) deadline: Deadline,
}

/// A day and time that a run cycle names, with what it gives there, or none where it takes away. In their order, those
/// of one day and time come together: first what is taken away, then what is given, by the names of the run cycles. So
/// the first one decides.
#[derive(Clone, Copy, Debug, PartialEq, Eq, PartialOrd, Ord)]
pub(crate) struct Naming {
    pub(crate) day: Day,
    pub(crate) time: Minute,
    pub(crate) given: Option<Given>,
}

/// What one run cycle names, in order.
#[derive(Drop)]
struct Namings<'a> {
    days: JumpDays<'a>,
    time: Minute,
    given: Option<Given>,
}

impl<'a> Model for Namings<'a> {
    ghost use Rattle.std.specs.Prelude.{List, map};
    ghost use Rattle.run_cycles.specs.declared.namings.Naming.{Naming};
    ghost use Rattle.run_cycles.specs.Naming.{naming_on};

    ghost Value = { List Naming };

    ghost view = { λ n. map (naming_on n.time n.given) n.days.left };
}

impl<'a> Iterator for Namings<'a> {
    ghost use Rattle.std.specs.Iterator.{YieldsFirst, item_count, MakesProgress};
    ghost use Rattle.std.specs.Prelude.{⊤, List};
    ghost use Rattle.run_cycles.specs.declared.namings.Naming.{Naming};

    type Item = Naming;

    ghost next_gives = { YieldsFirst (λ (left : List Naming). left) };

    ghost remaining = { item_count (λ (left : List Naming). left) };

    fn next(&mut self) -> Option<Naming> {
        let day = self.days.next()?;
        Some(Naming {
            day,
            time: self.time,
            given: self.given,
        })
    }
}

// What the run cycle gives on the days that it names, or none where it takes away.
fn given_by(cycle: &RunCycle) -> Option<Given>
    ensures { result ≡ given_by cycle.now.kind cycle.now.name }
{
    match cycle.kind {
        CycleType::Normal(deadline) => Some(Given {
            run_cycle: cycle.name,
            deadline,
        }),
        CycleType::Negative(_) => None,
    }
}

// What the run cycle names, where these are its days.
fn namings_on<'a>(days: JumpDays<'a>, cycle: &RunCycle) -> Namings<'a>
    ensures { result ≡ map (naming_on cycle.now.ia
        (given_by cycle.now.kind cycle.now.name)) days.entry.left }
{
    let given = given_by(cycle);
    let time = cycle.ia;
    Namings { days, time, given }
}

// What the run cycle, whose period this is, names from the first day to the last.
fn namings_of<'a>(
    alloc: Global,
    cycle: &RunCycle,
    period: &Period,
    index: &'a WorkIndex,
    from: Day,
    to: Day,
) -> Result<Namings<'a>, AllocError>
    requires { IsSoundPeriod period.now }
    ensures each { IfOk result (λ list. (x : Naming) → Contains list x
        ↔ ((from ≤ x.day) × (x.day ≤ to) × IsNamingWith period.now (is_work_in index.now) x cycle.now)) }
    ensures rising { IfOk result RisesByDay }
{
    let days = JumpDays::new(alloc, cycle, period, CountedIndex::new(index), from, to)?;
    Ok(namings_on(days, cycle))
}

// Appends what the run cycle names from the first day to the last, if its period is there.
fn push_namings<'a>(
    sources: &mut Vec<Namings<'a>>,
    alloc: Global,
    cycle: &RunCycle,
    periods: &Periods,
    index: &'a WorkIndex,
    from: Day,
    to: Day,
) -> Result<(), AllocError>
    ensures each { OnOk result
        (AddsNamings (λ x. (from ≤ x.day) × (x.day ≤ to)
        × IsNamingOf periods.now (is_work_in index.now) x cycle.now)
        sources.old.items sources.new.items) }
    ensures rising { OnOk result (All RisesByDay sources.old.items
        → All RisesByDay sources.new.items) }
{
    if let Some(period) = periods.get(&cycle.period) {
        sources.push(namings_of(alloc, cycle, period, index, from, to)?)?;
    }
    Ok(())
}

// What each of the run cycles names from the first day to the last.
fn sources<'a>(
    alloc: Global,
    cycles: &[RunCycle],
    periods: &Periods,
    index: &'a WorkIndex,
    from: Day,
    to: Day,
) -> Result<Vec<Namings<'a>>, AllocError>
    ensures each { IfOk result (λ list. (x : Naming) → Any (λ source. Contains source x) list.items
        ↔ ((from ≤ x.day) × (x.day ≤ to) × Any (IsNamingOf periods.now (is_work_in index.now) x) cycles.now)) }
    ensures rising { IfOk result (λ list. All RisesByDay list.items) }
{
    let mut sources = Vec::with_capacity(alloc, cycles.len())?;
    for cycle in cycles {
        push_namings(&mut sources, alloc, cycle, periods, index, from, to)?;
    }
    Ok(sources)
}

// All that the sources name, in order.
fn merged(alloc: Global, sources: Vec<Namings>) -> Result<Vec<Naming>, AllocError>
    requires { All RisesByDay sources.items }
    ensures each { IfOk result
        (λ list. (x : Naming) → Contains list.items x
        ↔ Any (λ source. Contains source x) sources.entry.items) }
    ensures order { IfOk result (λ list. InOrder list.items) }
{
    let merge = sources.into_iter().kmerge(alloc)?;
    let list = merge.collect_vec(alloc)?;
    Ok(list)
}

/// All that the run cycles name from the first day to the last, in order.
pub(crate) fn all_namings(
    alloc: Global,
    cycles: &[RunCycle],
    periods: &Periods,
    index: &WorkIndex,
    from: Day,
    to: Day,
) -> Result<Vec<Naming>, AllocError>
    ensures each { IfOk result (λ list. (x : Naming) → Contains list.items x
        ↔ ((from ≤ x.day) × (x.day ≤ to) × Any (IsNamingOf periods.now (is_work_in index.now) x) cycles.now)) }
    ensures order { IfOk result (λ list. InOrder list.items) }
{
    let sources = sources(alloc, cycles, periods, index, from, to)?;
    let list = merged(alloc, sources)?;
    Ok(list)
}
