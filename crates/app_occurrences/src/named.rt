// The occurrences that the definitions name for an application.

ghost use Rattle.std.specs.Prelude.{◌≡◌, ◌≤◌, ℕ, IfOk};
ghost use Rattle.work_calendars.specs.Day.{last_kept_day};
ghost use Rattle.work_calendars.specs.WorkIndex.{is_work_in};
ghost use Rattle.app_occurrences.specs.NamedOccurrences.{AgreeOn, AreIndexesOf, ListsNamed, work_of};

use crate::applications::{calendar_name, cycles_of, period_name};
use crate::work_indexes::WorkIndexes;
use app_definitions::{Application, Definitions};
use run_cycles::{Named, Periods, RunCycle, generate};
use std::alloc::{AllocError, Global};
use work_calendars::{App, Day, WorkIndex};

// The periods that run cycles name, as far as they are defined.
fn periods_of(alloc: Global, all: &Definitions, cycles: &[RunCycle]) -> Result<Periods, AllocError>
    ensures { IfOk result (λ periods. AgreeOn all.now.periods periods cycles.now) }
{
    let mut periods = Periods::new(alloc);
    for cycle in cycles {
        if let Some(period) = all.periods.get(&period_name(&cycle.period)) {
            periods.insert(cycle.period, period.period().clone()?)?;
        }
    }
    Ok(periods)
}

/// The occurrences that an application's run cycles name from `from` to `to`, both counted, by day and time, no two of
/// one day and time. The index of its work days is one of those held, or is added to them.
pub fn named_occurrences(
    alloc: Global,
    all: &Definitions,
    indexes: &mut WorkIndexes,
    app: &App,
    application: &Application,
    from: Day,
    to: Day,
) -> Result<Vec<Named>, AllocError>
    requires planned { to ≤ last_kept_day }
    requires indexes { AreIndexesOf all.now indexes.old }
    ensures listed { IfOk result (λ list.
        ListsNamed all.now app.now application.now from to list.items) }
    ensures indexes { AreIndexesOf all.now indexes.new }
{
    let name = calendar_name(all, application);
    indexes.hold(alloc, all, &name)?;
    let index = indexes.get(&name).unwrap();
    named_by_index(alloc, all, index, app, application, from, to)
}

/// The same, by the index of the application's work days.
pub fn named_by_index(
    alloc: Global,
    all: &Definitions,
    index: &WorkIndex,
    app: &App,
    application: &Application,
    from: Day,
    to: Day,
) -> Result<Vec<Named>, AllocError>
    requires planned { to ≤ last_kept_day }
    requires index { (d : ℕ) → is_work_in index.now d ≡ work_of all.now application.now d }
    ensures { IfOk result (λ list. ListsNamed all.now app.now application.now from to list.items) }
{
    let cycles = cycles_of(all, app);
    let periods = periods_of(alloc, all, cycles)?;
    generate(alloc, cycles, &periods, index, from, to)
}
