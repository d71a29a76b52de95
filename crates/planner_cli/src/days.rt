//! `days`: the days that an application's run cycles name.
ghost use Rattle.std.specs.Prelude.{◌≡◌, ◌↔◌, ◌≤◌, ℕ, IsTrue, IfErr, IfNone, IfOk, IfSome, OnOk};
ghost use Rattle.work_calendars.specs.Day.{last_kept_day};
ghost use Rattle.app_occurrences.specs.Active.{IsActive, LacksCalendar, LacksPeriod};
ghost use Rattle.occurrences.specs.declared.refusal.Refusal.{Refusal as RefusalValue};
ghost use Rattle.planner_machine.specs.Content.{Content};
ghost use Rattle.planner_machine.specs.Days.{AreBadDays, DaysRefused, ListsDays};
ghost use Rattle.planner_machine.specs.Decision.{IsLeastRefusal};
ghost use Rattle.planner_machine.specs.Statement.{Days as DaysStatement};
ghost use Rattle.planner_cli.specs.Replies.{Prints, AnswerLines as ReplyValue};
ghost use Rattle.planner_cli.specs.Steps.{Serves};
ghost use Rattle.planner_cli.specs.Stores.{AnswersBy};

use crate::answers::{Printed, print_answer};
use crate::rows::days_rows;
use app_definitions::{Application, Definitions};
use app_occurrences::{
    CalendarIndexes, active, calendar_name, lacks_calendar, lacks_period, named_by_index,
};
use occurrences::{Refusal, Reply};
use plan_store::{Need, PlanStore, StoreFault, View};
use planner_machine::LONGEST_WINDOW;
use run_cycles::Named;
use std::alloc::{AllocError, Global};
use work_calendars::{App, Day};

/// Lists the days that an application's run cycles name. A cache keeps the indexes of calendars that were used lately.
pub(crate) fn answer_days<S: PlanStore>(
    alloc: Global,
    store: &mut S,
    kept: &mut CalendarIndexes,
    app: &App,
    from: Day,
    to: Day,
) -> Result<Printed, StoreFault>
    ensures { AnswersBy S.PlanStore store.old store.new result
        (Serves (DaysStatement app.now from to) (S.content store.old)) }
{
    let view = store.read_window(alloc, Need::Definitions)?;
    Ok(days(alloc, view.definitions(), kept, app, from, to)?)
}

// Lists the days that an application's run cycles name.
fn days(
    alloc: Global,
    all: &Definitions,
    kept: &mut CalendarIndexes,
    app: &App,
    from: Day,
    to: Day,
) -> Result<Printed, AllocError>
    ensures { IfOk result (λ printed. (c : Content) → c.definitions ≡ all.now → (reply : ReplyValue)
        × Serves (DaysStatement app.now from to) c reply c × Prints reply printed.text.items printed.is_accepted) }
{
    match named_days(alloc, all, kept, app, from, to)? {
        Ok(named) => {
            let rows = days_rows(alloc, &named)?;
            print_answer(alloc, rows, &Ok(Reply::Rows { rows: named.len() }))
        }
        Err(refusal) => print_answer(alloc, Vec::new(alloc), &Err(refusal)),
    }
}

// The occurrences that an application's run cycles name from `from` to `to`, by day and time, or the refusal of the
// least number that holds. Errs only if memory is refused.
fn named_days(
    alloc: Global,
    all: &Definitions,
    kept: &mut CalendarIndexes,
    app: &App,
    from: Day,
    to: Day,
) -> Result<Result<Vec<Named>, Refusal>, AllocError>
    ensures listed { IfOk result (λ answer.
        IfOk answer (λ list. ListsDays all.now app.now from to list.items)) }
    ensures good { IfOk result (λ answer. OnOk answer ((c : Content) → c.definitions ≡ all.now
        → (r : RefusalValue)
        → ¬ (DaysRefused app.now from to c r))) }
    ensures refused { IfOk result (λ answer. IfErr answer (λ r. (c : Content)
        → c.definitions ≡ all.now
        → IsLeastRefusal (DaysRefused app.now from to c) r)) }
{
    let application = match application_for(all, app, from, to) {
        Ok(application) => application,
        Err(refusal) => return Ok(Err(refusal)),
    };
    let calendar = calendar_name(all, &application);
    let index = kept.of(alloc, all, &calendar)?;
    let list = named_by_index(alloc, all, index.index(), app, &application, from, to)?;
    kept.keep(index)?;
    Ok(Ok(list))
}

// The application that a `days` statement names, if nothing refuses the statement; else the refusal of the least
// number that holds.
fn application_for(all: &Definitions, app: &App, from: Day, to: Day) -> Result<Application, Refusal>
    ensures active { IfOk result (IsActive all.now app.now) }
    ensures planned { OnOk result (to ≤ last_kept_day) }
    ensures good { OnOk result ((c : Content) → c.definitions ≡ all.now → (r : RefusalValue)
        → ¬ (DaysRefused app.now from to c r)) }
    ensures refused { IfErr result (λ r. (c : Content) → c.definitions ≡ all.now
        → IsLeastRefusal (DaysRefused app.now from to c) r) }
{
    match active(all, app) {
        Some(application) => {
            if let Some(refusal) = missing_definition(all, app, &application) {
                return Err(refusal);
            }
            if are_bad_days(from, to) {
                return Err(Refusal::DatesOutOfRange);
            }
            Ok(application)
        }
        None => {
            if are_bad_days(from, to) {
                return Err(Refusal::DatesOutOfRange);
            }
            Err(Refusal::NoActiveApplication)
        }
    }
}

// Whether the days are out of order, past the last planning day, or too many.
fn are_bad_days(from: Day, to: Day) -> bool
    ensures { IsTrue result ↔ AreBadDays from to }
{
    to < from || to > Day::LAST_PLANNING || from.number() + LONGEST_WINDOW <= to.number()
}

// The refusal of the least number that the definitions of an active application give, if they give one.
fn missing_definition(all: &Definitions, app: &App, application: &Application) -> Option<Refusal>
    requires { IsActive all.now app.now application.now }
    ensures some { IfSome result (λ r. (c : Content) → c.definitions ≡ all.now → (from to : ℕ)
        → IsLeastRefusal (DaysRefused app.now from to c) r) }
    ensures none { IfNone result ((¬ (LacksCalendar all.now application.now))
        × ¬ (LacksPeriod all.now app.now)) }
{
    if lacks_calendar(all, application) {
        return Some(Refusal::CalendarUndefined { app: *app });
    }
    if lacks_period(all, app) {
        return Some(Refusal::PeriodUndefined { app: *app });
    }
    None
}
