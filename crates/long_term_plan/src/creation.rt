ghost use Rattle.std.specs.Prelude.{IfOk, IsTrue, None, ◌↔◌, ◌≡◌};
ghost use Rattle.planner_machine.specs.Content.{Content, midnight};
ghost use Rattle.planner_machine.specs.Create.{AreBadPlanDays, create};
ghost use Rattle.planner_machine.specs.Sound.{IsSound};
ghost use Rattle.plan_store.specs.Verdicts.{VerdictIs};
ghost use Rattle.plan_store.specs.Views.{Shows};
ghost use Rattle.long_term_plan.specs.Early.{IsRefusedEarly};

use crate::lists::defined_lists;
use crate::making::add_days;
use crate::refusals::{dates_or_lacking, lacking_definition};
use external_dependencies::find_loop;
use occurrences::Refusal;
use plan_store::{Need, Verdict, View};
use planner_machine::{Bounds, LONGEST_WINDOW};
use std::alloc::{AllocError, Global};
use work_calendars::{Day, Minute, Moment};

/// `ltp-create`: the long-term plan from one day to another, both counted, with all lists that are defined in force.
/// Refused where there is a plan (21), where an active application lacks its calendar (22) or a period (23), where the
/// days are out of order or past a limit (24), where the lists have a loop (25), and where the rows would be too many
/// (31).
pub fn create(alloc: Global, view: &View<'_>, from: Day, to: Day) -> Result<Verdict, AllocError>
    ensures { IfOk result (λ verdict. (c : Content) → Shows (Need.LongTerm None) view.now c → IsSound c
        → VerdictIs (create from to) c verdict) }
{
    if view.bounds().is_some() {
        return Ok(Verdict::Refused(Refusal::PlanExists));
    }
    if let Some(refusal) = lacking_definition(view.definitions()) {
        return Ok(Verdict::Refused(refusal));
    }
    if are_bad_days(from, to) {
        return Ok(Verdict::Refused(Refusal::DatesOutOfRange));
    }
    let links = defined_lists(alloc, view.definitions())?;
    if let Some(app) = find_loop(alloc, &links)? {
        return Ok(Verdict::Refused(Refusal::Loop { app }));
    }
    let plan_end = midnight(from);
    let bounds = Bounds {
        first_day: from,
        last_day: to,
        plan_end,
    };
    add_days(alloc, view, &bounds, links, plan_end)
}

/// Why `ltp-create` is refused by the bounds and the days, which a window of the definitions shows: there is a plan (21),
/// or the days are out of order or past a limit (24), where no active application lacks a definition (22, 23).
pub fn create_refusal(view: &View<'_>, from: Day, to: Day) -> Option<Refusal>
    ensures { (c : Content) → Shows Need.Definitions view.now c
        → IsRefusedEarly (create from to) c result }
{
    if view.bounds().is_some() {
        return Some(Refusal::PlanExists);
    }
    if !are_bad_days(from, to) {
        return None;
    }
    Some(dates_or_lacking(view.definitions()))
}

// Whether a plan can't have these as its first and last day.
fn are_bad_days(from: Day, to: Day) -> bool
    ensures { IsTrue result ↔ AreBadPlanDays from to }
{
    to < from || to > Day::LAST_PLANNING || to.number() - from.number() > LONGEST_WINDOW
}

// The moment at which a day begins.
pub(crate) fn midnight(day: Day) -> Moment
    ensures { result ≡ midnight day }
{
    Moment::new(day, Minute::FIRST)
}
