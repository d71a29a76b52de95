ghost use Rattle.std.specs.Prelude.{IfOk, IsTrue, None, ◌↔◌};
ghost use Rattle.planner_machine.specs.Content.{Content};
ghost use Rattle.planner_machine.specs.Extend.{IsBadLastDay, extend};
ghost use Rattle.planner_machine.specs.Sound.{IsSound};
ghost use Rattle.plan_store.specs.Verdicts.{VerdictIs};
ghost use Rattle.plan_store.specs.Views.{Shows};
ghost use Rattle.long_term_plan.specs.Early.{IsRefusedEarly};

use crate::creation::midnight;
use crate::lists::defined_lists;
use crate::making::add_days;
use crate::refusals::{dates_or_lacking, lacking_definition};
use external_dependencies::find_loop;
use occurrences::Refusal;
use plan_store::{Need, Verdict, View};
use planner_machine::{Bounds, LONGEST_WINDOW};
use std::alloc::{AllocError, Global};
use work_calendars::Day;

/// `ltp-extend`: the long-term plan ends with a later day, and all lists that are defined come into force. Refused
/// where
/// there is no plan (20), where an active application lacks its calendar (22) or a period (23), where the day isn't
/// later or lies past a limit (24), where the lists have a loop (25), and where the rows would be too many (31).
pub fn extend(alloc: Global, view: &View<'_>, to: Day) -> Result<Verdict, AllocError>
    ensures { IfOk result (λ verdict. (c : Content) → Shows (Need.LongTerm None) view.now c → IsSound c
        → VerdictIs (extend to) c verdict) }
{
    let Some(bounds) = view.bounds() else {
        return Ok(Verdict::Refused(Refusal::NoPlan));
    };
    if let Some(refusal) = lacking_definition(view.definitions()) {
        return Ok(Verdict::Refused(refusal));
    }
    if is_bad_last_day(&bounds, to) {
        return Ok(Verdict::Refused(Refusal::DatesOutOfRange));
    }
    let links = defined_lists(alloc, view.definitions())?;
    if let Some(app) = find_loop(alloc, &links)? {
        return Ok(Verdict::Refused(Refusal::Loop { app }));
    }
    let Some(first) = bounds.last_day.next() else {
        unreachable!()
    };
    let later = Bounds {
        last_day: to,
        ..bounds
    };
    add_days(alloc, view, &later, links, midnight(first))
}

/// Why `ltp-extend` is refused by the bounds and the day, which a window of the definitions shows: there is no plan (20),
/// or the day isn't later or lies past a limit (24), where no active application lacks a definition (22, 23).
pub fn extend_refusal(view: &View<'_>, to: Day) -> Option<Refusal>
    ensures { (c : Content) → Shows Need.Definitions view.now c
        → IsRefusedEarly (extend to) c result }
{
    let Some(bounds) = view.bounds() else {
        return Some(Refusal::NoPlan);
    };
    if !is_bad_last_day(&bounds, to) {
        return None;
    }
    Some(dates_or_lacking(view.definitions()))
}

// Whether the plan of these bounds can't end with that day from now on.
fn is_bad_last_day(bounds: &Bounds, to: Day) -> bool
    ensures { IsTrue result ↔ IsBadLastDay bounds.now to }
{
    to <= bounds.last_day
        || to > Day::LAST_PLANNING
        || to.number() > bounds.plan_end.day().number() + LONGEST_WINDOW
}
