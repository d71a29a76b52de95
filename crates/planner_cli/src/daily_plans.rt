//! Daily plans. A window of the definitions gives the moment where one ends, and its own window reaches to that.
ghost use Rattle.std.specs.Prelude.{◌≡◌};
ghost use Rattle.daily_planning.specs.DailyPlans.{daily_need, plan_end_of};
ghost use Rattle.planner_cli.specs.Changes.{daily_change};
ghost use Rattle.planner_cli.specs.Verdicts.{IsEnd};

use crate::decisions::Decide;
use crate::kinds::count_of;
use occurrences::Refusal;
use plan_store::{Need, Verdict, View};
use planner_cli_stream::DailyFunction;
use planner_machine::Bounds;
use std::alloc::{AllocError, Global};
use work_calendars::Moment;

impl Decide for DailyFunction {
    ghost change = { λ function. daily_change function };

    ghost is_end = { λ function c end. IsEnd c function end };

    ghost sees = { λ function end. daily_need end };

    fn looks_ahead(&self) -> bool {
        true
    }

    fn early(&self, _view: &View<'_>) -> Option<Refusal> {
        None
    }

    fn end(&self, alloc: Global, view: &View<'_>) -> Result<Option<Moment>, AllocError> {
        match self {
            DailyFunction::Extend { to } => Ok(Some(*to)),
            DailyFunction::ExtendBy { days, count } => {
                daily_planning::end_by(alloc, view, *days, count_of(*count))
            }
            DailyFunction::Replan => Ok(plan_end_of(view.bounds())),
        }
    }

    fn need(&self, end: Option<Moment>) -> Need {
        daily_planning::daily_need(end)
    }

    fn decide(
        self,
        alloc: Global,
        view: &View<'_>,
        end: Option<Moment>,
    ) -> Result<Verdict, AllocError> {
        match self {
            DailyFunction::Extend { to } => daily_planning::extend(alloc, view, to),
            DailyFunction::ExtendBy { .. } => daily_planning::extend_by(alloc, view, end),
            DailyFunction::Replan => daily_planning::replan(alloc, view),
        }
    }
}

// Where the current plan ends, if anything is planned.
fn plan_end_of(bounds: Option<Bounds>) -> Option<Moment>
    ensures { result ≡ plan_end_of bounds }
{
    match bounds {
        Some(bounds) => Some(bounds.plan_end),
        None => None,
    }
}
