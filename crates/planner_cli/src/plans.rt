//! Changes of the long-term plan by what the definitions name.
ghost use Rattle.std.specs.Prelude.{◌≡◌};
ghost use Rattle.planner_machine.specs.Content.{Content};
ghost use Rattle.planner_machine.specs.Statement.{decision_of};
ghost use Rattle.plan_store.specs.Views.{Shows};
ghost use Rattle.plan_store.specs.declared.stores.Need.TheVariants.{Definitions};
ghost use Rattle.long_term_plan.specs.Early.{IsRefusedEarly};
ghost use Rattle.planner_cli.specs.Changes.{plan_change};
ghost use Rattle.planner_cli.specs.Verdicts.{need_of_plan};

use crate::decisions::Decide;
use occurrences::Refusal;
use plan_store::{Need, Verdict, View};
use planner_cli_stream::PlanFunction;
use std::alloc::{AllocError, Global};
use work_calendars::Moment;

impl Decide for PlanFunction {
    ghost change = { λ function. plan_change function };

    ghost is_end = { λ function c end. Unit {0} };

    ghost sees = { λ function end. need_of_plan function };

    fn looks_ahead(&self) -> bool {
        true
    }

    fn early(&self, view: &View<'_>) -> Option<Refusal> {
        plan_refusal(view, self)
    }

    fn end(&self, _alloc: Global, _view: &View<'_>) -> Result<Option<Moment>, AllocError> {
        Ok(None)
    }

    fn need(&self, _end: Option<Moment>) -> Need {
        match self {
            PlanFunction::Create { .. } | PlanFunction::Extend { .. } | PlanFunction::ModifyAll =>
                Need::LongTerm(None),
            PlanFunction::ModifyOne { app } => Need::LongTerm(Some(*app)),
        }
    }

    fn decide(
        self,
        alloc: Global,
        view: &View<'_>,
        _end: Option<Moment>,
    ) -> Result<Verdict, AllocError> {
        match self {
            PlanFunction::Create { from, to } => long_term_plan::create(alloc, view, from, to),
            PlanFunction::Extend { to } => long_term_plan::extend(alloc, view, to),
            PlanFunction::ModifyAll => long_term_plan::modify_all(alloc, view),
            PlanFunction::ModifyOne { app } => long_term_plan::modify_one(alloc, view, &app),
        }
    }
}

// Why a change of the long-term plan is refused by the bounds and its days, if it is.
fn plan_refusal(view: &View<'_>, function: &PlanFunction) -> Option<Refusal>
    ensures { (c : Content) → Shows Definitions view.now c
        → IsRefusedEarly (decision_of (plan_change function.now)) c result }
{
    match function {
        PlanFunction::Create { from, to } => long_term_plan::create_refusal(view, *from, *to),
        PlanFunction::Extend { to } => long_term_plan::extend_refusal(view, *to),
        PlanFunction::ModifyAll | PlanFunction::ModifyOne { .. } => {
            long_term_plan::modify_refusal(view)
        }
    }
}
