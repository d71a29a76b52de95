//! Laws of statements: the values of a change are such as a line gives. Each function has no effect.
ghost use Rattle.planner_machine.specs.Laws.{IsWellFormed};
ghost use Rattle.planner_cli.specs.Changes.{change_of, plan_change};

use planner_cli_stream::{ChangeStatement, DailyFunction, PlanFunction};

/// Law: the same of a change of the long-term plan: a first day is a day.
pub(crate) fn plan_is_well_formed(function: &PlanFunction)
    ensures { IsWellFormed (plan_change function.now) }
{
    match function {
        PlanFunction::Create { from, .. } => {
            from.number();
        }
        PlanFunction::Extend { .. } => {}
        PlanFunction::ModifyAll => {}
        PlanFunction::ModifyOne { .. } => {}
    }
}

/// Law: the same of any change without data.
pub(crate) fn change_is_well_formed(change: &ChangeStatement)
    ensures { IsWellFormed (change_of change.now) }
{
    match change {
        ChangeStatement::Undefine { .. } => {}
        ChangeStatement::Plan(function) => plan_is_well_formed(function),
        ChangeStatement::Daily(DailyFunction::Extend { .. }) => {}
        ChangeStatement::Daily(DailyFunction::ExtendBy { .. }) => {}
        ChangeStatement::Daily(DailyFunction::Replan) => {}
        ChangeStatement::OnKey { .. } => {}
    }
}
