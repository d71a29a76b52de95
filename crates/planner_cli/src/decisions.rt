//! Statements that change something, each by its family, and the verdict on one.
ghost use Rattle.std.specs.Prelude.{◌≡◌, ℕ, IfOk, IfSome, Option, false, None};
ghost use Rattle.planner_machine.specs.Content.{Content};
ghost use Rattle.planner_machine.specs.Sound.{IsSound};
ghost use Rattle.planner_machine.specs.Statement.{Change as ChangeValue, decision_of};
ghost use Rattle.plan_store.specs.Verdicts.{VerdictIs};
ghost use Rattle.plan_store.specs.Views.{Shows};
ghost use Rattle.plan_store.specs.declared.changes.Verdict.TheVariants.{Refused};
ghost use Rattle.plan_store.specs.declared.stores.Need.{Need as NeedValue};
ghost use Rattle.plan_store.specs.declared.stores.Need.TheVariants.{Definitions};
ghost use Rattle.planner_cli.specs.Stores.{LooksBy};
ghost use Rattle.planner_cli.specs.Verdicts.{IsAhead};

use occurrences::Refusal;
use plan_store::{Need, PlanStore, StoreFault, Verdict, View};
use std::alloc::{AllocError, Global};
use work_calendars::Moment;

/// A family of statements that change something: what a decision has to see, and the verdict.
pub(crate) trait Decide {
    // the change of the machine that it requests
    ghost change: { Self → ChangeValue };

    // where its daily plan ends, or that there is no end; of other statements, nothing
    ghost is_end: { Self → Content → Option ℕ → Type 0 };

    // what its decision has to see, where its daily plan has that end
    ghost sees: { Self → Option ℕ → NeedValue };

    /// Whether the bounds and the definitions are looked at before a row is read.
    fn looks_ahead(&self) -> bool
        ensures { result ≡ false → (c : Content) → is_end self.now c None };

    /// Why it is refused before a row is read, if it is.
    fn early(&self, view: &View<'_>) -> Option<Refusal>
        ensures { IfSome result (λ refusal. (c : Content) → Shows Definitions view.now c
            → VerdictIs (decision_of (change self.now)) c (Refused refusal)) };

    /// Where its daily plan ends, which a window of the definitions gives.
    fn end(&self, alloc: Global, view: &View<'_>) -> Result<Option<Moment>, AllocError>
        ensures { IfOk result (λ end. (c : Content) → Shows Definitions view.now c
            → is_end self.now c end) };

    /// What the decision has to see, if a daily plan has that end.
    fn need(&self, end: Option<Moment>) -> Need
        ensures { result ≡ sees self.now end };

    /// The verdict on it, if a daily plan has that end.
    fn decide(
        self,
        alloc: Global,
        view: &View<'_>,
        end: Option<Moment>,
    ) -> Result<Verdict, AllocError>
        ensures { IfOk result (λ verdict. (c : Content) → is_end self c end
            → Shows (sees self end) view.now c → IsSound c
            → VerdictIs (decision_of (change self)) c verdict) };
}

/// The verdict on a statement over a store. What the bounds and its days refuse is refused before a row is read.
pub(crate) fn verdict_over<S: PlanStore, D: Decide + Drop>(
    alloc: Global,
    store: &mut S,
    statement: D,
) -> Result<Verdict, StoreFault>
    ensures { LooksBy S.PlanStore store.old store.new result
        (λ verdict c. VerdictIs (decision_of (D.change statement)) c verdict) }
{
    match look_ahead(alloc, store, &statement)? {
        Ok(end) => look(alloc, store, end, statement),
        Err(refusal) => Ok(Verdict::Refused(refusal)),
    }
}

/// Looks at the bounds and the definitions, if the statement does. Returns where its daily plan ends, or why it is
/// refused. No row is read, and nothing of history or of the deletions.
pub(crate) fn look_ahead<S: PlanStore, D: Decide>(
    alloc: Global,
    store: &mut S,
    statement: &D,
) -> Result<Result<Option<Moment>, Refusal>, StoreFault>
    ensures { LooksBy S.PlanStore store.old store.new result (λ ahead c.
        IsAhead (decision_of (D.change statement.now)) (D.is_end statement.now c) c ahead) }
{
    if !statement.looks_ahead() {
        return Ok(Ok(None));
    }
    let view = store.read_window(alloc, Need::Definitions)?;
    Ok(ahead(alloc, &view, statement)?)
}

// The same in a window of the definitions.
fn ahead<D: Decide>(
    alloc: Global,
    view: &View<'_>,
    statement: &D,
) -> Result<Result<Option<Moment>, Refusal>, AllocError>
    ensures { IfOk result (λ ahead. (c : Content) → Shows Definitions view.now c
        → IsAhead (decision_of (D.change statement.now)) (D.is_end statement.now c) c ahead) }
{
    match statement.early(view) {
        Some(refusal) => Ok(Err(refusal)),
        None => Ok(Ok(statement.end(alloc, view)?)),
    }
}

// The verdict where the end of a daily plan is known.
fn look<S: PlanStore, D: Decide + Drop>(
    alloc: Global,
    store: &mut S,
    end: Option<Moment>,
    statement: D,
) -> Result<Verdict, StoreFault>
    requires { S.is_honest store.old → D.is_end statement (S.content store.old) end }
    ensures { LooksBy S.PlanStore store.old store.new result
        (λ verdict c. VerdictIs (decision_of (D.change statement)) c verdict) }
{
    let need = statement.need(end);
    let view = store.read_window(alloc, need)?;
    Ok(statement.decide(alloc, &view, end)?)
}
