ghost use Rattle.std.specs.Prelude.{◌≡◌, ◌≢◌, ◌↔◌, Contains, IfOk, IsTrue, None, Some};
ghost use Rattle.planner_machine.specs.Act.{cp_action as decided};
ghost use Rattle.planner_machine.specs.Content.{Content};
ghost use Rattle.planner_machine.specs.Pairs.{IsCompleteAt};
ghost use Rattle.planner_machine.specs.Sound.{IsSound};
ghost use Rattle.plan_store.specs.Changes.{LeadsOn, pairs_after};
ghost use Rattle.plan_store.specs.Verdicts.{VerdictIs};
ghost use Rattle.plan_store.specs.Views.{HoldsOfSound, HoldsOfPairs, IsCurrentRow, Shows, shown};
ghost use Rattle.daily_planning.specs.Actions.{ArePairsActed, ChangesStatus, IsActedOn, IsLiveCurrent, LeadsToRowPairs};
ghost use Rattle.daily_planning.specs.Actions.{LivesAt, WaitsFor};

use external_dependencies::{Pair, PairChange, Pairs};
use occurrences::{Action, CurrentRow, Key, Refusal, Reply, Row, Serial, Status, next_status};
use plan_store::{Change, Need, Verdict, View};
use plan_store_pairs::{pairs_without, row_pairs_of, single};
use std::alloc::{AllocError, Global};

/// `cp-start`, `cp-complete`, `cp-fail`, `cp-reset`, `cp-delete`: the occurrence of the current plan that has the key
/// and isn't deleted gets the status that the action leads to. Refused where there is no plan (20), where there is no
/// such occurrence (28), where its status forbids the action (29), and a start where a predecessor isn't complete:
/// with the least of those (30).
pub fn cp_action(
    alloc: Global,
    view: &View<'_>,
    key: &Key,
    action: Action,
) -> Result<Verdict, AllocError>
    ensures { IfOk result (λ verdict. (c : Content) → Shows (Need.Key key.now) view.now c
        → IsSound c
        → VerdictIs (decided key.now action) c verdict) }
{
    if view.bounds().is_none() {
        return Ok(Verdict::Refused(Refusal::NoPlan));
    }
    let Some(current) = view.cp_row(key) else {
        return Ok(Verdict::Refused(Refusal::NoSuchOccurrence));
    };
    act(alloc, view, action, &current)
}

// The action on a live row of the current plan.
fn act(
    alloc: Global,
    view: &View<'_>,
    action: Action,
    current: &CurrentRow,
) -> Result<Verdict, AllocError>
    ensures { IfOk result (λ verdict. HoldsOfSound (Need.Key current.now.row.key) view.now (λ c.
        c.sets.bounds ≢ None → IsCurrentRow c.sets current.now.row.key (Some current.now)
        → VerdictIs (decided current.now.row.key action) c verdict)) }
{
    let Some(status) = next_status(current.status, action) else {
        return Ok(Verdict::Refused(Refusal::StatusForbids));
    };
    let serial = current.row.serial;
    if let Some(predecessor) = waited_for(view, action, current) {
        return Ok(Verdict::Refused(Refusal::PredecessorUncompleted {
            serial: predecessor.get(),
        }));
    }
    let changed = CurrentRow { status, ..*current };
    let change = status_change(alloc, view, action, &changed)?;
    Ok(Verdict::Done(
        change,
        Reply::Changed {
            serial: serial.get(),
            status,
        },
    ))
}

// The predecessor that forbids the action on a row of the current plan, which waits if it is to be started.
fn waited_for(view: &View<'_>, action: Action, current: &CurrentRow) -> Option<Serial>
    ensures { HoldsOfSound (Need.Key current.now.row.key) view.now (λ c.
        c.sets.cp current.now.row.serial ≡ Some current.now
        → (action ≡ Action.Start → current.now.status ≡ Status.W)
        → WaitsFor c action current.now.row.serial result) }
{
    if !is_start(action) {
        return None;
    }
    for pair in view.pairs_of_successor(current.row.serial) {
        if !is_complete(view, pair) {
            return Some(pair.predecessor);
        }
    }
    None
}

// Whether the action is a start.
fn is_start(action: Action) -> bool
    ensures { IsTrue result ↔ (action ≡ Action.Start) }
{
    action == Action::Start
}

// Whether the predecessor of a pair that is shown is complete. It is live, so it is in a plan or in history.
fn is_complete(view: &View<'_>, pair: &Pair) -> bool
    requires { Contains (shown view.now).pairs pair.now }
    ensures { HoldsOfPairs view.now (λ c. LivesAt c.sets pair.now.predecessor
        → IsTrue result ↔ IsCompleteAt c.sets pair.now.predecessor) }
{
    match view.predecessor(pair) {
        Some(placed) => placed.place.is_complete(),
        None => false,
    }
}

// The row of the current plan changes to this one.
fn status_change(
    alloc: Global,
    view: &View<'_>,
    action: Action,
    changed: &CurrentRow,
) -> Result<Change, AllocError>
    ensures { IfOk result (λ change. HoldsOfSound (Need.Key changed.now.row.key) view.now (λ c.
        IsActedOn c action changed.now → ChangesStatus c action changed.now change)) }
{
    let rows = single(alloc, *changed)?;
    let pairs = acted_pairs(alloc, view, action, changed)?;
    let mut change = Change::none(alloc);
    change.cp.changed = rows;
    change.pairs = pairs;
    Ok(change)
}

// The change of the pairs, where the row of the current plan changes to this one.
fn acted_pairs(
    alloc: Global,
    view: &View<'_>,
    action: Action,
    changed: &CurrentRow,
) -> Result<PairChange, AllocError>
    ensures pairs { IfOk result (λ change. HoldsOfSound (Need.Key changed.now.row.key) view.now (λ c.
        IsActedOn c action changed.now
        → ArePairsActed c action changed.now (pairs_after change c.pairs))) }
    ensures leads { IfOk result (λ change. HoldsOfSound (Need.Key changed.now.row.key) view.now (λ c.
        IsActedOn c action changed.now → LeadsOn c.pairs change)) }
{
    match action {
        Action::Start | Action::Complete | Action::Fail => Ok(PairChange {
            removed: Pairs::new(alloc),
            added: Pairs::new(alloc),
        }),
        Action::Reset => reset_pairs(alloc, view, &changed.row),
        Action::Delete => pairs_without(alloc, view, &changed.row),
    }
}

// The change of the pairs, where the live row of the current plan waits again: from those that it had to those with its
// nearest predecessors. No pair of another row is looked at.
fn reset_pairs(alloc: Global, view: &View<'_>, row: &Row) -> Result<PairChange, AllocError>
    ensures { IfOk result (λ change. HoldsOfSound (Need.Key row.now.key) view.now (λ c.
        IsLiveCurrent c.sets row.now → LeadsToRowPairs c row.now change)) }
{
    let mut had = Vec::new(alloc);
    had.extend_from_slice(view.pairs_of_successor(row.serial))?;
    let had = Pairs::from_vec(had);
    let now = row_pairs_of(alloc, view, row)?;
    PairChange::between(alloc, &had, &now)
}
