ghost use Rattle.std.specs.Prelude.{◌≡◌, ◌↔◌, ℕ, IsTrue, IfOk, None, Some, map};
ghost use Rattle.std.specs.List.{filter};
ghost use Rattle.planner_machine.specs.Content.{Content};
ghost use Rattle.planner_machine.specs.DailyPlan.{deleted_in_plan, is_completed, is_deleted, is_uncompleted, waiting};
ghost use Rattle.planner_machine.specs.DailyExtend.{IsBadPlanEnd, dp_extend};
ghost use Rattle.planner_machine.specs.DailyExtendBy.{DailyExtendByRefused, dp_extend_by};
ghost use Rattle.planner_machine.specs.Decision.{IsLeastRefusal};
ghost use Rattle.planner_machine.specs.Replan.{dp_replan};
ghost use Rattle.planner_machine.specs.Sound.{IsSound};
ghost use Rattle.planner_machine.specs.declared.counts.Count.{Count as CountValue};
ghost use Rattle.plan_store.specs.Verdicts.{VerdictIs};
ghost use Rattle.plan_store.specs.Views.{Shows};
ghost use Rattle.plan_store.specs.declared.stores.Need.TheVariants.{Daily, Definitions};
ghost use Rattle.daily_planning.specs.DailyPlans.{DoesDaily, IsEndBy, daily_need, is_finished, plan_end_of};

use crate::new_ends::new_end;
use occurrences::{CurrentRow, Deletion, Reason, Refusal, Reply, Row, Status};
use plan_store::{Change, Need, Verdict, View};
use planner_machine::{Bounds, Count, daily_plans};
use std::alloc::{AllocError, Global};
use work_calendars::Moment;

/// What a daily plan to its end has to see; the definitions alone where it has no end.
pub fn daily_need(end: Option<Moment>) -> Need
    ensures { result ≡ daily_need end }
{
    match end {
        Some(to) => Need::Daily(to),
        None => Need::Definitions,
    }
}

/// `dp-extend`: a daily plan to the moment. It is refused where nothing is planned (20), and where the moment is not
/// after the plan end, past the end of the last day, or more hours on than the options allow (32).
pub fn extend(alloc: Global, view: &View<'_>, to: Moment) -> Result<Verdict, AllocError>
    ensures { IfOk result (λ verdict. (c : Content) → Shows (Daily to) view.now c → IsSound c →
        VerdictIs (dp_extend to) c verdict) }
{
    let Some(bounds) = view.bounds() else {
        return Ok(Verdict::Refused(Refusal::NoPlan));
    };
    let hours = view.definitions().options.max_extension_hours;
    if is_bad_end(&bounds, hours, to) {
        return Ok(Verdict::Refused(Refusal::PlanEndOutOfRange));
    }
    let (change, reply) = daily_plan(alloc, view, &bounds, to)?;
    Ok(Verdict::Done(change, reply))
}

/// The end of a `dp-extend` by days, as the definitions give it: the new end where there is a plan and the days give
/// one.
pub fn end_by(
    alloc: Global,
    view: &View<'_>,
    days: u8,
    count: Count,
) -> Result<Option<Moment>, AllocError>
    ensures { IfOk result (λ end. (c : Content) → Shows Definitions view.now c
        → IsEndBy c days count end) }
{
    match view.bounds() {
        Some(bounds) => new_end(alloc, view.definitions(), bounds.plan_end, days, count),
        None => Ok(None),
    }
}

/// `dp-extend` by days: the daily plan to the new end that they give, which `end_by` finds. It is refused where nothing
/// is planned (20), and where they give no new end, or one to which the plan can't be extended (32).
pub fn extend_by(alloc: Global, view: &View<'_>, end: Option<Moment>) -> Result<Verdict, AllocError>
    ensures { IfOk result (λ verdict. (days : ℕ) (count : CountValue) (c : Content)
        → IsEndBy c days count end → Shows (daily_need end) view.now c → IsSound c
        → VerdictIs (dp_extend_by days count) c verdict) }
{
    daily_plans();
    match end {
        Some(to) => extend(alloc, view, to),
        None => Ok(Verdict::Refused(without_end(view))),
    }
}

// Why there is no end of an extension by days: nothing is planned, or the days give none.
fn without_end(view: &View<'_>) -> Refusal
    ensures { (days : ℕ) (count : CountValue) (c : Content) → IsEndBy c days count None
        → Shows Definitions view.now c
        → IsLeastRefusal (DailyExtendByRefused days count c) result }
{
    match view.bounds() {
        Some(_) => Refusal::PlanEndOutOfRange,
        None => Refusal::NoPlan,
    }
}

/// `dp-replan`: a daily plan to the plan end as it is, which moves nothing out of the long-term plan. It is refused
/// where nothing is planned (20).
pub fn replan(alloc: Global, view: &View<'_>) -> Result<Verdict, AllocError>
    ensures { IfOk result (λ verdict. (c : Content)
        → Shows (daily_need (plan_end_of c.sets.bounds)) view.now c
        → IsSound c → VerdictIs dp_replan c verdict) }
{
    let Some(bounds) = view.bounds() else {
        return Ok(Verdict::Refused(Refusal::NoPlan));
    };
    let (change, reply) = daily_plan(alloc, view, &bounds, bounds.plan_end)?;
    Ok(Verdict::Done(change, reply))
}

// Whether a plan can't be extended to the moment.
fn is_bad_end(bounds: &Bounds, hours: u16, to: Moment) -> bool
    ensures { IsTrue result ↔ IsBadPlanEnd bounds.now hours to }
{
    let end = u64::from(bounds.plan_end.number());
    let last = (u64::from(bounds.last_day.number()) + 1) * 1440;
    let to = u64::from(to.number());
    to <= end || last < to || end + u64::from(hours) * 60 < to
}

// A daily plan to the moment: what it changes, and its reply.
fn daily_plan(
    alloc: Global,
    view: &View<'_>,
    bounds: &Bounds,
    to: Moment,
) -> Result<(Change, Reply), AllocError>
    ensures { IfOk result (λ done. (c : Content) → Shows (Daily to) view.now c → IsSound c →
        c.sets.bounds ≡ Some bounds.now → DoesDaily to c done.0 done.1) }
{
    let moved = view.ltp_before(alloc, to)?;
    let rows = view.cp().to_vec(alloc)?;
    let finished = finished_rows(alloc, &rows)?;
    let completed = completed_rows(alloc, &rows)?;
    let deleted = deleted_rows(alloc, &rows)?;
    let reply = Reply::Moved {
        moved: moved.len(),
        carried: count_uncompleted(&rows),
        completed: completed.len(),
        deleted: deleted.len(),
    };
    let mut change = Change::none(alloc);
    change.bounds = Some(Bounds {
        plan_end: to,
        ..*bounds
    });
    change.cp.put = waiting_rows(alloc, moved.as_slice())?;
    change.ltp.gone = moved;
    change.cp.gone = finished;
    change.history.put = completed;
    change.deletions.put = deleted;
    Ok((change, reply))
}

// The rows that a daily plan removes from the current plan: those that are complete or deleted.
fn finished_rows(alloc: Global, rows: &[CurrentRow]) -> Result<Vec<CurrentRow>, AllocError>
    ensures { IfOk result (λ found. found.items ≡ filter is_finished rows.now) }
{
    rows.iter()
        .copied()
        .filter(|current| current.status == Status::C || current.status == Status::D)
        .collect(alloc)
}

// How many rows of the current plan are neither complete nor deleted.
fn count_uncompleted(rows: &[CurrentRow]) -> usize
    ensures { result ≡ length
        (filter (λ (current : CurrentRow). is_uncompleted current.status) rows.now) }
{
    rows.iter()
        .filter(|current| current.status != Status::C && current.status != Status::D)
        .count()
}

ghost use Rattle.std.specs.Prelude.{length};
ghost use Rattle.occurrences.specs.declared.place.CurrentRow.{CurrentRow};

// The completed rows of the current plan, as history has them.
fn completed_rows(alloc: Global, rows: &[CurrentRow]) -> Result<Vec<Row>, AllocError>
    ensures { IfOk result (λ found. found.items ≡ map (λ (current : CurrentRow). current.row)
        (filter (λ (current : CurrentRow). is_completed current.status) rows.now)) }
{
    rows.iter()
        .filter(|current| current.status == Status::C)
        .map(|current| current.row)
        .collect(alloc)
}

// The deleted rows of the current plan, as the deletions have them.
fn deleted_rows(alloc: Global, rows: &[CurrentRow]) -> Result<Vec<Deletion>, AllocError>
    ensures { IfOk result (λ found. found.items ≡ map deleted_in_plan
        (filter (λ (current : CurrentRow). is_deleted current.status) rows.now)) }
{
    rows.iter()
        .filter(|current| current.status == Status::D)
        .map(|current| Deletion {
            row: current.row,
            reason: Reason::Plan,
        })
        .collect(alloc)
}

// The rows as they wait in the current plan.
fn waiting_rows(alloc: Global, rows: &[Row]) -> Result<Vec<CurrentRow>, AllocError>
    ensures { IfOk result (λ found. found.items ≡ map waiting rows.now) }
{
    rows.iter()
        .map(|row| CurrentRow {
            row: *row,
            status: Status::W,
        })
        .collect(alloc)
}
