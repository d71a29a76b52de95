//! Trials: the decision of a statement, and the rows that it would change, which are shown and not changed.
ghost use Rattle.std.specs.Prelude.{◌≡◌, ℕ, IfOk, Option, filter, map};
ghost use Rattle.planner_machine.specs.Content.{Content};
ghost use Rattle.planner_machine.specs.DailyPlan.{is_completed, is_deleted, is_uncompleted};
ghost use Rattle.planner_machine.specs.Sound.{IsSound};
ghost use Rattle.planner_machine.specs.Statement.{Trial, decision_of};
ghost use Rattle.plan_listings.specs.Report.{IsReport};
ghost use Rattle.plan_store.specs.Verdicts.{VerdictIs};
ghost use Rattle.plan_store.specs.Views.{Shows};
ghost use Rattle.plan_store.specs.declared.changes.Verdict.TheVariants.{Done};
ghost use Rattle.planner_cli.specs.Steps.{PrintsTrial, Serves, ShowsAccepted};
ghost use Rattle.planner_cli.specs.Stores.{AnswersBy};
ghost use Rattle.occurrences.specs.declared.place.CurrentRow.{CurrentRow as CurrentRowValue};
ghost use Rattle.occurrences.specs.declared.reply.Reply.{Reply as ReplyValue};
ghost use Rattle.planner_cli.specs.Rows.{daily_signed};
ghost use Rattle.planner_cli.specs.Trials.{daily_changes};

use crate::answers::{Printed, accepted, refused};
use crate::decisions::{Decide, look_ahead};
use crate::well_formed::plan_is_well_formed;
use occurrences::{CurrentRow, Row, Status};
use plan_listings::{dp_report, ltp_report};
use plan_store::{Change, PlanStore, StoreFault, Verdict, View};
use planner_cli_stream::{DailyFunction, PlanFunction};
use planner_machine::{fate_is_followed, sound_content_stays_sound};
use std::alloc::{AllocError, Global};
use work_calendars::Moment;

/// A family of statements that can be tried.
pub(crate) trait Try: Decide + Copy {
    /// The rows that a trial shows if it is accepted: those that the change would change. The laws of statements say
    /// that they are all.
    fn rows(&self, alloc: Global, view: &View<'_>, made: &Change) -> Result<Vec<u8>, AllocError>
        ensures { IfOk result (λ text. (c : Content) (end : Option ℕ) (reply : ReplyValue)
            → Self.is_end self.now c end → Shows (Self.sees self.now end) view.now c → IsSound c
            → VerdictIs (decision_of (Self.change self.now)) c (Done made.now reply)
            → ShowsAccepted (Self.change self.now) c reply text.items) };
}

/// Shows what a statement would do.
pub(crate) fn answer_trial<S: PlanStore, T: Try>(
    alloc: Global,
    store: &mut S,
    statement: &T,
) -> Result<Printed, StoreFault>
    ensures { AnswersBy S.PlanStore store.old store.new result
        (Serves (Trial (T.change statement.now)) (S.content store.old)) }
{
    match look_ahead(alloc, store, statement)? {
        Ok(end) => answer_seen(alloc, store, end, statement),
        Err(refusal) => Ok(refused(alloc, Vec::new(alloc), &refusal)?),
    }
}

// The same where the end of a daily plan is known.
fn answer_seen<S: PlanStore, T: Try>(
    alloc: Global,
    store: &mut S,
    end: Option<Moment>,
    statement: &T,
) -> Result<Printed, StoreFault>
    requires { S.is_honest store.old → T.is_end statement.now (S.content store.old) end }
    ensures { AnswersBy S.PlanStore store.old store.new result
        (Serves (Trial (T.change statement.now)) (S.content store.old)) }
{
    let need = statement.need(end);
    let view = store.read_window(alloc, need)?;
    Ok(print_trial(alloc, &view, end, statement)?)
}

// What a trial prints.
fn print_trial<T: Try>(
    alloc: Global,
    view: &View<'_>,
    end: Option<Moment>,
    statement: &T,
) -> Result<Printed, AllocError>
    ensures { IfOk result (λ printed. (c : Content) → T.is_end statement.now c end
        → Shows (T.sees statement.now end) view.now c
        → IsSound c → PrintsTrial (T.change statement.now) c printed) }
{
    let verdict = (*statement).decide(alloc, view, end)?;
    match verdict {
        Verdict::Done(made, reply) => {
            let rows = statement.rows(alloc, view, &made)?;
            accepted(alloc, rows, &reply)
        }
        Verdict::Refused(refusal) => refused(alloc, Vec::new(alloc), &refusal),
    }
}

impl Try for PlanFunction {
    fn rows(&self, alloc: Global, _view: &View<'_>, made: &Change) -> Result<Vec<u8>, AllocError> {
        fate_is_followed();
        sound_content_stays_sound();
        plan_is_well_formed(self);
        ltp_report(alloc, &made.ltp.put, &made.ltp.gone)
    }
}

impl Try for DailyFunction {
    fn rows(&self, alloc: Global, view: &View<'_>, made: &Change) -> Result<Vec<u8>, AllocError> {
        fate_is_followed();
        sound_content_stays_sound();
        let current = view.cp().to_vec(alloc)?;
        daily_rows(alloc, &current, &made.ltp.gone)
    }
}

// The rows of a trial of a daily plan that moves these rows into the current plan.
fn daily_rows(alloc: Global, current: &[CurrentRow], moved: &[Row]) -> Result<Vec<u8>, AllocError>
    ensures { IfOk result (λ text.
        IsReport (map daily_signed (daily_changes moved.now current.now)) text.items) }
{
    let carried = carried_rows(alloc, current)?;
    let completed = completed_rows(alloc, current)?;
    let deleted = deleted_rows(alloc, current)?;
    dp_report(alloc, moved, &carried, &completed, &deleted)
}

// The rows of the current plan that are neither complete nor deleted, each with its status.
fn carried_rows(alloc: Global, rows: &[CurrentRow]) -> Result<Vec<(Row, Status)>, AllocError>
    ensures { IfOk result (λ found. found.items
        ≡ map (λ (current : CurrentRowValue). (current.row, current.status))
        (filter (λ (current : CurrentRowValue). is_uncompleted current.status) rows.now)) }
{
    rows.iter()
        .filter(|current| current.status != Status::C && current.status != Status::D)
        .map(|current| (current.row, current.status))
        .collect(alloc)
}

// The rows of the current plan that are complete.
fn completed_rows(alloc: Global, rows: &[CurrentRow]) -> Result<Vec<Row>, AllocError>
    ensures { IfOk result (λ found. found.items ≡ map (λ (current : CurrentRowValue). current.row)
        (filter (λ (current : CurrentRowValue). is_completed current.status) rows.now)) }
{
    rows.iter()
        .filter(|current| current.status == Status::C)
        .map(|current| current.row)
        .collect(alloc)
}

// The rows of the current plan that are deleted.
fn deleted_rows(alloc: Global, rows: &[CurrentRow]) -> Result<Vec<Row>, AllocError>
    ensures { IfOk result (λ found. found.items ≡ map (λ (current : CurrentRowValue). current.row)
        (filter (λ (current : CurrentRowValue). is_deleted current.status) rows.now)) }
{
    rows.iter()
        .filter(|current| current.status == Status::D)
        .map(|current| current.row)
        .collect(alloc)
}
