//! Changes with job numbers. A kept job gets its reply again. Any other is decided, made, and kept with its reply in
//! the same change.
ghost use Rattle.std.specs.Prelude.{◌≡◌, ◌≢◌, ◌⊎◌, None, Some, Err, Option};
ghost use Rattle.planner_machine.specs.Content.{Content};
ghost use Rattle.planner_machine.specs.Jobs.{AnswersJob};
ghost use Rattle.planner_machine.specs.Laws.{IsWellFormed};
ghost use Rattle.planner_machine.specs.Sound.{IsSound};
ghost use Rattle.planner_machine.specs.Statement.{Answer as AnswerValue, decision_of};
ghost use Rattle.plan_store.specs.Changes.{Fits, after};
ghost use Rattle.planner_cli_stream.specs.JobNumber.{IsJobNumber};
ghost use Rattle.planner_cli.specs.Changes.{change_of};
ghost use Rattle.planner_cli.specs.Outcomes.{answering};
ghost use Rattle.planner_cli.specs.Stores.{AnswersBy, ReadsBy};
ghost use Rattle.planner_cli.specs.Verdicts.{FitsVerdict, IsKeptAnswer, answer_in, job_left, left_by};

use crate::answers::{Printed, print_alone};
use crate::decisions::{Decide, verdict_over};
use crate::define::Undefine;
use crate::kinds::definitions_kind;
use crate::occurrence_changes::OnKey;
use occurrences::{Refusal, Reply};
use plan_store::{Change, PlanStore, StoreFault, Verdict};
use planner_cli_stream::ChangeStatement;
use planner_machine::{Answer, Job, JobText, streams};
use std::alloc::Global;

/// Replies to a change without data, by its family.
pub(crate) fn answer_family<S: PlanStore>(
    alloc: Global,
    store: &mut S,
    number: u64,
    text: JobText,
    change: &ChangeStatement,
) -> Result<Printed, StoreFault>
    requires numbered { IsJobNumber number }
    requires well_formed { IsWellFormed (change_of change.now) }
    ensures { AnswersBy S.PlanStore store.old store.new result (λ reply c.
        (answer : AnswerValue)
        × AnswersJob number text (decision_of (change_of change.now)) (S.content store.old) answer c
        × (reply ≡ answering answer)) }
{
    match *change {
        ChangeStatement::Undefine { kind, name } => {
            let kind = definitions_kind(kind);
            answer_job(alloc, store, number, text, Undefine { kind, name })
        }
        ChangeStatement::Plan(function) => answer_job(alloc, store, number, text, function),
        ChangeStatement::Daily(function) => answer_job(alloc, store, number, text, function),
        ChangeStatement::OnKey { key, act } => {
            answer_job(alloc, store, number, text, OnKey { key, act })
        }
    }
}

/// Replies to a change that has a job number. If a job is kept under the number, its reply is given again, or the
/// change is refused if its text is another (12), and nothing changes.
pub(crate) fn answer_job<S: PlanStore, D: Decide + Drop>(
    alloc: Global,
    store: &mut S,
    number: u64,
    text: JobText,
    statement: D,
) -> Result<Printed, StoreFault>
    requires numbered { IsJobNumber number }
    requires well_formed { IsWellFormed (D.change statement) }
    ensures { AnswersBy S.PlanStore store.old store.new result (λ reply c.
        (answer : AnswerValue)
        × AnswersJob number text (decision_of (D.change statement)) (S.content store.old) answer c
        × (reply ≡ answering answer)) }
{
    match kept_answer(alloc, store, number, &text)? {
        Some(answer) => print_alone(alloc, &answer),
        None => perform(alloc, store, number, text, statement),
    }
}

// The reply of the job that is kept under the number, if there is one.
fn kept_answer<S: PlanStore>(
    alloc: Global,
    store: &mut S,
    number: u64,
    text: &JobText,
) -> Result<Option<Answer>, StoreFault>
    ensures { ReadsBy S.PlanStore store.old store.new result
        (IsKeptAnswer ((S.content store.old).jobs number) text.now) }
{
    match store.job(alloc, number)? {
        Some(job) => Ok(Some(answer_of(job, text))),
        None => Ok(None),
    }
}

// What a kept job replies to that text.
fn answer_of(job: &Job, text: &JobText) -> Answer
    ensures { IsKeptAnswer (Some job.now) text.now (Some result) }
{
    if job.text.as_slice() == text.as_slice() {
        job.reply
    } else {
        Err(Refusal::JobWithAnotherText)
    }
}

// Decides a change under whose number no job is kept, and makes it.
fn perform<S: PlanStore, D: Decide + Drop>(
    alloc: Global,
    store: &mut S,
    number: u64,
    text: JobText,
    statement: D,
) -> Result<Printed, StoreFault>
    requires numbered { IsJobNumber number }
    requires well_formed { IsWellFormed (D.change statement) }
    requires new { S.is_honest store.old → (S.content store.old).jobs number ≡ None }
    ensures { AnswersBy S.PlanStore store.old store.new result (λ reply c.
        (answer : AnswerValue)
        × AnswersJob number text (decision_of (D.change statement)) (S.content store.old) answer c
        × (reply ≡ answering answer)) }
{
    streams();
    let verdict = verdict_over(alloc, store, statement)?;
    settle(alloc, store, number, text, verdict)
}

// Carries out a verdict: makes the reply first, and then the change, in which the job is kept.
fn settle<S: PlanStore>(
    alloc: Global,
    store: &mut S,
    number: u64,
    text: JobText,
    verdict: Verdict,
) -> Result<Printed, StoreFault>
    requires fits { S.is_honest store.old → FitsVerdict verdict (S.content store.old) }
    requires sound { S.is_honest store.old
        → IsSound (job_left number text verdict (S.content store.old)) }
    requires new { S.is_honest store.old → (S.content store.old).jobs number ≡ None }
    ensures { AnswersBy S.PlanStore store.old store.new result (λ reply c.
        (c ≡ job_left number text verdict (S.content store.old))
        × (reply ≡ answering (answer_in verdict))) }
{
    let (mut change, answer) = parts_of(alloc, verdict);
    let printed = print_alone(alloc, &answer)?;
    change.job = Some(Job {
        number,
        text,
        reply: answer,
    });
    match store.apply(alloc, change) {
        Ok(()) => Ok(printed),
        Err(fault) => Err(fault),
    }
}

// The change of a verdict, and its reply. A refusal changes nothing.
fn parts_of(alloc: Global, verdict: Verdict) -> (Change, Answer)
    ensures answer { result.1 ≡ answer_in verdict }
    ensures fits { (c : Content) → FitsVerdict verdict c → Fits result.0 c }
    ensures leaves { (c : Content) → FitsVerdict verdict c → after result.0 c ≡ left_by verdict c }
{
    match verdict {
        Verdict::Done(change, reply) => (change, Ok(reply)),
        Verdict::Refused(refusal) => (Change::none(alloc), Err(refusal)),
    }
}
