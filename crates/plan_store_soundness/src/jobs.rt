ghost use Rattle.std.specs.Prelude.{◌≡◌, ◌≤◌, ◌↔◌, ℕ, IsTrue, Some, Err};
ghost use Rattle.std.specs.List.{All};
ghost use Rattle.work_calendars.specs.Name.{IsName};
ghost use Rattle.planner_machine.specs.Sound.{IsJob, IsKeptReply, IsShown};
ghost use Rattle.planner_machine.specs.declared.job.Job.{Job as JobValue};
ghost use Rattle.plan_store.specs.Contents.{content_of};

use occurrences::{Refusal, Reply};
use plan_store::Content;
use planner_machine::{Answer, GREATEST_JOB, Job};
use work_calendars::App;

// The greatest number that a reply shows.
const GREATEST_SHOWN: usize = 999_999_999;

// Whether a reply may show this number.
fn is_shown(number: usize) -> bool
    ensures { IsTrue result ↔ IsShown number }
{
    number <= GREATEST_SHOWN
}

// An application's name has the form of names by its type.
pub(crate) fn is_name(app: &App) -> bool
    ensures { IsTrue result ↔ IsName app.now }
{
    !app.as_bytes().is_empty()
}

// Whether a job keeps this refusal.
fn is_kept_refusal(refusal: &Refusal) -> bool
    ensures { IsTrue result ↔ IsKeptReply (Err refusal.now) }
{
    match refusal {
        Refusal::CalendarUndefined { app } => is_name(app),
        Refusal::PeriodUndefined { app } => is_name(app),
        Refusal::Loop { app } => is_name(app),
        Refusal::PredecessorUncompleted { serial } => is_shown(*serial as usize),
        Refusal::NotAStatement | Refusal::FaultyData { .. } | Refusal::JobWithAnotherText => false,
        Refusal::NotDefined
        | Refusal::NoPlan
        | Refusal::PlanExists
        | Refusal::DatesOutOfRange
        | Refusal::NoActiveApplication
        | Refusal::KeyIsLive
        | Refusal::NoSuchOccurrence
        | Refusal::StatusForbids
        | Refusal::TooManyRows
        | Refusal::PlanEndOutOfRange => true,
    }
}

// Whether some changing statement gives this reply.
fn is_kept_reply(reply: &Answer) -> bool
    ensures { IsTrue result ↔ IsKeptReply reply.now }
{
    match reply {
        Ok(Reply::Defined { names }) => is_shown(*names),
        Ok(Reply::Undefined) => true,
        Ok(Reply::Made { made, withdrawn }) => is_shown(*made) && is_shown(*withdrawn),
        Ok(Reply::Numbered { serial }) => is_shown(*serial as usize),
        Ok(Reply::Changed { serial, .. }) => is_shown(*serial as usize),
        Ok(
            Reply::Moved {
                moved,
                carried,
                completed,
                deleted,
            },
        ) => {
            is_shown(*moved) && is_shown(*carried) && is_shown(*completed) && is_shown(*deleted)
        }
        Ok(Reply::Rows { .. }) => false,
        Err(refusal) => is_kept_refusal(refusal),
    }
}

// Whether the job has a number that a job can have, and such a reply.
fn is_job(job: &Job) -> bool
    ensures { IsTrue result ↔ IsJob job.now.number job.now }
{
    1 <= job.number && job.number <= GREATEST_JOB && is_kept_reply(&job.reply)
}

// Whether all are such.
fn are_jobs(jobs: &[Job]) -> bool
    ensures { IsTrue result ↔ All (λ (job : JobValue). IsJob job.number job) jobs.now }
{
    for job in jobs {
        if !is_job(job) {
            return false;
        }
    }
    true
}

/// Whether the kept jobs have numbers from 1 to the greatest, and replies that some changing statement gives.
pub(crate) fn has_kept_jobs(content: &Content) -> bool
    ensures { IsTrue result ↔ ((number : ℕ) (job : JobValue)
        → (content_of content.now).jobs number ≡ Some job
        → IsJob number job) }
{
    are_jobs(&content.jobs)
}
