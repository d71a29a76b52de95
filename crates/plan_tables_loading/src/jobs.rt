// Kept jobs.

ghost use Rattle.std.specs.Prelude.{◌≡◌, ℕ, List, None, Result, IfOk, IfSome};
ghost use Rattle.std.specs.List.{All};
ghost use Rattle.sqlite.specs.Order.{column};
ghost use Rattle.sqlite.specs.declared.types.Value.TheVariants.{Blob, Text};
ghost use Rattle.planner_machine.specs.declared.job.Job.{Job as JobValue};
ghost use Rattle.plan_tables_content.specs.Content.{answer_text, job_values, IsSmall};
ghost use Rattle.plan_tables_content.specs.Facts.{natural};
ghost use Rattle.occurrences.specs.declared.refusal.Refusal.{Refusal as RefusalValue};
ghost use Rattle.occurrences.specs.declared.reply.Reply.{Reply as ReplyValue};
ghost use Rattle.planner_machine.specs.Sound.{IsKeptReply};
ghost use Rattle.plan_tables_loading.specs.Cells.{IsReadJob};

use crate::answers::decode_answer;
use crate::cells::text_at;
use crate::decode::Decode;
use plan_tables_content::answer_is_small;
use planner_machine::{Answer, Job, JobText};
use sqlite::Row as Cells;
use sqlite::types::ValueRef;
use std::alloc::{AllocError, Global};

// The job's number in the cell, if it holds one.
fn number_in(cells: &Cells, at: usize) -> Option<u64>
    ensures value { IfSome result (λ n. column cells.now at ≡ natural n) }
    ensures none { result ≡ None → (n : ℕ) → column cells.now at ≡ natural n → ⊥ }
{
    match cells.get_ref(at) {
        Ok(ValueRef::Int(n)) => u64::try_from(n).ok(),
        _ => None,
    }
}

// The bytes in the cell, if it holds bytes.
fn bytes_in(alloc: Global, cells: &Cells, at: usize) -> Result<Option<Vec<u8>>, AllocError>
    ensures value { IfOk result (λ found. IfSome found (λ bytes.
        column cells.now at ≡ Blob bytes.items)) }
    ensures none { IfOk result (λ found. found ≡ None → (bytes : List ℕ)
        → column cells.now at ≡ Blob bytes → ⊥) }
{
    match cells.get_ref(at) {
        Ok(ValueRef::Blob(bytes)) => Ok(Some(bytes.to_vec(alloc)?)),
        _ => Ok(None),
    }
}

// The reply in the cell, if it holds the line of one.
fn answer_at(alloc: Global, cells: &Cells, at: usize) -> Result<Option<Answer>, AllocError>
    ensures value { IfOk result (λ found. IfSome found (λ answer. column cells.now at ≡ Text
        (answer_text answer))) }
    ensures none { IfOk result (λ found. found ≡ None → (answer : Result ReplyValue RefusalValue)
        → IsKeptReply answer
        → column cells.now at ≡ Text (answer_text answer) → ⊥) }
{
    match text_at(cells, at) {
        Some(line) => decode_answer(alloc, line),
        None => Ok(None),
    }
}

#[tactic(auto, using(crate::proofs::CellLemmas::of_job))]
fn decode_job(alloc: Global, cells: &Cells) -> Result<Option<Job>, AllocError>
    ensures value { IfOk result (λ found. IfSome found (λ job. job_values job ≡ cells.now)) }
    ensures none { IfOk result (λ found. found ≡ None → (job : JobValue) → IsReadJob job
        → job_values job ≡ cells.now
        → ⊥) }
{
    if cells.column_count() != 3 {
        return Ok(None);
    }
    let Some(number) = number_in(cells, 0) else {
        return Ok(None);
    };
    let Some(bytes) = bytes_in(alloc, cells, 1)? else {
        return Ok(None);
    };
    let Some(reply) = answer_at(alloc, cells, 2)? else {
        return Ok(None);
    };
    Ok(Some(Job {
        number,
        text: JobText::from_vec(bytes),
        reply,
    }))
}

impl Decode for Job {
    ghost values = { job_values };

    ghost has_form = { IsReadJob };

    fn decode(alloc: Global, cells: &Cells) -> Result<Option<Job>, AllocError> {
        decode_job(alloc, cells)
    }
}

/// The numbers of all replies are below 2 ^ 64.
pub(crate) fn answers_are_small(jobs: &[Job])
    ensures { All (λ (job : JobValue). IsSmall job.reply) jobs.now }
{
    for job in jobs {
        answer_is_small(&job.reply);
    }
}
