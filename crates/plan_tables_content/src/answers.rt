// The reply lines of jobs.

ghost use Rattle.std.specs.Prelude.{◌≡◌, Ok, Err, IfOk};
ghost use Rattle.plan_tables_content.specs.Content.{answer_text, IsSmall};

use occurrences::{Refusal, Reply};
use plan_listings::{refusal_line, reply_line};
use planner_machine::Answer;
use std::alloc::{AllocError, Global};

/// The line of a reply.
pub fn answer_line(alloc: Global, answer: &Answer) -> Result<Vec<u8>, AllocError>
    ensures { IfOk result (λ line. line.items ≡ answer_text answer.now) }
{
    match answer {
        Ok(reply) => reply_line(alloc, reply),
        Err(refusal) => refusal_line(alloc, refusal),
    }
}

// The numbers of a reply are below 2 ^ 64.
fn reply_is_small(reply: &Reply)
    ensures { IsSmall (Ok reply.now) }
{
    match reply {
        Reply::Defined { names } => {
            let _names = *names;
        }
        Reply::Undefined => {}
        Reply::Made { made, withdrawn } => {
            let _made = *made;
            let _withdrawn = *withdrawn;
        }
        Reply::Numbered { serial } => {
            let _serial = *serial;
        }
        Reply::Changed { serial, status: _ } => {
            let _serial = *serial;
        }
        Reply::Moved {
            moved,
            carried,
            completed,
            deleted,
        } => {
            let _moved = *moved;
            let _carried = *carried;
            let _completed = *completed;
            let _deleted = *deleted;
        }
        Reply::Rows { rows } => {
            let _rows = *rows;
        }
    }
}

// The numbers of a refusal are below 2 ^ 64.
fn refusal_is_small(refusal: &Refusal)
    ensures { IsSmall (Err refusal.now) }
{
    match refusal {
        Refusal::FaultyData { record } => {
            let _record = *record;
        }
        Refusal::PredecessorUncompleted { serial } => {
            let _serial = *serial;
        }
        _ => {}
    }
}

/// The numbers of a reply or a refusal are below 2 ^ 64.
pub fn answer_is_small(answer: &Answer)
    ensures { IsSmall answer.now }
{
    match answer {
        Ok(reply) => reply_is_small(reply),
        Err(refusal) => refusal_is_small(refusal),
    }
}
