//! Replies on their way to the writer: the bytes of rows and reply lines.
ghost use Rattle.std.specs.Prelude.{◌≡◌, ℕ, List, flat_map, IfErr, IfOk};
ghost use Rattle.planner_cli.specs.Outcomes.{answer_text, answering, refusing};
ghost use Rattle.planner_cli.specs.Replies.{ended, Prints};
ghost use Rattle.occurrences.specs.declared.refusal.Refusal.TheVariants.{NotAStatement};
ghost use Rattle.plan_store.specs.declared.stores.StoreFault.TheVariants.{Memory};

use crate::rows::append_line;
use occurrences::{Refusal, Reply};
use plan_listings::{refusal_line, reply_line};
use plan_store::StoreFault;
use planner_machine::Answer;
use std::alloc::{AllocError, Global};

/// What a statement prints.
#[derive(Debug, Drop)]
pub struct Printed {
    /// All bytes: rows, if there are any, and the reply line.
    pub text: Vec<u8>,
    /// Whether the reply line begins with `ok`.
    pub is_accepted: bool,
}

/// What a reply prints, after the bytes of the rows before it.
pub(crate) fn print_answer(
    alloc: Global,
    rows: Vec<u8>,
    answer: &Answer,
) -> Result<Printed, AllocError>
    ensures { IfOk result (λ printed. (lines : List (List ℕ)) → rows.items ≡ flat_map ended lines
        → Prints (record { rows = lines; line = answer_text answer.now })
        printed.text.items printed.is_accepted) }
{
    match answer {
        Ok(reply) => accepted(alloc, rows, reply),
        Err(refusal) => refused(alloc, rows, refusal),
    }
}

/// What a refused statement prints.
pub(crate) fn refused(
    alloc: Global,
    rows: Vec<u8>,
    refusal: &Refusal,
) -> Result<Printed, AllocError>
    ensures { IfOk result (λ printed. (lines : List (List ℕ)) → rows.items ≡ flat_map ended lines
        → Prints (record { rows = lines; line = refusal_text refusal.now })
        printed.text.items printed.is_accepted) }
{
    let mut text = rows;
    append_line(&mut text, &refusal_line(alloc, refusal)?)?;
    Ok(Printed {
        text,
        is_accepted: false,
    })
}

ghost use Rattle.plan_listings.specs.Reply.{refusal_text, reply_text};

/// What an accepted statement prints.
pub(crate) fn accepted(alloc: Global, rows: Vec<u8>, reply: &Reply) -> Result<Printed, AllocError>
    ensures { IfOk result (λ printed. (lines : List (List ℕ)) → rows.items ≡ flat_map ended lines
        → Prints (record { rows = lines; line = reply_text reply.now })
        printed.text.items printed.is_accepted) }
{
    let mut text = rows;
    append_line(&mut text, &reply_line(alloc, reply)?)?;
    Ok(Printed {
        text,
        is_accepted: true,
    })
}

/// What a reply without rows prints.
pub(crate) fn print_alone(alloc: Global, answer: &Answer) -> Result<Printed, StoreFault>
    ensures prints { IfOk result (λ printed.
        Prints (answering answer.now) printed.text.items printed.is_accepted) }
    ensures err { IfErr result (λ fault. fault ≡ Memory) }
{
    Ok(print_answer(alloc, Vec::new(alloc), answer)?)
}

/// What a line that is no statement prints.
pub(crate) fn no_statement(alloc: Global) -> Result<Printed, StoreFault>
    ensures prints { IfOk result (λ printed.
        Prints (refusing NotAStatement) printed.text.items printed.is_accepted) }
    ensures err { IfErr result (λ fault. fault ≡ Memory) }
{
    print_alone(alloc, &Err(Refusal::NotAStatement))
}
