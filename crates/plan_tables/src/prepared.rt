// What is made of a change before it is written.

ghost use Rattle.std.specs.Prelude.{◌≡◌, ◌↔◌, ◌<◌, ◌^◌, IfOk, IfSome, IsTrue};
ghost use Rattle.planner_machine.specs.declared.job.Job.{Job as JobValue};
ghost use Rattle.plan_tables_content.specs.Content.{answer_text};
ghost use Rattle.plan_tables.specs.Representable.{BringMoves};

use crate::answers::job_line;
use crate::definition_moves::moves_of;
use plan_store::Change;
use plan_tables_writing::DefinitionMoves;
use planner_machine::Job;
use std::alloc::{AllocError, Global};

/// The changes in the tables of definitions, and the line of the job's reply.
#[derive(Drop)]
pub(crate) struct Prepared {
    pub(crate) moves: DefinitionMoves,
    pub(crate) line: Vec<u8>,
}

/// What is made of a change before it is written.
pub(crate) fn prepare(alloc: Global, change: &Change) -> Result<Prepared, AllocError>
    ensures moves { IfOk result (λ made. BringMoves change.now.definitions made.moves) }
    ensures line { IfOk result (λ made. IfSome change.now.job
        (λ (job : JobValue). made.line.items ≡ answer_text job.reply)) }
{
    let line = job_line(alloc, &change.job)?;
    let moves = moves_of(alloc, &change.definitions)?;
    Ok(Prepared { moves, line })
}

/// Whether the number of the job, if there is one, can be stored.
pub(crate) fn can_number(job: &Option<Job>) -> bool
    ensures { IsTrue result ↔ IfSome job.now (λ (job : JobValue). job.number < 2 ^ 63) }
{
    match job {
        Some(job) => job.number < 1 << 63,
        None => true,
    }
}
