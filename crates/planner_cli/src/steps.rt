//! The step of the planner: a change, or a line with data, gets its reply, and the content of the store changes.
ghost use Rattle.std.specs.Prelude.{◌≡◌, ◌≤◌, Some, length};
ghost use Rattle.planner_machine.specs.Statement.{DefineJob, Job as JobStatement};
ghost use Rattle.planner_cli_stream.specs.JobNumber.{IsJobNumber};
ghost use Rattle.planner_cli_stream.specs.Statement.{Reads};
ghost use Rattle.planner_cli_stream.specs.Items.{WithBlock, longest_block};
ghost use Rattle.planner_cli_stream.specs.Pages.{block_shown, BlockFits};
ghost use Rattle.planner_cli.specs.Requests.{define_asked};
ghost use Rattle.planner_cli.specs.Changes.{change_of};
ghost use Rattle.planner_cli.specs.Steps.{Serves, Step};
ghost use Rattle.planner_cli.specs.Stores.{AnswersBy};
ghost use Rattle.planner_cli.specs.Texts as texts;

use crate::answers::{Printed, no_statement, print_alone};
use crate::define::Merge;
use crate::jobs::{answer_family, answer_job};
use crate::kinds::definitions_kind;
use crate::texts::data_text;
use crate::well_formed::change_is_well_formed;
use app_definitions::{BlockFault, Kind, read_block};
use occurrences::Refusal;
use plan_store::{PlanStore, StoreFault};
use planner_cli_stream::{ChangeStatement, DataBlock, Statement, joined_words, read_statement};
use planner_machine::JobText;
use std::alloc::Global;

/// Replies to a change without data. The reply is made before anything is changed; if memory for it is refused,
/// nothing changes.
pub(crate) fn answer_change<S: PlanStore>(
    alloc: Global,
    store: &mut S,
    line: &[u8],
    number: u64,
    change: &ChangeStatement,
) -> Result<Printed, StoreFault>
    requires { IsJobNumber number }
    ensures { AnswersBy S.PlanStore store.old store.new result
        (Serves (JobStatement number (texts.line_text line.now) (change_of change.now)) (S.content store.old)) }
{
    change_is_well_formed(change);
    let text = JobText::from_vec(joined_words(alloc, line)?);
    answer_family(alloc, store, number, text, change)
}

/// Replies to a line with data.
pub(crate) fn answer_with_data<S: PlanStore>(
    alloc: Global,
    store: &mut S,
    line: &[u8],
    block: DataBlock<'_>,
) -> Result<Printed, StoreFault>
    requires { BlockFits block }
    ensures { AnswersBy S.PlanStore store.old store.new result
        (Step (S.content store.old) (WithBlock line.now (block_shown block.entry))) }
{
    match read_statement(alloc, line)? {
        Some(statement) => answer_block(alloc, store, line, &statement, block),
        None => no_statement(alloc),
    }
}

// Replies to a statement with data, which only `define` has.
fn answer_block<S: PlanStore>(
    alloc: Global,
    store: &mut S,
    line: &[u8],
    statement: &Statement,
    block: DataBlock<'_>,
) -> Result<Printed, StoreFault>
    requires reads { Reads line.now (Some statement.now) }
    requires fits { BlockFits block }
    ensures { AnswersBy S.PlanStore store.old store.new result
        (Step (S.content store.old) (WithBlock line.now (block_shown block.entry))) }
{
    match statement {
        Statement::Define { kind, job } => {
            let number = u64::from(job.number());
            let kind = definitions_kind(*kind);
            answer_define(alloc, store, line, number, kind, block)
        }
        Statement::Change { .. }
        | Statement::Days { .. }
        | Statement::PlanTrial(_)
        | Statement::DailyTrial(_)
        | Statement::List { .. }
        | Statement::ListApp { .. } => no_statement(alloc),
    }
}

/// Replies to `define` and its data.
pub(crate) fn answer_define<S: PlanStore>(
    alloc: Global,
    store: &mut S,
    line: &[u8],
    number: u64,
    kind: Kind,
    block: DataBlock<'_>,
) -> Result<Printed, StoreFault>
    requires fits { BlockFits block }
    requires numbered { IsJobNumber number }
    ensures { AnswersBy S.PlanStore store.old store.new result
        (Serves (define_asked line.now number kind (block_shown block.entry)) (S.content store.old)) }
{
    match block {
        DataBlock::Whole(bytes) => answer_data(alloc, store, line, number, kind, bytes),
        DataBlock::TooLong => print_alone(alloc, &Err(Refusal::FaultyData { record: 0 })),
        DataBlock::Unended => print_alone(alloc, &Err(Refusal::FaultyData { record: 0 })),
    }
}

// Replies to `define` with the bytes of its block.
fn answer_data<S: PlanStore>(
    alloc: Global,
    store: &mut S,
    line: &[u8],
    number: u64,
    kind: Kind,
    bytes: &[u8],
) -> Result<Printed, StoreFault>
    requires short { length bytes.now ≤ longest_block }
    requires numbered { IsJobNumber number }
    ensures { AnswersBy S.PlanStore store.old store.new result
        (Serves (DefineJob number (texts.data_text line.now bytes.now) kind (Some bytes.now)) (S.content store.old)) }
{
    let Ok(text) = data_text(alloc, line, bytes) else {
        return Err(StoreFault::Memory);
    };
    match read_block(alloc, kind, bytes) {
        Ok(block) => {
            let text = JobText::from_vec(text);
            answer_job(alloc, store, number, text, Merge { block })
        }
        Err(BlockFault::Faulty { number }) => {
            print_alone(alloc, &Err(Refusal::FaultyData { record: number }))
        }
        Err(BlockFault::Memory) => Err(StoreFault::Memory),
    }
}
