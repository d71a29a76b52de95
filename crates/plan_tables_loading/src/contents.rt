// The content that lists make.

ghost use Rattle.std.specs.Prelude.{◌≡◌, IfOk};
ghost use Rattle.plan_store.specs.Contents.{content_of};
ghost use Rattle.std.specs.List.{All};
ghost use Rattle.external_dependencies.specs.Link.{link_cmp};
ghost use Rattle.external_dependencies.specs.Pair.{pair_cmp};
ghost use Rattle.external_dependencies.specs.Rising.{HaveSame, IsRising};
ghost use Rattle.planner_machine.specs.declared.job.Job.{Job as JobValue};
ghost use Rattle.plan_store.specs.Room.{with_definitions, with_pairs_of};
ghost use Rattle.plan_tables_content.specs.Content.{IsSmall};
ghost use Rattle.plan_tables_loading.specs.Lists.{HasLists, HasRows, PutsRows, with_bounds, with_links, with_jobs};
ghost use Rattle.plan_tables_loading.specs.Order.{NumbersRise, job_number};

use crate::jobs::answers_are_small;
use crate::lists::{PlanLists, PlanRows};
use app_definitions::Definitions;
use external_dependencies::{Pair, Pairs};
use plan_store::{Change, Content};
use plan_store_lists::{LinkBlocks, PairBlocks};
use planner_machine::{Bounds, Job};
use std::alloc::{AllocError, Global};

// The change that puts these rows, and does nothing else.
fn change_of_rows(alloc: Global, rows: PlanRows) -> Change
    ensures { PutsRows rows result }
{
    let PlanRows {
        ltp,
        cp,
        history,
        deletions,
    } = rows;
    let mut change = Change::none(alloc);
    change.ltp.put = ltp;
    change.cp.put = cp;
    change.history.put = history;
    change.deletions.put = deletions;
    change
}

// A content that has these rows, and nothing else.
fn content_of_rows(alloc: Global, rows: PlanRows) -> Result<Content, AllocError>
    ensures { IfOk result (λ content. HasRows rows (content_of content).sets) }
{
    let change = change_of_rows(alloc, rows);
    let mut content = Content::new(alloc);
    content.apply(alloc, change)?;
    Ok(content)
}

fn put_definitions(content: &mut Content, definitions: Definitions)
    ensures { content_of content.new ≡ with_definitions definitions (content_of content.old) }
{
    content.set_definitions(definitions);
}

fn put_bounds(content: &mut Content, bounds: Option<Bounds>, issued: u32)
    ensures { content_of content.new ≡ with_bounds bounds issued (content_of content.old) }
{
    content.set_bounds(bounds);
    content.issued = issued;
}

fn put_links(content: &mut Content, lists: LinkBlocks)
    ensures kept { content_of content.new ≡ with_links lists.items (content_of content.old) }
    ensures rising { IsRising link_cmp lists.items }
{
    lists.rise();
    content.set_in_force(lists);
}

// The pairs in blocks.
fn blocks_of(alloc: Global, pairs: Vec<Pair>) -> Result<PairBlocks, AllocError>
    ensures same { IfOk result (λ blocks. HaveSame blocks pairs.items) }
    ensures rising { IfOk result (λ blocks. IsRising pair_cmp blocks) }
{
    let rising = Pairs::from_vec(pairs);
    PairBlocks::from_slice(alloc, rising.as_slice())
}

fn replace_pairs(old: &mut PairBlocks, new: PairBlocks)
    ensures { old.new ≡ new }
{
    *old = new;
}

fn put_pairs(content: &mut Content, pairs: PairBlocks)
    ensures kept { content_of content.new ≡ with_pairs_of pairs (content_of content.old) }
{
    replace_pairs(&mut content.pairs, pairs);
}

fn replace_jobs(old: &mut Vec<Job>, new: Vec<Job>)
    ensures { old.new.items ≡ new.items }
{
    *old = new;
}

fn put_jobs(content: &mut Content, jobs: Vec<Job>)
    requires { NumbersRise job_number jobs.items }
    ensures kept { content_of content.new ≡ with_jobs jobs.items (content_of content.old) }
    ensures small { All (λ (job : JobValue). IsSmall job.reply) jobs.items }
{
    answers_are_small(&jobs);
    replace_jobs(&mut content.jobs, jobs);
}

/// The content of these definitions and lists.
pub fn content_of_lists(
    alloc: Global,
    definitions: Definitions,
    lists: PlanLists,
) -> Result<Content, AllocError>
    ensures { IfOk result (λ content. HasLists definitions lists (content_of content)) }
{
    let PlanLists {
        meta,
        rows,
        links,
        pairs,
        jobs,
    } = lists;
    let mut content = content_of_rows(alloc, rows)?;
    let pairs = blocks_of(alloc, pairs)?;
    let in_force = LinkBlocks::from_links(alloc, &links)?;
    put_definitions(&mut content, definitions);
    put_bounds(&mut content, meta.bounds, meta.issued);
    put_links(&mut content, in_force);
    put_pairs(&mut content, pairs);
    put_jobs(&mut content, jobs);
    Ok(content)
}
