// The reply lines of jobs, and what the tables can encode of a change.

ghost use Rattle.std.specs.Prelude.{◌≡◌, IfOk, IfSome, List, Some};
ghost use Rattle.external_dependencies.specs.Link.{link_cmp};
ghost use Rattle.external_dependencies.specs.Pair.{pair_cmp};
ghost use Rattle.external_dependencies.specs.Rising.{IsRising};
ghost use Rattle.external_dependencies.specs.declared.links.Link.{Link as LinkValue};
ghost use Rattle.planner_machine.specs.declared.job.Job.{Job as JobValue};
ghost use Rattle.plan_store_lists.specs.LinkBlocks.{with_list};
ghost use Rattle.plan_store.specs.Changes.{lists_after};
ghost use Rattle.plan_tables_content.specs.Content.{answer_text, IsSmall};
ghost use Rattle.plan_tables_writing.specs.Writing.{IsRepresentableChange};

use plan_store::{Change, NewLists};
use plan_store_lists::AppList;
use plan_tables_content::{answer_is_small, answer_line};
use planner_machine::Job;
use std::alloc::{AllocError, Global};

/// The line of the job's reply; no bytes if there is no job.
pub(crate) fn job_line(alloc: Global, job: &Option<Job>) -> Result<Vec<u8>, AllocError>
    ensures { IfOk result (λ line. IfSome job.now
        (λ (job : JobValue). line.items ≡ answer_text job.reply)) }
{
    match job {
        Some(job) => answer_line(alloc, &job.reply),
        None => Ok(Vec::new(alloc)),
    }
}

// Links in rising order stay so with the list in place of the one of its application.
fn list_rises(list: &AppList)
    ensures { (old : List LinkValue) → IsRising link_cmp old
        → IsRising link_cmp (with_list list.now.app list.now.links.items old) }
{
    let _ = list;
}

fn lists_rise(new: &NewLists)
    ensures { (old : List LinkValue) → IsRising link_cmp old
        → IsRising link_cmp (lists_after (Some new.now) old) }
{
    match new {
        NewLists::All(lists) => lists.rise(),
        NewLists::One(list) => list_rises(list),
    }
}

// Lists in force stay in rising order.
fn links_rise(new: &Option<NewLists>)
    ensures { (old : List LinkValue) → IsRising link_cmp old
        → IsRising link_cmp (lists_after new.now old) }
{
    match new {
        None => {}
        Some(new) => lists_rise(new),
    }
}

fn job_is_small(job: &Option<Job>)
    ensures { IfSome job.now (λ (job : JobValue). IsSmall job.reply) }
{
    if let Some(job) = job {
        answer_is_small(&job.reply);
    }
}

/// The tables can encode what a change brings.
pub(crate) fn change_is_representable(change: &Change)
    ensures { IsRepresentableChange change.now }
{
    links_rise(&change.in_force);
    job_is_small(&change.job);
}

/// The pairs that a change adds are in rising order.
pub(crate) fn added_rise(change: &Change)
    ensures { IsRising pair_cmp change.now.pairs.added }
{
    let _rising = change.pairs.added.as_slice();
}
