// A change is written.

ghost use Rattle.std.specs.Prelude.{◌≡◌, ◌<◌, ◌^◌, false, IfSome, ⊤};
ghost use Rattle.plan_tables_schema.specs.Rows.{IsPlan, tables_of};
ghost use Rattle.plan_tables_schema.specs.Writes.{Commits};
ghost use Rattle.planner_machine.specs.Moves.{or_else};
ghost use Rattle.planner_machine.specs.declared.job.Job.{Job as JobValue};
ghost use Rattle.plan_store.specs.Contents.{content_of};
ghost use Rattle.plan_store.specs.Room.{with_pairs_of};
ghost use Rattle.plan_store_lists.specs.Blocks.{items_of};
ghost use Rattle.plan_tables_content.specs.Content.{answer_text};
ghost use Rattle.plan_tables_writing.specs.Redefining.{AreStorableMoves, written};
ghost use Rattle.plan_tables_writing.specs.Accepted.{AcceptsChange, AcceptsJob, AcceptsNewMeta, AcceptsPlans};
ghost use Rattle.plan_tables_writing.specs.Accepted.{WritesAccepted};
ghost use Rattle.plan_tables_writing.specs.Writing.{HasRows, HoldsWritten, MayFailWhere, job_kept, meta_moved, plans_written};

use crate::lone_rows::{put_job, write_meta};
use crate::moves::{write_links, write_pairs, write_rows};
use crate::redefining::{DefinitionMoves, write_definitions};
use plan_store::{Change, Content, Staged};
use planner_machine::{Bounds, Job};
use sqlite::{Alter, Connection, Error, Transaction};
use std::alloc::Global;

// The new bounds, or the old ones where there are no new.
fn new_or_old(new: Option<Bounds>, old: Option<Bounds>) -> Option<Bounds>
    ensures { result ≡ or_else new old }
{
    match new {
        Some(bounds) => Some(bounds),
        None => old,
    }
}

// Replaces how far the plans reach, if that changes.
fn write_new_meta<S: Alter>(
    tx: &mut Transaction<'_, S>,
    old: &Content,
    change: &Change,
) -> Result<(), Error>
    ensures { WritesAccepted (λ _. ⊤) (AcceptsNewMeta change.now old.now.bounds old.now.issued
        old.now.definitions.options) S.Store tx.old tx.new result
        (meta_moved change.now old.now.bounds old.now.issued old.now.definitions.options) }
{
    if change.bounds.is_some() || change.issued.is_some() {
        let bounds = new_or_old(change.bounds, old.bounds);
        let issued = change.issued.unwrap_or(old.issued);
        write_meta(tx, &bounds, issued, &old.definitions.options)
    } else {
        Ok(())
    }
}

// Inserts the job, if there is one. The line is that of its reply.
fn write_job<S: Alter>(
    tx: &mut Transaction<'_, S>,
    job: &Option<Job>,
    line: &[u8],
) -> Result<(), Error>
    requires number { IfSome job.now (λ (job : JobValue). job.number < 2 ^ 63) }
    requires line { IfSome job.now (λ (job : JobValue). line.now ≡ answer_text job.reply) }
    ensures { WritesAccepted (λ _. ⊤) (AcceptsJob job.now) S.Store tx.old tx.new result
        (job_kept job.now) }
{
    match job {
        None => Ok(()),
        Some(job) => put_job(tx, job, line),
    }
}

// Makes all changes but those of the definitions. The line is that of the reply of its job.
fn write_plans<S: Alter>(
    tx: &mut Transaction<'_, S>,
    alloc: Global,
    old: &Content,
    staged: &Staged,
    line: &[u8],
) -> Result<(), Error>
    requires number { IfSome staged.now.rest.job (λ (job : JobValue). job.number < 2 ^ 63) }
    requires line { IfSome staged.now.rest.job
        (λ (job : JobValue). line.now ≡ answer_text job.reply) }
    ensures { WritesAccepted (λ _. ⊤)
        (AcceptsPlans (with_pairs_of (items_of staged.now.pairs)
        (content_of old.now)) staged.now.rest)
        S.Store tx.old tx.new result
        (plans_written (with_pairs_of (items_of staged.now.pairs)
        (content_of old.now)) staged.now.rest) }
{
    let change = staged.rest();
    write_rows(tx, change)?;
    write_pairs(tx, alloc, staged.pairs(), &change.pairs)?;
    write_links(tx, alloc, &old.in_force, &change.in_force)?;
    write_new_meta(tx, old, change)?;
    write_job(tx, &change.job, line)
}

/// Makes a change in the tables of a content, in which it is staged, in a transaction that is open. The line is that of
/// the reply of its job.
pub(crate) fn write_change<S: Alter>(
    tx: &mut Transaction<'_, S>,
    alloc: Global,
    content: &Content,
    moves: &DefinitionMoves,
    staged: &Staged,
    line: &[u8],
) -> Result<(), Error>
    requires number { IfSome staged.now.rest.job (λ (job : JobValue). job.number < 2 ^ 63) }
    requires line { IfSome staged.now.rest.job
        (λ (job : JobValue). line.now ≡ answer_text job.reply) }
    ensures { WritesAccepted (λ _. AreStorableMoves moves.now)
        (λ all. AreStorableMoves moves.now
        × AcceptsChange (with_pairs_of (items_of staged.now.pairs)
        (content_of content.now)) moves.now
        staged.now.rest all) S.Store tx.old tx.new result
        (written (with_pairs_of (items_of staged.now.pairs) (content_of content.now)) moves.now
        staged.now.rest) }
{
    write_definitions(tx, alloc, content, moves)?;
    write_plans(tx, alloc, content, staged, line)
}

/// Makes a change in the tables of a content, in which it is staged, in one transaction: all of it or nothing, also over
/// a crash, which leaves a database with the tables of a plan. The line is that of the reply of its job.
pub fn commit_change<S: Alter>(
    conn: &mut Connection<S>,
    alloc: Global,
    content: &Content,
    moves: &DefinitionMoves,
    staged: &Staged,
    line: &[u8],
) -> Result<(), Error>
    requires storable { AreStorableMoves moves.now }
    requires mode { conn.old.in_transaction ≡ false }
    requires number { IfSome staged.now.rest.job (λ (job : JobValue). job.number < 2 ^ 63) }
    requires line { IfSome staged.now.rest.job
        (λ (job : JobValue). line.now ≡ answer_text job.reply) }
    ensures { Commits S.Store conn.old conn.new result IsPlan
        (HasRows (written (with_pairs_of (items_of staged.now.pairs)
        (content_of content.now)) moves.now
        staged.now.rest))
        (MayFailWhere (AcceptsChange (with_pairs_of (items_of staged.now.pairs)
        (content_of content.now))
        moves.now staged.now.rest))
        (λ old. HoldsWritten old
        (written (with_pairs_of (items_of staged.now.pairs) (content_of content.now)) moves.now
        staged.now.rest (tables_of old.now.trees))) }
{
    let settled = conn.is_autocommit();
    prove!(settled);
    // its clause says that an open connection has a database
    let _ = conn.schema();
    let mut tx = conn.transaction();
    write_change(&mut tx, alloc, content, moves, staged, line)?;
    tx.commit()?;
    Ok(())
}
