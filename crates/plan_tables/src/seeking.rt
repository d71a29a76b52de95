// What is fetched from the tables before a window is lent or a change is made, and loaded into the lists.

ghost use Rattle.std.specs.Prelude.{◌≡◌, ◌⊎◌};
ghost use Rattle.plan_store.specs.Contents.{content_of};
ghost use Rattle.plan_store.specs.Parts.{IsPartOf, Rest, followed_alone, with_rest};
ghost use Rattle.plan_store.specs.Room.{no_jobs, with_job_set};
ghost use Rattle.plan_tables_windows.specs.Fetching.{Fetches};
ghost use Rattle.plan_tables.specs.Sought.{IsFoundFor, Seeks};

use crate::keeping::{Unmade, why_of};
use plan_store::{Change, Content, Need};
use plan_tables_lookups::TableFault;
use plan_tables_windows::{load_for_change, load_for_need};
use sqlite::{Alter, Connection};
use std::alloc::Global;

/// What rows are fetched for: a window for a need, or a change.
#[derive(Clone, Copy)]
pub(crate) enum Sought<'a> {
    Window(&'a Need),
    Change(&'a Change),
}

// Fetches what is sought, and loads it into the lists.
fn load_sought<S: Alter>(
    alloc: Global,
    conn: &mut Connection<S>,
    lists: &mut Content,
    sought: Sought<'_>,
) -> Result<(), TableFault>
    ensures { Fetches S.Store conn.old conn.new (content_of lists.old) (content_of lists.new)
        result (IsFoundFor sought.entry) }
{
    match sought {
        Sought::Window(need) => load_for_need(alloc, conn, lists, need),
        Sought::Change(change) => load_for_change(alloc, conn, lists, change),
    }
}

/// The same; and if it fails, why.
pub(crate) fn seek<S: Alter>(
    alloc: Global,
    conn: &mut Connection<S>,
    lists: &mut Content,
    sought: Sought<'_>,
) -> Result<(), Unmade>
    ensures { Seeks S.Store conn.old conn.new (content_of lists.old) (content_of lists.new) result
        (IsFoundFor sought.entry) }
{
    match load_sought(alloc, conn, lists, sought) {
        Ok(()) => Ok(()),
        Err(fault) => Err(why_of(conn, &fault)),
    }
}

// How many rows of history and of the deletions the lists have.
pub(crate) fn loaded_rows(lists: &Content) -> usize {
    lists.history.len().saturating_add(lists.deletions.len())
}

// Whether the lists have so many of these that they are to be cut, where a cut left so many: more than twice as many, as
// many as the lists have of all else, and a thousand. So what a cut costs was loaded since the last one.
fn have_loaded_much(lists: &Content, kept: usize) -> bool {
    let loaded = loaded_rows(lists);
    let rows = kept
        .saturating_mul(2)
        .saturating_add(lists.ltp.len())
        .saturating_add(lists.cp.len())
        .saturating_add(1_000);
    loaded > rows && !lists.pairs.has_more_than(loaded - rows - 1)
}

/// Cuts lists that loaded much: it drops the rows of history and the deletions that no plan needs. If memory is refused,
/// they stay. `kept` says how many the last cut left.
pub(crate) fn cut_lists(alloc: Global, lists: &mut Content, kept: &mut usize)
    ensures same { (rest : Rest) → with_rest rest (content_of lists.new)
        ≡ with_rest rest (content_of lists.old) }
    ensures part { (rest : Rest) → IsPartOf rest (content_of lists.old)
        → IsPartOf rest (content_of lists.new) }
    ensures jobs { (content_of lists.old).jobs ≡ no_jobs → (content_of lists.new).jobs ≡ no_jobs }
    ensures cut { (content_of lists.new ≡ content_of lists.old)
        ⊎ ((content_of lists.new ≡ followed_alone (with_job_set no_jobs (content_of lists.old)))
        ⊎ (content_of lists.new ≡ with_job_set no_jobs (content_of lists.old))) }
{
    if !have_loaded_much(lists, *kept) {
        return;
    }
    let _ = lists.keep_part(alloc);
    *kept = loaded_rows(lists);
}
