// What a window for a need lacks, or a change, is loaded into lists.

ghost use Rattle.std.specs.Prelude.{◌≡◌, Some};
ghost use Rattle.plan_store.specs.HistoryReads.{ReadsKey};
ghost use Rattle.plan_store.specs.Contents.{content_of};
ghost use Rattle.plan_store.specs.Parts.{HasBars};
ghost use Rattle.plan_tables_windows.specs.Changes.{KnowsNamed};
ghost use Rattle.plan_tables_windows.specs.Windows.{HasLastsOf, IsReadyFor, KnowsLive};
ghost use Rattle.plan_tables_windows.specs.Loading.{KnowsAll, ends_by};
ghost use Rattle.plan_tables_windows.specs.Fetching.{Fetches};

use crate::fetching::{find_barring, find_each_completed, find_each_deleted};
use crate::lasts::find_asked;
use crate::{Unknown, unknown_for_key, unknown_of};
use occurrences::Key;
use plan_store::{Change, Content, Need};
use plan_tables_lookups::TableFault;
use planner_machine::Bounds;
use sqlite::{Alter, Connection};
use std::alloc::Global;
use work_calendars::Moment;

/// Loads into the lists what a window for the need reads of history. They have the deletions that it shows.
pub fn load_for_need<S: Alter>(
    alloc: Global,
    conn: &mut Connection<S>,
    lists: &mut Content,
    need: &Need,
) -> Result<(), TableFault>
    ensures { Fetches S.Store conn.old conn.new (content_of lists.old) (content_of lists.new)
        result (λ rest now. IsReadyFor rest need.now now) }
{
    match need {
        Need::Definitions => Ok(()),
        Need::Key(key) => load_for_key(alloc, conn, lists, key),
        Need::LongTerm(_) => find_asked(alloc, conn, lists, need),
        Need::Daily(_) => Ok(()),
    }
}

// What a statement on the key reads.
fn load_for_key<S: Alter>(
    alloc: Global,
    conn: &mut Connection<S>,
    lists: &mut Content,
    key: &Key,
) -> Result<(), TableFault>
    ensures { Fetches S.Store conn.old conn.new (content_of lists.old) (content_of lists.new)
        result (λ rest now. IsReadyFor rest (Need.Key key.now) now) }
{
    find_asked(alloc, conn, lists, &Need::Key(*key))?;
    find_live(alloc, conn, lists, key)
}

// Loads the predecessors of the key's live row, if that is in history and the lists have the last rows that a
// statement on the key reads.
fn find_live<S: Alter>(
    alloc: Global,
    conn: &mut Connection<S>,
    lists: &mut Content,
    key: &Key,
) -> Result<(), TableFault>
    ensures { Fetches S.Store conn.old conn.new (content_of lists.old) (content_of lists.new)
        result (λ rest now. HasLastsOf (ReadsKey (content_of lists.old) key.now) rest
        (content_of lists.old) → KnowsLive rest key.now now) }
{
    let serials = unknown_for_key(alloc, lists, key)?;
    find_each_completed(alloc, conn, lists, &serials)
}

/// Loads into the lists what the change names of history and of the deletions.
pub fn load_for_change<S: Alter>(
    alloc: Global,
    conn: &mut Connection<S>,
    lists: &mut Content,
    change: &Change,
) -> Result<(), TableFault>
    ensures { Fetches S.Store conn.old conn.new (content_of lists.old) (content_of lists.new)
        result (λ rest now. KnowsNamed rest change.now now) }
{
    let unknown = unknown_of(alloc, lists, change)?;
    find_named(alloc, conn, lists, change, &unknown)
}

// Loads the deletions that the change needs for its plan end, and what is under the serials.
fn find_named<S: Alter>(
    alloc: Global,
    conn: &mut Connection<S>,
    lists: &mut Content,
    change: &Change,
    unknown: &Unknown,
) -> Result<(), TableFault>
    ensures { Fetches S.Store conn.old conn.new (content_of lists.old) (content_of lists.new)
        result (λ rest now. HasBars change.now.bounds rest now
        × KnowsAll unknown.now.history.items unknown.now.deletions.items rest now) }
{
    find_bars(alloc, conn, lists, change.bounds)?;
    find_unknown(alloc, conn, lists, unknown)
}

// Loads the deletions that keep a planning statement from making a key once these bounds are set.
fn find_bars<S: Alter>(
    alloc: Global,
    conn: &mut Connection<S>,
    lists: &mut Content,
    bounds: Option<Bounds>,
) -> Result<(), TableFault>
    ensures { Fetches S.Store conn.old conn.new (content_of lists.old) (content_of lists.new)
        result (HasBars bounds) }
{
    match bounds {
        Some(bounds) => find_bars_from(alloc, conn, lists, bounds),
        None => Ok(()),
    }
}

// The same. If the plan end isn't set back, the lists have them.
fn find_bars_from<S: Alter>(
    alloc: Global,
    conn: &mut Connection<S>,
    lists: &mut Content,
    bounds: Bounds,
) -> Result<(), TableFault>
    ensures { Fetches S.Store conn.old conn.new (content_of lists.old) (content_of lists.new)
        result (HasBars (Some bounds)) }
{
    if ends_by(lists.bounds, bounds.plan_end) {
        return Ok(());
    }
    find_barring(alloc, conn, lists, bounds.plan_end)
}

// Whether there is a plan, and it ends at the moment or before it.
fn ends_by(bounds: Option<Bounds>, moment: Moment) -> bool
    ensures { result ≡ ends_by bounds moment }
{
    match bounds {
        Some(bounds) => bounds.plan_end.number() <= moment.number(),
        None => false,
    }
}

// Loads what history and the deletions have under the serials.
fn find_unknown<S: Alter>(
    alloc: Global,
    conn: &mut Connection<S>,
    lists: &mut Content,
    unknown: &Unknown,
) -> Result<(), TableFault>
    ensures { Fetches S.Store conn.old conn.new (content_of lists.old) (content_of lists.new)
        result (KnowsAll unknown.now.history.items unknown.now.deletions.items) }
{
    find_each_completed(alloc, conn, lists, &unknown.history)?;
    find_each_deleted(alloc, conn, lists, &unknown.deletions)
}
