// Listings that query the tables.

ghost use Rattle.std.specs.Prelude.{◌≡◌, option_copied, IfErr, IfOk, None, Some};
ghost use Rattle.sqlite.specs.Held.{state};
ghost use Rattle.sqlite.specs.State.{HasCleanDisk};
ghost use Rattle.planner_machine.specs.Sound.{AreNumbered};
ghost use Rattle.plan_store_lists.specs.Rows.{of_deletion, of_row};
ghost use Rattle.plan_store.specs.Contents.{content_of};
ghost use Rattle.plan_store.specs.Listings.{EmitsAll, EmitsPart, IsListing};
ghost use Rattle.plan_store.specs.Parts.{ListsAll};
ghost use Rattle.plan_tables_queries.specs.Finding.{FindsFact};
ghost use Rattle.plan_tables.specs.Kept.{IsKept, kept_in};
ghost use Rattle.plan_tables.specs.Listing.{ListsKept, ended_so, fault_so, listing_fault};
ghost use Rattle.plan_tables.specs.Listing.{what_of};
ghost use Rattle.plan_tables.specs.Session.{Asks, why_at};

use crate::ends::find_ends;
use crate::keeping::{Unmade, why_of};
use occurrences::{Deletion, Row};
use plan_store::{Content, ListFault, RowSink, StoreFault};
use plan_tables_lookups::{Stopped, TableFault};
use plan_tables_queries::{completed_rows, deleted_rows, list_deletions, list_history};
use sqlite::{Alter, Connection};
use std::alloc::Global;
use work_calendars::App;

/// What is listed.
#[derive(Clone, Copy)]
pub(crate) enum ListedTable {
    History,
    Deletions,
    Pairs,
}

// All rows of history, and all deletions.
fn read_rest<S: Alter>(
    alloc: Global,
    conn: &mut Connection<S>,
) -> Result<(Vec<Row>, Vec<Deletion>), TableFault>
    ensures { FindsFact S.Store conn.old conn.new result (λ c found.
        ListsAll of_row found.0.items c.sets.history
        × ListsAll of_deletion found.1.items c.sets.deletions) }
{
    let history = completed_rows(alloc, conn)?;
    let deletions = deleted_rows(alloc, conn)?;
    Ok((history, deletions))
}

// Why a listing of pairs from lists ended before its last item. Lists have no device.
fn ended_so(fault: ListFault) -> Stopped<TableFault>
    ensures { result ≡ ended_so fault }
{
    match fault {
        ListFault::Sink(_) => Stopped::Sink,
        ListFault::Memory | ListFault::Device => Stopped::Fault(TableFault::Memory),
    }
}

/// The fault of a listing of a store that fails so.
pub(crate) fn listing_fault(fault: StoreFault) -> ListFault
    ensures { result ≡ listing_fault fault }
{
    match fault {
        StoreFault::Memory => ListFault::Memory,
        StoreFault::Device => ListFault::Device,
    }
}

// Passes the sink all pairs, each with both its rows. All of history and all deletions are read first.
fn list_all_pairs<S: Alter, K: RowSink>(
    alloc: Global,
    conn: &mut Connection<S>,
    lists: &Content,
    sink: &mut K,
) -> Result<usize, Stopped<TableFault>>
    ensures { ListsKept S.Store conn.old conn.new (content_of lists.now) K.accepts K.refuses
        sink.old sink.new ListedTable.Pairs None result }
{
    lists.has_listings_with();
    let rows = read_rest(alloc, conn)?;
    let completed = rows.0.as_slice();
    let deleted = rows.1.as_slice();
    match lists.pairs_to(alloc, completed, deleted, None, sink) {
        Ok(count) => Ok(count),
        Err(fault) => Err(ended_so(fault)),
    }
}

// Passes the sink the pairs of one application, each with both its rows, which are looked up by serial.
fn list_app_pairs<S: Alter, K: RowSink>(
    alloc: Global,
    conn: &mut Connection<S>,
    lists: &Content,
    app: &App,
    sink: &mut K,
) -> Result<usize, Stopped<TableFault>>
    ensures { ListsKept S.Store conn.old conn.new (content_of lists.now) K.accepts K.refuses
        sink.old sink.new ListedTable.Pairs (Some app.now) result }
{
    lists.has_listings_with();
    let found = find_ends(alloc, conn, lists, app)?;
    let rows = found.as_slice();
    match lists.app_pairs_to(alloc, rows, app, sink) {
        Ok(count) => Ok(count),
        Err(fault) => Err(ended_so(fault)),
    }
}

// Passes the sink the pairs of one application or of all, each with both its rows.
fn list_pairs<S: Alter, K: RowSink>(
    alloc: Global,
    conn: &mut Connection<S>,
    lists: &Content,
    app: Option<&App>,
    sink: &mut K,
) -> Result<usize, Stopped<TableFault>>
    ensures { ListsKept S.Store conn.old conn.new (content_of lists.now) K.accepts K.refuses
        sink.old sink.new ListedTable.Pairs (option_copied app.entry) result }
{
    match app {
        Some(app) => list_app_pairs(alloc, conn, lists, app, sink),
        None => list_all_pairs(alloc, conn, lists, sink),
    }
}

// Passes the sink a listing, of one application or of all.
fn list_facts<S: Alter, K: RowSink>(
    alloc: Global,
    conn: &mut Connection<S>,
    lists: &Content,
    asked: ListedTable,
    app: Option<&App>,
    sink: &mut K,
) -> Result<usize, Stopped<TableFault>>
    ensures { ListsKept S.Store conn.old conn.new (content_of lists.now) K.accepts K.refuses
        sink.old sink.new asked (option_copied app.entry) result }
{
    match asked {
        ListedTable::History => list_history(alloc, conn, app, sink),
        ListedTable::Deletions => list_deletions(alloc, conn, app, sink),
        ListedTable::Pairs => list_pairs(alloc, conn, lists, app, sink),
    }
}

/// The same; and if it fails, why.
pub(crate) fn list_kept<S: Alter, K: RowSink>(
    alloc: Global,
    conn: &mut Connection<S>,
    lists: &Content,
    asked: ListedTable,
    app: Option<&App>,
    sink: &mut K,
) -> Result<usize, Stopped<Unmade>>
    ensures all { HasCleanDisk (state S.Store conn.new)
        → ∥ IsKept (state S.Store conn.old) (content_of lists.now) ∥₁
        → AreNumbered (kept_in (state S.Store conn.old) (content_of lists.now)).sets
        → IfOk result (EmitsAll K.accepts (IsListing (what_of asked) (option_copied app.entry)
        (kept_in (state S.Store conn.old) (content_of lists.now))) sink.old sink.new) }
    ensures part { HasCleanDisk (state S.Store conn.new)
        → ∥ IsKept (state S.Store conn.old) (content_of lists.now) ∥₁
        → AreNumbered (kept_in (state S.Store conn.old) (content_of lists.now)).sets
        → IfErr result (λ why. EmitsPart K.accepts K.refuses
        (IsListing (what_of asked) (option_copied app.entry)
        (kept_in (state S.Store conn.old) (content_of lists.now))) sink.old sink.new
        (fault_so why)) }
    ensures asks { Asks S.Store conn.old conn.new (content_of lists.now) (why_at result) }
{
    match list_facts(alloc, conn, lists, asked, app, sink) {
        Ok(count) => Ok(count),
        Err(Stopped::Sink) => Err(Stopped::Sink),
        Err(Stopped::Fault(fault)) => Err(Stopped::Fault(why_of(conn, &fault))),
    }
}
