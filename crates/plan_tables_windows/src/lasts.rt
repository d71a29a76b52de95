// The rows of history that are read by an application and a moment are loaded into lists.

ghost use Rattle.std.specs.Prelude.{Contains};
ghost use Rattle.plan_store.specs.declared.queries.LastQuery.{LastQuery as LastQueryValue};
ghost use Rattle.plan_store.specs.Contents.{content_of};
ghost use Rattle.plan_store.specs.Views.{Asks};
ghost use Rattle.plan_tables_windows.specs.Windows.{HasLastsOf};
ghost use Rattle.plan_tables_windows.specs.Loading.{IsAnswered};
ghost use Rattle.plan_tables_windows.specs.Fetching.{Fetches};

use crate::loading::load_row;
use plan_store::{Content, LastQuery, Need, last_queries_of};
use plan_tables_lookups::TableFault;
use plan_tables_queries::last_completed;
use sqlite::{Alter, Connection};
use std::alloc::Global;

// Loads the last row of the application at the moment or before it.
fn find_last<S: Alter>(
    alloc: Global,
    conn: &mut Connection<S>,
    lists: &mut Content,
    query: &LastQuery,
) -> Result<(), TableFault>
    ensures { Fetches S.Store conn.old conn.new (content_of lists.old) (content_of lists.new)
        result (IsAnswered query.now) }
{
    match last_completed(alloc, conn, &query.app, query.moment.number())? {
        Some(row) => load_row(alloc, lists, row),
        None => Ok(()),
    }
}

// Loads each of the last rows that are read.
fn find_lasts<S: Alter>(
    alloc: Global,
    conn: &mut Connection<S>,
    lists: &mut Content,
    queries: &[LastQuery],
) -> Result<(), TableFault>
    ensures { Fetches S.Store conn.old conn.new (content_of lists.old) (content_of lists.new)
        result (λ rest now. (query : LastQueryValue) → Contains queries.now query
        → IsAnswered query rest now) }
{
    for query in queries {
        find_last(alloc, conn, lists, query)?;
    }
    Ok(())
}

/// Loads the last rows that a window for the need reads.
pub(crate) fn find_asked<S: Alter>(
    alloc: Global,
    conn: &mut Connection<S>,
    lists: &mut Content,
    need: &Need,
) -> Result<(), TableFault>
    ensures { Fetches S.Store conn.old conn.new (content_of lists.old) (content_of lists.new)
        result (λ rest now. HasLastsOf (Asks need.now now) rest now) }
{
    let queries = last_queries_of(alloc, lists, need)?;
    find_lasts(alloc, conn, lists, &queries)
}
