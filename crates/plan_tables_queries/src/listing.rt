// Listings of one application or of all.

ghost use Rattle.std.specs.Prelude.{◌≡◌, option_copied};
ghost use Rattle.sqlite.specs.Value.{owned};
ghost use Rattle.sqlite.specs.Values.{bound_value};
ghost use Rattle.sqlite.specs.declared.types.Value.TheVariants.{Text};
ghost use Rattle.plan_store.specs.Listings.{IsListing};
ghost use Rattle.plan_store.specs.declared.listings.What.TheVariants as what;
ghost use Rattle.plan_tables_schema.specs.declared.tables.Table.TheVariants as table;
ghost use Rattle.plan_tables_queries.specs.Listing.{Lists};

use crate::listed_rows::decode_rows;
use occurrences::{Deletion, Row};
use plan_store::RowSink;
use plan_tables_lookups::{Look, Stopped, TableFault};
use sqlite::types::ValueRef;
use sqlite::{Alter, Connection};
use std::alloc::Global;
use work_calendars::App;

fn name(app: &App) -> ValueRef<'_>
    ensures { bound_value (owned result) ≡ Text app.now }
{
    ValueRef::Text(app.as_bytes())
}

/// Passes the sink the deletions of one application or of all, in the order of a listing, each before the next is
/// read, and returns how many.
pub fn list_deletions<S: Alter, K: RowSink>(
    alloc: Global,
    conn: &mut Connection<S>,
    app: Option<&App>,
    sink: &mut K,
) -> Result<usize, Stopped<TableFault>>
    ensures { Lists S.Store conn.old conn.new table.Deletion K.accepts K.refuses sink.old sink.new
        (IsListing what.Deletions (option_copied app.entry)) result }
{
    match app {
        Some(app) => {
            decode_rows::<Deletion, S, K>(alloc, conn, Look::DeletionsOf, &[name(app)], sink)
        }
        None => decode_rows::<Deletion, S, K>(alloc, conn, Look::DeletionsListed, &[], sink),
    }
}

/// Passes the sink the rows of history of one application or of all, in the order of a listing, each before the next
/// is read, and returns how many.
pub fn list_history<S: Alter, K: RowSink>(
    alloc: Global,
    conn: &mut Connection<S>,
    app: Option<&App>,
    sink: &mut K,
) -> Result<usize, Stopped<TableFault>>
    ensures { Lists S.Store conn.old conn.new table.History K.accepts K.refuses sink.old sink.new
        (IsListing what.History (option_copied app.entry)) result }
{
    match app {
        Some(app) => decode_rows::<Row, S, K>(alloc, conn, Look::HistoryOf, &[name(app)], sink),
        None => decode_rows::<Row, S, K>(alloc, conn, Look::HistoryListed, &[], sink),
    }
}
