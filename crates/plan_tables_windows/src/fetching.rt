// What the tables have under serials, and from a moment on, is loaded into lists.

ghost use Rattle.std.specs.Prelude.{ℕ, Contains};
ghost use Rattle.plan_store.specs.Contents.{content_of};
ghost use Rattle.plan_store.specs.Parts.{Knows, KnowsDeletion};
ghost use Rattle.plan_tables_windows.specs.Loading.{HasGoneFrom};
ghost use Rattle.plan_tables_windows.specs.Fetching.{Fetches};

use crate::loading::{load_deletion, load_deletions, load_row};
use occurrences::Serial;
use plan_store::Content;
use plan_tables_lookups::TableFault;
use plan_tables_queries::{completed_row, deleted_row, deletions_from};
use sqlite::{Alter, Connection};
use std::alloc::Global;
use work_calendars::Moment;

// Loads what history has under the serial.
fn find_completed<S: Alter>(
    alloc: Global,
    conn: &mut Connection<S>,
    lists: &mut Content,
    serial: Serial,
) -> Result<(), TableFault>
    ensures { Fetches S.Store conn.old conn.new (content_of lists.old) (content_of lists.new)
        result (λ rest now. Knows rest now serial) }
{
    match completed_row(alloc, conn, serial)? {
        Some(row) => load_row(alloc, lists, row),
        None => Ok(()),
    }
}

// Loads the deletion that has the serial.
fn find_deleted<S: Alter>(
    alloc: Global,
    conn: &mut Connection<S>,
    lists: &mut Content,
    serial: Serial,
) -> Result<(), TableFault>
    ensures { Fetches S.Store conn.old conn.new (content_of lists.old) (content_of lists.new)
        result (λ rest now. KnowsDeletion rest now serial) }
{
    match deleted_row(alloc, conn, serial)? {
        Some(deletion) => load_deletion(alloc, lists, deletion),
        None => Ok(()),
    }
}

/// Loads what history has under each of the serials.
pub(crate) fn find_each_completed<S: Alter>(
    alloc: Global,
    conn: &mut Connection<S>,
    lists: &mut Content,
    serials: &[Serial],
) -> Result<(), TableFault>
    ensures { Fetches S.Store conn.old conn.new (content_of lists.old) (content_of lists.new)
        result (λ rest now. (serial : ℕ) → Contains serials.now serial → Knows rest now serial) }
{
    for serial in serials {
        find_completed(alloc, conn, lists, *serial)?;
    }
    Ok(())
}

/// Loads the deletion that has each of the serials.
pub(crate) fn find_each_deleted<S: Alter>(
    alloc: Global,
    conn: &mut Connection<S>,
    lists: &mut Content,
    serials: &[Serial],
) -> Result<(), TableFault>
    ensures { Fetches S.Store conn.old conn.new (content_of lists.old) (content_of lists.new)
        result (λ rest now. (serial : ℕ) → Contains serials.now serial
        → KnowsDeletion rest now serial) }
{
    for serial in serials {
        find_deleted(alloc, conn, lists, *serial)?;
    }
    Ok(())
}

/// Loads the deletions by the operator that arrive at the moment or after it.
pub(crate) fn find_barring<S: Alter>(
    alloc: Global,
    conn: &mut Connection<S>,
    lists: &mut Content,
    moment: Moment,
) -> Result<(), TableFault>
    ensures { Fetches S.Store conn.old conn.new (content_of lists.old) (content_of lists.new)
        result (HasGoneFrom moment) }
{
    let deletions = deletions_from(alloc, conn, moment.number())?;
    load_deletions(alloc, lists, &deletions)
}
