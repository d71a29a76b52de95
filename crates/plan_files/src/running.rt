//! A run over a store that is open, and its closing.

ghost use Rattle.std.specs.Prelude.{◌≡◌, IsTrue};
ghost use Rattle.sqlite.specs.Files.{file_state};
ghost use Rattle.sqlite.specs.State.{HasCleanDisk};
ghost use Rattle.planner_cli.specs.Runs.{ends_of};
ghost use Rattle.planner_machine.specs.Content.{Content};
ghost use Rattle.plan_store.specs.Contents.{content_of};
ghost use Rattle.plan_tables.specs.Kept.{IsKept, kept_in};
ghost use Rattle.plan_tables.specs.Stored.{LeavesOne};
ghost use Rattle.plan_files.specs.Over.{AreHonest, RunsFiles};

use plan_files_closing::{ClosedFiles, close_connection};
use plan_store::PlanStore;
use plan_tables::TableStore;
use plan_tables_content::tables_have_one_content;
use planner_cli::{RunFault, Tally, run};
use planner_machine::streams;
use sqlite::{Alter, FileStore};
use sqlite_disk::Disk;
use std::alloc::Global;
use std::io::{BufRead, Write};

/// How a run over files ended.
#[derive(Drop)]
pub struct Ended<D: Disk> {
    /// What the run returned.
    pub outcome: Result<Tally, RunFault>,
    /// Whether the store is known to have been whole then: no failure was counted, and its connection was open.
    pub is_whole: bool,
    /// Both files as they were closed, and whether the log was copied into the database file, which then holds all.
    pub closed: ClosedFiles<D>,
}

// Whether no failure of the device was counted.
fn is_unfailed<S: Alter + Drop>(store: &mut TableStore<S>) -> bool
    ensures same { store.new ≡ store.old }
    ensures unfailed { IsTrue result → store.old.session.failures ≡ 0 }
{
    store.bounds().is_ok()
}

fn are_both(a: bool, b: bool) -> bool
    ensures { IsTrue result → IsTrue a × IsTrue b }
{
    a && b
}

/// Runs a stream over a store that is open, and closes its files.
pub(crate) fn run_and_close<D: Disk + Drop, R: BufRead, W: Write>(
    alloc: Global,
    store: TableStore<FileStore<D>>,
    reader: &mut R,
    writer: &mut W,
) -> Ended<D>
    requires kept { HasCleanDisk (file_state store.session.conn)
        → IsKept (file_state store.session.conn) (content_of store.lists) }
    requires alone { LeavesOne (file_state store.session.conn)
        (kept_in (file_state store.session.conn) (content_of store.lists)) }
    ensures honest { AreHonest D.Disk result.closed.files → HasCleanDisk (file_state store.session.conn) }
    ensures runs { (after : Content) × RunsFiles D.Disk (ends_of
        (kept_in (file_state store.session.conn) (content_of store.lists)) after
        (W.contents writer.old) (W.contents writer.new) (R.remaining reader.old)) result.outcome result.is_whole result.closed }
{
    streams();
    tables_have_one_content();
    let mut store = store;
    let outcome = run(alloc, &mut store, reader, writer);
    let is_unfailed = is_unfailed(&mut store);
    let conn = store.into_connection();
    // its clause says that an open connection has a database
    let _ = conn.schema();
    let closed = close_connection(alloc, conn);
    Ended {
        outcome,
        is_whole: are_both(is_unfailed, closed.was_open),
        closed,
    }
}
