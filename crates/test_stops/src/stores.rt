//! A store over files: they are opened, queried, and closed. Each function is over any files or any store, because a
//! proof over particular files takes ten times as long.
ghost use Rattle.std.specs.Prelude.{◌≡◌, false, IfOk};
ghost use Rattle.sqlite.specs.Held.{IsNew};
ghost use Rattle.test_stops.specs.Sound.{KeepsSound};

use crate::disks::crashed;
use crate::streams::{Stream, Wrong};
use plan_tables::TableStore;
use plan_tables_opening::open_content;
use planner_cli::run;
use sqlite::{Alter, Connection, FileStore, Files, Options};
use sqlite_disk::{Crash, Disk};
use std::alloc::Global;
use test_contents::has_run;

/// A connection to the files; they are returned if they are not opened.
pub fn connect<D: Disk + Drop>(
    alloc: Global,
    disks: Files<D>,
) -> Result<Connection<FileStore<D>>, Files<D>>
    ensures { IfOk result IsNew }
{
    if !disks.may_be_used() {
        return Err(disks);
    }
    match Connection::open_files(alloc, disks, Options::new(1)) {
        Ok(conn) => Ok(conn),
        Err((_, left)) => Err(left.into_files()),
    }
}

/// A connection to what a crash left of the files.
pub fn connect_again<D: Crash + Drop>(
    alloc: Global,
    disks: Files<D>,
) -> Result<Connection<FileStore<D>>, Wrong>
    ensures { IfOk result IsNew }
{
    match connect(alloc, crashed(disks)) {
        Ok(conn) => Ok(conn),
        Err(_) => Err("opening"),
    }
}

// A store over the connection.
fn adopt<S: Alter + Drop>(alloc: Global, conn: Connection<S>) -> Result<TableStore<S>, Wrong>
    requires { conn.in_transaction ≡ false }
    ensures { IfOk result KeepsSound }
{
    match TableStore::adopt(alloc, conn) {
        Ok(store) => Ok(store),
        Err(_) => Err("adoption"),
    }
}

/// Nothing where the tables have what a run of the text over lists leaves.
pub fn is_after<S: Alter>(alloc: Global, conn: &mut Connection<S>, text: &[u8]) -> Result<(), Wrong>
    requires { conn.old.in_transaction ≡ false }
    ensures { conn.new.in_transaction ≡ false }
{
    match open_content(alloc, conn) {
        Ok(content) => has_run(alloc, &content, text),
        Err(_) => Err("content"),
    }
}

// Runs the whole stream over what a store has.
fn run_whole<S: Alter + Drop>(
    alloc: Global,
    store: &mut TableStore<S>,
    stream: &Stream<'_>,
) -> Result<(), Wrong>
    requires { KeepsSound store.old }
{
    let mut left = stream.text;
    let mut written = Vec::new(alloc);
    match run(alloc, store, &mut left, &mut written) {
        Ok(_) if stream.has_answers(&written) => Ok(()),
        Ok(_) => Err("second run's answer"),
        Err(_) => Err("second run's end"),
    }
}

/// Runs the whole stream over what a first run left.
pub fn run_again<S: Alter + Drop>(
    alloc: Global,
    conn: Connection<S>,
    stream: &Stream<'_>,
) -> Result<Connection<S>, Wrong>
    requires { conn.in_transaction ≡ false }
    ensures { IfOk result (λ conn. conn.in_transaction ≡ false) }
{
    let mut store = adopt(alloc, conn)?;
    let ended = run_whole(alloc, &mut store, stream);
    let conn = store.into_connection();
    ended?;
    Ok(conn)
}
