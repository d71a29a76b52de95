//! A plan of schema 1 over files in memory, which is migrated while one of them stops at some call.
ghost use Rattle.std.specs.Prelude.{◌≡◌, false};

use crate::disks::{Disks, MOST_CALLS, Stopping, copied, have_stopped};
use crate::first_tables::first_files;
use crate::stores::{connect, connect_again, is_after, run_again};
use crate::streams::{Stream, Wrong};
use plan_migrations::{FIRST_VERSION, migrate, version};
use plan_tables_schema::SCHEMA_VERSION;
use sqlite::{Alter, Connection, FileStore, Files};
use sqlite_disk::{Crash, Disk};
use std::alloc::{AllocError, Global};

/// The result of trying all stops of a migration.
#[derive(Clone, Copy, Debug, PartialEq, Eq)]
pub struct Migrations {
    /// After how many stops the tables were those of schema 1.
    pub stayed: u64,
    /// After how many they were those of the current schema.
    pub went: u64,
    /// What was not as it should be after one more, if anything.
    pub wrong: Option<Wrong>,
}

/// What was there after a migration.
#[derive(Clone, Copy, Debug, PartialEq, Eq)]
enum Stood {
    /// The tables of schema 1, after a stop.
    First,
    /// Those of the current schema, after a stop.
    Current,
    /// Those of the current schema, and no file had stopped.
    Unstopped,
}

/// The files of a connection, with the log copied into the database file if that works.
fn closed<D: Disk + Drop>(conn: Connection<FileStore<D>>) -> Files<D> {
    match conn.close_files() {
        Ok(disks) => disks,
        Err((_, store)) => store.close(),
    }
}

/// Whether the plan is migrated from this version to the current one.
fn migrates<S: Alter>(alloc: Global, conn: &mut Connection<S>, from: u32) -> bool
    requires { conn.old.in_transaction ≡ false }
    ensures { conn.new.in_transaction ≡ false }
{
    match migrate(alloc, conn) {
        Ok((found, left)) => found == from && left == SCHEMA_VERSION,
        Err(_) => false,
    }
}

/// The version of the plan.
fn version_of<S: Alter>(alloc: Global, conn: &mut Connection<S>) -> Result<u32, Wrong>
    requires { conn.old.in_transaction ≡ false }
    ensures { conn.new.in_transaction ≡ false }
{
    match version(alloc, conn) {
        Ok(Some(found)) => Ok(found),
        Ok(None) | Err(_) => Err("version"),
    }
}

/// Migrates the plan in the files; with whether that is done, and the files as it leaves them.
fn migrate_first<D: Disk + Drop>(alloc: Global, disks: Files<D>) -> (bool, Files<D>) {
    match connect(alloc, disks) {
        Ok(mut conn) => {
            let is_migrated = migrates(alloc, &mut conn, FIRST_VERSION);
            (is_migrated, closed(conn))
        }
        Err(disks) => (false, disks),
    }
}

/// The version of the plan, where it is migrated from that version to the current one, and once more.
fn migrate_again<S: Alter>(alloc: Global, conn: &mut Connection<S>) -> Result<u32, Wrong>
    requires { conn.old.in_transaction ≡ false }
    ensures { conn.new.in_transaction ≡ false }
{
    let found = version_of(alloc, conn)?;
    if migrates(alloc, conn, found) && migrates(alloc, conn, SCHEMA_VERSION) {
        Ok(found)
    } else {
        Err("migration")
    }
}

/// Nothing where the tables have what a run of the stream leaves, and a store over them answers the stream as that run, and
/// leaves the same.
fn is_same<S: Alter + Drop>(
    alloc: Global,
    conn: Connection<S>,
    stream: &Stream<'_>,
) -> Result<(), Wrong>
    requires { conn.in_transaction ≡ false }
{
    let mut conn = conn;
    is_after(alloc, &mut conn, stream.text)?;
    let mut conn = run_again(alloc, conn, stream)?;
    is_after(alloc, &mut conn, stream.text)
}

/// Continues from what a crash left of the files: the plan is migrated, has what a run of the stream leaves, and gives
/// the stream the same replies as that run. Returns the version that was there.
fn go_on<D: Crash + Drop>(
    alloc: Global,
    disks: Files<D>,
    stream: &Stream<'_>,
) -> Result<u32, Wrong> {
    let mut conn = connect_again(alloc, disks)?;
    let found = migrate_again(alloc, &mut conn)?;
    is_same(alloc, conn, stream)?;
    Ok(found)
}

/// What was there after a migration that was done or not, over files of which one has stopped or not.
fn judged(is_migrated: bool, has_stopped: bool, version: u32) -> Result<Stood, Wrong> {
    if is_migrated && version != SCHEMA_VERSION {
        Err("version after a migration")
    } else if has_stopped && version == FIRST_VERSION {
        Ok(Stood::First)
    } else if has_stopped {
        Ok(Stood::Current)
    } else if is_migrated {
        Ok(Stood::Unstopped)
    } else {
        Err("migration without a stop")
    }
}

/// Migrates the plan in the files, of which one may stop, and continues from there.
fn try_files<D: Crash + Drop>(
    alloc: Global,
    disks: Files<D>,
    stream: &Stream<'_>,
) -> Result<Stood, Wrong> {
    let (is_migrated, mut disks) = migrate_first(alloc, disks);
    let has_stopped = have_stopped(&mut disks);
    let version = go_on(alloc, disks, stream)?;
    judged(is_migrated, has_stopped, version)
}

/// The same of files like these, of which one stops after so many calls.
fn try_stop(
    alloc: Global,
    files: &Disks,
    stream: &Stream<'_>,
    stopping: Stopping,
    calls: u64,
) -> Result<Stood, Wrong> {
    match copied(alloc, files, stopping, calls) {
        Some(disks) => try_files(alloc, disks, stream),
        None => Err("memory"),
    }
}

/// Stops one file at its first call, at its second and so on, until a migration ends without a stop.
fn try_stops_of(
    alloc: Global,
    files: &Disks,
    stream: &Stream<'_>,
    stopping: Stopping,
) -> Migrations {
    let (mut stayed, mut went) = (0u64, 0u64);
    for calls in 0..MOST_CALLS {
        let wrong = match try_stop(alloc, files, stream, stopping, calls) {
            Ok(Stood::First) => {
                stayed = stayed.saturating_add(1);
                continue;
            }
            Ok(Stood::Current) => {
                went = went.saturating_add(1);
                continue;
            }
            Ok(Stood::Unstopped) => None,
            Err(part) => Some(part),
        };
        return Migrations {
            stayed,
            went,
            wrong,
        };
    }
    Migrations {
        stayed,
        went,
        wrong: Some("number of calls"),
    }
}

/// Migrates the plan in files like these over files of which one stops at each call in turn, first the log and then the
/// database file.
fn try_both(alloc: Global, files: &Disks, stream: &Stream<'_>) -> Migrations {
    let in_log = try_stops_of(alloc, files, stream, Stopping::Log);
    if in_log.wrong.is_some() {
        return in_log;
    }
    let in_database = try_stops_of(alloc, files, stream, Stopping::Database);
    Migrations {
        stayed: in_log.stayed.saturating_add(in_database.stayed),
        went: in_log.went.saturating_add(in_database.went),
        wrong: in_database.wrong,
    }
}

/// Makes of what a run of the stream leaves a plan of schema 1, and migrates it over files of which one stops at each
/// call in turn. After each stop a crash loses what was not made safe, and the files are opened again: the plan is of
/// one of both versions, and once migrated and adopted it gives the same replies.
pub fn try_migrations(
    alloc: Global,
    text: &[u8],
    replies: &[u8],
) -> Result<Migrations, AllocError> {
    let stream = Stream::new(alloc, text, replies)?;
    Ok(match first_files(alloc, text) {
        Ok(files) => try_both(alloc, &files, &stream),
        Err(part) => Migrations {
            stayed: 0,
            went: 0,
            wrong: Some(part),
        },
    })
}
