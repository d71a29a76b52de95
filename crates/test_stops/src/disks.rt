//! The files of a plan in memory, one of which stops after some calls.

use sqlite::Files;
use sqlite_disk::{Crash, Disk, Fuse, Memory};
use std::alloc::Global;

/// More calls than a run makes of a file.
pub const MOST_CALLS: u64 = 100_000;

/// The log and the database file, in memory; one of them stops after some calls.
pub type Disks = Files<Fuse<Memory>>;

/// Which of the two files stops.
#[derive(Clone, Copy, Debug, PartialEq, Eq)]
pub enum Stopping {
    /// The log.
    Log,
    /// The database file.
    Database,
}

/// Files that hold nothing, one of which stops after so many calls.
pub fn new_disks(alloc: Global, stopping: Stopping, calls: u64) -> Disks {
    stopped_after(Memory::new(alloc), Memory::new(alloc), stopping, calls)
}

/// These files, one of which stops after so many calls.
fn stopped_after(log: Memory, db: Memory, stopping: Stopping, calls: u64) -> Disks {
    let (log_calls, db_calls) = match stopping {
        Stopping::Log => (calls, u64::MAX),
        Stopping::Database => (u64::MAX, calls),
    };
    Files {
        log: Fuse::new(log, log_calls),
        db: Fuse::new(db, db_calls),
    }
}

/// Files that hold what these hold, one of which stops after so many calls; `None` where memory is refused.
pub fn copied(alloc: Global, disks: &Disks, stopping: Stopping, calls: u64) -> Option<Disks> {
    let log = memory_of(alloc, disks.log.inner().bytes())?;
    let db = memory_of(alloc, disks.db.inner().bytes())?;
    Some(stopped_after(log, db, stopping, calls))
}

/// A file that holds these bytes, safe from a crash; `None` where memory is refused.
fn memory_of(alloc: Global, bytes: &[u8]) -> Option<Memory> {
    let mut file = Memory::new(alloc);
    if file.write_at(0, bytes).is_err() || !file.may_be_used() || file.sync().is_err() {
        return None;
    }
    Some(file)
}

/// Whether one of the files has stopped.
pub fn have_stopped<D: Disk>(disks: &mut Files<D>) -> bool {
    if !disks.may_be_used() {
        return true;
    }
    disks.log.len().is_err() || disks.db.len().is_err()
}

/// What a crash leaves of the files, which don't stop from here on.
pub fn crashed<D: Crash>(disks: Files<D>) -> Files<D> {
    let mut disks = disks;
    disks.log.crash();
    disks.db.crash();
    disks
}
