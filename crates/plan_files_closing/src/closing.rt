//! The end of a connection over files.

ghost use Rattle.std.specs.Prelude.{IsTrue, OnOk};
ghost use Rattle.sqlite.specs.Files.{file_state};
ghost use Rattle.plan_files_closing.specs.Closing.{HoldsLeft, HoldsLeftAlone};
ghost use Rattle.sqlite_wal.specs.Files.{outcomes};
ghost use Rattle.sqlite_wal.specs.Reads.{AreClean};
ghost use Rattle.sqlite_wal.specs.Recovery.{Image};
ghost use Rattle.sqlite.specs.State.{HasCleanDisk};

use crate::copying::{CopyFault, copy_log};
use sqlite::{Connection, FileStore};
use sqlite_disk::{Disk, Files};
use sqlite_trees::store::Store;
use std::alloc::Global;

/// Both files after the end of their connection.
#[derive(Drop)]
pub struct ClosedFiles<D: Disk> {
    /// The log and the database file.
    pub files: Files<D>,
    /// Whether the log was copied into the database file, which holds everything then; or why not.
    pub copied: Result<(), CopyFault>,
    /// Whether the connection is known to have been open.
    pub was_open: bool,
}

/// Takes the files out of a connection, and copies the log into the database file. Whether or not that succeeds, and
/// whatever a crash leaves of the files then, both hold a database that a crash might leave of the connection. Once the log
/// is copied, the database file without it holds that database too.
pub fn close_connection<D: Disk + Drop>(
    alloc: Global,
    conn: Connection<FileStore<D>>,
) -> ClosedFiles<D>
    ensures honest { AreClean D.Disk result.files.log result.files.db → HasCleanDisk (file_state conn) }
    ensures holds { AreClean D.Disk result.files.log result.files.db → (left : Image)
        → outcomes D.Disk result.files.log result.files.db left → ∥ HoldsLeft left (file_state conn) ∥₁ }
    ensures alone { OnOk result.copied (AreClean D.Disk result.files.log result.files.db → (left : Image)
        → outcomes D.Disk result.files.log result.files.db left → ∥ HoldsLeftAlone left (file_state conn) ∥₁) }
    ensures open { IsTrue result.was_open → AreClean D.Disk result.files.log result.files.db
        → IsTrue (file_state conn).is_open }
{
    let store = conn.into_store();
    let was_open = !store.is_broken();
    let (files, copied) = copy_log(alloc, store.close());
    ClosedFiles {
        files,
        copied,
        was_open,
    }
}
