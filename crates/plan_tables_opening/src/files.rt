// Databases in files.

ghost use Rattle.std.specs.Prelude.{◌≡◌, ◌⊎◌, true, false, None, IfErr, IfOk, IfSome};
ghost use Rattle.sqlite.specs.State.{HasCleanDisk};
ghost use Rattle.sqlite.specs.Held.{IsNew};
ghost use Rattle.sqlite.specs.Files.{file_state, IsBlankAs, IsCleanLeft, IsOpened, LeavesFiles};
ghost use Rattle.sqlite.specs.Start.{FindsIn};
ghost use Rattle.sqlite_std_file.specs.File.{IsFresh};
ghost use Rattle.sqlite_store.specs.FileStore.{view};
ghost use Rattle.sqlite_wal.specs.Files.{image_at};
ghost use Rattle.plan_tables_opening.specs.Faults.{unopened_for};
ghost use Rattle.plan_tables_opening.specs.Files.{IsRefused, IsUnreached};
ghost use Rattle.plan_tables_opening.specs.declared.faults.OpenFault.TheVariants.{Memory, Device, Unopened};

use crate::faults::OpenFault;
use sqlite::{Connection, Error, ErrorCode, File, FileFrom, FileStore, Leftover, Start, Unknown};
use std::rt::HostRuntime;

// The fault of a file that was not opened.
fn unopened_for(error: &Error) -> OpenFault
    ensures value { result ≡ unopened_for error.now }
    ensures cases { (result ≡ Memory) ⊎ (result ≡ Device) ⊎ (result ≡ Unopened) }
{
    match error {
        Error::SqliteFailure(ErrorCode::OutOfMemory) => OpenFault::Memory,
        Error::SqliteFailure(
            ErrorCode::SystemIoFailure | ErrorCode::DiskFull | ErrorCode::Closed,
        ) => OpenFault::Device,
        _ => OpenFault::Unopened,
    }
}

/// The database in the files at the path, which are created if there are none; `start` stands for what they hold. A
/// new file gets the sums of its pages if the caller requests them; a file that has them is always checked against
/// them. If the disk was honest, each later read is checked against a digest. If it is not opened, the fault comes
/// with what is left of the files, once they were opened, and with what `sqlite` said. The path is taken as it is.
pub fn open_connection_with<S: Start>(
    rt: &HostRuntime,
    path: &str,
    new_has_sums: bool,
    start: S,
) -> Result<Connection<FileStore<FileFrom<S>>>, (OpenFault, Option<Leftover<FileFrom<S>>>, Error)>
    ensures opened { IfOk result (λ conn. HasCleanDisk (file_state conn) → IsOpened conn) }
    ensures found { IfOk result (λ conn. HasCleanDisk (file_state conn)
        → FindsIn (image_at S.Start) (file_state conn)) }
    ensures sums { IfOk result (λ conn. HasCleanDisk (file_state conn)
        → IsBlankAs new_has_sums (image_at S.Start) → (view conn.store).has_sums ≡ new_has_sums) }
    ensures fresh { IfOk result IsNew }
    ensures guarded { IfOk result (λ conn. HasCleanDisk (file_state conn)
        → (file_state conn).IsShielded) }
    ensures cases { IfErr result (λ left. (left.0 ≡ Memory) ⊎ (left.0 ≡ Device)
        ⊎ (left.0 ≡ Unopened)) }
    ensures told { IfErr result (λ left. left.0 ≡ unopened_for left.2) }
    ensures none { IfErr result (λ left. left.1 ≡ None → IsUnreached left.2) }
    ensures unopened { IfErr result (λ left. left.1 ≡ None → (left.0 ≡ Memory)
        ⊎ (left.0 ≡ Unopened)) }
    ensures caused { IfErr result (λ left. IfSome left.1 (λ rest. (files : _)
        × IsFresh true files.log
        × IsFresh false files.db × (IsCleanLeft rest → IsRefused files rest left.0
        × LeavesFiles files rest))) }
{
    match Connection::open_from(rt, path, new_has_sums, start) {
        Ok(conn) => Ok(conn),
        Err((error, left)) => Err((unopened_for(&error), left, error)),
    }
}

/// The same, without sums for a new file, and without what `sqlite` reported.
pub fn open_connection_from<S: Start>(
    rt: &HostRuntime,
    path: &str,
    start: S,
) -> Result<Connection<FileStore<FileFrom<S>>>, (OpenFault, Option<Leftover<FileFrom<S>>>)>
    ensures opened { IfOk result (λ conn. HasCleanDisk (file_state conn) → IsOpened conn) }
    ensures found { IfOk result (λ conn. HasCleanDisk (file_state conn)
        → FindsIn (image_at S.Start) (file_state conn)) }
    ensures plain { IfOk result (λ conn. HasCleanDisk (file_state conn)
        → IsBlankAs false (image_at S.Start) → (view conn.store).has_sums ≡ false) }
    ensures fresh { IfOk result IsNew }
    ensures guarded { IfOk result (λ conn. HasCleanDisk (file_state conn)
        → (file_state conn).IsShielded) }
    ensures cases { IfErr result (λ left. (left.0 ≡ Memory) ⊎ (left.0 ≡ Device)
        ⊎ (left.0 ≡ Unopened)) }
    ensures unopened { IfErr result (λ left. left.1 ≡ None → (left.0 ≡ Memory)
        ⊎ (left.0 ≡ Unopened)) }
    ensures caused { IfErr result (λ left. IfSome left.1 (λ rest. (files : _)
        × IsFresh true files.log
        × IsFresh false files.db × (IsCleanLeft rest → IsRefused files rest left.0
        × LeavesFiles files rest))) }
{
    match open_connection_with(rt, path, false, start) {
        Ok(conn) => Ok(conn),
        Err((fault, left, _error)) => Err((fault, left)),
    }
}

/// The database in the file, which is created if there is none. The path is taken as it is.
pub fn open_connection(
    rt: &HostRuntime,
    path: &str,
) -> Result<Connection<FileStore<File>>, OpenFault>
    ensures opened { IfOk result (λ conn. HasCleanDisk (file_state conn) → IsOpened conn) }
    ensures fresh { IfOk result IsNew }
    ensures guarded { IfOk result (λ conn. HasCleanDisk (file_state conn)
        → (file_state conn).IsShielded) }
    ensures cases { IfErr result (λ fault. (fault ≡ Memory) ⊎ (fault ≡ Device)
        ⊎ (fault ≡ Unopened)) }
{
    match open_connection_from(rt, path, Unknown) {
        Ok(conn) => Ok(conn),
        Err((fault, _left)) => Err(fault),
    }
}
