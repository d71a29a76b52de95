//! The log is copied into the database file.

ghost use Rattle.std.specs.Prelude.{◌≡◌, ◌≢◌, OnOk};
ghost use Rattle.plan_files_closing.specs.Copying.{KeepsFiles, StandsAlone};
ghost use Rattle.plan_files_closing.specs.declared.copying.CopyFault.TheVariants.{Device, Memory};
ghost use Rattle.sqlite_wal.specs.declared.error.Error.TheVariants.{OutOfMemory};

use sqlite_disk::{Disk, Files, digest_of};
use sqlite_wal::{Error, Log, probe_page_size};
use std::alloc::Global;

/// Why a log was not copied into its database file.
#[derive(Clone, Copy, Debug, PartialEq, Eq)]
pub enum CopyFault {
    /// Memory is short.
    Memory,
    /// The device failed.
    Device,
}

// Memory is blamed exactly where the log says that memory is short.
fn fault_of(error: &Error) -> CopyFault
    ensures memory { error.now ≡ OutOfMemory → result ≡ Memory }
    ensures device { error.now ≢ OutOfMemory → result ≡ Device }
{
    match error {
        Error::OutOfMemory => CopyFault::Memory,
        _ => CopyFault::Device,
    }
}

/// Copies the log into the database file. Whether or not that succeeds, each image that a crash may leave of both files
/// holds what some image held that a crash might have left before. Once the log is copied, the database file alone holds
/// it too.
pub fn copy_log<D: Disk + Drop>(alloc: Global, files: Files<D>) -> (Files<D>, Result<(), CopyFault>)
    ensures keeps { KeepsFiles D.Disk files result.0 }
    ensures alone { OnOk result.1 (StandsAlone D.Disk files result.0) }
{
    let mut files = files;
    if !files.may_be_used() {
        return (files, Err(CopyFault::Device));
    }
    let Ok(Some(size)) = probe_page_size(&mut files) else {
        return (files, Err(CopyFault::Device));
    };
    let seed = digest_of(files.log.key(), b"let go");
    let mut log = match Log::new(alloc, files, size, seed) {
        Ok(log) => log,
        Err(failed) => return (failed.value, Err(CopyFault::Memory)),
    };
    if let Err(error) = log.recover() {
        return (log.into_files(), Err(fault_of(&error)));
    }
    match log.finish() {
        Ok(()) => (log.into_files(), Ok(())),
        Err(error) => (log.into_files(), Err(fault_of(&error))),
    }
}
