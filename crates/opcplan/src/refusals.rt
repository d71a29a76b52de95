//! Why no stream is run over a file, as it is reported.

use crate::faults::{report_on, report_reason};
use crate::words::NamedFile;
use plan_files::Unrun;
use plan_migrations::MigrateFault;
use plan_tables_opening::OpenFault;
use sqlite::{Error, ErrorCode, File, Leftover};

/// Reports why no stream is run over the file: the line of the fault on standard output, its reason on standard error.
/// Returns the exit status.
pub fn report_refusal<R: Print + Eprint>(
    rt: &R,
    file: &NamedFile,
    fault: Unrun,
    left: &Option<Leftover<File>>,
    error: &Option<Error>,
) -> u8 {
    match reason(file, fault, left, error) {
        Some(reason) => report_reason(rt, fault.number(), Some(&file.path), reason),
        None => report_on(rt, fault.number(), &file.path),
    }
}

/// The reason, if it says more than the number does.
fn reason(
    file: &NamedFile,
    fault: Unrun,
    left: &Option<Leftover<File>>,
    error: &Option<Error>,
) -> Option<&'static str> {
    match fault {
        Unrun::Unopened(_) => match error {
            Some(error) => open_reason(file, left, error),
            None => None,
        },
        Unrun::Unmigrated(MigrateFault::UnknownVersion) => Some(
            "the plan is of a schema version that this program doesn't know. The file is unchanged",
        ),
        Unrun::Unmigrated(MigrateFault::Device) => Some(
            "the disk failed before the first statement, and no statement was done. The plan may be migrated from schema 1 to schema 2 already. Keep the file and the -wal file beside it together, and run again",
        ),
        Unrun::Unadopted(OpenFault::Memory) => Some(
            "memory was refused before the first statement, and no statement was done. The file may have the tables of a plan already, or those of schema 1 may be migrated. Keep the file and the -wal file beside it together, and run again",
        ),
        Unrun::Unadopted(OpenFault::Device) => Some(
            "the disk failed before the first statement, and no statement was done. The file may have the tables of a plan already, or those of schema 1 may be migrated. Keep the file and the -wal file beside it together, and run again",
        ),
        Unrun::Unadopted(OpenFault::Unopened) => Some(
            "the database holds no plan, and none can be made in it: something in it has the name of a plan's table, or a table refers to one. The file is unchanged",
        ),
        _ => None,
    }
}

/// The reason why a file is not opened, if it says more than the fault does.
fn open_reason(
    file: &NamedFile,
    left: &Option<Leftover<File>>,
    error: &Error,
) -> Option<&'static str> {
    match error {
        Error::SqliteFailure(ErrorCode::DatabaseBusy) => {
            Some("another program has the file open. The file is unchanged")
        }
        Error::SqliteFailure(ErrorCode::CannotOpen) => Some(path_reason(file)),
        Error::SqliteFailure(ErrorCode::NotADatabase) => Some(match left {
            Some(Leftover::Files(_)) => "the file is not a database. It is unchanged",
            _ =>
                "the database has an object that this program can't read: a view, trigger or virtual table of yours, or rows that break a rule of their table. It need not be damaged: sqlite3 shows such objects, and docs/rules/TABLES.md lists them. Remove the object. The file is unchanged",
        }),
        Error::SqliteFailure(ErrorCode::DatabaseCorrupt) => Some(
            "a page is damaged or has a wrong sum, or the database uses auto_vacuum or UTF-16, which this program can't read. docs/rules/TABLES.md says what to do. The file is unchanged",
        ),
        _ => None,
    }
}

/// The reason why a path is not opened.
fn path_reason(file: &NamedFile) -> &'static str {
    let path = file.path.as_bytes();
    if path.is_empty() {
        "--db names no file"
    } else if path == b":memory:".as_slice() || path.starts_with(b"file:".as_slice()) {
        "--db takes a path, not :memory: or file: (./NAME names such a file, and without --db the plan is in memory)"
    } else {
        "the file can't be opened or made. Check its name and its folder, whether you may read and write both, whether the file has a second name (a hard link), and whether a -journal file is beside it"
    }
}
