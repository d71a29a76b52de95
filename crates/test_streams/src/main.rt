//! Runs worked job streams: each over lists in memory, and over tables in memory that are closed and opened again
//! halfway. All output and the exit status are compared with what the stream's files say; the definitions, plans and
//! jobs that the tables hold at the end are compared with those of the lists. Some streams are run over files that
//! stop at each call in turn, and then again over what a crash left; and the plan that some leave, as tables of schema
//! 1, is migrated over such files. One line for each stream says whether it holds.
#![tactic(auto)]

mod differences;
mod listed;
mod over_files;
mod pieces;
mod tables;
mod trials;

use listed::{Listed, Stores};
use over_files::{migrate_one, stop_one};
use std::alloc::{AllocError, Global};
use std::process::ExitCode;
use std::rt::Files;
use std::{fs, io};
use trials::{Expected, show_wrong, try_stream};

/// The list of streams, in the folder where the program runs.
const LIST: &str = "streams.txt";

/// What the files of a stream hold.
#[derive(Drop)]
struct Worked {
    /// The stream.
    text: Vec<u8>,
    /// All that it prints.
    replies: Vec<u8>,
}

/// Tries the stream that a line lists, and prints a line for it; a remark lists none.
fn try_line<R: AllocGlobal + Files + Print>(rt: &R, line: &str) -> io::Result<bool> {
    if listed::is_remark(line) {
        return Ok(true);
    }
    match Listed::from_line(line) {
        Some(stream) => try_one(rt, &stream),
        None => {
            println!(rt; "{LIST}: no stream is listed by: {line}")?;
            Ok(false)
        }
    }
}

/// Runs each stream of the list, prints a line for each, and returns whether all hold.
fn try_all<R: AllocGlobal + Files + Print>(rt: &R) -> io::Result<bool> {
    let list = fs::read_to_string(rt, LIST)?;
    let mut all_hold = true;
    for line in list.lines() {
        let holds = try_line(rt, line)?;
        all_hold = all_hold && holds;
    }
    Ok(all_hold)
}

/// What a file of a stream is called.
fn path_of(alloc: Global, name: &str, kind: &str) -> Result<String, AllocError> {
    format!(in alloc; "{name}.{kind}")
}

/// What the files of a stream hold, where they can be read.
fn read_worked<R: AllocGlobal + Files>(rt: &R, name: &str) -> Result<Option<Worked>, AllocError> {
    let alloc = rt.alloc();
    let text = fs::read(rt, path_of(alloc, name, "in")?);
    let replies = fs::read(rt, path_of(alloc, name, "out")?);
    Ok(match (text, replies) {
        (Ok(text), Ok(replies)) => Some(Worked { text, replies }),
        (Ok(_), Err(_)) | (Err(_), _) => None,
    })
}

/// Reads the files of a stream, tries it, and prints the line that tells whether it holds.
fn try_one<R: AllocGlobal + Files + Print>(rt: &R, stream: &Listed<'_>) -> io::Result<bool> {
    let name = stream.name;
    match read_worked(rt, name)? {
        Some(worked) => try_worked(rt, stream, &worked.text, &worked.replies),
        None => {
            println!(rt; "{name} GOES WRONG: its files can't be read")?;
            Ok(false)
        }
    }
}

/// Tries a stream, and prints the line that tells whether it holds.
fn try_worked<R: AllocGlobal + Print>(
    rt: &R,
    stream: &Listed<'_>,
    text: &[u8],
    replies: &[u8],
) -> io::Result<bool> {
    let expected = Expected {
        replies,
        status: stream.status,
    };
    match try_stream(rt.alloc(), text, stream, &expected)? {
        None => go_on(rt, stream, text, replies),
        Some(wrong) => {
            show_wrong(&mut io::writer(rt), stream.name, &wrong, &expected)?;
            Ok(false)
        }
    }
}

/// Tries a stream that holds so far over files that stop, if it is one of those, and prints the line that tells whether
/// it holds.
fn go_on<R: AllocGlobal + Print>(
    rt: &R,
    stream: &Listed<'_>,
    text: &[u8],
    replies: &[u8],
) -> io::Result<bool> {
    let name = stream.name;
    match stream.stores {
        Stores::Stops => stop_one(rt, name, text, replies),
        Stores::Migrated => {
            Ok(migrate_one(rt, name, text, replies)? && stop_one(rt, name, text, replies)?)
        }
        Stores::Lists | Stores::Both => {
            println!(rt; "{name} holds")?;
            Ok(true)
        }
    }
}

/// 0 where all streams hold, 1 where one doesn't, 2 where the list can't be read.
fn main(rt: HostRuntime) -> ExitCode {
    ExitCode::from(match try_all(&rt) {
        Ok(true) => 0,
        Ok(false) => 1,
        Err(error) => {
            let _ = eprintln!(rt; "test_streams: {error}");
            2
        }
    })
}
