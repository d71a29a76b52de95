//! A stream over files in memory of which one stops at some call, and the same stream run again over what a crash left.
ghost use Rattle.std.specs.Prelude.{◌≡◌, ⊤, false};

use crate::disks::{MOST_CALLS, Stopping, new_disks};
use crate::stores::{connect, connect_again, is_after, run_again};
use crate::streams::{Reached, Stream, Wrong};
use plan_files::{Ended, Opening, StartingPlan, Unrun, run_over_connection};
use plan_files_closing::ClosedFiles;
use sqlite::{Alter, Connection, FileStore, Files};
use sqlite_disk::{Crash, Disk};
use std::alloc::{AllocError, Global};

/// The result of trying all stops of a stream.
#[derive(Clone, Copy, Debug, PartialEq, Eq)]
pub struct Stops {
    /// How many stops were tried.
    pub tried: u64,
    /// What was not as it should be after the last of them, if anything.
    pub wrong: Option<Wrong>,
}

/// What a first run left.
#[derive(Drop)]
struct FirstRun<D: Disk> {
    /// How far it came.
    how_far: Reached,
    /// Whether the files were closed.
    is_closed: bool,
    /// The files.
    disks: Files<D>,
}

/// Gives the rest of a text, whatever the run begins with.
#[derive(Drop)]
struct Silent<'a> {
    text: &'a [u8],
}

impl<'a> Opening<&'a [u8]> for Silent<'a> {
    ghost reports = { λ _ _ _. ⊤ };

    fn opened(self, _begun: StartingPlan) -> &'a [u8] {
        self.text
    }
}

/// The files as a run left them that came so far, with whether they were closed.
fn ran_to<D: Disk + Drop>(how_far: Reached, closed: ClosedFiles<D>) -> FirstRun<D> {
    FirstRun {
        how_far,
        is_closed: closed.copied.is_ok(),
        disks: closed.files,
    }
}

/// What a run left that ended so and wrote this.
fn ran<'a, D: Disk + Drop>(
    run: Result<(Ended<D>, &'a [u8]), (Unrun, FileStore<D>, Silent<'a>)>,
    written: &[u8],
    stream: &Stream<'_>,
) -> FirstRun<D> {
    match run {
        Ok(
            (
                Ended {
                    outcome,
                    closed,
                    ..
                },
                _,
            ),
        ) => ran_to(stream.end_of(&outcome, written), closed),
        Err((_, left, _)) => FirstRun {
            how_far: Reached::Nothing,
            is_closed: false,
            disks: left.close(),
        },
    }
}

/// Runs the stream over a connection for the first time, as a program does.
fn run_connected<D: Disk + Drop>(
    alloc: Global,
    conn: Connection<FileStore<D>>,
    stream: &Stream<'_>,
) -> FirstRun<D>
    requires { conn.in_transaction ≡ false }
{
    let mut written = Vec::new(alloc);
    let opening = Silent { text: stream.text };
    let run = run_over_connection(alloc, conn, opening, &mut written);
    ran(run, &written, stream)
}

/// Runs the stream over the files for the first time, as a program does.
fn run_first<D: Disk + Drop>(alloc: Global, disks: Files<D>, stream: &Stream<'_>) -> FirstRun<D> {
    match connect(alloc, disks) {
        Ok(conn) => run_connected(alloc, conn, stream),
        Err(disks) => FirstRun {
            how_far: Reached::Nothing,
            is_closed: false,
            disks,
        },
    }
}

/// Nothing if the tables have what the first so many statements leave, or those and one more.
fn is_after_count<S: Alter>(
    alloc: Global,
    conn: &mut Connection<S>,
    stream: &Stream<'_>,
    count: usize,
) -> Result<(), Wrong>
    requires { conn.old.in_transaction ≡ false }
    ensures { conn.new.in_transaction ≡ false }
{
    let Some(answered) = stream.beginning(count) else {
        return Err("count");
    };
    let wrong = is_after(alloc, conn, answered);
    match stream.beginning(count.saturating_add(1)) {
        Some(text) if wrong.is_err() => is_after(alloc, conn, text),
        Some(_) | None => wrong,
    }
}

/// Nothing where the tables have what a run leaves that came so far.
fn is_reached<S: Alter>(
    alloc: Global,
    conn: &mut Connection<S>,
    stream: &Stream<'_>,
    how_far: Reached,
) -> Result<(), Wrong>
    requires { conn.old.in_transaction ≡ false }
    ensures { conn.new.in_transaction ≡ false }
{
    match how_far {
        Reached::Nothing => is_after(alloc, conn, &[]),
        Reached::Answered(count) => is_after_count(alloc, conn, stream, count),
        Reached::End => is_after(alloc, conn, stream.text),
        Reached::Wrong => Err("end"),
    }
}

/// Looks at what a run left that came so far, and runs the whole stream again.
fn go_on_over<S: Alter + Drop>(
    alloc: Global,
    conn: Connection<S>,
    stream: &Stream<'_>,
    how_far: Reached,
) -> Result<Connection<S>, Wrong>
    requires { conn.in_transaction ≡ false }
{
    let mut conn = conn;
    is_reached(alloc, &mut conn, stream, how_far)?;
    run_again(alloc, conn, stream)
}

/// Looks at what a crash left of the files after a run that came so far, and runs the whole stream again; with the
/// files as that leaves them.
fn go_on<D: Crash + Drop>(
    alloc: Global,
    disks: Files<D>,
    stream: &Stream<'_>,
    how_far: Reached,
) -> Result<Files<D>, Wrong> {
    let conn = connect_again(alloc, disks)?;
    let conn = go_on_over(alloc, conn, stream, how_far)?;
    Ok(conn.into_store().close())
}

/// Looks at what a crash left of the files after the second run.
fn look_at_end<D: Crash + Drop>(
    alloc: Global,
    disks: Files<D>,
    stream: &Stream<'_>,
) -> Result<(), Wrong> {
    let mut conn = connect_again(alloc, disks)?;
    is_after(alloc, &mut conn, stream.text)
}

/// Tries the stream over the files, of which one may stop; returns whether none did until they were closed.
fn try_stop<D: Crash + Drop>(
    alloc: Global,
    disks: Files<D>,
    stream: &Stream<'_>,
) -> Result<bool, Wrong> {
    let FirstRun {
        how_far,
        is_closed,
        disks,
    } = run_first(alloc, disks, stream);
    let disks = go_on(alloc, disks, stream, how_far)?;
    look_at_end(alloc, disks, stream)?;
    Ok(how_far == Reached::End && is_closed)
}

/// Stops one file at its first call, at its second and so on, until a run ends and its files are closed without a stop.
fn try_stops_of(alloc: Global, stream: &Stream<'_>, stopping: Stopping) -> Stops {
    for tried in 0..MOST_CALLS {
        let wrong = match try_stop(alloc, new_disks(alloc, stopping, tried), stream) {
            Ok(false) => continue,
            Ok(true) => None,
            Err(part) => Some(part),
        };
        return Stops { tried, wrong };
    }
    Stops {
        tried: MOST_CALLS,
        wrong: Some("number of calls"),
    }
}

/// Runs a stream over files of which one stops at each call in turn, first the log and then the database file. After
/// each stop a crash loses what was not made safe, the files are opened again, and the whole stream is run again.
pub fn try_stops(alloc: Global, text: &[u8], replies: &[u8]) -> Result<Stops, AllocError> {
    let stream = Stream::new(alloc, text, replies)?;
    let in_log = try_stops_of(alloc, &stream, Stopping::Log);
    if in_log.wrong.is_some() {
        return Ok(in_log);
    }
    let in_database = try_stops_of(alloc, &stream, Stopping::Database);
    Ok(Stops {
        tried: in_log.tried.saturating_add(in_database.tried),
        wrong: in_database.wrong,
    })
}
