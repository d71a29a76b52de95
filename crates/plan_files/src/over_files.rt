//! A run over files, from their bytes to their bytes.

ghost use Rattle.std.specs.Prelude.{◌≡◌, false, IfErr, IfOk};
ghost use Rattle.sqlite.specs.Files.{file_state};
ghost use Rattle.sqlite_std_file.specs.File.{IsFresh};
ghost use Rattle.sqlite_wal.specs.Files.{image_at};
ghost use Rattle.planner_cli.specs.Runs.{ends_of};
ghost use Rattle.planner_machine.specs.Content.{Content};
ghost use Rattle.plan_files.specs.StartingPlan.{IsBegunIn, IsBegunOn, IsReported};
ghost use Rattle.plan_files.specs.Over.{AreHonest, RunsMigrated, RunsOverConnection, RunsOverFiles};
ghost use Rattle.plan_files.specs.Unrun.{IsNotRun, IsUnadopted, IsUnmade};

use crate::lost_indexes::loses_index;
use crate::openers::FileOpener;
use crate::openings::{Opening, StartingPlan, is_first, starting_plan};
use crate::refusals::Unrun;
use crate::running::{Ended, run_and_close};
use plan_migrations::migrate_older;
use plan_tables::TableStore;
use plan_tables_opening::has_meta;
use sqlite::{Connection, Error, FileFrom, FileStore, Leftover, Start};
use sqlite_disk::Disk;
use std::alloc::Global;
use std::io::{BufRead, Write};

// Adopts a database, runs a stream over it, and closes its files.
fn run_adopted<D: Disk + Drop, R: BufRead, O: Opening<R>, W: Write>(
    alloc: Global,
    conn: Connection<FileStore<D>>,
    begun: StartingPlan,
    opening: O,
    writer: &mut W,
) -> Result<(Ended<D>, R), (Unrun, FileStore<D>, O)>
    requires { conn.in_transaction ≡ false }
    ensures ran { IfOk result (λ run. (before : Content) × (after : Content) × (given : _)
        × RunsOverConnection conn (ends_of before after (W.contents writer.old)
        (W.contents writer.new) (R.remaining given)) run.0.outcome run.0.is_whole run.0.closed
        × O.reports opening begun given) }
    ensures unrun { IfErr result (λ left. IsUnadopted conn (left.0, left.1)) }
    ensures unreported { IfErr result (λ left. left.2 ≡ opening) }
    ensures silent { IfErr result (λ _. writer.new ≡ writer.old) }
{
    match TableStore::adopt(alloc, conn) {
        Ok(store) => {
            let mut reader = opening.opened(begun);
            let ended = run_and_close(alloc, store, &mut reader, writer);
            Ok((ended, reader))
        }
        Err((fault, back)) => Err((Unrun::Unadopted(fault), back.into_store(), opening)),
    }
}

/// Runs a stream over the plan in the database of a connection, and closes its files. A plan of schema 1 is migrated
/// first; if there is no plan, the database gets one. The reader of the stream is given by what is notified of the plan
/// that is open, and is returned. If no stream is run, it returns why, with what is left of the files and what was not
/// notified; nothing was written then, and there was no reader.
pub fn run_over_connection<D: Disk + Drop, R: BufRead, O: Opening<R>, W: Write>(
    alloc: Global,
    conn: Connection<FileStore<D>>,
    opening: O,
    writer: &mut W,
) -> Result<(Ended<D>, R), (Unrun, FileStore<D>, O)>
    requires { conn.in_transaction ≡ false }
    ensures ran { IfOk result (λ run. (before : Content) × (after : Content) × (given : _)
        × RunsMigrated conn (ends_of before after (W.contents writer.old)
        (W.contents writer.new) (R.remaining given)) run.0.outcome run.0.is_whole run.0.closed
        × IsReported O.reports opening given (AreHonest D.Disk run.0.closed.files)
        (λ begun. IsBegunOn begun (file_state conn).now before)) }
    ensures unrun { IfErr result (λ left. IsUnmade conn (left.0, left.1)) }
    ensures unreported { IfErr result (λ left. left.2 ≡ opening) }
    ensures silent { IfErr result (λ _. writer.new ≡ writer.old) }
{
    let mut conn = conn;
    let lost_index = loses_index(conn.schema());
    match migrate_older(alloc, &mut conn) {
        Ok(found) => {
            let begun = starting_plan(is_first(found), has_meta(&conn), lost_index);
            run_adopted(alloc, conn, begun, opening, writer)
        }
        Err(fault) => Err((Unrun::Unmigrated(fault), conn.into_store(), opening)),
    }
}

/// Runs a stream over the plan in the files that are opened for it, whatever they hold, and closes them. They get a
/// plan if they hold none; one of schema 1 is migrated; `start` stands for what they hold. The reader of the stream is
/// given by what is notified of the plan that is open, and is returned. If no stream is run, it returns why, with what is
/// left of them, with what `sqlite` reported if the files were not opened, and with what was not notified; nothing was
/// written then, and there was no reader.
pub fn run_over_files<S: Start, F: FileOpener<S>, R: BufRead, O: Opening<R>, W: Write>(
    alloc: Global,
    opener: F,
    start: S,
    opening: O,
    writer: &mut W,
) -> Result<(Ended<FileFrom<S>>, R), (Unrun, Option<Leftover<FileFrom<S>>>, Option<Error>, O)>
    ensures ran { IfOk result (λ run. (before : Content) × (after : Content) × (given : _)
        × RunsOverFiles ⟦<FileFrom<S> as Disk>⟧ (image_at S.Start) (ends_of before after (W.contents writer.old)
        (W.contents writer.new) (R.remaining given)) run.0.outcome run.0.is_whole run.0.closed
        × IsReported O.reports opening given (AreHonest ⟦<FileFrom<S> as Disk>⟧ run.0.closed.files)
        (λ begun. IsBegunIn (image_at S.Start) begun before)) }
    ensures refused { IfErr result (λ left. IsNotRun (λ is_log file. IsFresh is_log file)
        (image_at S.Start) (F.refuses opener) left.0 left.1 left.2) }
    ensures unreported { IfErr result (λ left. left.3 ≡ opening) }
    ensures silent { IfErr result (λ _. writer.new ≡ writer.old) }
{
    match opener.open(start) {
        Ok(conn) => match run_over_connection(alloc, conn, opening, writer) {
            Ok(run) => Ok(run),
            Err((fault, left, back)) => Err((fault, Some(Leftover::Store(left)), None, back)),
        },
        Err((fault, left, error)) => Err((Unrun::Unopened(fault), left, Some(error), opening)),
    }
}
