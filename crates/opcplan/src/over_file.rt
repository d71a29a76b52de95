//! The stream over the plans that a file keeps.

ghost use Rattle.std.specs.Prelude.{◌≡◌, IfErr, IfSome};

use crate::endings::{Closed, Ending};
use crate::faults::{MEMORY, explain, report_on};
use crate::hints::Hinting;
use crate::refusals::report_refusal;
use crate::sight::Sight;
use crate::terminal::{OVER_FILE, Terminals, announce_large, greet};
use crate::watch::{SeesFiles, Watch, Watched};
use crate::words::NamedFile;
use plan_files::{FileOpener, Opening, StartingPlan, Unrun, run_over_files};
use planner_cli::{RunFault, Tally, exit_status};
use sqlite::{Error, FileFrom, Leftover, Start, Unknown};
use std::alloc::Global;
use std::io::{BufRead, BufReader, BufWriter, Read, Write};

/// Says on standard error what a run begins with, if that is not the plan as it was, and how to end it at a terminal; then
/// it gives the reader.
#[derive(Drop)]
struct Greeting<'a, E, R> {
    errors: &'a E,
    path: &'a str,
    at: Terminals,
    reader: R,
}

impl<E: Eprint, R> Opening<R> for Greeting<'_, E, R> {
    ghost reports = { λ opening _ given. given ≡ opening.reader };

    fn opened(self, begun: StartingPlan) -> R {
        let Greeting {
            errors,
            path,
            at,
            reader,
        } = self;
        let message = match begun {
            StartingPlan::AsItWas => None,
            StartingPlan::New => Some(
                "the file held no plan, so a new one was made in it. If it should have had one, check the name",
            ),
            StartingPlan::Migrated { lost_index: true } => Some(
                "the plan was migrated from schema 1 to schema 2. An index that you made on predecessor or link_in_force is gone: make it again",
            ),
            StartingPlan::Migrated { lost_index: false } => {
                Some("the plan was migrated from schema 1 to schema 2")
            }
        };
        if let Some(message) = message {
            let _ = eprintln!(errors; "opcplan: {path}: {message}");
        }
        greet(errors, at, OVER_FILE);
        reader
    }
}

/// Runs the stream of the input, over the plans that the file keeps, and returns the exit status. The output gets each
/// reply with its last byte, and a listing some thousand bytes at a time. `Unknown` says of the file that it may hold
/// anything: what is proved for all contents holds of those that it has. It gets no handle of the system but these.
pub fn answer_over_file<
    P: Print + Eprint,
    F: FileOpener<Unknown> + Drop,
    S: Sight + Drop,
    R: Read + Drop,
    W: Write + Drop,
>(
    alloc: Global,
    prints: &P,
    file: &NamedFile,
    at: Terminals,
    opener: F,
    sight: S,
    input: R,
    output: W,
) -> u8 {
    let found = sight.file();
    let stream = Watched::new(input, Watch::new(sight));
    let Ok(reader) = BufReader::new(alloc, stream) else {
        return report_on(prints, MEMORY, &file.path);
    };
    let answers = Hinting::new(output, prints, at.is_typed);
    let Ok(mut writer) = BufWriter::new(alloc, answers) else {
        return report_on(prints, MEMORY, &file.path);
    };
    announce_large(prints, at, &file.path, found);
    let greeting = Greeting {
        errors: prints,
        path: &file.path,
        at,
        reader,
    };
    match run_over_file(
        alloc,
        prints,
        &file.path,
        opener,
        Unknown,
        greeting,
        &mut writer,
    ) {
        Ok(status) => status,
        Err((fault, left, error, _)) => report_refusal(prints, file, fault, &left, &error),
    }
}

/// Runs the stream of the reader over the plans that a file keeps, and returns the exit status, or why it is not run.
/// At the end the log is copied into the file; if that fails, or somebody else removed or changed the file, standard
/// error says so, and the status is the run's. It has standard error alone, so nothing but what the run writes goes to
/// standard output.
fn run_over_file<
    S: Start,
    F: FileOpener<S>,
    R: BufRead + SeesFiles + Drop,
    O: Opening<R>,
    E: Eprint,
    W: Write,
>(
    alloc: Global,
    errors: &E,
    path: &str,
    opener: F,
    start: S,
    opening: O,
    writer: &mut W,
) -> Result<u8, (Unrun, Option<Leftover<FileFrom<S>>>, Option<Error>, O)>
    ensures silent { IfErr result (λ _. writer.new ≡ writer.old) }
    ensures unreported { IfErr result (λ left. left.3 ≡ opening) }
    ensures asked { IfErr result (λ left. IfSome left.2 (F.refuses opener)) }
{
    match run_over_files(alloc, opener, start, opening, writer) {
        Ok((ended, reader)) => {
            let closed = match ended.closed.copied {
                Ok(()) => Closed::Whole,
                Err(fault) => Closed::after(fault),
            };
            report_ending(
                errors,
                path,
                reader.ending(closed),
                &ended.outcome,
                ended.is_whole,
            );
            Ok(exit_status(&ended.outcome))
        }
        Err(left) => Err(left),
    }
}

/// Says on standard error what ended a run, if a fault did and the files have the acknowledged statements, and how the
/// files were left. No memory is allocated.
fn report_ending(
    rt: &impl Eprint,
    path: &str,
    ending: Ending,
    outcome: &Result<Tally, RunFault>,
    is_whole: bool,
) {
    if ending.keeps_answers() {
        explain(rt, outcome, is_whole);
    }
    if let Some(message) = ending.message() {
        let _ = eprintln!(rt; "opcplan: {path}: {message}");
    }
}
