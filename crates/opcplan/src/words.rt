//! The arguments of the program.

ghost use Rattle.std.specs.Prelude.{codes};
ghost use Rattle.clap.specs.Matches.{first_value, found_of, one_text};
ghost use Rattle.opcplan.specs.Words.{IsNamed};

use crate::faults::FAILED;
use clap::error::ErrorKind;
use clap::{Arg, ArgAction, ArgMatches, Command, Error};
use std::alloc::{AllocError, Global};
use std::env::{self, Env};
use std::io;

/// The database file that the arguments name.
#[derive(Debug, Drop)]
pub struct NamedFile {
    /// Its path, as it is.
    pub path: String,
    /// Whether it gets the sums of its pages, if it is new.
    pub new_has_sums: bool,
}

/// What the arguments request.
#[derive(Debug, Drop)]
pub enum Request {
    /// To answer the stream, over this database file or, where none is named, over lists.
    Run(Option<NamedFile>),
    /// Nothing more: help was printed, or what is wrong with the arguments. This is the exit status.
    Answered(u8),
    /// Memory was refused before that was known.
    Memory,
}

/// What `--version` prints: the program's version, that of its plans' tables, and the sum of the sources that it was made
/// of, which tools/release writes over the points.
const VERSION: &str = "1.0.0
schema 2
sources ................................................................";

/// What the help has below the options.
const STATEMENTS: &str = "\
Statements, one a line:
  define KIND --job N (a data block, then /*)   undefine KIND --name NAME --job N
  days --app A --from D --to D                  list WHAT [--app A]
  ltp-create --from D --to D --job N            ltp-extend --to D --job N
  ltp-modify-all --job N                        ltp-modify-one --app A --job N
  ltp-add, ltp-delete --app A --ia M --job N    ltp-trial FUNCTION [--from D] [--to D] [--app A]
  dp-extend --to M --job N                      dp-extend --days K --count C --job N
  dp-replan --job N                             dp-trial FUNCTION [--to M] [--days K] [--count C]
  cp-add --app A --ia M --job N
  cp-start, cp-complete, cp-fail, cp-reset, cp-delete --app A --ia M --job N

KIND: calendars, periods, applications, run-cycles, predecessors, options
WHAT: ltp, cp, history, deletions, dependencies, links
D: 2024-01-31   M: 2024-01-31/08.00   N: 1 to 999999999, a new one for each job
K: 1 to 21      C: A, all days, or W, work days

Exit status: 0 all accepted, 4 some refused, 8 a fault or wrong words.
A file with sums is always checked: a page with a wrong sum is a fault. sqlite3 reads
such a file, but what it writes there spoils the sums, and the file is then refused.
docs/rules/TABLES.md says how to remove and add sums.
docs/rules/STATEMENTS.md explains the statements, docs/use/GUIDE.md an operator's week.";

/// The arguments: `--db FILE`, with it `--sums`, and `--help`.
fn command<'a>(alloc: Global) -> Result<Command<'a>, AllocError> {
    Command::new(alloc, "opcplan")
        .version(VERSION)
        .about(
            "Reads a job stream of statements and data blocks on standard input, and prints a reply to each statement",
        )
        .after_help(STATEMENTS)
        .arg(
            Arg::new(alloc, "db")
                .long("db")
                .value_name("FILE")
                .help(
                    "Keeps the plan in this database file, and continues with the one that it holds",
                )
                .action(ArgAction::Set),
        )?
        .arg(
            Arg::new(alloc, "sums")
                .long("sums")
                .help("Gives FILE, if it is new, a sum on each page, so that damage is noticed")
                .action(ArgAction::SetTrue)
                .requires_arg("db")?,
        )
}

/// Reads the arguments. Help goes to standard output, what is wrong with the arguments to standard error. Arguments
/// that are not text are wrong.
pub fn read_words<R: Env + AllocGlobal + Print + Eprint>(rt: &R) -> Request {
    let words = match env::args(rt) {
        Ok(words) => words,
        Err(error) if error.kind() == io::ErrorKind::OutOfMemory => return Request::Memory,
        Err(_) => return not_text(rt),
    };
    match words.collect::<Vec<String>>(rt.alloc()) {
        Ok(words) => requested(rt, &words),
        Err(_) => Request::Memory,
    }
}

/// What the arguments request, the first of which is the program's name.
fn requested<R: AllocGlobal + Print + Eprint>(rt: &R, words: &[String]) -> Request {
    let Ok(command) = command(rt.alloc()) else {
        return Request::Memory;
    };
    match command.try_get_matches_from(words) {
        Ok(matches) => file_named(rt.alloc(), &matches),
        Err(error) => print_answer(rt, &error, words),
    }
}

/// The file that the arguments name, if they name one.
fn file_named(alloc: Global, matches: &ArgMatches<'_>) -> Request
    ensures { IsNamed (first_value (found_of matches.now) (codes "db"))
        (one_text (found_of matches.now) (codes "sums")) result }
{
    let Some(path) = matches.get_str("db") else {
        return Request::Run(None);
    };
    let new_has_sums = matches.get_flag("sums");
    match String::from_str(alloc, path) {
        Ok(path) => Request::Run(Some(NamedFile { path, new_has_sums })),
        Err(_) => Request::Memory,
    }
}

/// Prints help, or what is wrong with the arguments.
fn print_answer<R: Print + Eprint>(rt: &R, error: &Error, words: &[String]) -> Request {
    if error.kind() == ErrorKind::OutOfMemory {
        return Request::Memory;
    }
    match error.print(rt) {
        Ok(()) if !error.use_stderr() => Request::Answered(0),
        _ => {
            if error.kind() == ErrorKind::UnknownArgument {
                suggest_db(rt, words);
            }
            Request::Answered(FAILED)
        }
    }
}

/// Suggests `--db FILE` to someone who gives the file alone. No memory is allocated.
fn suggest_db(rt: &impl Eprint, words: &[String]) {
    let mut named = None;
    let mut is_first = true;
    for word in words {
        if word.starts_with("--db") {
            return;
        }
        if !is_first && named.is_none() && !word.starts_with('-') {
            named = Some(word);
        }
        is_first = false;
    }
    if let Some(path) = named {
        let _ = eprintln!(rt; "opcplan: is a plan in a file meant? opcplan --db {path}");
    }
}

/// Reports that an argument is no text.
fn not_text(rt: &impl Eprint) -> Request {
    let _ = rt.eprintln("error: a word is not valid UTF-8");
    Request::Answered(FAILED)
}
