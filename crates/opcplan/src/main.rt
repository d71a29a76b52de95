//! Answers the job stream on standard input. Here, in `opener.rt` and in `sight.rt` alone is the runtime: what is below gets
//! its reader, its writer, standard error, what opens FILE and what looks at it.
#![tactic(auto)]

use opener::AtPath;
use sight::SightOf;
use std::io::{self, IsTerminal};
use std::process::ExitCode;
use terminal::Terminals;
use words::{NamedFile, Request};

mod endings;
mod faults;
mod hints;
mod looks;
mod opener;
mod over_file;
mod over_lists;
mod refusals;
mod sight;
mod terminal;
mod watch;
mod words;

fn main(rt: HostRuntime) -> ExitCode {
    let at = Terminals {
        is_typed: rt.stdin().is_terminal(),
        is_shown: rt.stderr().is_terminal(),
    };
    ExitCode::from(match words::read_words(&rt) {
        Request::Run(Some(file)) => over_named(&rt, &file, at),
        Request::Run(None) => {
            terminal::greet(&rt, at, terminal::OVER_LISTS);
            over_lists::answer_over_lists(&rt, at.is_typed)
        }
        Request::Answered(status) => status,
        Request::Memory => faults::report(&rt, faults::MEMORY),
    })
}

/// Runs the stream on standard input over the plan in a file: what opens FILE, and what looks at it, is all that the run
/// gets of the system's files.
fn over_named(rt: &HostRuntime, file: &NamedFile, at: Terminals) -> u8 {
    let opener = AtPath {
        rt,
        path: &file.path,
        new_has_sums: file.new_has_sums,
    };
    over_file::answer_over_file(
        rt.alloc(),
        rt,
        file,
        at,
        opener,
        SightOf::new(rt, &file.path),
        rt.reader(),
        io::writer(rt),
    )
}
