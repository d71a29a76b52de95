//! Messages for a person who types statements at a terminal.

ghost use Rattle.std.specs.Prelude.{◌↔◌, IsTrue};
ghost use Rattle.opcplan.specs.Looks.{IsLarge};

use crate::looks::{LARGE, Look};

/// How to type statements and to end a run, over a plan in a file.
pub const OVER_FILE: &str =
    "opcplan: type one statement a line (opcplan --help lists them, docs/rules/STATEMENTS.md explains them). A line /* ends the data of a define, Ctrl-D ends the run";

/// The same, over a plan that ends with the run.
pub const OVER_LISTS: &str =
    "opcplan: type one statement a line (opcplan --help lists them, docs/rules/STATEMENTS.md explains them). A line /* ends the data of a define, Ctrl-D ends the run. Without --db FILE nothing is kept";

/// Which streams of the program are at a terminal.
#[derive(Clone, Copy, Debug, PartialEq, Eq)]
pub struct Terminals {
    /// Standard input.
    pub is_typed: bool,
    /// Standard error.
    pub is_shown: bool,
}

/// Prints that on standard error, if standard input is a terminal. No memory is allocated.
pub fn greet(errors: &impl Eprint, at: Terminals, words: &str) {
    if at.is_typed {
        let _ = errors.eprintln(words);
    }
}

/// Says on standard error that a large file is about to be opened, where standard error is a terminal. No memory is
/// allocated.
pub fn announce_large(errors: &impl Eprint, at: Terminals, path: &str, found: Look) {
    if at.is_shown && is_large(found) {
        let _ = eprintln!(errors;
            "opcplan: {path}: the file has 64 MB or more, so opening it takes a while; then statements are answered"
        );
    }
}

/// Whether that is a file that takes a while to open.
fn is_large(found: Look) -> bool
    ensures { IsTrue result ↔ IsLarge found }
{
    match found {
        Look::File(_, bytes) => bytes >= LARGE,
        _ => false,
    }
}
