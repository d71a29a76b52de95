//! The hint for a person who types a line that is no statement.

use std::io::{self, Write};

/// The reply to a line that is no statement.
const NO_STATEMENT: &[u8] = b"refused 10\n";

/// Which pages have the statements.
const STATEMENTS: &str =
    "opcplan: that line is not a statement: a word is unknown, missing, repeated or malformed. opcplan --help lists the statements, docs/rules/STATEMENTS.md explains them";

/// Writes replies, and after each one to a line that is no statement the hint, if hints are requested.
#[derive(Drop)]
pub struct Hinting<'a, W, E> {
    writer: W,
    errors: &'a E,
    is_asked: bool,
}

impl<'a, W: Write, E: Eprint> Hinting<'a, W, E> {
    /// One that writes as this does.
    pub fn new(writer: W, errors: &'a E, is_asked: bool) -> Hinting<'a, W, E> {
        Hinting {
            writer,
            errors,
            is_asked,
        }
    }
}

impl<W: Write, E: Eprint> Write for Hinting<'_, W, E> {
    ghost contents = { λ h. W.contents h.writer };

    fn write(&mut self, buf: &[u8]) -> io::Result<usize> {
        let written = self.writer.write(buf);
        if self.is_asked && buf == NO_STATEMENT {
            let _ = self.errors.eprintln(STATEMENTS);
        }
        written
    }

    fn flush(&mut self) -> io::Result<()> {
        self.writer.flush()
    }
}
