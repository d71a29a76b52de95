//! The first line in which two texts differ.
use std::fmt;

/// The first line that was written and isn't the expected one.
#[derive(Clone, Copy, Debug)]
pub struct Difference<'a> {
    /// Its number, from 1.
    pub line: usize,
    /// The line as it was written; `None` where the text ends before it.
    pub written: Option<&'a [u8]>,
    /// The line that is expected; `None` if no line is.
    pub wanted: Option<&'a [u8]>,
}

/// The first line in which the texts differ, if they do.
pub fn first_difference<'a>(written: &'a [u8], wanted: &'a [u8]) -> Option<Difference<'a>> {
    if written == wanted {
        return None;
    }
    let lines = written.split(|byte| *byte == b'\n');
    let wanted_lines = wanted.split(|byte| *byte == b'\n');
    let same = lines
        .zip(wanted_lines)
        .take_while(|(line, wanted)| *line == *wanted)
        .count();
    Some(Difference {
        line: same.saturating_add(1),
        written: written.split(|byte| *byte == b'\n').nth(same),
        wanted: wanted.split(|byte| *byte == b'\n').nth(same),
    })
}
