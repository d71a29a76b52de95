//! One stream, run in each way that it is tried in.
use crate::differences::first_difference;
use crate::listed::{Ends, Listed, Stores};
use crate::pieces::Pieces;
use crate::tables::run_over_tables;
use planner_cli::{exit_status, run_lists};
use std::alloc::{AllocError, Global};
use std::io;

/// What a stream has to print, and the status that it has to end with.
#[derive(Clone, Copy, Debug)]
pub struct Expected<'a> {
    /// All bytes that it prints.
    pub replies: &'a [u8],
    /// The exit status.
    pub status: u8,
}

/// What a stream printed, and the status that it ended with.
#[derive(Debug, Drop)]
pub struct Answered {
    /// All bytes that it printed.
    pub replies: Vec<u8>,
    /// The exit status.
    pub status: u8,
}

impl Answered {
    /// Nothing printed.
    fn none(alloc: Global) -> Answered {
        Answered {
            replies: Vec::new(alloc),
            status: 0,
        }
    }
}

/// A run that went wrong.
#[derive(Debug, Drop)]
pub struct Wrong {
    /// The line ends that it was run with.
    pub ends: &'static str,
    /// How the stream was read.
    pub pieces: &'static str,
    /// Its result.
    pub answered: Answered,
    /// How the content of the store differs from what it should be, if that is known.
    pub unlike: Option<&'static str>,
}

/// Runs a stream over a store of its own, at most so many bytes a call.
fn run_stream(alloc: Global, text: &[u8], most: usize) -> Answered {
    let mut reader = Pieces { text, most };
    let mut replies = Vec::new(alloc);
    let outcome = run_lists(alloc, &mut reader, &mut replies);
    Answered {
        replies,
        status: exit_status(&outcome),
    }
}

/// The text with a carriage return before each line feed.
fn with_returns(alloc: Global, text: &[u8]) -> Result<Vec<u8>, AllocError> {
    let mut lines = Vec::new(alloc);
    for &byte in text {
        if byte == b'\n' {
            lines.push(b'\r')?;
        }
        lines.push(byte)?;
    }
    Ok(lines)
}

/// Runs the text whole and byte by byte, and returns the first run that goes wrong.
fn try_text(
    alloc: Global,
    text: &[u8],
    ends: &'static str,
    expected: &Expected<'_>,
) -> Option<Wrong> {
    for (most, pieces) in [(usize::MAX, "whole"), (1, "byte by byte")] {
        let answered = run_stream(alloc, text, most);
        if !is_expected(&answered, expected) {
            return Some(Wrong {
                ends,
                pieces,
                answered,
                unlike: None,
            });
        }
    }
    None
}

/// Whether the stream printed what it should, and ended with the right status.
fn is_expected(answered: &Answered, expected: &Expected<'_>) -> bool {
    answered.status == expected.status && answered.replies.as_slice() == expected.replies
}

/// Runs the text over tables, and returns the run if it goes wrong.
fn try_tables(alloc: Global, text: &[u8], expected: &Expected<'_>) -> Option<Wrong> {
    let (answered, unlike) = match run_over_tables(alloc, text) {
        Ok(run) => (run.answered, run.unlike),
        Err(_) => (Answered::none(alloc), Some("opening")),
    };
    if is_expected(&answered, expected) && unlike.is_none() {
        return None;
    }
    Some(Wrong {
        ends: "as it stands",
        pieces: "over tables in memory",
        answered,
        unlike,
    })
}

/// Runs a stream in each way, and returns the first run that goes wrong, if one does.
pub fn try_stream(
    alloc: Global,
    text: &[u8],
    stream: &Listed<'_>,
    expected: &Expected<'_>,
) -> Result<Option<Wrong>, AllocError> {
    let mut wrong = try_text(alloc, text, "as it stands", expected);
    if wrong.is_none() && stream.stores != Stores::Lists {
        wrong = try_tables(alloc, text, expected);
    }
    if wrong.is_some() || stream.ends == Ends::Own {
        return Ok(wrong);
    }
    let returned = with_returns(alloc, text)?;
    Ok(try_text(alloc, &returned, "with carriage returns", expected))
}

/// Shows a line of a text.
fn show_line<W: io::Write>(writer: &mut W, what: &str, line: Option<&[u8]>) -> io::Result<()> {
    writer.write_all(what.as_bytes())?;
    match line {
        Some(line) => writer.write_all(line)?,
        None => writer.write_all(b"(no such line)")?,
    }
    writer.write_all(b"\n")
}

/// Shows a run that went wrong: how it was run, its status, and the first line that differs.
pub fn show_wrong<W: io::Write>(
    writer: &mut W,
    name: &str,
    wrong: &Wrong,
    expected: &Expected<'_>,
) -> io::Result<()> {
    let (ends, pieces) = (wrong.ends, wrong.pieces);
    let (ended, wanted) = (wrong.answered.status, expected.status);
    writeln!(writer, "{name} GOES WRONG, {ends}, {pieces}")?;
    if ended != wanted {
        writeln!(
            writer,
            "  it ended with status {ended}, and {wanted} is wanted"
        )?;
    }
    if let Some(part) = wrong.unlike {
        writeln!(writer, "  its {part} is not as it should be")?;
    }
    if let Some(first) = first_difference(&wrong.answered.replies, expected.replies) {
        let line = first.line;
        writeln!(writer, "  the first line that differs is line {line}")?;
        show_line(writer, "  printed: ", first.written)?;
        show_line(writer, "  wanted:  ", first.wanted)?;
    }
    Ok(())
}
