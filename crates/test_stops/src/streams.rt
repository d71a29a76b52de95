//! A stream that is stopped, and how far a run of it came.

use crate::items::{Placed, statements_of};
use planner_cli::{FaultSource, RunFault, Tally};
use std::alloc::{AllocError, Global};

/// What is not as it should be.
pub type Wrong = &'static str;

/// What is written last where the store failed.
const DEVICE_LINE: &[u8] = b"fault 41\n";

/// How far a run came.
#[derive(Clone, Copy, Debug, PartialEq, Eq)]
pub enum Reached {
    /// The files were not opened, or didn't get their tables.
    Nothing,
    /// So many statements were answered before the store failed.
    Answered(usize),
    /// All statements were answered.
    End,
    /// It ended as no stop ends one, or its answers are not those of one whole run.
    Wrong,
}

/// A stream that is stopped.
#[derive(Drop)]
pub struct Stream<'a> {
    /// Its text.
    pub text: &'a [u8],
    /// The statements in it.
    statements: Vec<Placed>,
    /// All that one whole run prints.
    replies: &'a [u8],
}

/// Whether the line is the last one of an answer.
fn is_reply(line: &[u8]) -> bool {
    line.starts_with(b"ok ") || line.starts_with(b"refused ")
}

/// How many statements are answered.
fn count_replies(written: &[u8]) -> usize {
    written
        .split(|byte| *byte == b'\n')
        .filter(|line| is_reply(line))
        .count()
}

impl<'a> Stream<'a> {
    /// A stream that prints these replies.
    pub fn new(alloc: Global, text: &'a [u8], replies: &'a [u8]) -> Result<Stream<'a>, AllocError> {
        Ok(Stream {
            text,
            statements: statements_of(alloc, text)?,
            replies,
        })
    }

    /// The text of the first so many statements, if there are as many.
    pub fn beginning(&self, count: usize) -> Option<&[u8]> {
        match count.checked_sub(1) {
            None => Some(&[]),
            Some(last) => self.text.get(..self.statements.get(last)?.end),
        }
    }

    /// How far a run came that ended so and wrote this.
    pub fn end_of(&self, outcome: &Result<Tally, RunFault>, written: &[u8]) -> Reached {
        match outcome {
            Ok(_) if written == self.replies => Reached::End,
            Err(
                RunFault::Device {
                    part: FaultSource::Store,
                    ..
                },
            ) => self.stop_of(written),
            Ok(_) | Err(_) => Reached::Wrong,
        }
    }

    /// How far a run came that its store ended.
    fn stop_of(&self, written: &[u8]) -> Reached {
        match written.strip_suffix(DEVICE_LINE) {
            Some(told) if self.replies.starts_with(told) => Reached::Answered(count_replies(told)),
            Some(_) | None => Reached::Wrong,
        }
    }

    /// Whether each statement that carries a job number was answered as in one whole run.
    pub fn has_answers(&self, written: &[u8]) -> bool {
        count_replies(written) == self.statements.len() && self.has_answers_of_jobs(written)
    }

    /// Whether no statement that carries a job number has another answer than in one whole run.
    fn has_answers_of_jobs(&self, written: &[u8]) -> bool {
        let answers = written
            .split(|byte| *byte == b'\n')
            .filter(|line| is_reply(line));
        let wanted = self
            .replies
            .split(|byte| *byte == b'\n')
            .filter(|line| is_reply(line));
        self.statements.iter().zip(answers.zip(wanted)).all(|(
            statement,
            (answer, wanted),
        )| !statement.has_job || answer == wanted)
    }
}
