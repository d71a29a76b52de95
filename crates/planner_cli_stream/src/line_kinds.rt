//! What one line is, whatever its words say, and whether data follow it.
ghost use Rattle.std.specs.Prelude.{◌≡◌, take};
ghost use Rattle.planner_cli_stream.specs.Lines.{longest_line, is_comment, opens_data, ends_data, kind_of};

use crate::{first_word, is_line_text};

/// The most bytes that a statement's line may have, its end not counted.
pub const LONGEST_LINE: usize = 1024;

/// What a line is, whatever its words say.
#[derive(Clone, Copy, Debug, PartialEq, Eq)]
pub enum LineKind {
    /// Blank, or a comment: it is no item.
    Skipped,
    /// No statement: too long, or with a byte that no statement has.
    NoStatement,
    /// A line whose words are to be read.
    Statement,
}

/// The front of a line, as long as a statement's line may be.
#[tactic(auto, using(crate::proofs::Kept::take_short))]
fn front(line: &[u8]) -> &[u8]
    ensures { result.now ≡ take longest_line line.now }
{
    if LONGEST_LINE < line.len() {
        &line[..LONGEST_LINE]
    } else {
        line
    }
}

/// Whether data follow a line: the first word of its front is `define`.
#[tactic(auto, unfolding(crate::specs::Lines::opens_data))]
pub fn opens_data(line: &[u8]) -> bool
    ensures { result ≡ opens_data line.now }
{
    match first_word(front(line)) {
        Some(word) => word == b"define".as_slice(),
        None => false,
    }
}

/// Whether a line ends data.
#[tactic(auto, unfolding(crate::specs::Lines::ends_data))]
pub fn ends_data(line: &[u8]) -> bool
    ensures { result ≡ ends_data line.now }
{
    line == b"/*".as_slice()
}

/// Whether a line starts with `*`.
#[tactic(auto, unfolding(crate::specs::Lines::is_comment))]
fn is_comment(line: &[u8]) -> bool
    ensures { result ≡ is_comment line.now }
{
    match line {
        [] => false,
        [first, ..] => *first == b'*',
    }
}

/// What a line is. One that is longer than a statement's may be is none, whatever it holds.
#[tactic(auto, unfolding(crate::specs::Lines::kind_of))]
pub fn kind_of(line: &[u8]) -> LineKind
    ensures { result ≡ kind_of line.now }
{
    if line.len() > LONGEST_LINE {
        LineKind::NoStatement
    } else if is_comment(line) || first_word(line).is_none() {
        LineKind::Skipped
    } else if is_line_text(line) {
        LineKind::Statement
    } else {
        LineKind::NoStatement
    }
}
