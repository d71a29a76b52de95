//! Where a stream can be cut.
ghost use Rattle.std.specs.Prelude.{◌≤◌, length};

use std::alloc::{AllocError, Global};

/// A statement of a stream that gets an answer.
#[derive(Clone, Copy, Debug, PartialEq, Eq)]
pub struct Placed {
    /// The place after it, and after its data block if it has one.
    pub end: usize,
    /// Whether it has a job number, as all do that change something.
    pub has_job: bool,
}

/// Whether the line gets no reply: a comment, or blanks alone.
fn is_passed_over(line: &[u8]) -> bool {
    line.first() == Some(&b'*')
        || line
            .iter()
            .all(|byte| *byte == b' ' || *byte == b'\t' || *byte == b'\r')
}

/// Whether the line carries a job number.
fn has_job(line: &[u8]) -> bool {
    line.split(|byte| *byte == b' ')
        .any(|word| word == b"--job".as_slice())
}

/// Whether the line is a statement that a data block follows.
fn has_data(line: &[u8]) -> bool {
    let mut words = line.split(|byte| *byte == b' ' || *byte == b'\t' || *byte == b'\r');
    words.find(|word| !word.is_empty()) == Some(b"define".as_slice())
}

/// Whether the line ends a data block.
fn ends_data(line: &[u8]) -> bool {
    line == b"/*".as_slice() || line == b"/*\r".as_slice()
}

/// The place after the first statement, with its data block if it has one, that ends in the second half of the stream;
/// the end of the stream if none does.
pub fn middle_of(text: &[u8]) -> usize
    ensures { result ≤ length text.now }
{
    let mut place: usize = 0;
    let mut in_block = false;
    for line in text.split(|byte| *byte == b'\n') {
        place = place.saturating_add(line.len()).saturating_add(1);
        in_block = if in_block {
            !ends_data(line)
        } else {
            has_data(line)
        };
        if !in_block && place > text.len() / 2 {
            return place.min(text.len());
        }
    }
    text.len()
}

/// The statements of a stream that get an answer, in order.
pub fn statements_of(alloc: Global, text: &[u8]) -> Result<Vec<Placed>, AllocError> {
    let mut statements = Vec::new(alloc);
    let mut place: usize = 0;
    let mut block_of_job = None;
    for line in text.split(|byte| *byte == b'\n') {
        place = place.saturating_add(line.len()).saturating_add(1);
        let end = place.min(text.len());
        match block_of_job {
            Some(has_job) => {
                if ends_data(line) {
                    statements.push(Placed { end, has_job })?;
                    block_of_job = None;
                }
            }
            None if has_data(line) => block_of_job = Some(has_job(line)),
            None if is_passed_over(line) => {}
            None => {
                let has_job = has_job(line);
                statements.push(Placed { end, has_job })?;
            }
        }
    }
    Ok(statements)
}
