//! The texts of jobs.
ghost use Rattle.std.specs.Prelude.{◌≡◌, IfOk};
ghost use Rattle.planner_cli.specs.Texts.{data_text};

use planner_cli_stream::joined_words;
use std::alloc::{AllocError, Global};

/// The text of a `define`: the words of its line joined by one blank, a line feed, and the bytes of its block.
pub(crate) fn data_text(alloc: Global, line: &[u8], bytes: &[u8]) -> Result<Vec<u8>, AllocError>
    ensures { IfOk result (λ text. text.items ≡ data_text line.now bytes.now) }
{
    let mut text = joined_words(alloc, line)?;
    text.push(b'\n')?;
    text.extend_from_slice(bytes)?;
    Ok(text)
}
