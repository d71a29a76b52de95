//! The data after a line.
ghost use Rattle.std.specs.Prelude.{◌≡◌, ◌⊎◌, ◌<◌, ◌≤◌, length, max, vec_capacity, IfErr, IfOk, IfSome};
ghost use Rattle.planner_cli_stream.specs.Blocks.{BlockRead, ending_of};
ghost use Rattle.planner_cli_stream.specs.Items.{block_room, end_room, longest_block};
ghost use Rattle.planner_cli_stream.specs.Readers.{IsBlamed, Measures};

use crate::line_kinds::ends_data;
use crate::lines::{ReadFault, read_line, trim_line_end};
use crate::readers::StreamReader;

/// The most bytes that a block of data may have.
pub const LONGEST_BLOCK: usize = 262_144;

/// How many bytes of a line of data are held apart from its block: those of `/*` and of its end.
const END_ROOM: usize = 4;

/// How many bytes of a block are held: one more than it may have.
const BLOCK_ROOM: usize = LONGEST_BLOCK + 1;

/// How data ended.
#[derive(Clone, Copy, Debug, PartialEq, Eq)]
pub enum Ending {
    /// By a line that is `/*`.
    Whole,
    /// By such a line, after more bytes than a block may have.
    TooLong,
    /// With the stream.
    Unended,
}

/// Reads data up to the line that ends them, and that line. `block` then holds all bytes before it, as far as there is
/// room; `line` is overwritten. `left` is how many bytes of the stream may still be read.
pub fn read_block<R: StreamReader>(
    reader: &mut R,
    left: &mut u64,
    line: &mut Vec<u8>,
    block: &mut Vec<u8>,
) -> Result<Ending, ReadFault>
    ensures read { IfOk result (λ ending. IfSome (R.remaining reader.old) (λ text.
        BlockRead text ending block.new.items (R.remaining reader.new))) }
    // At any reader, and also after a fault.
    ensures line_bound { length line.new.items ≤ max end_room (length line.old.items) }
    ensures block_bound { length block.new.items ≤ block_room }
    ensures fits { result ≡ Ok Ending.Whole → length block.new.items ≤ longest_block }
    ensures most { left.new ≤ left.old }
    ensures measured { Measures (R.remaining reader.old) (R.remaining reader.new) left.old
        left.new }
    ensures line_grows { vec_capacity line.old ≤ vec_capacity line.new }
    ensures block_grows { vec_capacity block.old ≤ vec_capacity block.new }
    ensures blamed { IfErr result (λ fault. fault ≡ ReadFault.Reader
        → IsBlamed R.fails reader.new left.new) }
    ensures memory { IfErr result (λ fault. fault ≡ ReadFault.Memory
        → (vec_capacity line.old < end_room) ⊎ (vec_capacity block.old < block_room)) }
{
    block.clear();
    let most = *left;
    for _turn in 0..most {
        let held = block.len();
        line.clear();
        if !read_line(reader, left, line, END_ROOM, block, BLOCK_ROOM)? {
            return Ok(Ending::Unended);
        }
        trim_line_end(line);
        if ends_data(line) {
            block.truncate(held);
            return Ok(ending_of(held));
        }
    }
    Err(ReadFault::Reader)
}

/// How data ended of which so many bytes were held.
fn ending_of(held: usize) -> Ending
    ensures value { result ≡ ending_of held }
    ensures fits { result ≡ Ending.Whole → held ≤ longest_block }
{
    if held > LONGEST_BLOCK {
        Ending::TooLong
    } else {
        Ending::Whole
    }
}
