//! The page that items are read to, one after another.
ghost use Rattle.std.specs.Prelude.{◌≡◌, ◌≤◌, length};
ghost use Rattle.planner_cli_stream.specs.Items.{block_room, end_room, longest_block};
ghost use Rattle.planner_cli_stream.specs.Lines.{line_room};
ghost use Rattle.planner_cli_stream.specs.declared.blocks.Ending.TheVariants.{Whole};
ghost use Rattle.planner_cli_stream.specs.declared.pages.Held.TheVariants.{WithBlock};

use crate::blocks::Ending;

/// What a page holds.
#[derive(Clone, Copy, Debug, PartialEq, Eq)]
pub enum Held {
    /// Nothing: none was read yet, or the stream has ended.
    Nothing,
    /// A blank line or a comment.
    Skipped,
    /// A line that is no statement.
    NoStatement,
    /// A line without data.
    Alone,
    /// A line with data after it.
    WithBlock(Ending),
}

/// The item that was read last. A page holds no more than the front of one line and the front of one block, however
/// long they are.
#[derive(Debug, Drop)]
pub struct Page {
    pub(crate) held: Held,
    pub(crate) line: Vec<u8>,
    pub(crate) block: Vec<u8>,
    pub(crate) end: Vec<u8>,
    /// How many bytes of the stream may still be read.
    pub(crate) left: u64,
    ghost line_bound: { length line.items ≤ line_room },
    ghost block_bound: { length block.items ≤ block_room },
    ghost end_bound: { length end.items ≤ end_room },
    ghost fits: { held ≡ WithBlock Whole → length block.items ≤ longest_block },
}
