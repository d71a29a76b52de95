//! Items are read to a page.
ghost use Rattle.std.specs.Prelude.{◌≡◌, ◌≢◌, ◌-◌, ◌≤◌, [], length, None, Some, IfErr, IfOk, IfSome, OnErr, OnOk};
ghost use Rattle.std.specs.Option.{option_map};
ghost use Rattle.planner_cli_stream.specs.Items.{longest_block};
ghost use Rattle.planner_cli_stream.specs.Pages.{FitsBlock, ItemRead, KeepsRoom, MayNeedMemory, PartRead};
ghost use Rattle.planner_cli_stream.specs.Pages.{held_alone, held_with_data, item_held, item_of, item_on, left_on};
ghost use Rattle.planner_cli_stream.specs.Readers.{IsBlamed, Measures, longest_stream};

use crate::blocks::{Ending, read_block};
use crate::items::{DataBlock, Item};
use crate::line_kinds::{LONGEST_LINE, LineKind, kind_of, opens_data};
use crate::lines::{ReadFault, read_line, trim_line_end};
use crate::pages::{Held, Page};
use crate::readers::StreamReader;
use std::alloc::Global;

/// The most bytes that a stream may have.
const LONGEST_STREAM: u64 = u64::MAX;

/// How many bytes of a line are held: those of a statement's, a carriage return and a line feed.
const LINE_ROOM: usize = LONGEST_LINE + 2;

impl Page {
    /// A page with nothing on it. It allocates no memory.
    pub fn new(alloc: Global) -> Page
        ensures item { item_on result ≡ None }
        ensures left { left_on result ≡ longest_stream }
    {
        Page {
            held: Held::Nothing,
            line: Vec::new(alloc),
            block: Vec::new(alloc),
            end: Vec::new(alloc),
            left: LONGEST_STREAM,
        }
    }

    /// Reads the next item; blank lines and comments before it are skipped. At the end of the stream, and after a
    /// fault, the page has none. Every error of the reader is a fault. So is a stream of 2^64 - 1 bytes or more; no number
    /// of lines ends a shorter one.
    pub fn read_item<R: StreamReader>(&mut self, reader: &mut R) -> Result<(), ReadFault>
        // If the reader's bytes are known, the item is the first of those that they read as.
        ensures read { OnOk result (IfSome (R.remaining reader.old) (λ text.
            ItemRead text (item_on self.new) (R.remaining reader.new))) }
        ensures fault { OnErr result (item_on self.new ≡ None) }
        // Each item takes a byte at least of those that may be read, and no more of them than it has.
        ensures falls { OnOk result (item_on self.new ≢ None
            → left_on self.new ≤ left_on self.old - 1) }
        ensures measured { Measures (R.remaining reader.old) (R.remaining reader.new)
            (left_on self.old) (left_on self.new) }
        ensures room { KeepsRoom self.old self.new }
        // The reader is blamed only where the last call on it failed, or the stream is too long, and memory only where a
        // buffer may have to grow. A page whose buffers are as long as they may get has no fault of memory.
        ensures blamed { IfErr result (λ fault. fault ≡ ReadFault.Reader
            → IsBlamed R.fails reader.new (left_on self.new)) }
        ensures memory { IfErr result (λ fault. fault ≡ ReadFault.Memory
            → MayNeedMemory self.old) }
    {
        self.held = Held::Nothing;
        let most = self.left;
        for _turn in 0..most {
            let held = self.read_part(reader)?;
            if held != Held::Skipped {
                self.held = held;
                return Ok(());
            }
        }
        Err(ReadFault::Reader)
    }

    /// The item that was read last.
    pub fn item(&self) -> Option<Item<'_>>
        ensures item { option_map item_of result ≡ item_on self.now }
        ensures fits { IfSome result FitsBlock }
    {
        match self.held {
            Held::Nothing | Held::Skipped => None,
            Held::NoStatement => Some(Item::NoStatement),
            Held::Alone => Some(Item::Alone(&self.line)),
            Held::WithBlock(ending) => {
                let block = match ending {
                    Ending::Whole => DataBlock::Whole(&self.block),
                    Ending::TooLong => DataBlock::TooLong,
                    Ending::Unended => DataBlock::Unended,
                };
                Some(Item::WithBlock(&self.line, block))
            }
        }
    }

    /// Reads up to the end of the next line, and of the data after it: a byte at least, if there is one. `line` then
    /// holds the line without its end, `block` the bytes of its data, each as far as there is room.
    fn read_part<R: StreamReader>(&mut self, reader: &mut R) -> Result<Held, ReadFault>
        requires { self.old.held ≡ Held.Nothing }
        ensures part { IfOk result (λ held. IfSome (R.remaining reader.old) (λ text.
            PartRead text (item_held held self.new.line.items self.new.block.items) (R.remaining reader.new))) }
        ensures end { result ≡ Ok Held.Nothing → IfSome (R.remaining reader.old) (λ text. text
            ≡ []) }
        ensures fits { result ≡ Ok (Held.WithBlock Ending.Whole)
            → length self.new.block.items ≤ longest_block }
        ensures nothing_held { self.new.held ≡ Held.Nothing }
        ensures falls { IfOk result (λ held. held ≢ Held.Nothing
            → self.new.left ≤ self.old.left - 1) }
        ensures most { self.new.left ≤ self.old.left }
        ensures measured { Measures (R.remaining reader.old) (R.remaining reader.new) self.old.left
            self.new.left }
        ensures blamed { IfErr result (λ fault. fault ≡ ReadFault.Reader
            → IsBlamed R.fails reader.new self.new.left) }
        ensures room { KeepsRoom self.old self.new }
        ensures memory { IfErr result (λ fault. fault ≡ ReadFault.Memory
            → MayNeedMemory self.old) }
    {
        self.line.clear();
        if !read_line(
            reader,
            &mut self.left,
            &mut self.line,
            LINE_ROOM,
            &mut self.block,
            0,
        )? {
            return Ok(Held::Nothing);
        }
        trim_line_end(&mut self.line);
        let kind = kind_of(&self.line);
        if opens_data(&self.line) {
            let ending = read_block(reader, &mut self.left, &mut self.end, &mut self.block)?;
            Ok(held_with_data(kind, ending))
        } else {
            Ok(held_alone(kind))
        }
    }
}

/// What a line is after which no data follow.
fn held_alone(kind: LineKind) -> Held
    ensures { result ≡ held_alone kind }
{
    match kind {
        LineKind::Skipped => Held::Skipped,
        LineKind::NoStatement => Held::NoStatement,
        LineKind::Statement => Held::Alone,
    }
}

/// What a line is whose data ended so.
fn held_with_data(kind: LineKind, ending: Ending) -> Held
    ensures { result ≡ held_with_data kind ending }
{
    match kind {
        LineKind::Skipped => Held::Skipped,
        LineKind::NoStatement => Held::NoStatement,
        LineKind::Statement => Held::WithBlock(ending),
    }
}
