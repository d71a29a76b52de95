//! `app_definitions`: data blocks of each kind, and definitions by name.
ghost use Rattle.std.specs.Prelude.{◌≤◌, length};

use app_definitions::{Block, BlockFault, Definitions, Kind, LONGEST_BLOCK};
use std::alloc::Global;
use work_calendars::{Memory, Name};

/// The reader of a kind.
pub fn read(alloc: Global, kind: Kind, text: &[u8]) -> Result<Block, BlockFault>
    requires { length text.now ≤ LONGEST_BLOCK }
{
    match kind {
        Kind::Calendars => app_definitions::read_calendars(alloc, text),
        Kind::Periods => app_definitions::read_periods(alloc, text),
        Kind::Applications => app_definitions::read_applications(alloc, text),
        Kind::RunCycles => app_definitions::read_run_cycles(alloc, text),
        Kind::Predecessors => app_definitions::read_predecessors(alloc, text),
        Kind::Options => app_definitions::read_options(alloc, text),
    }
}

/// The faulty record; nothing if memory was refused.
pub fn faulty_record(fault: BlockFault) -> Option<usize> {
    match fault {
        BlockFault::Faulty { number } => Some(number),
        BlockFault::Memory => None,
    }
}

/// A block holds the definitions of one kind.
// Here the records are in a crate below, and this one passes on what its calls return.
pub fn kind(block: &Block) -> Kind {
    match block {
        Block::Calendars(_) => Kind::Calendars,
        Block::Periods(_) => Kind::Periods,
        Block::Applications(_) => Kind::Applications,
        Block::RunCycles(_) => Kind::RunCycles,
        Block::Predecessors(_) => Kind::Predecessors,
        Block::Options(_) => Kind::Options,
    }
}

pub fn new_definitions(alloc: Global) -> Definitions {
    Definitions::new(alloc)
}

pub fn merge(definitions: &mut Definitions, block: Block) -> Result<usize, Memory> {
    definitions.merge(block)
}

pub fn remove(definitions: &mut Definitions, kind: Kind, name: &Name) -> bool {
    definitions.remove(kind, name)
}
