// Data blocks, read whole or refused at the first faulty record.

ghost use Rattle.std.specs.Prelude.{◌≡◌, ◌≤◌, length, OnOk, IfOk, IfErr};
ghost use Rattle.app_definitions.specs.Blocks.{ReadsAs, IsFaultOf};
ghost use Rattle.app_definition_records.specs.ByName.{FitsKind, AreGivenBy};
ghost use Rattle.app_definitions.specs.Definitions.{names_given};
ghost use Rattle.app_definition_records.specs.Records.{block_records, AllGood, IsFirstFaulty};

use crate::kinds::{Block, Kind};
use crate::option_blocks::read_options;
use app_definition_records::{BlockFault, ByName, Definition, LONGEST_BLOCK, collect_records};
use std::alloc::Global;

impl Block {
    /// How many names the block gives, which is 1 for options.
    pub fn len(&self) -> usize
        ensures { result ≡ names_given self.now }
    {
        match self {
            Block::Applications(applications) => applications.len(),
            Block::Calendars(calendars) => calendars.len(),
            Block::Periods(periods) => periods.len(),
            Block::Predecessors(predecessors) => predecessors.len(),
            Block::RunCycles(run_cycles) => run_cycles.len(),
            Block::Options(_) => 1,
        }
    }
}

// The definitions that a block of one kind gives.
fn read_kind<D: Definition>(alloc: Global, text: &[u8]) -> Result<ByName<D>, BlockFault>
    requires { length text.now ≤ LONGEST_BLOCK }
    ensures good { OnOk result (AllGood (FitsKind D.HasFields D.FitsName)
        (block_records text.now)) }
    ensures given { IfOk result (λ d. AreGivenBy D.IsMadeOf d (block_records text.now)) }
    ensures faulty { IfErr result (IsFirstFaulty (FitsKind D.HasFields D.FitsName)
        (block_records text.now)) }
{
    let mut definitions = ByName::new(alloc);
    collect_records(alloc, text, &mut definitions)?;
    Ok(definitions)
}

/// Reads a block of applications.
pub fn read_applications(alloc: Global, text: &[u8]) -> Result<Block, BlockFault>
    requires { length text.now ≤ LONGEST_BLOCK }
    ensures reads { IfOk result (ReadsAs Kind.Applications text.now) }
    ensures faulty { IfErr result (IsFaultOf Kind.Applications text.now) }
{
    Ok(Block::Applications(read_kind(alloc, text)?))
}

/// Reads a block of calendars.
pub fn read_calendars(alloc: Global, text: &[u8]) -> Result<Block, BlockFault>
    requires { length text.now ≤ LONGEST_BLOCK }
    ensures reads { IfOk result (ReadsAs Kind.Calendars text.now) }
    ensures faulty { IfErr result (IsFaultOf Kind.Calendars text.now) }
{
    Ok(Block::Calendars(read_kind(alloc, text)?))
}

/// Reads a block of periods.
pub fn read_periods(alloc: Global, text: &[u8]) -> Result<Block, BlockFault>
    requires { length text.now ≤ LONGEST_BLOCK }
    ensures reads { IfOk result (ReadsAs Kind.Periods text.now) }
    ensures faulty { IfErr result (IsFaultOf Kind.Periods text.now) }
{
    Ok(Block::Periods(read_kind(alloc, text)?))
}

/// Reads a block of predecessors.
pub fn read_predecessors(alloc: Global, text: &[u8]) -> Result<Block, BlockFault>
    requires { length text.now ≤ LONGEST_BLOCK }
    ensures reads { IfOk result (ReadsAs Kind.Predecessors text.now) }
    ensures faulty { IfErr result (IsFaultOf Kind.Predecessors text.now) }
{
    Ok(Block::Predecessors(read_kind(alloc, text)?))
}

/// Reads a block of run cycles.
pub fn read_run_cycles(alloc: Global, text: &[u8]) -> Result<Block, BlockFault>
    requires { length text.now ≤ LONGEST_BLOCK }
    ensures reads { IfOk result (ReadsAs Kind.RunCycles text.now) }
    ensures faulty { IfErr result (IsFaultOf Kind.RunCycles text.now) }
{
    Ok(Block::RunCycles(read_kind(alloc, text)?))
}

/// Reads a block of that kind.
pub fn read_block(alloc: Global, kind: Kind, text: &[u8]) -> Result<Block, BlockFault>
    requires { length text.now ≤ LONGEST_BLOCK }
    ensures reads { IfOk result (ReadsAs kind text.now) }
    ensures faulty { IfErr result (IsFaultOf kind text.now) }
{
    match kind {
        Kind::Applications => read_applications(alloc, text),
        Kind::Calendars => read_calendars(alloc, text),
        Kind::Periods => read_periods(alloc, text),
        Kind::Predecessors => read_predecessors(alloc, text),
        Kind::RunCycles => read_run_cycles(alloc, text),
        Kind::Options => read_options(alloc, text),
    }
}
