// The records of a block, one after the other, up to the first faulty one.

ghost use Rattle.std.specs.Prelude.{◌≡◌, ◌≤◌, [], length, OnOk, IfErr};
ghost use Rattle.csv.specs.Reading.{error_kind};
ghost use Rattle.app_definition_records.specs.ByName.{AreGivenBy, FitsKind};
ghost use Rattle.app_definition_records.specs.Records.{block_records, AllGood, IsFirstFaulty, fault_of_kind};

use crate::by_name::{ByName, Definition};
use csv::{Error, ErrorKind, ReaderBuilder};
use std::alloc::Global;

/// The most bytes that a block has.
pub const LONGEST_BLOCK: usize = 262_144;

/// Why a block is not read.
#[derive(Debug, Drop, thiserror::Error)]
pub enum BlockFault {
    /// A record is faulty, and none before it is.
    #[error("record {number} is faulty")]
    Faulty {
        /// The record's number among all that the block has, counted from 1.
        number: usize,
    },
    /// Memory was refused.
    #[error("out of memory")]
    Memory,
}

// The fault that an error of the reader stands for, at the record of this number. A text in memory can always be read,
// so an error that isn't a record of another length is lack of memory.
fn fault_of(error: &Error, number: usize) -> BlockFault
    ensures { result ≡ fault_of_kind (error_kind error.now) number }
{
    match error.kind() {
        ErrorKind::UnequalLengths { .. } => BlockFault::Faulty { number },
        _ => BlockFault::Memory,
    }
}

/// Gathers the records of a block.
pub fn collect_records<D: Definition>(
    alloc: Global,
    text: &[u8],
    into: &mut ByName<D>,
) -> Result<(), BlockFault>
    requires short { length text.now ≤ LONGEST_BLOCK }
    requires starts { AreGivenBy D.IsMadeOf into.old [] }
    ensures good { OnOk result (AllGood (FitsKind D.HasFields D.FitsName)
        (block_records text.now)) }
    ensures gathered { OnOk result (AreGivenBy D.IsMadeOf into.new (block_records text.now)) }
    ensures faulty { IfErr result (IsFirstFaulty (FitsKind D.HasFields D.FitsName)
        (block_records text.now)) }
{
    let reader = ReaderBuilder::new()
        .has_headers(false)
        .from_reader(alloc, text);
    let mut number: usize = 0;
    for row in reader.into_byte_records() {
        number += 1;
        match row {
            Ok(record) => match into.gather(alloc, &record) {
                Ok(true) => {}
                Ok(false) => return Err(BlockFault::Faulty { number }),
                Err(_) => return Err(BlockFault::Memory),
            },
            Err(error) => return Err(fault_of(&error, number)),
        }
    }
    Ok(())
}
