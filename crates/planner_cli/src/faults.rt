//! What ends a run before its stream does.
ghost use Rattle.std.specs.Prelude.{◌≡◌};
ghost use Rattle.planner_cli.specs.Faults.{cause_of, read_cause, store_cause, tally_in, fault_number};

use crate::tally::Tally;
use plan_store::StoreFault;
use planner_cli_stream::ReadFault;
use std::fmt;
use thiserror::Error;

/// What a device fault blames.
#[derive(Clone, Copy, Debug, PartialEq, Eq)]
pub enum FaultSource {
    /// What keeps the plan.
    Store,
    /// Where the stream comes from.
    Reader,
    /// Where the replies go.
    Writer,
}

impl fmt::Display for FaultSource {
    fn fmt<W: fmt::Write>(&self, f: &mut fmt::Formatter<W>) -> fmt::Result {
        match self {
            FaultSource::Store => write!(f, "store"),
            FaultSource::Reader => write!(f, "reader"),
            FaultSource::Writer => write!(f, "writer"),
        }
    }
}

/// Why a run ends.
#[derive(Clone, Copy, Debug, PartialEq, Eq)]
pub enum Cause {
    /// Memory was refused.
    Memory,
    /// A part failed.
    Device(FaultSource),
}

/// The fault that ended a run, with the tally of the statements acknowledged before it.
#[derive(Debug, Drop, Error)]
pub enum RunFault {
    /// Fault 40: memory was refused.
    #[error("fault 40: memory was refused")]
    Memory {
        /// The statements acknowledged before it.
        tally: Tally,
    },
    /// Fault 41: the store, the reader or the writer failed.
    #[error("fault 41: the {part} failed")]
    Device {
        /// The part that failed.
        part: FaultSource,
        /// The statements acknowledged before it.
        tally: Tally,
    },
}

impl RunFault {
    /// The fault of a cause, after these statements.
    pub(crate) fn new(cause: Cause, tally: Tally) -> RunFault
        ensures cause { cause_of result ≡ cause }
        ensures tally { tally_in result ≡ tally }
    {
        match cause {
            Cause::Memory => RunFault::Memory { tally },
            Cause::Device(part) => RunFault::Device { part, tally },
        }
    }

    /// Why the run ended.
    pub(crate) fn cause(&self) -> Cause
        ensures { result ≡ cause_of self.now }
    {
        match self {
            RunFault::Memory { .. } => Cause::Memory,
            RunFault::Device { part, .. } => Cause::Device(*part),
        }
    }

    /// The statements acknowledged before it.
    pub fn tally(&self) -> Tally
        ensures { result ≡ tally_in self.now }
    {
        match self {
            RunFault::Memory { tally } => *tally,
            RunFault::Device { tally, .. } => *tally,
        }
    }

    /// The number of the fault: 40 or 41.
    pub fn number(&self) -> u8
        ensures { result ≡ fault_number (cause_of self.now) }
    {
        match self {
            RunFault::Memory { .. } => 40,
            RunFault::Device { .. } => 41,
        }
    }
}

/// The cause that a fault of reading stands for.
pub fn cause_of_read(fault: ReadFault) -> Cause
    ensures { result ≡ read_cause fault }
{
    match fault {
        ReadFault::Memory => Cause::Memory,
        ReadFault::Reader => Cause::Device(FaultSource::Reader),
    }
}

/// The cause that a fault of the store stands for.
pub fn cause_of_store(fault: StoreFault) -> Cause
    ensures { result ≡ store_cause fault }
{
    match fault {
        StoreFault::Memory => Cause::Memory,
        StoreFault::Device => Cause::Device(FaultSource::Store),
    }
}
