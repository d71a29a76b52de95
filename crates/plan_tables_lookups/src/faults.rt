// Why rows, or what they encode, are not passed on.

ghost use Rattle.std.specs.Prelude.{◌≡◌};

use sqlite::Error;
use std::alloc::{AllocError, AllocFailed};

/// Why what the tables encode was not fetched.
#[derive(Clone, Copy, Debug)]
pub enum TableFault {
    /// Memory was refused as a row was decoded; the connection is as it was.
    Memory,
    /// A row is malformed: it encodes no fact.
    Malformed,
    /// The query failed.
    Store(Error),
}

impl From<AllocError> for TableFault {
    ghost use Rattle.plan_tables_lookups.specs.declared.faults.TableFault.TheVariants.{Memory};

    ghost from_gives = { λ _ fault. fault ≡ Memory };

    fn from(_: AllocError) -> TableFault {
        TableFault::Memory
    }
}

impl<T: Drop> From<AllocFailed<T>> for TableFault {
    ghost use Rattle.plan_tables_lookups.specs.declared.faults.TableFault.TheVariants.{Memory};

    ghost from_gives = { λ _ fault. fault ≡ Memory };

    fn from(_: AllocFailed<T>) -> TableFault {
        TableFault::Memory
    }
}

impl From<Error> for TableFault {
    ghost use Rattle.plan_tables_lookups.specs.declared.faults.TableFault.TheVariants.{Store};

    ghost from_gives = { λ error fault. fault ≡ Store error };

    fn from(error: Error) -> TableFault {
        TableFault::Store(error)
    }
}

/// Why a sink did not get all of an answer.
#[derive(Clone, Copy, Debug)]
pub enum Stopped<F> {
    /// The sink refused a part of it.
    Sink,
    /// It could not be read.
    Fault(F),
}

impl<F> From<F> for Stopped<F> {
    ghost use Rattle.plan_tables_lookups.specs.declared.faults.Stopped.TheVariants.{Fault};

    ghost from_gives = { λ fault stopped. stopped ≡ Fault fault };

    fn from(fault: F) -> Stopped<F> {
        Stopped::Fault(fault)
    }
}
