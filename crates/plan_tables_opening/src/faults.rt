// Why a database of a plan is not opened.

ghost use Rattle.std.specs.Prelude.{◌≡◌, ◌⊎◌};
ghost use Rattle.plan_tables_opening.specs.Faults.{fault_for, number_of};
ghost use Rattle.plan_tables_opening.specs.declared.faults.OpenFault.TheVariants.{Memory, Device};

use sqlite::{Error, ErrorCode};
use thiserror::Error as Fault;

/// Why a database of a plan is not opened.
#[derive(Clone, Copy, Debug, PartialEq, Eq, Fault)]
pub enum OpenFault {
    /// Memory was refused.
    #[error("memory was refused")]
    Memory,
    /// The device failed.
    #[error("the device failed")]
    Device,
    /// It is no database, its tables are of no known version, or tables can't be made.
    #[error("it is no database of a plan")]
    Unopened,
    /// Its tables are not those of a plan, or a statement was refused for another cause.
    #[error("its tables are not those of a plan")]
    Tables,
    /// Its rows are no sound content.
    #[error("its rows are no sound plan")]
    Rows,
}

/// The fault of a call that failed: memory, the device, or else this one.
pub fn fault_for(error: &Error, other: OpenFault) -> OpenFault
    ensures value { result ≡ fault_for error.now other }
    ensures cases { (result ≡ Memory) ⊎ (result ≡ Device) ⊎ (result ≡ other) }
{
    match error {
        Error::SqliteFailure(ErrorCode::OutOfMemory) => OpenFault::Memory,
        Error::SqliteFailure(
            ErrorCode::SystemIoFailure
            | ErrorCode::DatabaseCorrupt
            | ErrorCode::DiskFull
            | ErrorCode::Closed,
        ) => OpenFault::Device,
        _ => other,
    }
}

/// The number of the fault: 40 for memory, 41 for the device, 50 for what is not opened, 51 for tables, 52 for rows.
pub fn open_fault_number(fault: &OpenFault) -> u8
    ensures { result ≡ number_of fault.now }
{
    match fault {
        OpenFault::Memory => 40,
        OpenFault::Device => 41,
        OpenFault::Unopened => 50,
        OpenFault::Tables => 51,
        OpenFault::Rows => 52,
    }
}
