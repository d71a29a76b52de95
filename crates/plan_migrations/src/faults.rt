// Why a plan is not migrated.

ghost use Rattle.std.specs.Prelude.{◌≡◌};
ghost use Rattle.plan_migrations.specs.Faults.{number_of};

use thiserror::Error as Fault;

/// Why a plan is not migrated.
#[derive(Clone, Copy, Debug, PartialEq, Eq, Fault)]
pub enum MigrateFault {
    /// It is of no known version.
    #[error("it is of no known version")]
    UnknownVersion,
    /// A table is not of its schema: it can't be read, or has a value of another type.
    #[error("a table is not of its schema")]
    OtherTable,
    /// What its rows encode is not sound.
    #[error("its rows are no sound plan")]
    Rows,
    /// Memory was refused.
    #[error("memory was refused")]
    Memory,
    /// The device failed.
    #[error("the device failed")]
    Device,
}

/// The number of the fault: 50 for an unknown version, 51 for a table, 52 for rows, 40 for memory, 41 for the device.
pub fn migrate_fault_number(fault: &MigrateFault) -> u8
    ensures { result ≡ number_of fault.now }
{
    match fault {
        MigrateFault::UnknownVersion => 50,
        MigrateFault::OtherTable => 51,
        MigrateFault::Rows => 52,
        MigrateFault::Memory => 40,
        MigrateFault::Device => 41,
    }
}
