//! Why a stream is not run over files.

ghost use Rattle.std.specs.Prelude.{◌≡◌};
ghost use Rattle.plan_files.specs.Numbers.{number_of};

use plan_migrations::{MigrateFault, migrate_fault_number};
use plan_tables_opening::{OpenFault, open_fault_number};

/// Why a stream is not run over files.
#[derive(Clone, Copy, Debug, PartialEq, Eq)]
pub enum Unrun {
    /// The files are not opened as a database.
    Unopened(OpenFault),
    /// The version of the plan in them is not known, or it is not migrated.
    Unmigrated(MigrateFault),
    /// The database in them is not adopted as that of a plan.
    Unadopted(OpenFault),
}

impl Unrun {
    /// The number of the fault: 40 for memory, 41 for the device, 50 for the database or its version, 51 for its tables,
    /// 52 for its rows.
    pub fn number(self) -> u8
        ensures { result ≡ number_of self }
    {
        match self {
            Unrun::Unopened(fault) | Unrun::Unadopted(fault) => open_fault_number(&fault),
            Unrun::Unmigrated(fault) => migrate_fault_number(&fault),
        }
    }
}
