// The content of the tables of schema 1, before they are replaced.

ghost use Rattle.std.specs.Prelude.{◌≡◌, IfErr, OnOk};
ghost use Rattle.plan_migrations_remaking.specs.Remaking.{AreAllFirst, AreWhole};
ghost use Rattle.plan_migrations.specs.Faults.{fault_in_memory};
ghost use Rattle.plan_migrations.specs.Migrating.{FailToHold, HaveSound, TellsOf};

use crate::faults::MigrateFault;
use plan_migrations_remaking::{FirstRows, plan_in_memory};
use plan_tables_opening::{OpenFault, fault_for, open_content};
use sqlite::Error;
use std::alloc::Global;

/// The fault of tables that are not made.
pub(crate) fn remake_fault(error: &Error) -> MigrateFault
    ensures { TellsOf error.now result }
{
    match fault_for(error, OpenFault::Unopened) {
        OpenFault::Memory => MigrateFault::Memory,
        OpenFault::Device => MigrateFault::Device,
        _ => MigrateFault::OtherTable,
    }
}

// The fault of a content that is not opened in memory: only its rows can be at fault, because the tables were just
// made there.
fn content_fault(fault: OpenFault) -> MigrateFault
    ensures { result ≡ fault_in_memory fault }
{
    match fault {
        OpenFault::Rows => MigrateFault::Rows,
        _ => MigrateFault::Memory,
    }
}

/// Checks that the rows have a sound content, once tables of a plan in memory have them.
pub(crate) fn check_content(alloc: Global, reads: &[FirstRows]) -> Result<(), MigrateFault>
    requires whole { AreWhole reads.now }
    requires typed { AreAllFirst reads.now }
    ensures sound { OnOk result (HaveSound reads.now) }
    ensures refused { IfErr result (FailToHold reads.now) }
{
    match plan_in_memory(alloc, reads) {
        Ok(mut conn) => match open_content(alloc, &mut conn) {
            Ok(_) => Ok(()),
            Err(fault) => Err(content_fault(fault)),
        },
        Err(error) => Err(remake_fault(&error)),
    }
}
