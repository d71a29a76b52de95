//! `plan_migrations`: the version of the tables of a connection, and their migration.
ghost use Rattle.std.specs.Prelude.{◌≡◌, false};

use plan_migrations::MigrateFault;
use sqlite::{Alter, Connection};
use std::alloc::Global;

pub fn version<S: Alter>(
    alloc: Global,
    conn: &mut Connection<S>,
) -> Result<Option<u32>, MigrateFault>
    requires { conn.old.in_transaction ≡ false }
{
    plan_migrations::version(alloc, conn)
}

pub fn migrate<S: Alter>(
    alloc: Global,
    conn: &mut Connection<S>,
) -> Result<(u32, u32), MigrateFault>
    requires { conn.old.in_transaction ≡ false }
{
    plan_migrations::migrate(alloc, conn)
}

/// The number that the program prints.
// Here a plan whose rows are unsound isn't migrated, and there is a fault for it.
pub fn number(fault: MigrateFault) -> u8 {
    match fault {
        MigrateFault::UnknownVersion => 50,
        MigrateFault::OtherTable => 51,
        MigrateFault::Rows => 52,
        MigrateFault::Memory => 40,
        MigrateFault::Device => 41,
    }
}

// Here `migrate_fault_number` is in the crate of its fault.
#[test]
fn faults_of_migrations_have_their_numbers(rt: HostRuntime) {
    for fault in [
        MigrateFault::UnknownVersion,
        MigrateFault::OtherTable,
        MigrateFault::Rows,
        MigrateFault::Memory,
        MigrateFault::Device,
    ] {
        assert_eq!(rt;
            plan_migrations::migrate_fault_number(&fault),
            number(fault)
        );
    }
}
