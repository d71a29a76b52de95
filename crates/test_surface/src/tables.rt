//! `plan_tables`: stores over the tables of a database.
ghost use Rattle.std.specs.Prelude.{◌≡◌, false};

use plan_tables::{OpenFault, TableStore};
use sqlite::{Alter, Connection, File, FileStore, Leftover, MemStore};
use std::alloc::Global;
use std::rt::HostRuntime;

pub fn open_memory(alloc: Global) -> Result<TableStore<MemStore>, OpenFault> {
    TableStore::open_memory(alloc)
}

// Here what is left of the files comes with the fault, if they were opened.
pub fn open_path(
    rt: &HostRuntime,
    alloc: Global,
    path: &str,
) -> Result<TableStore<FileStore<File>>, (OpenFault, Option<Leftover<File>>)> {
    TableStore::open_path(rt, alloc, path)
}

// Here the memory for the files is the runtime's.
pub fn open_connection(
    rt: &HostRuntime,
    path: &str,
) -> Result<Connection<FileStore<File>>, OpenFault> {
    plan_tables::open_connection(rt, path)
}

// Here the type of the database's store can also be dropped.
pub fn adopt<S: Alter + Drop>(
    alloc: Global,
    conn: Connection<S>,
) -> Result<TableStore<S>, (OpenFault, Connection<S>)>
    requires { conn.in_transaction ≡ false }
{
    TableStore::adopt(alloc, conn)
}

pub fn into_connection<S: Alter + Drop>(store: TableStore<S>) -> Connection<S> {
    store.into_connection()
}

/// The number that the program prints.
pub fn number(fault: OpenFault) -> u8 {
    match fault {
        OpenFault::Memory => 40,
        OpenFault::Device => 41,
        OpenFault::Unopened => 50,
        OpenFault::Tables => 51,
        OpenFault::Rows => 52,
    }
}

// Here `open_fault_number` is in the crate of its fault.
#[test]
fn faults_of_openings_have_their_numbers(rt: HostRuntime) {
    for fault in [
        OpenFault::Memory,
        OpenFault::Device,
        OpenFault::Unopened,
        OpenFault::Tables,
        OpenFault::Rows,
    ] {
        assert_eq!(rt;
            plan_tables_opening::open_fault_number(&fault),
            number(fault)
        );
    }
}
