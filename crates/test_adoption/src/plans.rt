//! Plans that are adopted and migrated, or why they are not.
ghost use Rattle.std.specs.Prelude.{◌≡◌, false, IfOk};

use plan_migrations::{MigrateFault, migrate, migrate_fault_number};
use plan_tables::{OpenFault, TableStore};
use plan_tables_opening::open_fault_number;
use plan_tables_schema::make_tables;
use sqlite::{Alter, Connection, Error, MemStore};
use std::alloc::Global;
use std::test::Fail;

/// A and B are named on two days: 1 and 2 wait in the current plan, which ends as 3 and 4 arrive, on 2024-01-02 at 08.00.
/// The first day is 19723. The last job was answered.
const ROWS: &str =
    "INSERT INTO plan_meta VALUES (1, 2, 1, 19723, 19724, 28403040, 4, 'DEFAULT', 504); \
    INSERT INTO calendar_entry VALUES ('DEFAULT', 0, 5, 0), ('DEFAULT', 0, 6, 0); \
    INSERT INTO plan_period VALUES ('DAY', 0, 'A', 19723, 1); \
    INSERT INTO application VALUES ('A', 1, NULL), ('B', 1, NULL); \
    INSERT INTO run_cycle VALUES ('A', 'RC', 'N', 'DAY', '4', 19723, NULL, 480, 0, 1080), \
    ('B', 'RC', 'N', 'DAY', '4', 19723, NULL, 480, 0, 1080); \
    INSERT INTO run_cycle_offset VALUES ('A', 'RC', 0, 1), ('B', 'RC', 0, 1); \
    INSERT INTO cp_row VALUES (1, 'A', 28401600, 28402200, 'RC', 'W'), (2, 'B', 28401600, 28402200, 'RC', 'W'); \
    INSERT INTO ltp_row VALUES (3, 'A', 28403040, 28403640, 'RC'), (4, 'B', 28403040, 28403640, 'RC'); \
    INSERT INTO job VALUES (6, x'00', 'ok moved 2 carried 0 completed 0 deleted 0')";

/// A plan with these rows, and what a text makes of it.
pub(crate) fn plan(alloc: Global, change: &str) -> Result<Connection<MemStore>, Error>
    ensures { IfOk result (λ conn. conn.in_transaction ≡ false) }
{
    let mut conn = Connection::open_in_memory(alloc)?;
    if conn.is_autocommit() {
        make_tables(&mut conn)?;
    }
    conn.execute_batch(ROWS)?;
    conn.execute_batch(change)?;
    settled(conn)
}

/// What a text makes of an empty database.
pub(crate) fn other(alloc: Global, text: &str) -> Result<Connection<MemStore>, Error>
    ensures { IfOk result (λ conn. conn.in_transaction ≡ false) }
{
    let mut conn = Connection::open_in_memory(alloc)?;
    conn.execute_batch(text)?;
    settled(conn)
}

/// The connection, outside a transaction.
pub(crate) fn settled<S: Alter + Drop>(conn: Connection<S>) -> Result<Connection<S>, Error>
    ensures { IfOk result (λ conn. conn.in_transaction ≡ false) }
{
    if conn.is_autocommit() {
        Ok(conn)
    } else {
        Err(Error::InvalidQuery)
    }
}

/// Why the tables are not adopted, with the number that the program prints; `None` where they are.
fn adoption_fault<S: Alter + Drop>(alloc: Global, conn: Connection<S>) -> Option<(OpenFault, u8)>
    requires { conn.in_transaction ≡ false }
{
    match TableStore::adopt(alloc, conn) {
        Ok(_store) => None,
        Err((fault, _conn)) => Some((fault, open_fault_number(&fault))),
    }
}

// Nothing, a list with its pairs, a key that was withdrawn, and replies to jobs, among them those that show serial 0.
#[test]
fn sound_plans_are_adopted(rt: HostRuntime) -> Result<(), Fail> {
    for change in [
        "",
        "INSERT INTO link_in_force VALUES ('B', 'A', NULL); INSERT INTO dependency VALUES (2, 1), (4, 3)",
        "INSERT INTO deletion_row VALUES (5, 'A', 28403040, 28403640, 'RC', 'W'); UPDATE plan_meta SET issued = 5",
        "INSERT INTO job VALUES (1, x'00', 'ok undefined')",
        "INSERT INTO job VALUES (1, x'00', 'ok serial 0')",
        "INSERT INTO job VALUES (1, x'00', 'ok serial 0 status W')",
        "INSERT INTO job VALUES (1, x'00', 'refused 30 0')",
    ] {
        let conn = plan(rt.alloc(), change)?;
        assert_eq!(rt; adoption_fault(rt.alloc(), conn), None, "{change}");
    }
    Ok(())
}

// Serial 1 in two tables, first live in both, then in one of them only; a gap in the serials; a pair of an open row that
// is missing; a generated row whose key an operator deleted; a job without a number that it may have; and one with a
// reply that is none.
#[test]
fn unsound_plans_are_not_adopted(rt: HostRuntime) -> Result<(), Fail> {
    for change in [
        "INSERT INTO history_row VALUES (1, 'A', 28401600, 28402200, 'RC')",
        "INSERT INTO deletion_row VALUES (1, 'A', 28401600, 28402200, 'RC', 'P')",
        "UPDATE ltp_row SET serial = 5 WHERE serial = 4; UPDATE plan_meta SET issued = 5",
        "INSERT INTO link_in_force VALUES ('B', 'A', NULL); INSERT INTO dependency VALUES (2, 1)",
        "INSERT INTO deletion_row VALUES (5, 'A', 28403040, 28403640, 'RC', 'O'); UPDATE plan_meta SET issued = 5",
        "INSERT INTO job VALUES (0, x'00', 'ok undefined')",
        "INSERT INTO job VALUES (1, x'00', 'hello')",
    ] {
        let conn = plan(rt.alloc(), change)?;
        assert_eq!(rt;
            adoption_fault(rt.alloc(), conn),
            Some((OpenFault::Rows, 52)),
            "{change}"
        );
    }
    Ok(())
}

#[test]
fn one_table_alone_is_not_adopted(rt: HostRuntime) -> Result<(), Fail> {
    let conn = other(
        rt.alloc(),
        "CREATE TABLE ltp_row (serial INTEGER PRIMARY KEY)",
    )?;
    assert_eq!(rt;
        adoption_fault(rt.alloc(), conn),
        Some((OpenFault::Unopened, 50))
    );
    Ok(())
}

// Without one of the tables, and with one of the version before.
#[test]
fn other_tables_are_not_adopted(rt: HostRuntime) -> Result<(), Fail> {
    for change in [
        "DROP TABLE ltp_row",
        "DROP TABLE link_in_force; \
            CREATE TABLE link_in_force (app TEXT NOT NULL, pred TEXT NOT NULL, PRIMARY KEY (app, pred)) STRICT",
    ] {
        let conn = plan(rt.alloc(), change)?;
        assert_eq!(rt;
            adoption_fault(rt.alloc(), conn),
            Some((OpenFault::Tables, 51)),
            "{change}"
        );
    }
    Ok(())
}

/// The version found and the one left, or why there is none, with the number that the program prints.
fn migration<S: Alter + Drop>(
    alloc: Global,
    conn: Connection<S>,
) -> Result<(u32, u32), (MigrateFault, u8)>
    requires { conn.in_transaction ≡ false }
{
    let mut conn = conn;
    match migrate(alloc, &mut conn) {
        Ok(versions) => Ok(versions),
        Err(fault) => Err((fault, migrate_fault_number(&fault))),
    }
}

// The tables of this version, of one that nobody knows, and without one of them.
#[test]
fn migrations_of_plans(rt: HostRuntime) -> Result<(), Fail> {
    for (change, wanted) in [
        ("", Ok((2, 2))),
        (
            "UPDATE plan_meta SET version = 7",
            Err((MigrateFault::UnknownVersion, 50)),
        ),
        ("DROP TABLE ltp_row", Err((MigrateFault::OtherTable, 51))),
    ] {
        let conn = plan(rt.alloc(), change)?;
        assert_eq!(rt; migration(rt.alloc(), conn), wanted, "{change}");
    }
    Ok(())
}

#[test]
fn nothing_is_migrated(rt: HostRuntime) -> Result<(), Fail> {
    let conn = other(rt.alloc(), "")?;
    assert_eq!(rt; migration(rt.alloc(), conn), Ok((0, 0)));
    Ok(())
}
