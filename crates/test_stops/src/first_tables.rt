//! The tables of schema 1 with what a run of a stream leaves.
ghost use Rattle.std.specs.Prelude.{◌≡◌, false, IfOk};
ghost use Rattle.sqlite.specs.Held.{IsNew};
ghost use Rattle.test_stops.specs.Sound.{KeepsSound};

use crate::disks::{Disks, Stopping, new_disks};
use crate::stores::connect;
use crate::streams::Wrong;
use plan_migrations::FIRST_VERSION;
use plan_migrations_remaking::make_first_tables;
use plan_tables::TableStore;
use plan_tables_schema::{TABLES, Table, insert, select};
use planner_cli::run;
use sqlite::types::ValueRef;
use sqlite::{Alter, Connection, Error, FileStore, Files, MemStore, Row, Transaction};
use sqlite_disk::Disk;
use std::alloc::{AllocError, Global};

/// The rows of a table.
#[derive(Drop)]
struct Shown {
    /// The table.
    table: Table,
    /// All its rows.
    rows: Vec<Row>,
}

/// The connection of a store that a run of the stream leaves.
fn connection_after<S: Alter + Drop>(
    alloc: Global,
    store: TableStore<S>,
    text: &[u8],
) -> Connection<S>
    requires { KeepsSound store }
{
    let mut store = store;
    let mut left = text;
    let _ = run(alloc, &mut store, &mut left, &mut Vec::new(alloc));
    store.into_connection()
}

/// The tables in memory that a run of the stream leaves.
fn tables_after(alloc: Global, text: &[u8]) -> Result<Connection<MemStore>, Wrong> {
    match TableStore::open_memory(alloc) {
        Ok(store) => Ok(connection_after(alloc, store, text)),
        Err(_) => Err("opening in memory"),
    }
}

/// The rows of all tables, as they are shown.
fn all_shown<S: Alter>(alloc: Global, conn: &mut Connection<S>) -> Result<Vec<Shown>, Error> {
    let mut found = Vec::new(alloc);
    for table in TABLES {
        let rows = select(conn, table)?;
        found.push(Shown { table, rows })?;
    }
    Ok(found)
}

/// The rows of all tables that a run of the stream leaves.
fn rows_after(alloc: Global, text: &[u8]) -> Result<Vec<Shown>, Wrong> {
    let mut tables = tables_after(alloc, text)?;
    match all_shown(alloc, &mut tables) {
        Ok(all) => Ok(all),
        Err(_) => Err("showing"),
    }
}

/// The text that inserts a row of two names into the table, if its rows also have limits in the current schema.
fn names_text(table: Table) -> Option<&'static str> {
    match table {
        Table::Predecessor => Some("INSERT INTO predecessor (app, pred) VALUES (?1, ?2)"),
        Table::LinkInForce => Some("INSERT INTO link_in_force (app, pred) VALUES (?1, ?2)"),
        _ => None,
    }
}

/// The value in the column.
fn value_at(row: &Row, at: usize) -> ValueRef<'_> {
    match row.get_ref(at) {
        Ok(value) => value,
        Err(_) => ValueRef::Null,
    }
}

/// The values of a row by schema 1: of its version, and without a limit.
fn first_values(alloc: Global, table: Table, row: &Row) -> Result<Vec<ValueRef<'_>>, AllocError> {
    let columns = match names_text(table) {
        Some(_) => 2,
        None => row.column_count(),
    };
    let mut values = Vec::new(alloc);
    for at in 0..columns {
        values.push(match (table, at) {
            (Table::Meta, 1) => ValueRef::Int(i64::from(FIRST_VERSION)),
            _ => value_at(row, at),
        })?;
    }
    Ok(values)
}

/// Inserts a row into its table.
fn put_row<S: Alter>(
    tx: &mut Transaction<'_, S>,
    table: Table,
    values: &[ValueRef<'_>],
) -> Result<(), Error> {
    match names_text(table) {
        Some(text) => {
            tx.execute(text, values)?;
            Ok(())
        }
        None => insert(tx, table, values),
    }
}

/// Inserts the rows into their table.
fn put_rows<S: Alter>(
    tx: &mut Transaction<'_, S>,
    alloc: Global,
    shown: &Shown,
) -> Result<(), Error> {
    for row in &shown.rows {
        let values = first_values(alloc, shown.table, row)?;
        put_row(tx, shown.table, &values)?;
    }
    Ok(())
}

/// Inserts all rows into their tables.
fn put_all<S: Alter>(alloc: Global, conn: &mut Connection<S>, all: &[Shown]) -> Result<(), Error>
    requires { conn.old.in_transaction ≡ false }
{
    let mut tx = conn.transaction();
    for shown in all {
        put_rows(&mut tx, alloc, shown)?;
    }
    tx.commit()?;
    Ok(())
}

/// Makes the tables of schema 1 in an empty database, with these rows.
fn make_tables<S: Alter>(
    alloc: Global,
    conn: &mut Connection<S>,
    all: &[Shown],
) -> Result<(), Error>
    requires { conn.old.in_transaction ≡ false }
{
    make_first_tables(conn)?;
    if conn.is_autocommit() {
        put_all(alloc, conn, all)
    } else {
        Err(Error::InvalidQuery)
    }
}

/// The files of a connection, with the log copied into the database file.
fn closed<D: Disk + Drop>(conn: Connection<FileStore<D>>) -> Result<Files<D>, Wrong> {
    match conn.close_files() {
        Ok(disks) => Ok(disks),
        Err((_, _store)) => Err("closing of schema 1"),
    }
}

/// A connection to files that hold nothing.
fn new_connection<D: Disk + Drop>(
    alloc: Global,
    disks: Files<D>,
) -> Result<Connection<FileStore<D>>, Wrong>
    ensures { IfOk result IsNew }
{
    match connect(alloc, disks) {
        Ok(conn) => Ok(conn),
        Err(_) => Err("new files"),
    }
}

/// Makes of files that hold nothing a plan of schema 1 with these rows.
fn files_with<D: Disk + Drop>(
    alloc: Global,
    disks: Files<D>,
    all: &[Shown],
) -> Result<Files<D>, Wrong> {
    let mut conn = new_connection(alloc, disks)?;
    match make_tables(alloc, &mut conn, all) {
        Ok(()) => closed(conn),
        Err(_) => Err("making of schema 1"),
    }
}

/// Files of a plan of schema 1 that has what a run of the stream leaves, without limits.
pub fn first_files(alloc: Global, text: &[u8]) -> Result<Disks, Wrong> {
    let all = rows_after(alloc, text)?;
    files_with(alloc, new_disks(alloc, Stopping::Log, u64::MAX), &all)
}
