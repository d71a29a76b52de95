//! Queries of the tables of a plan that come after others.
ghost use Rattle.std.specs.Prelude.{⊤};

use plan_tables_lookups::{
    Look, RowRefused, Stopped, ValuesSink, ask, deletion_of_serial, emit, emit_all,
    history_of_serial, job_of_number, last_of, operator_deletions_from,
};
use plan_tables_schema::{Table, make_tables};
use sqlite::types::ValueRef;
use sqlite::{Connection, Error, MemStore, Row};
use std::alloc::Global;
use std::process::Abort;
use std::test::Fail;

/// Of history three rows of A and two of B; of the deletions one for which nothing waited any more, and four by the
/// operator.
const ROWS: &str =
    "INSERT INTO history_row VALUES (1, 'A', 100, 160, NULL), (2, 'B', 100, 160, 'RC'), \
    (3, 'A', 200, 260, NULL), (4, 'A', 300, 360, NULL), (5, 'B', 50, 60, NULL); \
    INSERT INTO deletion_row VALUES (3, 'A', 250, 260, NULL, 'O'), (6, 'A', 150, 160, NULL, 'O'), \
    (7, 'B', 250, 260, NULL, 'O'), (8, 'A', 250, 270, NULL, 'W'), (9, 'C', 10, 20, NULL, 'O'); \
    INSERT INTO dependency (successor, predecessor) VALUES (4, 3), (3, 1), (4, 1), (2, 5); \
    INSERT INTO job VALUES (7, x'00', 'seven'), (1, x'01', 'one')";

/// The rows, in tables that come after two others.
fn plan(alloc: Global) -> Result<Connection<MemStore>, Error> {
    let mut conn = Connection::open_in_memory(alloc)?;
    conn.execute_batch(
        "CREATE TABLE first (x INTEGER); CREATE TABLE second (app TEXT, ia INTEGER)",
    )?;
    if conn.is_autocommit() {
        make_tables(&mut conn)?;
    }
    conn.execute_batch(ROWS)?;
    Ok(conn)
}

fn with_digit(number: u64, digit: u64) -> u64 {
    number.wrapping_mul(10).wrapping_add(digit)
}

/// The first number that a row shows.
fn first_number(row: &Row) -> u64 {
    row.get::<u64>(0).unwrap_or(0)
}

/// The first number of a row, as a digit of its own place.
fn place_of(row: &Row) -> u64 {
    10u64.wrapping_pow((first_number(row) % 10) as u32)
}

/// The first numbers of rows, added up, each as a digit of its own place.
fn places_of(rows: &[Row]) -> u64 {
    let mut number: u64 = 0;
    for row in rows {
        number = number.wrapping_add(place_of(row));
    }
    number
}

/// The first numbers of the rows that it takes, as digits, until it has enough.
#[derive(Drop)]
struct Digits {
    number: u64,
    enough: u64,
}

impl ValuesSink for Digits {
    ghost accepts = { λ old row new. ⊤ };

    ghost refuses = { λ old row new. ⊤ };

    fn accept(&mut self, row: &Row) -> Result<(), RowRefused> {
        if self.number >= self.enough {
            return Err(RowRefused);
        }
        self.number = with_digit(self.number, first_number(row));
        Ok(())
    }
}

/// The first numbers of the rows that it takes, added up, each as a digit of its own place.
#[derive(Drop)]
struct Places {
    number: u64,
}

impl ValuesSink for Places {
    ghost accepts = { λ old row new. ⊤ };

    ghost refuses = { λ old row new. ⊤ };

    fn accept(&mut self, row: &Row) -> Result<(), RowRefused> {
        self.number = self.number.wrapping_add(place_of(row));
        Ok(())
    }
}

#[test]
fn rows_are_found(rt: HostRuntime) -> Result<(), Fail> {
    let mut conn = plan(rt.alloc())?;
    assert_eq!(rt; places_of(&history_of_serial(&mut conn, 3)?), 1_000);
    assert_eq!(rt; places_of(&history_of_serial(&mut conn, 6)?), 0);
    assert_eq!(rt; places_of(&deletion_of_serial(&mut conn, 8)?), 100_000_000);
    assert_eq!(rt; places_of(&job_of_number(&mut conn, 7)?), 10_000_000);
    assert_eq!(rt; job_of_number(&mut conn, 2)?.len(), 0);
    Ok(())
}

/// Of which application, up to which moment, and the serial of the last row there.
const LASTS: [(&str, u32, u64); 7] = [
    ("A", 99, 0),
    ("A", 100, 1),
    ("A", 299, 3),
    ("A", 300, 4),
    ("B", 99, 5),
    ("B", 1_000, 2),
    ("C", 1_000, 0),
];

#[test]
fn last_row_is_found(rt: HostRuntime) -> Result<(), Fail> {
    let mut conn = plan(rt.alloc())?;
    for (app, moment, wanted) in LASTS {
        let found = last_of(&mut conn, app, moment)?;
        assert_eq!(rt;
            found.as_ref().map_or(0, first_number),
            wanted,
            "{app} {moment}"
        );
    }
    Ok(())
}

#[test]
fn operator_deletions_are_found(rt: HostRuntime) -> Result<(), Fail> {
    let mut conn = plan(rt.alloc())?;
    for (moment, wanted) in [
        (0, 1_011_001_000),
        (150, 11_001_000),
        (151, 10_001_000),
        (251, 0),
    ] {
        assert_eq!(rt;
            places_of(&operator_deletions_from(&mut conn, moment)?),
            wanted,
            "{moment}"
        );
    }
    Ok(())
}

/// What is listed, of which application, and the first numbers that are yielded.
const LISTS: [(Look, &str, u64); 4] = [
    (Look::HistoryListed, "", 51_234),
    (Look::HistoryOf, "A", 134),
    (Look::DeletionsListed, "", 96_387),
    (Look::DeletionsOf, "A", 638),
];

fn try_lists(rt: &impl Abort, conn: &mut Connection<MemStore>) {
    for (look, app, wanted) in LISTS {
        let mut sink = Digits {
            number: 0,
            enough: u64::MAX,
        };
        let app_value = [ValueRef::Text(app.as_bytes())];
        let asked: &[ValueRef<'_>] = if app.is_empty() { &[] } else { &app_value };
        let is_whole = emit(conn, look, asked, &mut sink).is_ok();
        assert!(rt; is_whole && sink.number == wanted, "{look:?}");
    }
}

#[test]
fn rows_are_handed_out(rt: HostRuntime) -> Result<(), Fail> {
    let mut conn = plan(rt.alloc())?;
    try_lists(&rt, &mut conn);
    Ok(())
}

/// The first numbers of all rows of the table that are yielded, each as a digit of its own place.
fn places_handed(conn: &mut Connection<MemStore>, table: Table) -> u64 {
    let mut places = Places { number: 0 };
    match emit_all(conn, table, &mut places) {
        Ok(()) => places.number,
        Err(_) => u64::MAX,
    }
}

#[test]
fn whole_tables_are_handed_out(rt: HostRuntime) -> Result<(), Fail> {
    let mut conn = plan(rt.alloc())?;
    for (table, wanted) in [
        (Table::History, 111_110),
        (Table::Deletion, 1_111_001_000),
        (Table::Dependency, 21_100),
        (Table::Job, 10_000_010),
        (Table::Current, 0),
    ] {
        assert_eq!(rt; places_handed(&mut conn, table), wanted, "{table:?}");
    }
    Ok(())
}

#[test]
fn sink_may_refuse(rt: HostRuntime) -> Result<(), Fail> {
    let mut conn = plan(rt.alloc())?;
    let mut sink = Digits {
        number: 0,
        enough: 51,
    };
    let is_refused = matches!(
        &emit(&mut conn, Look::HistoryListed, &[], &mut sink),
        Err(Stopped::Sink)
    );
    assert!(rt; is_refused);
    assert_eq!(rt; sink.number, 51);
    assert_eq!(rt; ask(&mut conn, Look::HistoryListed, &[])?.len(), 5);
    Ok(())
}
