//! What the tables of a plan encode: facts that are fetched, and listings, row by row.
ghost use Rattle.std.specs.Prelude.{⊤};

use occurrences::{Origin, Reply, Serial};
use plan_store::{Item, RowSink, SinkFault};
use plan_tables_lookups::{Stopped, TableFault};
use plan_tables_queries::{
    completed_row, completed_rows, deleted_row, deleted_rows, deletions_from, kept_job,
    last_completed, list_deletions, list_history,
};
use plan_tables_schema::make_tables;
use sqlite::{Connection, Error, MemStore};
use std::alloc::Global;
use std::process::Abort;
use std::test::Fail;
use work_calendars::App;

/// Of history three rows of A and two of B; of the deletions one for which nothing waited any more, one that was
/// deleted in the current plan, and three by the operator, of which two arrive at one moment; two jobs, of which one
/// has no answer.
const ROWS: &str = "INSERT INTO history_row VALUES (1, 'A', 28401100, 28401160, NULL), \
    (2, 'B', 28401100, 28401160, 'RC'), (3, 'A', 28401200, 28401260, NULL), \
    (4, 'A', 28401300, 28401360, NULL), (5, 'B', 28401050, 28401060, NULL); \
    INSERT INTO deletion_row VALUES (6, 'B', 28401250, 28401260, NULL, 'O'), \
    (7, 'A', 28401150, 28401160, NULL, 'O'), (8, 'A', 28401250, 28401260, NULL, 'P'), \
    (9, 'A', 28401250, 28401270, NULL, 'W'), (10, 'AB', 28401250, 28401260, NULL, 'O'); \
    INSERT INTO job VALUES (7, x'00', 'seven'), (1, x'01', 'ok undefined')";

fn plan(alloc: Global) -> Result<Connection<MemStore>, Error> {
    let mut conn = Connection::open_in_memory(alloc)?;
    if conn.is_autocommit() {
        make_tables(&mut conn)?;
    }
    conn.execute_batch(ROWS)?;
    Ok(conn)
}

/// The serials and the letters of the items that it takes, each serial as a digit, until it has enough.
#[derive(Drop)]
struct Marks {
    serials: u64,
    letters: u64,
    enough: u64,
}

impl RowSink for Marks {
    ghost accepts = { λ old item new. ⊤ };

    ghost refuses = { λ old item new. ⊤ };

    fn take(&mut self, item: Item<'_>) -> Result<(), SinkFault> {
        if self.serials >= self.enough {
            return Err(SinkFault);
        }
        match item {
            Item::Marked(row, letter) => {
                let serial = u64::from(row.serial.get() % 10);
                self.serials = self.serials.wrapping_mul(10).wrapping_add(serial);
                let letter = u64::from(letter);
                self.letters = self.letters.wrapping_mul(100).wrapping_add(letter);
                Ok(())
            }
            _ => Err(SinkFault),
        }
    }
}

fn marks_below(enough: u64) -> Marks {
    Marks {
        serials: 0,
        letters: 0,
        enough,
    }
}

#[test]
fn deletions_are_listed(rt: HostRuntime) -> Result<(), Fail> {
    let mut conn = plan(rt.alloc())?;
    let mut sink = marks_below(u64::MAX);
    // by arrival, then A, A, AB and B, and the rows of A by serial
    assert_eq!(rt; list_deletions(rt.alloc(), &mut conn, None, &mut sink)?, 5);
    assert_eq!(rt; sink.serials, 78_906);
    // O is 79, P is 80 and W is 87
    assert_eq!(rt; sink.letters, 7_980_877_979);
    Ok(())
}

#[test]
fn listings_of_an_application(rt: HostRuntime) -> Result<(), Fail> {
    let mut conn = plan(rt.alloc())?;
    for (name, deleted, completed) in [("A", 789, 134), ("AB", 0, 0), ("B", 6, 52), ("C", 0, 0)] {
        let app = App::from_text(name);
        let mut sink = marks_below(u64::MAX);
        list_deletions(rt.alloc(), &mut conn, app.as_ref(), &mut sink)?;
        assert_eq!(rt; sink.serials, deleted, "{name}");
        let mut sink = marks_below(u64::MAX);
        list_history(rt.alloc(), &mut conn, app.as_ref(), &mut sink)?;
        assert_eq!(rt; sink.serials, completed, "{name}");
    }
    Ok(())
}

#[test]
fn history_is_listed(rt: HostRuntime) -> Result<(), Fail> {
    let mut conn = plan(rt.alloc())?;
    let mut sink = marks_below(u64::MAX);
    assert_eq!(rt; list_history(rt.alloc(), &mut conn, None, &mut sink)?, 5);
    assert_eq!(rt; sink.serials, 51_234);
    // C is 67
    assert_eq!(rt; sink.letters, 6_767_676_767);
    Ok(())
}

#[test]
fn listing_may_end(rt: HostRuntime) -> Result<(), Fail> {
    let mut conn = plan(rt.alloc())?;
    let mut sink = marks_below(51);
    let is_refused = matches!(
        list_history(rt.alloc(), &mut conn, None, &mut sink),
        Err(Stopped::Sink)
    );
    assert!(rt; is_refused);
    assert_eq!(rt; sink.serials, 51);
    conn.execute_batch("UPDATE history_row SET app = 'a' WHERE serial = 3")?;
    let mut sink = marks_below(u64::MAX);
    let is_untold = matches!(
        list_history(rt.alloc(), &mut conn, None, &mut sink),
        Err(Stopped::Fault(TableFault::Malformed))
    );
    assert!(rt; is_untold);
    assert_eq!(rt; sink.serials, 512);
    Ok(())
}

#[test]
fn kept_jobs_are_found(rt: HostRuntime) -> Result<(), Fail> {
    let mut conn = plan(rt.alloc())?;
    assert!(rt; matches!(kept_job(rt.alloc(), &mut conn, 2), Ok(None)));
    assert!(rt;
        matches!(
            kept_job(rt.alloc(), &mut conn, 7),
            Err(TableFault::Malformed)
        )
    );
    let is_found = match kept_job(rt.alloc(), &mut conn, 1)? {
        Some(job) => job.number == 1 && job.reply == Ok(Reply::Undefined),
        None => false,
    };
    assert!(rt; is_found);
    Ok(())
}

#[test]
fn deletions_from_a_moment_are_found(rt: HostRuntime) -> Result<(), Fail> {
    let mut conn = plan(rt.alloc())?;
    for (moment, wanted) in [(0, 3), (28_401_150, 3), (28_401_151, 2), (28_401_251, 0)] {
        let found = deletions_from(rt.alloc(), &mut conn, moment)?;
        assert_eq!(rt; found.len(), wanted, "{moment}");
    }
    Ok(())
}

#[test]
fn rows_of_a_serial_are_found(rt: HostRuntime) -> Result<(), Fail> {
    let mut conn = plan(rt.alloc())?;
    // 100 more where a run cycle made the row
    for (number, completed, deleted) in [(2, 102, 0), (3, 3, 0), (10, 0, 10), (11, 0, 0)] {
        let serial = Serial::new(number).expect(&rt, "a serial");
        let found = match completed_row(rt.alloc(), &mut conn, serial)? {
            Some(row) if row.origin == Origin::Added => row.serial.get(),
            Some(row) => row.serial.get().wrapping_add(100),
            None => 0,
        };
        assert_eq!(rt; found, completed, "{number}");
        let found = match deleted_row(rt.alloc(), &mut conn, serial)? {
            Some(deletion) => deletion.row.serial.get(),
            None => 0,
        };
        assert_eq!(rt; found, deleted, "{number}");
    }
    conn.execute_batch("UPDATE history_row SET app = 'a' WHERE serial = 3")?;
    let serial = Serial::new(3).expect(&rt, "a serial");
    let found = completed_row(rt.alloc(), &mut conn, serial);
    assert!(rt; matches!(found, Err(TableFault::Malformed)));
    Ok(())
}

#[test]
fn last_rows_are_found(rt: HostRuntime) -> Result<(), Fail> {
    let mut conn = plan(rt.alloc())?;
    for (name, moment, wanted) in [
        ("A", 28_401_099, 0),
        ("A", 28_401_199, 1),
        ("A", 28_401_299, 3),
        ("A", 28_401_300, 4),
        ("B", 28_401_099, 5),
        ("B", u32::MAX, 102),
        ("AB", u32::MAX, 0),
    ] {
        let app = App::from_text(name).expect(&rt, "a name");
        let found = match last_completed(rt.alloc(), &mut conn, &app, moment)? {
            Some(row) if row.origin == Origin::Added => row.serial.get(),
            Some(row) => row.serial.get().wrapping_add(100),
            None => 0,
        };
        assert_eq!(rt; found, wanted, "{name} {moment}");
    }
    Ok(())
}

#[test]
fn all_rows_are_found(rt: HostRuntime) -> Result<(), Fail> {
    let mut conn = plan(rt.alloc())?;
    let rows = completed_rows(rt.alloc(), &mut conn)?;
    let mut serials: u64 = 0;
    for row in &rows {
        serials = serials.wrapping_add(u64::from(row.serial.get()));
    }
    // 1 to 5
    assert_eq!(rt; rows.len(), 5);
    assert_eq!(rt; serials, 15);
    let deletions = deleted_rows(rt.alloc(), &mut conn)?;
    let mut serials: u64 = 0;
    for deletion in &deletions {
        serials = serials.wrapping_add(u64::from(deletion.row.serial.get()));
    }
    // 6 to 10
    assert_eq!(rt; deletions.len(), 5);
    assert_eq!(rt; serials, 40);
    conn.execute_batch("UPDATE history_row SET app = 'a' WHERE serial = 5")?;
    let found = completed_rows(rt.alloc(), &mut conn);
    assert!(rt; matches!(found, Err(TableFault::Malformed)));
    Ok(())
}
