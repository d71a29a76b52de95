use occurrences::{Action, Key, Origin, Place, Reason, Refusal, Row, Serial, Status, next_status};
use std::alloc::{AllocError, Global};
use std::fmt::Write;
use std::test::Fail;
use work_calendars::{App, Day, Minute, Moment, Short};

fn moment(day: u32, minute: u32) -> Option<Moment> {
    Some(Moment::new(Day::from_number(day)?, Minute::from_number(minute)?))
}

fn key(app: &str, day: u32, minute: u32) -> Option<Key> {
    Some(Key {
        ia: moment(day, minute)?,
        app: App::from_text(app)?,
    })
}

fn row(serial: u32, app: &str, day: u32, origin: Origin) -> Option<Row> {
    Some(Row {
        key: key(app, day, 480)?,
        serial: Serial::new(serial)?,
        deadline: moment(day, 1080)?,
        origin,
    })
}

#[test]
fn serials(rt: HostRuntime) {
    for (number, is_serial) in [
        (0, false),
        (1, true),
        (999_999_999, true),
        (1_000_000_000, false),
    ] {
        assert_eq!(rt; Serial::new(number).is_some(), is_serial, "at {number}");
    }
    assert_eq!(rt; Serial::new(17).map(|serial| serial.get()), Some(17));
}

// Where start, complete, fail, reset and delete lead from a status, by letters; `.` where it is not allowed.
fn changes(from: u8) -> Option<[u8; 5]> {
    let status = Status::from_letter(from)?;
    let led_to = |action| next_status(status, action).map_or(b'.', |next| next.letter());
    Some([
        led_to(Action::Start),
        led_to(Action::Complete),
        led_to(Action::Fail),
        led_to(Action::Reset),
        led_to(Action::Delete),
    ])
}

#[test]
fn table_of_statuses(rt: HostRuntime) {
    for (from, wanted) in [
        (b'W', *b"S...D"),
        (b'S', *b".CE.."),
        (b'E', *b".C.WD"),
        (b'C', *b"....."),
        (b'D', *b"....."),
    ] {
        assert_eq!(rt; changes(from), Some(wanted));
    }
}

// Whether the letter is that of the status, both ways.
fn is_letter(status: Status, letter: u8) -> bool {
    status.letter() == letter && Status::from_letter(letter) == Some(status)
}

#[test]
fn letters_of_statuses(rt: HostRuntime) {
    for (status, letter) in [
        (Status::W, b'W'),
        (Status::S, b'S'),
        (Status::E, b'E'),
        (Status::C, b'C'),
        (Status::D, b'D'),
    ] {
        assert!(rt; is_letter(status, letter));
    }
    assert_eq!(rt; Status::from_letter(b'w'), None);
}

// Whether the letter is that of the reason, both ways.
fn is_letter_of_reason(reason: Reason, letter: u8) -> bool {
    reason.letter() == letter && Reason::from_letter(letter) == Some(reason)
}

#[test]
fn letters_of_reasons(rt: HostRuntime) {
    for (reason, letter) in [
        (Reason::Operator, b'O'),
        (Reason::Withdrawn, b'W'),
        (Reason::Plan, b'P'),
    ] {
        assert!(rt; is_letter_of_reason(reason, letter));
    }
    assert_eq!(rt; Reason::from_letter(b'X'), None);
}

// Keys in rising order: an application, a day and a minute. 2024-01-01 is day 19723.
const RISING: [(&str, u32, u32); 9] = [
    ("ZED", 19722, 1439),
    ("#A", 19723, 480),
    ("$A", 19723, 480),
    ("@A", 19723, 480),
    ("A", 19723, 480),
    ("A1", 19723, 480),
    ("AA", 19723, 480),
    ("B", 19723, 480),
    ("A", 19723, 481),
];

fn key_at(place: usize) -> Option<Key> {
    let (app, day, minute) = *RISING.get(place)?;
    key(app, day, minute)
}

// Whether the key at one place is below that at another, and whether they are equal.
fn compared(one: usize, other: usize) -> Option<(bool, bool)> {
    let one = key_at(one)?;
    let other = key_at(other)?;
    Some((one < other, one == other))
}

#[test]
fn keys_in_order(rt: HostRuntime) {
    for i in 0..9 {
        for j in 0..9 {
            assert_eq!(rt; compared(i, j), Some((i < j, i == j)));
        }
    }
}

// The serials of these rows in order.
fn listed(alloc: Global, mut rows: Vec<Row>) -> Result<Vec<u32>, AllocError> {
    rows.sort_unstable();
    rows.iter().map(|row| row.serial.get()).collect(alloc)
}

fn rows(alloc: Global) -> Result<Vec<Row>, Fail> {
    let named = Origin::Generated(Short::from_text("RC").ok_or("no name")?);
    let mut rows = Vec::new(alloc);
    for (serial, app, day, origin) in [
        (6, "B", 19724, named),
        (3, "A", 19724, named),
        (5, "A", 19724, Origin::Added),
        (2, "B", 19723, named),
        (4, "B", 19724, named),
        (1, "A", 19723, named),
    ] {
        rows.push(row(serial, app, day, origin).ok_or("no row")?)?;
    }
    Ok(rows)
}

#[test]
fn rows_in_order(rt: HostRuntime) -> Result<(), Fail> {
    let serials = listed(rt.alloc(), rows(rt.alloc())?)?;
    assert_eq!(rt; serials.as_slice(), [1, 2, 3, 5, 4, 6].as_slice());
    Ok(())
}

// Each place, and whether an occurrence there is live, open and complete.
#[test]
fn places_of_an_occurrence(rt: HostRuntime) {
    for (place, shown) in [
        (Place::LongTerm, (true, true, false)),
        (Place::Current(Status::W), (true, true, false)),
        (Place::Current(Status::S), (true, false, false)),
        (Place::Current(Status::E), (true, false, false)),
        (Place::Current(Status::C), (true, false, true)),
        (Place::Current(Status::D), (false, false, false)),
        (Place::History, (true, false, true)),
        (Place::Deleted(Reason::Plan), (false, false, false)),
    ] {
        assert_eq!(rt;
            (place.is_live(), place.is_open(), place.is_complete()),
            shown
        );
    }
}

// Each refusal, in the order of the text below.
fn refusals(app: App, serial: u32) -> [Refusal; 17] {
    [
        Refusal::NotAStatement,
        Refusal::FaultyData { record: 2 },
        Refusal::JobWithAnotherText,
        Refusal::NotDefined,
        Refusal::NoPlan,
        Refusal::PlanExists,
        Refusal::CalendarUndefined { app },
        Refusal::PeriodUndefined { app },
        Refusal::DatesOutOfRange,
        Refusal::Loop { app },
        Refusal::NoActiveApplication,
        Refusal::KeyIsLive,
        Refusal::NoSuchOccurrence,
        Refusal::StatusForbids,
        Refusal::PredecessorUncompleted { serial },
        Refusal::TooManyRows,
        Refusal::PlanEndOutOfRange,
    ]
}

// The number of each refusal, whether a job keeps it, and what it shows.
const REFUSALS: &str = "\
10 false not a statement
11 false faulty data, record 2
12 false the job number belongs to another text
13 true the name is not defined
20 true there is no long-term plan
21 true there is a long-term plan already
22 true the calendar of PAY is not defined
23 true a period of PAY is not defined
24 true dates out of order or past a limit
25 true PAY stands on a loop of predecessors
26 true the application is unknown or pending
27 true a live occurrence has this key
28 true no such occurrence
29 true the status does not allow it
30 true predecessor 1 is not complete
31 true too many rows, or no serials left
32 true the new plan end is out of range
";

#[test]
fn numbers_and_texts_of_refusals(rt: HostRuntime) -> Result<(), Fail> {
    let app = App::from_text("PAY").ok_or("no name")?;
    let mut shown = String::new(rt.alloc());
    for refusal in refusals(app, 1) {
        let number = refusal.number();
        let is_kept = refusal.is_kept();
        writeln!(shown, "{number} {is_kept} {refusal}")?;
    }
    assert_eq!(rt; shown.as_str(), REFUSALS);
    Ok(())
}
