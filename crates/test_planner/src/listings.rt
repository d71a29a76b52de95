use occurrences::{Key, Origin, Row, Serial};
use plan_listings::marked_line;
use work_calendars::{App, Moment};

/// Whether an added row with the greatest serial, and a name of 16 characters, has its line.
fn greatest_row_is_shown() -> Option<bool> {
    let row = Row {
        key: Key {
            ia: Moment::from_text("2024-01-02/08.00")?,
            app: App::from_text("PAY4567890123456")?,
        },
        serial: Serial::new(999_999_999)?,
        deadline: Moment::from_text("2024-01-03/18.00")?,
        origin: Origin::Added,
    };
    Some(
        marked_line(&row, b'O').as_slice()
            == b"999999999 PAY4567890123456 A          2024-01-02 08.00 2024-01-03 18.00 O".as_slice(),
    )
}

// A serial has nine digits, and no stream gets so far.
#[test]
fn the_line_of_the_greatest_serial(rt: HostRuntime) {
    assert!(rt; greatest_row_is_shown() == Some(true));
}
