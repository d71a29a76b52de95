//! The examples of the libraries. `lib.rt` and the `README.md` of each have the lines between the two marks.
use app_definitions::{Definitions, Kind, read_block};
use app_occurrences::least_without_calendar;
use occurrences::{Key, Origin, Refusal, Reply, Row, Serial};
use plan_listings::{days_line, refusal_line, reply_line};
use plan_store_lists::{Keyed, find, has_key, sort};
use planner_machine::{GREATEST_JOB, Job, JobText};
use run_cycles::Named;
use std::test::Fail;
use work_calendars::{App, Day, Minute, Moment, Short};

#[test]
fn example_of_planner_machine(rt: HostRuntime) -> Result<(), Fail> {
    let alloc = rt.alloc();
    // example of planner_machine
    // job 7 was refused, because there is no long-term plan
    let job = Job {
        number: 7,
        text: JobText::from_vec(b"dp-replan".to_vec(alloc)?),
        reply: Err(Refusal::NoPlan),
    };
    assert!(rt; job.number <= GREATEST_JOB);
    // if the job is sent again with the same text, it gets the reply that is kept
    assert_eq!(rt; job.text.as_slice(), b"dp-replan".as_slice());
    assert_eq!(rt; job.reply, Err(Refusal::NoPlan));
    // end of the example
    Ok(())
}

#[test]
fn example_of_app_occurrences(rt: HostRuntime) -> Result<(), Fail> {
    let alloc = rt.alloc();
    let z = App::from_text("Z").ok_or("no name")?;
    // example of app_occurrences
    let mut all = Definitions::new(alloc);
    let block = read_block(alloc, Kind::Applications, b"Z,A,HERE\nY,A,\nD,A,DEFAULT\n")?;
    all.merge(block)?;
    // Z names a calendar that isn't defined; Y and D use the default one
    assert_eq!(rt; least_without_calendar(&all), Some(z));
    // end of the example
    Ok(())
}

// What a run cycle names on 2024-01-01.
fn named() -> Option<Named> {
    Some(Named {
        day: Day::from_text("2024-01-01")?,
        time: Minute::from_text("08.00")?,
        run_cycle: Short::from_text("ALPHA")?,
        deadline: Moment::from_text("2024-01-02/06.00")?,
    })
}

#[test]
fn example_of_plan_listings(rt: HostRuntime) -> Result<(), Fail> {
    let alloc = rt.alloc();
    let named = named().ok_or("nothing named")?;
    // example of plan_listings
    let line = reply_line(alloc, &Reply::Defined { names: 3 })?;
    assert_eq!(rt; line.as_slice(), b"ok defined 3".as_slice());
    let line = refusal_line(alloc, &Refusal::FaultyData { record: 2 })?;
    assert_eq!(rt; line.as_slice(), b"refused 11 2".as_slice());
    let line = days_line(&named);
    assert_eq!(rt;
        line.as_slice(),
        b"2024-01-01 08.00 ALPHA    2024-01-02 06.00".as_slice()
    );
    // end of the example
    Ok(())
}

// A row of A that arrives on 2024-01-01.
fn row(serial: u32) -> Option<Row> {
    let ia = Moment::from_text("2024-01-01/08.00")?;
    let app = App::from_text("A")?;
    Some(Row {
        key: Key { ia, app },
        serial: Serial::new(serial)?,
        deadline: Moment::from_text("2024-01-01/18.00")?,
        origin: Origin::Added,
    })
}

#[test]
fn example_of_plan_store_lists(rt: HostRuntime) -> Result<(), Fail> {
    let alloc = rt.alloc();
    let third = row(3).ok_or("no row")?;
    let fourth = row(4).ok_or("no row")?;
    let fifth = row(5).ok_or("no row")?;
    // example of plan_store_lists
    let mut rows = vec![in alloc; fourth, third]?;
    sort(&mut rows);
    assert_eq!(rt; rows.as_slice(), [third, fourth].as_slice());
    assert_eq!(rt; find(&rows, &fourth.key()), Ok(1));
    assert!(rt; has_key(&rows, &third.key()) && !has_key(&rows, &fifth.key()));
    // end of the example
    Ok(())
}
