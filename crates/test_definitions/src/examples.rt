//! The examples of the libraries. `lib.rt` and the `README.md` of each have the lines between the two marks.
use crate::dependencies::{app, rows, serial};
use app_definition_records::{ByName, Predecessor, Predecessors};
use app_definition_soundness::are_definitions;
use app_definitions::{Definitions, Kind, read_block};
use external_dependencies::{Link, Links, resolve_all};
use planner_cli_stream::{DataBlock, Item, KindWord, Page, Statement, read_statement};
use std::test::Fail;
use work_calendars::{Calendar, Name, Within};

#[test]
fn example_of_app_definition_records(rt: HostRuntime) -> Result<(), Fail> {
    let alloc = rt.alloc();
    let bill = Name::from_text("BILL").ok_or("no name")?;
    let pay = Name::from_text("PAY").ok_or("no name")?;
    let within = Within::from_hours(24);
    // example of app_definition_records
    // PAY waits for a BILL of the 24 hours before it
    let listed = vec![in alloc; Predecessor { name: bill, within }]?;
    let listed = Predecessors::from_vec(listed).ok_or("not in byte order")?;
    let mut lists = ByName::new(alloc);
    lists.insert(pay, listed)?;
    assert_eq!(rt; lists.names(alloc)?.as_slice(), [pay].as_slice());
    assert!(rt; lists.remove(&pay) && lists.get(&pay).is_none());
    // end of the example
    Ok(())
}

#[test]
fn example_of_app_definitions(rt: HostRuntime) -> Result<(), Fail> {
    let alloc = rt.alloc();
    let z = Name::from_text("Z").ok_or("no name")?;
    let here = Name::from_text("HERE").ok_or("no name")?;
    // example of app_definitions
    let mut all = Definitions::new(alloc);
    let block = read_block(alloc, Kind::Applications, b"Z,A,HERE\nY,P,\nD,A,DEFAULT\n")?;
    assert_eq!(rt; all.merge(block)?, 3);
    // Z names a calendar of its own
    let found = all.applications.get(&z).ok_or("not defined")?;
    assert_eq!(rt; found.calendar, Some(here));
    // end of the example
    Ok(())
}

#[test]
fn example_of_app_definition_soundness(rt: HostRuntime) -> Result<(), Fail> {
    let alloc = rt.alloc();
    let empty = Name::from_text("EMPTY").ok_or("no name")?;
    // example of app_definition_soundness
    let mut all = Definitions::new(alloc);
    let block = read_block(alloc, Kind::Calendars, b"DEFAULT,SAT,FREE\n")?;
    all.merge(block)?;
    assert!(rt; are_definitions(alloc, &all)?);
    // no data block gives a calendar that lists nothing
    all.calendars.insert(empty, Calendar::new(alloc))?;
    assert!(rt; !are_definitions(alloc, &all)?);
    // end of the example
    Ok(())
}

#[test]
fn example_of_external_dependencies(rt: HostRuntime) -> Result<(), Fail> {
    let alloc = rt.alloc();
    let (a, b) = (app(&rt, "A"), app(&rt, "B"));
    let rows = rows(&rt, alloc, "1 A 480 L; 2 B 480 L; 3 B 1920 L; 4 A 1920 L");
    let (third, fourth) = (serial(&rt, 3), serial(&rt, 4));
    // example of external_dependencies
    // A follows B, and both arrive at 08.00 on two days
    let link = Link {
        app: a,
        predecessor: b,
        within: None,
    };
    let links = Links::from_vec(vec![in alloc; link]?);
    let pairs = resolve_all(alloc, &rows, &links)?;
    // of the second day's A the nearest B is that of the same day
    let found = pairs.of_successor(fourth).first();
    assert_eq!(rt; found.map(|pair| pair.predecessor), Some(third));
    // end of the example
    Ok(())
}

#[test]
fn example_of_planner_cli_stream(rt: HostRuntime) -> Result<(), Fail> {
    let alloc = rt.alloc();
    // example of planner_cli_stream
    // a line with a data block, which is read as an item, and the statement that the line is
    let mut reader = b"define periods --job 7\nW,A,2024-01-01,7\n/*\n".as_slice();
    let mut page = Page::new(alloc);
    page.read_item(&mut reader)?;
    let Some(Item::WithBlock(line, DataBlock::Whole(block))) = page.item() else {
        return Err(Fail::new("another item"));
    };
    assert_eq!(rt; block, b"W,A,2024-01-01,7\n".as_slice());
    let Some(Statement::Define { kind, .. }) = read_statement(alloc, line)? else {
        return Err(Fail::new("another statement"));
    };
    assert_eq!(rt; kind, KindWord::Periods);
    // end of the example
    Ok(())
}
