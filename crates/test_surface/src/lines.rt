//! `plan_listings`: printed lines and reports.
use occurrences::{Refusal, Reply, Row, Status};
use run_cycles::Named;
use std::alloc::Global;
use work_calendars::{App, Memory, Within};

pub fn days_line(named: &Named) -> [u8; 42] {
    plan_listings::days_line(named)
}

pub fn row_line(row: &Row) -> [u8; 71] {
    plan_listings::row_line(row)
}

pub fn marked_line(row: &Row, letter: u8) -> [u8; 73] {
    plan_listings::marked_line(row, letter)
}

pub fn pair_line(successor: &Row, predecessor: &Row) -> [u8; 87] {
    plan_listings::pair_line(successor, predecessor)
}

pub fn link_line(app: &App, predecessor: &App, within: Option<Within>) -> [u8; 38] {
    plan_listings::link_line(app, predecessor, within)
}

pub fn ltp_report(alloc: Global, made: &[Row], withdrawn: &[Row]) -> Result<Vec<u8>, Memory> {
    plan_listings::ltp_report(alloc, made, withdrawn)
}

pub fn dp_report(
    alloc: Global,
    moved: &[Row],
    carried: &[(Row, Status)],
    completed: &[Row],
    deleted: &[Row],
) -> Result<Vec<u8>, Memory> {
    plan_listings::dp_report(alloc, moved, carried, completed, deleted)
}

pub fn reply_line(alloc: Global, reply: &Reply) -> Result<Vec<u8>, Memory> {
    plan_listings::reply_line(alloc, reply)
}

pub fn refusal_line(alloc: Global, refusal: &Refusal) -> Result<Vec<u8>, Memory> {
    plan_listings::refusal_line(alloc, refusal)
}
