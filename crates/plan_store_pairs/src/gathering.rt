ghost use Rattle.std.specs.Prelude.{◌↔◌, Contains, IfOk, IsTrue, OnOk};
ghost use Rattle.external_dependencies.specs.Nearest.{IsCandidate, arrival_of};
ghost use Rattle.external_dependencies.specs.declared.rows.PlacedRow.{PlacedRow as PlacedValue};
ghost use Rattle.planner_machine.specs.Sound.{AreNumbered};
ghost use Rattle.plan_store.specs.Views.{HoldsOfAny};
ghost use Rattle.plan_store_pairs.specs.Gathering.{AddsBetween, AddsEach, AddsIf, AreReached, IsOpenBetween};
ghost use Rattle.plan_store_pairs.specs.Gathering.{IsReachedAmong, IsReachedBy};

use crate::listing::{push_current, push_rows};
use external_dependencies::{Link, PlacedRow, arrives_within};
use occurrences::{Key, Place, Row};
use plan_store::{View, between};
use std::alloc::{AllocError, Global};
use work_calendars::{App, Moment, Within};

/// An open occurrence that another may precede, and the limit within which its list names that one's application.
#[derive(Clone, Copy, Debug, PartialEq, Eq)]
pub(crate) struct Reached {
    /// The occurrence, and its place.
    pub(crate) placed: PlacedRow,
    /// The most hours from the arrival of the other to its own; `None` where there is no limit.
    pub(crate) within: Option<Within>,
}

/// The open occurrences that the row may precede, up to the next live one of its application. Looks only at the links
/// in force that name its application, and finds the occurrences by searches.
pub(crate) fn reached_by(
    alloc: Global,
    view: &View<'_>,
    row: &Row,
) -> Result<Vec<Reached>, AllocError>
    ensures { IfOk result (λ found. HoldsOfAny view.now (λ c. AreNumbered c.sets
        → AreReached c row.now found.items)) }
{
    let last = view.next_planned(&row.key.app, row.key.ia);
    let mut found = Vec::new(alloc);
    let lists = view.in_force();
    lists.rise();
    for naming in lists.naming(&row.key.app) {
        push_link(alloc, view, row, &naming.link, &last, &mut found)?;
    }
    Ok(found)
}

// Adds the open occurrences of the link's application that the row may precede, up to the last moment.
fn push_link(
    alloc: Global,
    view: &View<'_>,
    row: &Row,
    link: &Link,
    last: &Option<Moment>,
    found: &mut Vec<Reached>,
) -> Result<(), AllocError>
    ensures { OnOk result (HoldsOfAny view.now (λ c. AreNumbered c.sets
        → AddsIf (IsReachedBy c.sets row.now last.now link.now) found.old.items found.new.items)) }
{
    let mut rows = Vec::new(alloc);
    push_between(view, &link.app, row.key.ia, last, &mut rows)?;
    push_reached(row, link, &rows, found)?;
    Ok(())
}

// Adds the live occurrences of an application in both plans that arrive from the first moment to the last.
fn push_between(
    view: &View<'_>,
    app: &App,
    first: Moment,
    last: &Option<Moment>,
    rows: &mut Vec<PlacedRow>,
) -> Result<(), AllocError>
    ensures { OnOk result (HoldsOfAny view.now (λ c. AreNumbered c.sets
        → AddsBetween c.sets app.now first last.now rows.old.items rows.new.items
        × ((p : PlacedValue) → IsOpenBetween c.sets app.now first last.now p
        → Contains rows.new.items p))) }
{
    let planned = between(view.ltp_of(app), first, last);
    push_rows(rows, planned, Place::LongTerm)?;
    let current = between(view.cp_of(app), first, last);
    push_current(rows, current)?;
    Ok(())
}

// Adds the open ones of these that the row may precede within the limit of the link.
fn push_reached(
    row: &Row,
    link: &Link,
    rows: &[PlacedRow],
    found: &mut Vec<Reached>,
) -> Result<(), AllocError>
    ensures { OnOk result (AddsEach (IsReachedAmong row.now link.now.within) rows.now
        found.old.items found.new.items) }
{
    for placed in rows {
        if placed.place.is_open() && may_precede(row, &placed.row.key, link.within) {
            found.push(Reached {
                placed: *placed,
                within: link.within,
            })?;
        }
    }
    Ok(())
}

// Whether the row may precede the occurrence with the key, within the limit.
fn may_precede(row: &Row, key: &Key, within: Option<Within>) -> bool
    ensures { IsTrue result ↔ IsCandidate key.now row.now.key.app within (arrival_of row.now) }
{
    let in_time = if row.key.app == key.app {
        row.key.ia < key.ia
    } else {
        row.key.ia <= key.ia
    };
    in_time && arrives_within(within, key.ia, row.key.ia)
}
