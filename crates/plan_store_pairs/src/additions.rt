ghost use Rattle.std.specs.Prelude.{◌≡◌, ◌↔◌, ◌<◌, Contains, IfOk, IsTrue, OnOk};
ghost use Rattle.external_dependencies.specs.Link.{AreNamedOnce};
ghost use Rattle.planner_machine.specs.Add.{IsOutside, add as decided};
ghost use Rattle.planner_machine.specs.Content.{Content};
ghost use Rattle.planner_machine.specs.Sound.{AreNumbered, IsSound};
ghost use Rattle.plan_store.specs.Changes.{LeadsOn, pairs_after};
ghost use Rattle.plan_store.specs.Verdicts.{VerdictIs};
ghost use Rattle.plan_store.specs.Views.{HoldsOfSound, HoldsOfAny, HoldsOfPairs, Shows, shown};
ghost use Rattle.plan_store_pairs.specs.Additions.{AddsRow, ArePairsWith, IsAddable, IsNewRow, IsNewSerial, IsPutIn};
ghost use Rattle.plan_store_pairs.specs.Additions.{IsLeftPair, IsPredecessorIn, IsTurnedPair, place_in};
ghost use Rattle.plan_store_pairs.specs.Gathering.{AddsEach, AddsIf, IsReached};
ghost use Rattle.plan_store_pairs.specs.declared.gathering.Reached.{Reached as ReachedValue};

use crate::gathering::{Reached, reached_by};
use crate::row_pairs::row_pairs_of;
use crate::singles::single;
use app_occurrences::active;
use external_dependencies::{Pair, PairChange, Pairs, PlacedRow};
use occurrences::{CurrentRow, Key, Origin, Place, Refusal, Reply, Row, Serial, Status};
use plan_store::{Change, Need, Verdict, View};
use planner_machine::{Bounds, MOST_PLANNED_ROWS};
use std::alloc::{AllocError, Global};
use work_calendars::{App, Moment};

/// A plan that an occurrence can be added to.
#[derive(Clone, Copy, Debug, PartialEq, Eq)]
pub enum Plan {
    /// The long-term plan.
    LongTerm,
    /// The current plan, where it waits.
    Current,
}

impl Plan {
    /// The place of an occurrence that is added to the plan.
    pub fn place(self) -> Place
        ensures { result ≡ place_in self }
    {
        match self {
            Plan::LongTerm => Place::LongTerm,
            Plan::Current => Place::Current(Status::W),
        }
    }
}

/// An occurrence of the key is added by hand to the plan, due a day after it arrives. Refused where there is no plan
/// (20), where the plan has no room for the arrival (24), where the application isn't active (26), where a live
/// occurrence has the key (27), and where both plans would hold too many rows or no serial is left (31).
pub fn add(alloc: Global, view: &View<'_>, plan: Plan, key: &Key) -> Result<Verdict, AllocError>
    ensures { IfOk result (λ verdict. (c : Content) → Shows (Need.Key key.now) view.now c
        → IsSound c
        → VerdictIs (decided (place_in plan) key.now) c verdict) }
{
    match new_row(view, plan, key) {
        Ok(row) => add_row(alloc, view, plan, &row),
        Err(refusal) => Ok(Verdict::Refused(refusal)),
    }
}

// The row that is added under the key, or why none is.
fn new_row(view: &View<'_>, plan: Plan, key: &Key) -> Result<Row, Refusal>
    ensures { HoldsOfSound (Need.Key key.now) view.now (λ c. IsNewRow c plan key.now result) }
{
    let Some(bounds) = view.bounds() else {
        return Err(Refusal::NoPlan);
    };
    if is_outside(&bounds, plan, key.ia) {
        return Err(Refusal::DatesOutOfRange);
    }
    let Some(due) = key.ia.day().next() else {
        return Err(Refusal::DatesOutOfRange);
    };
    if active(view.definitions(), &key.app).is_none() {
        return Err(Refusal::NoActiveApplication);
    }
    if view.live_row(key).is_some() {
        return Err(Refusal::KeyIsLive);
    }
    let Some(serial) = new_serial(view) else {
        return Err(Refusal::TooManyRows);
    };
    Ok(Row {
        key: *key,
        serial,
        deadline: Moment::new(due, key.ia.minute()),
        origin: Origin::Added,
    })
}

// Whether the arrival lies outside the days of the plan.
fn is_outside(bounds: &Bounds, plan: Plan, ia: Moment) -> bool
    ensures { IsTrue result ↔ IsOutside bounds.now ia (place_in plan) }
{
    match plan {
        Plan::LongTerm => ia < bounds.plan_end || bounds.last_day < ia.day(),
        Plan::Current => ia.day() < bounds.first_day || bounds.plan_end <= ia,
    }
}

// The next serial, where the plans have room for one more row.
fn new_serial(view: &View<'_>) -> Option<Serial>
    ensures { HoldsOfAny view.now (λ c. AreNumbered c.sets → IsNewSerial c.sets result) }
{
    if view.ltp().len() + view.cp().len() >= MOST_PLANNED_ROWS {
        return None;
    }
    Serial::new(view.issued().checked_add(1)?)
}

// The change that adds the row to the plan.
fn add_row(alloc: Global, view: &View<'_>, plan: Plan, row: &Row) -> Result<Verdict, AllocError>
    ensures { IfOk result (λ verdict. HoldsOfSound (Need.Key row.now.key) view.now (λ c.
        IsAddable c plan row.now → AddsRow c plan row.now verdict)) }
{
    let (planned, current) = put_in(alloc, plan, row)?;
    let pairs = pairs_with(alloc, view, plan, row)?;
    let serial = row.serial.get();
    let mut change = Change::none(alloc);
    change.issued = Some(serial);
    change.ltp.put = planned;
    change.cp.put = current;
    change.pairs = pairs;
    Ok(Verdict::Done(change, Reply::Numbered { serial }))
}

// The row as the long-term plan or the current plan gets it.
fn put_in(alloc: Global, plan: Plan, row: &Row) -> Result<(Vec<Row>, Vec<CurrentRow>), AllocError>
    ensures { IfOk result (λ put. IsPutIn plan row.now put.0.items put.1.items) }
{
    match plan {
        Plan::LongTerm => Ok((single(alloc, *row)?, Vec::new(alloc))),
        Plan::Current => {
            let waiting = CurrentRow {
                row: *row,
                status: Status::W,
            };
            Ok((Vec::new(alloc), single(alloc, waiting)?))
        }
    }
}

// The change of the pairs when the row is added: its own pairs are added, and each open occurrence that it comes
// before gets its pair with the row's application turned to it.
fn pairs_with(
    alloc: Global,
    view: &View<'_>,
    plan: Plan,
    row: &Row,
) -> Result<PairChange, AllocError>
    ensures { IfOk result (λ change. HoldsOfSound (Need.Key row.now.key) view.now (λ c.
        IsAddable c plan row.now → ArePairsWith c plan row.now (pairs_after change c.pairs)
        × LeadsOn c.pairs change)) }
{
    let mut removed = Vec::new(alloc);
    let own = row_pairs_of(alloc, view, row)?;
    let mut added = own.into_vec();
    let found = reached_by(alloc, view, row)?;
    turn_each(view, row, &found, &mut removed, &mut added)?;
    Ok(PairChange {
        removed: Pairs::from_vec(removed),
        added: Pairs::from_vec(added),
    })
}

// Turns to the row each of these that it comes before.
fn turn_each(
    view: &View<'_>,
    row: &Row,
    found: &[Reached],
    removed: &mut Vec<Pair>,
    added: &mut Vec<Pair>,
) -> Result<(), AllocError>
    ensures { OnOk result (HoldsOfSound (Need.Key row.now.key) view.now (λ c. AreNamedOnce c.in_force
        → ((x : ReachedValue) → Contains found.now x → IsReached c row.now x)
        → AddsEach (IsLeftPair c row.now) found.now removed.old.items removed.new.items
        × AddsEach (IsTurnedPair c row.now) found.now added.old.items added.new.items)) }
{
    for x in found {
        turn(view, row, x, removed, added)?;
    }
    Ok(())
}

// Turns the occurrence to the row, unless what precedes it now in the row's application arrives later.
fn turn(
    view: &View<'_>,
    row: &Row,
    x: &Reached,
    removed: &mut Vec<Pair>,
    added: &mut Vec<Pair>,
) -> Result<(), AllocError>
    ensures { OnOk result (HoldsOfSound (Need.Key row.now.key) view.now (λ c. AreNamedOnce c.in_force
        → IsReached c row.now x.now
        → AddsIf (IsLeftPair c row.now x.now) removed.old.items removed.new.items
        × AddsIf (IsTurnedPair c row.now x.now) added.old.items added.new.items)) }
{
    let successor = x.placed.row.serial;
    if let Some(was) = predecessor_in(view, successor, &row.key.app) {
        if arrives_later(&was.row, row) {
            return Ok(());
        }
        let predecessor = was.row.serial;
        removed.push(Pair {
            successor,
            predecessor,
        })?;
    }
    let predecessor = row.serial;
    added.push(Pair {
        successor,
        predecessor,
    })?;
    Ok(())
}

// Whether the first row arrives later than the other.
fn arrives_later(first: &Row, other: &Row) -> bool
    ensures { IsTrue result ↔ (other.now.key.ia < first.now.key.ia) }
{
    other.key.ia < first.key.ia
}

// The predecessor that the pairs shown of the successor have in the application.
fn predecessor_in(view: &View<'_>, successor: Serial, app: &App) -> Option<PlacedRow>
    ensures { HoldsOfPairs view.now (λ c.
        IsPredecessorIn (shown view.now).pairs c.sets successor app.now result) }
{
    for pair in view.pairs_of_successor(successor) {
        if let Some(placed) = view.predecessor(pair) {
            if placed.row.key.app == *app {
                return Some(placed);
            }
        }
    }
    None
}
