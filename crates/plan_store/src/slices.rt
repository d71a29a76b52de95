ghost use Rattle.std.specs.Prelude.{◌≡◌, ◌≢◌, ◌↔◌, ◌<◌, Contains, MatchOption, IfOk, IsTrue, OnOk, filter};
ghost use Rattle.std.specs.Prelude.{◌++◌, ◌≤◌, not};
ghost use Rattle.occurrences.specs.declared.place.CurrentRow.{CurrentRow as CurrentValue};
ghost use Rattle.occurrences.specs.declared.place.Deletion.{Deletion as DeletionValue};
ghost use Rattle.planner_machine.specs.DailyPlan.{arrives_before};
ghost use Rattle.plan_store_lists.specs.Keyed.{IsKeyed};
ghost use Rattle.plan_store_lists.specs.Seats.{HasSeats};
ghost use Rattle.external_dependencies.specs.Arrival.{arrival_cmp};
ghost use Rattle.external_dependencies.specs.Nearest.{arrival_of};
ghost use Rattle.plan_store.specs.Slices.{HaveOneApp};
ghost use Rattle.plan_store.specs.Views.{bars_from, is_asked, is_by_operator, is_from_plan_end, is_of_key};

use occurrences::{CurrentRow, Deletion, Key, Reason, Row, Serial, Status};
use plan_store_lists::{PlanRow, RowBlocks, SeatBlocks, seats_of};
use planner_machine::Bounds;
use std::alloc::{AllocError, Global};
use work_calendars::{App, Moment};

// The rows of an application.
pub(crate) fn of_app<'a, T: PlanRow>(list: &'a [T], app: &App) -> &'a [T]
    ensures keyed { IsKeyed arrival_cmp (λ x. arrival_of (T.row_of x)) list.now
        → IsKeyed arrival_cmp (λ x. arrival_of (T.row_of x)) result.now }
    ensures all { IsKeyed arrival_cmp (λ x. arrival_of (T.row_of x)) list.now → (x : T)
        → Contains result.now x
        ↔ (Contains list.now x × ((T.row_of x).key.app ≡ app.now)) }
{
    let start = list.partition_point(|x| x.row().key.app < *app);
    let rest = &list[start..];
    let count = rest.partition_point(|x| x.row().key.app <= *app);
    &rest[..count]
}

// The rows of a key.
pub(crate) fn of_key<'a, T: PlanRow>(list: &'a [T], key: &Key) -> &'a [T]
    ensures keyed { IsKeyed arrival_cmp (λ x. arrival_of (T.row_of x)) list.now
        → IsKeyed arrival_cmp (λ x. arrival_of (T.row_of x)) result.now }
    ensures all { IsKeyed arrival_cmp (λ x. arrival_of (T.row_of x)) list.now → (x : T)
        → Contains result.now x
        ↔ (Contains list.now x × ((T.row_of x).key ≡ key.now)) }
{
    arriving_at(of_app(list, &key.app), key.ia)
}

// The rows of one application that arrive at the moment.
fn arriving_at<'a, T: PlanRow>(rows: &'a [T], moment: Moment) -> &'a [T]
    ensures keyed { IsKeyed arrival_cmp (λ x. arrival_of (T.row_of x)) rows.now
        → IsKeyed arrival_cmp (λ x. arrival_of (T.row_of x)) result.now }
    ensures all { IsKeyed arrival_cmp (λ x. arrival_of (T.row_of x)) rows.now
        → HaveOneApp T.row_of rows.now → (x : T) → Contains result.now x
        ↔ (Contains rows.now x × ((T.row_of x).key.ia ≡ moment)) }
{
    let start = rows.partition_point(|x| x.row().key.ia < moment);
    let rest = &rows[start..];
    let count = rest.partition_point(|x| x.row().key.ia <= moment);
    &rest[..count]
}

// The rows of a key in a set.
pub(crate) fn with_key<'a, T: PlanRow>(list: &'a RowBlocks<T>, key: &Key) -> &'a [T]
    ensures keyed { IsKeyed arrival_cmp (λ x. arrival_of (T.row_of x)) result.now }
    ensures all { (x : T) → Contains result.now x
        ↔ (Contains list.now.items x × ((T.row_of x).key ≡ key.now)) }
{
    arriving_at(list.of_app(&key.app), key.ia)
}

// The rows of one application that arrive before the minute.
pub(crate) fn before<'a, T: PlanRow>(rows: &'a [T], minute: u32) -> &'a [T]
    ensures keyed { IsKeyed arrival_cmp (λ x. arrival_of (T.row_of x)) rows.now
        → IsKeyed arrival_cmp (λ x. arrival_of (T.row_of x)) result.now }
    ensures all { IsKeyed arrival_cmp (λ x. arrival_of (T.row_of x)) rows.now
        → HaveOneApp T.row_of rows.now
        → (x : T) → Contains result.now x
        ↔ (Contains rows.now x × ((T.row_of x).key.ia < minute)) }
    ensures value { IsKeyed arrival_cmp (λ x. arrival_of (T.row_of x)) rows.now
        → HaveOneApp T.row_of rows.now
        → result.now ≡ filter (λ x. arrives_before minute (T.row_of x)) rows.now }
{
    let count = rows.partition_point(|x| x.row().key.ia.number() < minute);
    &rows[..count]
}

// The row of a serial among some rows.
fn with_serial<T: PlanRow>(rows: &[T], serial: Serial) -> Option<T>
    ensures { MatchOption result ((x : T) → Contains rows.now x → (T.row_of x).serial ≢ serial)
        (λ x. Contains rows.now x × ((T.row_of x).serial ≡ serial)) }
{
    rows.iter().copied().find(|x| x.row().serial == serial)
}

// The row of a serial, found by its key among the seats.
pub(crate) fn of_serial<T: PlanRow>(
    list: &RowBlocks<T>,
    seats: &SeatBlocks,
    serial: Serial,
) -> Option<T>
    requires { HasSeats T.row_of list.now.items seats.now }
    ensures { MatchOption result
        ((x : T) → Contains list.now.items x → (T.row_of x).serial ≢ serial)
        (λ x. Contains list.now.items x × ((T.row_of x).serial ≡ serial)) }
{
    let found = seats_of(seats, serial);
    for seat in found {
        let key = Key {
            ia: seat.ia,
            app: seat.app,
        };
        match with_serial(with_key(list, &key), serial) {
            Some(x) => return Some(x),
            None => {}
        }
    }
    None
}

// The first of some rows.
pub(crate) fn first_of<T: Copy>(rows: &[T]) -> Option<T>
    ensures { MatchOption result ((x : T) → Contains rows.now x → ⊥) (λ x. Contains rows.now x) }
{
    rows.first().copied()
}

// The first of some rows that is not deleted.
pub(crate) fn first_live(rows: &[CurrentRow]) -> Option<CurrentRow>
    ensures { MatchOption result ((x : CurrentValue) → Contains rows.now x → x.status ≡ Status.D)
        (λ x. Contains rows.now x × (x.status ≢ Status.D)) }
{
    rows.iter()
        .copied()
        .find(|current| current.status != Status::D)
}

// Whether an operator deleted one of these.
pub(crate) fn has_operator(rows: &[Deletion]) -> bool
    ensures { IsTrue result ↔ ((x : DeletionValue) × Contains rows.now x
        × (x.reason ≡ Reason.Operator)) }
{
    rows.iter()
        .any(|deletion| deletion.reason == Reason::Operator)
}

// The rows that arrive before the moment, as a list of their own: of each application those at its front.
pub(crate) fn arriving_before(
    alloc: Global,
    rows: &RowBlocks<Row>,
    moment: Moment,
) -> Result<Vec<Row>, AllocError>
    ensures { IfOk result (λ found. found.items ≡ filter (arrives_before moment) rows.now.items) }
{
    let all = rows.blocks();
    let mut found = Vec::new(alloc);
    for block in all {
        found.extend_from_slice(before(block.items(), moment.number()))?;
    }
    Ok(found)
}

// The rows of one application that arrive at that minute or after it.
pub(crate) fn from_on<'a, T: PlanRow>(rows: &'a [T], first: u32) -> &'a [T]
    ensures keyed { IsKeyed arrival_cmp (λ x. arrival_of (T.row_of x)) rows.now
        → IsKeyed arrival_cmp (λ x. arrival_of (T.row_of x)) result.now }
    ensures all { IsKeyed arrival_cmp (λ x. arrival_of (T.row_of x)) rows.now
        → HaveOneApp T.row_of rows.now
        → (x : T) → Contains result.now x ↔ (Contains rows.now x × (first ≤ (T.row_of x).key.ia)) }
    ensures value { IsKeyed arrival_cmp (λ x. arrival_of (T.row_of x)) rows.now
        → HaveOneApp T.row_of rows.now
        → result.now ≡ filter (λ x. not (arrives_before first (T.row_of x))) rows.now }
{
    let count = rows.partition_point(|x| x.row().key.ia.number() < first);
    &rows[count..]
}

// Adds what an operator deleted.
fn push_operators(found: &mut Vec<Deletion>, rows: &[Deletion]) -> Result<(), AllocError>
    ensures { OnOk result (found.new.items
        ≡ found.old.items ++ filter (λ (x : DeletionValue). is_by_operator x.reason) rows.now) }
{
    for deletion in rows {
        if deletion.reason == Reason::Operator {
            found.push(*deletion)?;
        }
    }
    Ok(())
}

// What an operator deleted that arrives at the moment or after it, as a list of its own: of each application from the
// end of its rows.
pub(crate) fn barring(
    alloc: Global,
    rows: &RowBlocks<Deletion>,
    moment: Moment,
) -> Result<Vec<Deletion>, AllocError>
    ensures { IfOk result (λ found. found.items ≡ filter (bars_from moment) rows.now.items) }
{
    let all = rows.blocks();
    let mut found = Vec::new(alloc);
    for block in all {
        push_operators(&mut found, from_on(block.items(), moment.number()))?;
    }
    Ok(found)
}

// Whether there is a plan, and the key arrives at its end or after it.
pub(crate) fn is_from_plan_end(bounds: Option<Bounds>, key: &Key) -> bool
    ensures { result ≡ is_from_plan_end bounds key.now }
{
    match bounds {
        Some(bounds) => bounds.plan_end <= key.ia,
        None => false,
    }
}

// Whether the row has the key, where there is one.
pub(crate) fn is_of_key(key: &Option<Key>, row: &Row) -> bool
    ensures { result ≡ is_of_key key.now row.now }
{
    match key {
        Some(key) => row.key == *key,
        None => false,
    }
}

// Whether the row waits, or is the live row of the key, where there is one.
pub(crate) fn is_asked(key: &Option<Key>, current: &CurrentRow) -> bool
    ensures { result ≡ is_asked key.now current.now }
{
    if current.status == Status::W {
        return true;
    }
    is_of_key(key, &current.row) && current.status != Status::D
}
