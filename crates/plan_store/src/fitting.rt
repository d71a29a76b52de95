// Whether a content admits a change.

ghost use Rattle.std.specs.Prelude.{◌≡◌, ◌↔◌, ◌++◌, Contains, Some, None, IfOk, IsTrue};
ghost use Rattle.plan_store_lists.specs.Rows.{AreRows, HasEachOnce, look_up};
ghost use Rattle.plan_store_lists.specs.Seats.{HasSeats};
ghost use Rattle.external_dependencies.specs.Nearest.{arrival_of};
ghost use Rattle.planner_machine.specs.declared.job.Job.{Job as JobValue};
ghost use Rattle.plan_store.specs.Changes.{Fits, FitsSet};
ghost use Rattle.plan_store.specs.Contents.{content_of};

use crate::changes::{Change, Moves};
use crate::contents::Content;
use crate::slices::of_serial;
use itertools::Itertools;
use occurrences::{CurrentRow, Deletion, Row};
use plan_store_lists::{PlanRow, RowBlocks, SeatBlocks};
use planner_machine::Job;
use std::alloc::{AllocError, Global};

// A row that is compared field by field.
trait Whole: PlanRow {
    // Whether it equals the other.
    fn is(&self, other: &Self) -> bool
        ensures { IsTrue result ↔ (self.now ≡ other.now) };
}

impl Whole for Row {
    fn is(&self, other: &Row) -> bool {
        *self == *other
    }
}

impl Whole for CurrentRow {
    fn is(&self, other: &CurrentRow) -> bool {
        self.row == other.row && self.status == other.status
    }
}

impl Whole for Deletion {
    fn is(&self, other: &Deletion) -> bool {
        *self == *other
    }
}

// The row of its serial in the list.
fn of_same_serial<T: PlanRow>(list: &RowBlocks<T>, seats: &SeatBlocks, x: &T) -> Option<T>
    requires rows { AreRows T.row_of list.now.items }
    requires seated { HasSeats T.row_of list.now.items seats.now }
    ensures { result ≡ look_up (λ y. (T.row_of y).serial) list.now.items (T.row_of x.now).serial }
{
    of_serial(list, seats, x.row().serial)
}

// Whether the list has the row.
fn stands<T: Whole>(list: &RowBlocks<T>, seats: &SeatBlocks, x: &T) -> bool
    requires rows { AreRows T.row_of list.now.items }
    requires seated { HasSeats T.row_of list.now.items seats.now }
    ensures { IsTrue result
        ↔ (look_up (λ y. (T.row_of y).serial) list.now.items (T.row_of x.now).serial ≡ Some x.now) }
{
    match of_same_serial(list, seats, x) {
        Some(was) => was.is(x),
        None => false,
    }
}

// Whether two occurrences have one key.
fn same_key(row: &Row, other: &Row) -> bool
    ensures { IsTrue result ↔ (row.now.key ≡ other.now.key) }
{
    row.key == other.key
}

// Whether the list has a row of its serial under its key.
fn stands_as<T: PlanRow>(list: &RowBlocks<T>, seats: &SeatBlocks, x: &T) -> bool
    requires rows { AreRows T.row_of list.now.items }
    requires seated { HasSeats T.row_of list.now.items seats.now }
    ensures { IsTrue result ↔ ((was : T)
        × (look_up (λ y. (T.row_of y).serial) list.now.items (T.row_of x.now).serial ≡ Some was)
        × (arrival_of (T.row_of was) ≡ arrival_of (T.row_of x.now))) }
{
    match of_same_serial(list, seats, x) {
        Some(was) => same_key(&was.row(), &x.row()),
        None => false,
    }
}

// Whether the list has no row of its serial.
fn is_new<T: PlanRow>(list: &RowBlocks<T>, seats: &SeatBlocks, x: &T) -> bool
    requires rows { AreRows T.row_of list.now.items }
    requires seated { HasSeats T.row_of list.now.items seats.now }
    ensures { IsTrue result
        ↔ (look_up (λ y. (T.row_of y).serial) list.now.items (T.row_of x.now).serial ≡ None) }
{
    of_same_serial(list, seats, x).is_none()
}

// Whether no two of these have one serial.
fn have_each_once<T: PlanRow>(alloc: Global, rows: &[T], more: &[T]) -> Result<bool, AllocError>
    ensures { IfOk result (λ once. IsTrue once ↔ HasEachOnce T.row_of (rows.now ++ more.now)) }
{
    rows.iter()
        .chain(more)
        .map(|x| x.row().serial)
        .all_unique(alloc)
}

// Whether no serial is named twice: among what goes and changes, and among what is put.
fn names_each_once<T: PlanRow>(alloc: Global, moves: &Moves<T>) -> Result<bool, AllocError>
    ensures { IfOk result (λ once. IsTrue once
        ↔ (HasEachOnce T.row_of (moves.now.gone.items ++ moves.now.changed.items)
        × HasEachOnce T.row_of moves.now.put.items)) }
{
    Ok(
        have_each_once(alloc, &moves.gone, &moves.changed)?
            && have_each_once(alloc, &moves.put, &[])?,
    )
}

// Whether the list has what goes.
fn gone_stand<T: Whole>(list: &RowBlocks<T>, seats: &SeatBlocks, moves: &Moves<T>) -> bool
    requires rows { AreRows T.row_of list.now.items }
    requires seated { HasSeats T.row_of list.now.items seats.now }
    ensures { IsTrue result ↔ ((x : T) → Contains moves.now.gone.items x
        → look_up (λ y. (T.row_of y).serial) list.now.items (T.row_of x).serial ≡ Some x) }
{
    moves.gone.iter().all(|x| stands(list, seats, x))
}

// Whether the list has what changes, under its key.
fn changed_stand<T: PlanRow>(list: &RowBlocks<T>, seats: &SeatBlocks, moves: &Moves<T>) -> bool
    requires rows { AreRows T.row_of list.now.items }
    requires seated { HasSeats T.row_of list.now.items seats.now }
    ensures { IsTrue result ↔ ((x : T) → Contains moves.now.changed.items x → (was : T)
        × (look_up (λ y. (T.row_of y).serial) list.now.items (T.row_of x).serial ≡ Some was)
        × (arrival_of (T.row_of was) ≡ arrival_of (T.row_of x))) }
{
    moves.changed.iter().all(|x| stands_as(list, seats, x))
}

// Whether nothing in the list has a serial of what is put.
fn put_are_new<T: PlanRow>(list: &RowBlocks<T>, seats: &SeatBlocks, moves: &Moves<T>) -> bool
    requires rows { AreRows T.row_of list.now.items }
    requires seated { HasSeats T.row_of list.now.items seats.now }
    ensures { IsTrue result ↔ ((x : T) → Contains moves.now.put.items x
        → look_up (λ y. (T.row_of y).serial) list.now.items (T.row_of x).serial ≡ None) }
{
    moves.put.iter().all(|x| is_new(list, seats, x))
}

// Whether what moves fits the set.
fn fits_set<T: Whole>(
    alloc: Global,
    list: &RowBlocks<T>,
    seats: &SeatBlocks,
    moves: &Moves<T>,
) -> Result<bool, AllocError>
    requires rows { AreRows T.row_of list.now.items }
    requires seated { HasSeats T.row_of list.now.items seats.now }
    ensures { IfOk result (λ fits. IsTrue fits
        ↔ FitsSet T.row_of moves.now (look_up (λ x. (T.row_of x).serial) list.now.items)) }
{
    if !gone_stand(list, seats, moves) {
        return Ok(false);
    }
    if !changed_stand(list, seats, moves) {
        return Ok(false);
    }
    if !put_are_new(list, seats, moves) {
        return Ok(false);
    }
    names_each_once(alloc, moves)
}

impl Content {
    // Whether no job is kept under the number of the job, if there is one.
    fn takes_job(&self, job: &Option<Job>) -> bool
        ensures { IsTrue result ↔ ((new : JobValue) → job.now ≡ Some new
            → (content_of self.now).jobs new.number ≡ None) }
    {
        match job {
            Some(job) => self.job(job.number).is_none(),
            None => true,
        }
    }

    /// Whether it admits the change.
    pub fn admits(&self, alloc: Global, change: &Change) -> Result<bool, AllocError>
        ensures { IfOk result (λ fits. IsTrue fits ↔ Fits change.now (content_of self.now)) }
    {
        if !self.takes_job(&change.job) {
            return Ok(false);
        }
        if !fits_set(alloc, &self.ltp, &self.seats, &change.ltp)? {
            return Ok(false);
        }
        if !fits_set(alloc, &self.cp, &self.seats, &change.cp)? {
            return Ok(false);
        }
        if !fits_set(alloc, &self.history, &self.seats, &change.history)? {
            return Ok(false);
        }
        fits_set(alloc, &self.deletions, &self.seats, &change.deletions)
    }
}
