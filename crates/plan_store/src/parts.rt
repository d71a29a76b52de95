// Lists that have a part of history and of the deletions, which are stored elsewhere: which part they have, what is
// loaded into them, and what stays in them.

ghost use Rattle.std.specs.Prelude.{◌≡◌, ◌↔◌, ◌⊎◌, ◌++◌, ℕ, Contains, Some, IfOk, OnOk, OnErr, filter, map, is_some, nat_eq};
ghost use Rattle.std.specs.List.{list_any};
ghost use Rattle.std.specs.List.Sorted.{IsNonDecreasing};
ghost use Rattle.std.specs.Mem.{FitsInMemory};
ghost use Rattle.plan_store_lists.specs.Rows.{AreRows, HasEachOnce, look_up, of_current, of_deletion, of_row};
ghost use Rattle.plan_store_lists.specs.Seats.{HasSeats};
ghost use Rattle.plan_store_lists.specs.declared.seats.Seat.{Seat as SeatValue};
ghost use Rattle.plan_store.specs.Parts.{or_this};

use crate::contents::Content;
use crate::room::grow;
use crate::slices::{barring, of_serial, with_key};
use occurrences::{CurrentRow, Deletion, Key, Row, Serial};
use plan_store_lists::{PlanRow, RowBlocks, SeatBlocks, insert_all, note_rows};
use std::alloc::{AllocError, Global};
use std::slice::from_ref;

// Whether the list has a row of the serial.
fn has_serial<T: PlanRow>(list: &RowBlocks<T>, seats: &SeatBlocks, serial: Serial) -> bool
    requires rows { AreRows T.row_of list.now.items }
    requires seated { HasSeats T.row_of list.now.items seats.now }
    ensures { result ≡ is_some (look_up (λ x. (T.row_of x).serial) list.now.items serial) }
{
    of_serial(list, seats, serial).is_some()
}

// Puts a row into the list, which has none of its serial; if memory is refused, doesn't.
pub(crate) fn put_row<T: PlanRow>(list: &mut Vec<T>, row: &T) -> Result<(), AllocError>
    requires size { FitsInMemory T.row }
    requires rows { AreRows T.row_of list.old.items }
    requires new { look_up (λ x. (T.row_of x).serial) list.old.items (T.row_of row.now).serial
        ≡ None }
    ensures rows { AreRows T.row_of list.new.items }
    ensures comes { (x : T) → Contains list.new.items x
        → (row.now ≡ x) ⊎ Contains list.old.items x }
    ensures ok { OnOk result ((serial : ℕ)
        → look_up (λ x. (T.row_of x).serial) list.new.items serial
        ≡ or_this (look_up (λ x. (T.row_of x).serial) list.old.items) (T.row_of row.now).serial
        row.now serial) }
    ensures err { OnErr result (list.new.items ≡ list.old.items) }
{
    grow(list, 1)?;
    insert_all(list, from_ref(row));
    Ok(())
}

// The same in blocks.
fn put_in<T: PlanRow>(alloc: Global, list: &mut RowBlocks<T>, row: &T) -> Result<(), AllocError>
    requires size { FitsInMemory T.row }
    requires rows { AreRows T.row_of list.old.items }
    requires new { look_up (λ x. (T.row_of x).serial) list.old.items (T.row_of row.now).serial
        ≡ None }
    ensures rows { AreRows T.row_of list.new.items }
    ensures comes { (x : T) → Contains list.new.items x
        → (row.now ≡ x) ⊎ Contains list.old.items x }
    ensures ok { OnOk result ((serial : ℕ)
        → look_up (λ x. (T.row_of x).serial) list.new.items serial
        ≡ or_this (look_up (λ x. (T.row_of x).serial) list.old.items) (T.row_of row.now).serial
        row.now serial) }
    ensures err { OnErr result (list.new.items ≡ list.old.items) }
{
    let rows = from_ref(row);
    list.reserve(alloc, rows)?;
    list.insert(rows);
    Ok(())
}

// Puts a row into the list, unless that has one of its serial, and notes its seat. If memory is refused, the list
// stays as it is.
fn load<T: PlanRow>(
    alloc: Global,
    list: &mut RowBlocks<T>,
    seats: &mut SeatBlocks,
    row: &T,
) -> Result<(), AllocError>
    requires size { FitsInMemory T.row }
    requires rows { AreRows T.row_of list.old.items }
    requires seated { HasSeats T.row_of list.old.items seats.old }
    ensures rows { AreRows T.row_of list.new.items }
    ensures stay { (seat : SeatValue) → Contains seats.old seat
        → Contains seats.new seat }
    ensures seated { HasSeats T.row_of list.new.items seats.new }
    ensures ok { OnOk result ((serial : ℕ)
        → look_up (λ x. (T.row_of x).serial) list.new.items serial
        ≡ or_this (look_up (λ x. (T.row_of x).serial) list.old.items) (T.row_of row.now).serial
        row.now serial) }
    ensures err { OnErr result (list.new.items ≡ list.old.items) }
{
    if has_serial(list, seats, row.row().serial) {
        return Ok(());
    }
    note_rows(alloc, seats, from_ref(row))?;
    put_in(alloc, list, row)
}

// Whether the serial is one of these, which are in rising order.
fn is_among(serials: &[Serial], serial: Serial) -> bool
    requires { IsNonDecreasing serials.now }
    ensures { result ≡ list_any (λ n. nat_eq n serial) serials.now }
{
    serials.binary_search(&serial).is_ok()
}

// Those of the rows that have these serials, which are in rising order.
fn rows_among(
    alloc: Global,
    rows: &RowBlocks<Row>,
    serials: &[Serial],
) -> Result<Vec<Row>, AllocError>
    requires { IsNonDecreasing serials.now }
    ensures { IfOk result (λ found. found.items
        ≡ filter (λ row. list_any (λ n. nat_eq n row.serial) serials.now) rows.now.items) }
{
    let all = rows.blocks();
    let mut found = Vec::new(alloc);
    for block in all {
        push_among(&mut found, block.items(), serials)?;
    }
    Ok(found)
}

// Adds those of the rows that have these serials, which are in rising order.
fn push_among(found: &mut Vec<Row>, rows: &[Row], serials: &[Serial]) -> Result<(), AllocError>
    requires { IsNonDecreasing serials.now }
    ensures { OnOk result (found.new.items ≡ found.old.items
        ++ filter (λ row. list_any (λ n. nat_eq n row.serial) serials.now) rows.now) }
{
    for row in rows {
        if is_among(serials, row.serial) {
            found.push(*row)?;
        }
    }
    Ok(())
}

// The seats of both plans and of these rows of history and deletions.
fn seats_for(
    alloc: Global,
    ltp: &RowBlocks<Row>,
    cp: &RowBlocks<CurrentRow>,
    history: &[Row],
    deletions: &[Deletion],
) -> Result<SeatBlocks, AllocError>
    requires ltp { HasEachOnce of_row ltp.now.items }
    requires cp { HasEachOnce of_current cp.now.items }
    requires history { HasEachOnce of_row history.now }
    requires deletions { HasEachOnce of_deletion deletions.now }
    ensures ltp { IfOk result (λ seats. HasSeats of_row ltp.now.items seats) }
    ensures cp { IfOk result (λ seats. HasSeats of_current cp.now.items seats) }
    ensures history { IfOk result (λ seats. HasSeats of_row history.now seats) }
    ensures deletions { IfOk result (λ seats. HasSeats of_deletion deletions.now seats) }
{
    let mut seats = SeatBlocks::new(alloc);
    ltp.note_in(alloc, &mut seats)?;
    cp.note_in(alloc, &mut seats)?;
    note_rows(alloc, &mut seats, history)?;
    note_rows(alloc, &mut seats, deletions)?;
    Ok(seats)
}

impl Content {
    ghost use Rattle.occurrences.specs.declared.row.Row.{Row as RowValue};
    ghost use Rattle.plan_store.specs.Contents.{content_of};
    ghost use Rattle.plan_store.specs.Parts.{IsPartOf, followed_alone, is_followed, is_planned, rest_of};
    ghost use Rattle.plan_store.specs.Parts.{with_completed, with_deleted, with_rest};
    ghost use Rattle.plan_store.specs.Room.{no_jobs, with_job_set};
    ghost use Rattle.plan_store.specs.Views.{bars};

    /// Whether the long-term plan or the current plan has an occurrence of the serial.
    pub fn is_planned(&self, serial: Serial) -> bool
        ensures { result ≡ is_planned (content_of self.now).sets serial }
    {
        has_serial(&self.ltp, &self.seats, serial) || has_serial(&self.cp, &self.seats, serial)
    }

    /// Whether the lists have a row of the serial in history.
    pub fn has_completed(&self, serial: Serial) -> bool
        ensures { result ≡ is_some ((content_of self.now).sets.history serial) }
    {
        has_serial(&self.history, &self.seats, serial)
    }

    /// Whether the lists have a deletion of the serial.
    pub fn has_deleted(&self, serial: Serial) -> bool
        ensures { result ≡ is_some ((content_of self.now).sets.deletions serial) }
    {
        has_serial(&self.deletions, &self.seats, serial)
    }

    /// The rows of the key that the lists have in history.
    pub fn completed_of(&self, key: &Key) -> &[Row]
        ensures { (row : RowValue) → Contains result.now row
            ↔ (((content_of self.now).sets.history row.serial ≡ Some row) × (row.key ≡ key.now)) }
    {
        with_key(&self.history, key)
    }

    /// Loads a row of history into the lists, unless they have one of its serial. If memory is refused, the content
    /// stays as it is.
    pub fn load_completed(&mut self, alloc: Global, row: Row) -> Result<(), AllocError>
        ensures ok { OnOk result (content_of self.new ≡ with_completed row (content_of self.old)) }
        ensures err { OnErr result (content_of self.new ≡ content_of self.old) }
    {
        load(alloc, &mut self.history, &mut self.seats, &row)
    }

    /// Loads a deletion into the lists, unless they have one of its serial. If memory is refused, the content stays as
    /// it is.
    pub fn load_deleted(&mut self, alloc: Global, deletion: Deletion) -> Result<(), AllocError>
        ensures ok { OnOk result (content_of self.new
            ≡ with_deleted deletion (content_of self.old)) }
        ensures err { OnErr result (content_of self.new ≡ content_of self.old) }
    {
        load(alloc, &mut self.deletions, &mut self.seats, &deletion)
    }

    // The serials of the predecessors of what is planned, in the order of the pairs.
    fn predecessors(&self, alloc: Global) -> Result<Vec<Serial>, AllocError>
        ensures { IfOk result (λ serials. serials.items ≡ map (λ pair. pair.predecessor)
            (filter (λ pair. is_planned (content_of self.now).sets pair.successor)
            self.now.pairs)) }
    {
        let pairs = self.pairs.to_vec(alloc)?;
        pairs
            .iter()
            .filter(|pair| self.is_planned(pair.successor))
            .map(|pair| pair.predecessor)
            .collect(alloc)
    }

    // The serials of the predecessors of what is planned, by number.
    fn followed(&self, alloc: Global) -> Result<Vec<Serial>, AllocError>
        ensures order { IfOk result (λ serials. IsNonDecreasing serials.items) }
        ensures all { IfOk result (λ serials. (serial : ℕ)
            → list_any (λ n. nat_eq n serial) serials.items
            ≡ is_followed (content_of self.now) serial) }
    {
        let mut serials = self.predecessors(alloc)?;
        serials.sort_unstable();
        Ok(serials)
    }

    // Of history the predecessors of what is planned.
    fn followed_rows(&self, alloc: Global) -> Result<Vec<Row>, AllocError>
        ensures { IfOk result (λ rows. rows.items
            ≡ filter (λ row. is_followed (content_of self.now) row.serial) self.now.history.items) }
    {
        let serials = self.followed(alloc)?;
        rows_among(alloc, &self.history, &serials)
    }

    // The deletions by an operator from the plan end on, if there is a plan.
    fn barring_rows(&self, alloc: Global) -> Result<Vec<Deletion>, AllocError>
        ensures { IfOk result (λ found. found.items
            ≡ filter (bars self.now.bounds) self.now.deletions.items) }
    {
        match self.bounds {
            Some(bounds) => barring(alloc, &self.deletions, bounds.plan_end),
            None => Ok(Vec::new(alloc)),
        }
    }

    // Drops the rows of history that are no predecessors of what is planned, and the deletions that keep no key from
    // being made. If memory is refused, it drops nothing.
    fn keep_followed(&mut self, alloc: Global) -> Result<(), AllocError>
        ensures ok { OnOk result (content_of self.new ≡ followed_alone (content_of self.old)) }
        ensures err { OnErr result (content_of self.new ≡ content_of self.old) }
    {
        let followed = self.followed_rows(alloc)?;
        let barring = self.barring_rows(alloc)?;
        let seats = seats_for(alloc, &self.ltp, &self.cp, &followed, &barring)?;
        let history = RowBlocks::from_rows(alloc, &followed)?;
        let deletions = RowBlocks::from_rows(alloc, &barring)?;
        self.history = history;
        self.deletions = deletions;
        self.seats = seats;
        Ok(())
    }

    /// Drops what is stored elsewhere and that no statement needs at once: the kept jobs, the rows of history that are no
    /// predecessors of what is planned, and the deletions that keep no key from being made. If memory is refused, it
    /// drops the jobs alone.
    pub fn keep_part(&mut self, alloc: Global) -> Result<(), AllocError>
        ensures part { IsPartOf (rest_of (content_of self.old)) (content_of self.new) }
        ensures same { with_rest (rest_of (content_of self.old)) (content_of self.new)
            ≡ content_of self.old }
        ensures jobs { (content_of self.new).jobs ≡ no_jobs }
        ensures ok { OnOk result (content_of self.new
            ≡ followed_alone (with_job_set no_jobs (content_of self.old))) }
        ensures err { OnErr result (content_of self.new
            ≡ with_job_set no_jobs (content_of self.old)) }
    {
        self.jobs = Vec::new(alloc);
        self.keep_followed(alloc)
    }
}
