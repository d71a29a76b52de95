//! The pairs of one application, found from its rows, each with both its rows, looked up by serial.
ghost use Rattle.std.specs.Prelude.{◌≡◌, ◌≢◌, Some, IfOk, IfErr, OnOk, length, map, option_copied, option_map};
ghost use Rattle.plan_store_lists.specs.Rows.{AreRows, look_up};
ghost use Rattle.plan_store_lists.specs.Seats.{HasSeats};
ghost use Rattle.planner_machine.specs.Sound.{AreNumbered};
ghost use Rattle.plan_store.specs.AppPairs.{AddsPairs, AreBySerials, AreLacking, AreUnknownEnds, HasAppPairs, HasEnds};
ghost use Rattle.plan_store.specs.AppPairs.{lacks_end, with_others};
ghost use Rattle.plan_store.specs.Contents.{content_of};
ghost use Rattle.plan_store.specs.Listed.{EndsWithin, link_at, linked_rows, links_at, row_at};
ghost use Rattle.plan_store.specs.Listings.{EmitsAll, EmitsPart, IsListing, AcceptsAll, link_shown};
ghost use Rattle.plan_store.specs.Parts.{Rest, with_rest};
ghost use Rattle.plan_store.specs.Views.{row_serial};
ghost use Rattle.plan_store.specs.declared.listings.What.{What as Showable};

use crate::contents::Content;
use crate::listings::{Item, ListFault, RowSink};
use crate::slices::of_serial;
use external_dependencies::{Pair, Pairs};
use occurrences::{Deletion, Row, Serial};
use plan_store_lists::{PairBlocks, PlanRow, RowBlocks, SeatBlocks};
use std::alloc::{AllocError, Global};
use work_calendars::App;

// What the list has under the serial.
fn row_in<T: PlanRow>(list: &RowBlocks<T>, seats: &SeatBlocks, serial: Serial) -> Option<T>
    requires rows { AreRows T.row_of list.now.items }
    requires seated { HasSeats T.row_of list.now.items seats.now }
    ensures { result ≡ look_up (λ x. (T.row_of x).serial) list.now.items serial }
{
    of_serial(list, seats, serial)
}

// Which of the rows, which are sorted by serial, has the serial.
fn row_among(rows: &[Row], serial: Serial) -> Option<Row>
    ensures { AreBySerials rows.now → result ≡ look_up row_serial rows.now serial }
{
    match rows.binary_search_by_key(&serial.get(), |row| row.serial.get()) {
        Ok(at) => Some(rows[at]),
        Err(_at) => None,
    }
}

// Adds the pairs of each of the rows that is of the application.
fn push_pairs<T: PlanRow>(
    found: &mut Vec<Pair>,
    pairs: &PairBlocks,
    rows: &[T],
    app: &App,
) -> Result<(), AllocError>
    ensures { OnOk result (AddsPairs T.row_of app.now pairs.now rows.now
        found.old.items found.new.items) }
{
    for x in rows {
        let row = x.row();
        if row.key.app == *app {
            found.extend_from_slice(pairs.of_successor(row.serial))?;
        }
    }
    Ok(())
}

impl Content {
    // The row of the serial in the lists, or in history among the others.
    fn known_row(&self, others: &[Row], serial: Serial) -> Option<Row>
        ensures { AreBySerials others.now
            → result ≡ row_at (with_others others.now (content_of self.now).sets) serial }
    {
        if let Some(row) = row_in(&self.ltp, &self.seats, serial) {
            return Some(row);
        }
        if let Some(current) = row_in(&self.cp, &self.seats, serial) {
            return Some(current.row);
        }
        if let Some(row) = row_in(&self.history, &self.seats, serial) {
            return Some(row);
        }
        if let Some(row) = row_among(others, serial) {
            return Some(row);
        }
        match row_in(&self.deletions, &self.seats, serial) {
            Some(deletion) => Some(deletion.row),
            None => None,
        }
    }

    // The two rows of a pair, where its successor is of the application.
    fn known_link(&self, others: &[Row], pair: Pair, app: &App) -> Option<(Row, Row)>
        ensures { AreBySerials others.now → option_map linked_rows result
            ≡ link_at (with_others others.now (content_of self.now).sets) (Some app.now) pair }
    {
        let successor = self.known_row(others, pair.successor)?;
        if successor.key.app != *app {
            return None;
        }
        let predecessor = self.known_row(others, pair.predecessor)?;
        Some((successor, predecessor))
    }

    // The pairs of the application's rows in the lists and among the others.
    fn app_pairs(&self, alloc: Global, others: &[Row], app: &App) -> Result<Pairs, AllocError>
        ensures { IfOk result (λ found. HasAppPairs app.now
            (with_others others.now (content_of self.now).sets) self.now.pairs found) }
    {
        let mut found = Vec::new(alloc);
        push_pairs(&mut found, &self.pairs, self.ltp.of_app(app), app)?;
        push_pairs(&mut found, &self.pairs, self.cp.of_app(app), app)?;
        push_pairs(&mut found, &self.pairs, self.history.of_app(app), app)?;
        push_pairs(&mut found, &self.pairs, self.deletions.of_app(app), app)?;
        push_pairs(&mut found, &self.pairs, others, app)?;
        Ok(Pairs::from_vec(found))
    }

    // Hands the sink the rows of these pairs, where their successors are of the application.
    fn hand_known<K: RowSink>(
        &self,
        others: &[Row],
        pairs: &[Pair],
        app: &App,
        sink: &mut K,
    ) -> Result<usize, ListFault>
        ensures all { AreBySerials others.now → IfOk result (λ count.
            (count ≡ length (links_at (with_others others.now (content_of self.now).sets)
            (Some app.now) pairs.now)) × AcceptsAll K.accepts sink.old
            (map link_shown (links_at (with_others others.now (content_of self.now).sets)
            (Some app.now) pairs.now)) sink.new) }
        ensures part { AreBySerials others.now → IfErr result (λ fault.
            EndsWithin K.accepts K.refuses sink.old
            (map link_shown (links_at (with_others others.now (content_of self.now).sets)
            (Some app.now) pairs.now)) sink.new fault) }
        ensures blames { IfErr result (λ fault. fault ≢ ListFault.Device) }
    {
        let mut count = 0;
        for pair in pairs {
            match self.known_link(others, *pair, app) {
                Some(link) => match sink.take(Item::Pair(&link.0, &link.1)) {
                    Ok(()) => count += 1,
                    Err(fault) => return Err(ListFault::Sink(fault)),
                },
                None => {}
            }
        }
        Ok(count)
    }

    /// Hands the sink the pairs of one application, as `rows_to` does, where history and the deletions may stand
    /// elsewhere: these other rows are of history, in the order of their serials, and the lists and they have the
    /// application's rows and the predecessors of those.
    pub fn app_pairs_to<K: RowSink>(
        &self,
        alloc: Global,
        others: &[Row],
        app: &App,
        sink: &mut K,
    ) -> Result<usize, ListFault>
        ensures all { (rest : Rest) → AreNumbered (with_rest rest (content_of self.now)).sets
            → HasEnds app.now rest others.now (content_of self.now)
            → IfOk result (EmitsAll K.accepts (IsListing Showable.Dependencies (Some app.now)
            (with_rest rest (content_of self.now))) sink.old sink.new) }
        ensures part { (rest : Rest) → AreNumbered (with_rest rest (content_of self.now)).sets
            → HasEnds app.now rest others.now (content_of self.now)
            → IfErr result (EmitsPart K.accepts K.refuses (IsListing Showable.Dependencies
            (Some app.now) (with_rest rest (content_of self.now))) sink.old sink.new) }
        ensures blames { IfErr result (λ fault. fault ≢ ListFault.Device) }
    {
        self.pairs.rise();
        match self.app_pairs(alloc, others, app) {
            Ok(found) => self.hand_known(others, found.as_slice(), app, sink),
            Err(_) => Err(ListFault::Memory),
        }
    }

    // The rows of history and the deletions that the lists have, as lists of their own.
    fn own_rest(&self, alloc: Global) -> Result<(Vec<Row>, Vec<Deletion>), AllocError>
        ensures history { IfOk result (λ rest. rest.0.items ≡ self.now.history.items) }
        ensures deletions { IfOk result (λ rest. rest.1.items ≡ self.now.deletions.items) }
    {
        let history = self.history.to_vec(alloc)?;
        let deletions = self.deletions.to_vec(alloc)?;
        Ok((history, deletions))
    }

    /// Hands the sink the pairs, as `rows_to` does, where the lists have all of history and all deletions.
    pub(crate) fn listed_pairs_to<K: RowSink>(
        &self,
        alloc: Global,
        app: Option<&App>,
        sink: &mut K,
    ) -> Result<usize, ListFault>
        ensures all { AreNumbered (content_of self.now).sets
            → IfOk result (EmitsAll K.accepts (IsListing Showable.Dependencies
            (option_copied app.entry) (content_of self.now)) sink.old sink.new) }
        ensures part { AreNumbered (content_of self.now).sets
            → IfErr result (EmitsPart K.accepts K.refuses (IsListing Showable.Dependencies
            (option_copied app.entry) (content_of self.now)) sink.old sink.new) }
        ensures blames { IfErr result (λ fault. fault ≢ ListFault.Device) }
    {
        match app {
            Some(app) => self.app_pairs_to(alloc, &[], app, sink),
            None => {
                self.pairs.rise();
                match self.own_rest(alloc) {
                    Ok(rest) => self.pairs_to(alloc, &rest.0, &rest.1, None, sink),
                    Err(_) => Err(ListFault::Memory),
                }
            }
        }
    }

    // Whether the pair's successor is of the application, and neither the lists nor the others have its predecessor.
    fn lacks_end(&self, others: &[Row], pair: Pair, app: &App) -> bool
        ensures { AreBySerials others.now → result ≡ lacks_end app.now
            (row_at (with_others others.now (content_of self.now).sets) pair.successor)
            (row_at (with_others others.now (content_of self.now).sets) pair.predecessor) }
    {
        let Some(successor) = self.known_row(others, pair.successor) else {
            return false;
        };
        if successor.key.app != *app {
            return false;
        }
        match self.known_row(others, pair.predecessor) {
            Some(_row) => false,
            None => true,
        }
    }

    // The predecessors of these pairs that are lacking.
    fn lacking_ends(
        &self,
        alloc: Global,
        others: &[Row],
        pairs: &[Pair],
        app: &App,
    ) -> Result<Vec<Serial>, AllocError>
        ensures { AreBySerials others.now → IfOk result (λ serials. AreLacking app.now
            (with_others others.now (content_of self.now).sets) pairs.now serials.items) }
    {
        let mut serials = Vec::new(alloc);
        for pair in pairs {
            if self.lacks_end(others, *pair, app) {
                serials.push(pair.predecessor)?;
            }
        }
        Ok(serials)
    }

    /// The predecessors of the application's rows in the lists and among the others, of which neither those nor these
    /// have the row: each of them, in the order of their serials. The others are of history, in that order too.
    pub fn unknown_ends(
        &self,
        alloc: Global,
        others: &[Row],
        app: &App,
    ) -> Result<Vec<Serial>, AllocError>
        ensures { AreBySerials others.now → IfOk result (λ serials.
            AreUnknownEnds app.now others.now (content_of self.now) serials.items) }
    {
        let found = self.app_pairs(alloc, others, app)?;
        let mut serials = self.lacking_ends(alloc, others, found.as_slice(), app)?;
        serials.sort_unstable();
        Ok(serials)
    }
}
