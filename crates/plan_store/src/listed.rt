//! The items of a listing, on their way to a sink.
ghost use Rattle.std.specs.Prelude.{◌≡◌, ◌≢◌, ◌↔◌, ◌++◌, ℕ, Contains, IfOk, IfErr, OnOk, OnErr, length, map};
ghost use Rattle.std.specs.Prelude.{List, Option, Some, option_copied, option_map};
ghost use Rattle.external_dependencies.specs.Arrival.{arrival_cmp};
ghost use Rattle.external_dependencies.specs.Nearest.{arrival_of};
ghost use Rattle.plan_store_lists.specs.Keyed.{IsKeyed};
ghost use Rattle.plan_store_lists.specs.Rows.{AreRows, of_deletion, of_row};
ghost use Rattle.planner_machine.specs.Content.{Content as Known, Sets};
ghost use Rattle.planner_machine.specs.Shown.{IsOfApp};
ghost use Rattle.planner_machine.specs.Sound.{AreNumbered};
ghost use Rattle.plan_store.specs.AppDeletions.{AreDeletionsOf};
ghost use Rattle.plan_store.specs.Contents.{content_of};
ghost use Rattle.plan_store.specs.Listed.{AreBySerial, SortsRows, EndsWithin, ShowsSet, link_at};
ghost use Rattle.plan_store.specs.Listed.{linked_rows, links_at, row_at, shown_as};
ghost use Rattle.plan_store.specs.Listings.{EmitsAll, EmitsPart, IsListing, Shown, AcceptsAll, in_force_shown, link_shown};
ghost use Rattle.plan_store.specs.Parts.{ListsAll, Rest, with_rest};
ghost use Rattle.plan_store.specs.declared.listings.What.{What as Showable};

use crate::contents::Content;
use crate::listings::{Item, ListFault, RowSink, SinkFault, What};
use external_dependencies::{Link, Pair};
use occurrences::{CurrentRow, Deletion, Row, Serial, Status};
use plan_store_lists::{LinkBlocks, PlanRow, RowBlocks};
use std::alloc::{AllocError, Global};
use work_calendars::App;

// A row of a set whose list shows letters.
trait Lettered: PlanRow {
    ghost letter_of: { Self → ℕ };

    fn letter(&self) -> u8
        ensures { result ≡ letter_of self.now };

    fn occurrence(&self) -> &Row
        ensures { result.now ≡ Self.row_of self.now };
}

ghost use Rattle.occurrences.specs.Place.{reason_letter};
ghost use Rattle.occurrences.specs.Status.{status_letter};
ghost use Rattle.occurrences.specs.declared.status.Status.TheVariants.{C};

impl Lettered for Row {
    ghost letter_of = { λ _. status_letter C };

    fn letter(&self) -> u8 {
        Status::C.letter()
    }

    fn occurrence(&self) -> &Row {
        self
    }
}

impl Lettered for CurrentRow {
    ghost letter_of = { λ current. status_letter current.status };

    fn letter(&self) -> u8 {
        self.status.letter()
    }

    fn occurrence(&self) -> &Row {
        &self.row
    }
}

impl Lettered for Deletion {
    ghost letter_of = { λ deletion. reason_letter deletion.reason };

    fn letter(&self) -> u8 {
        self.reason.letter()
    }

    fn occurrence(&self) -> &Row {
        &self.row
    }
}

// Adds rows to those that are listed.
fn push_rows<'a, T: PlanRow>(found: &mut Vec<&'a T>, rows: &'a [T]) -> Result<(), AllocError>
    ensures { OnOk result (map (λ x. x.now) found.new.items
        ≡ map (λ x. x.now) found.old.items ++ rows.now) }
{
    for x in rows {
        found.push(x)?;
    }
    Ok(())
}

// The rows of one application, or all, in their order.
fn part_of<'a, T: PlanRow>(
    alloc: Global,
    list: &'a RowBlocks<T>,
    app: Option<&App>,
) -> Result<Vec<&'a T>, AllocError>
    ensures keyed { IfOk result (λ found. IsKeyed arrival_cmp (λ x. arrival_of (T.row_of x))
        (map (λ x. x.now) found.items)) }
    ensures all { IfOk result (λ found. (x : T) → Contains (map (λ y. y.now) found.items) x
        ↔ (Contains list.now.items x × IsOfApp (option_copied app.entry) (T.row_of x).key.app)) }
{
    let mut found = Vec::new(alloc);
    match app {
        Some(app) => {
            push_rows(&mut found, list.of_app(app))?;
            Ok(found)
        }
        None => {
            list.rise();
            push_blocks(&mut found, list)?;
            Ok(found)
        }
    }
}

// Adds all rows of a set, in their order.
fn push_blocks<'a, T: PlanRow>(
    found: &mut Vec<&'a T>,
    list: &'a RowBlocks<T>,
) -> Result<(), AllocError>
    ensures { OnOk result (map (λ x. x.now) found.new.items
        ≡ map (λ x. x.now) found.old.items ++ list.now.items) }
{
    let all = list.blocks();
    for block in all {
        push_rows(found, block.items())?;
    }
    Ok(())
}

// Passes the sink one row, with its letter or without one.
fn emit<T: Lettered, K: RowSink>(x: &T, is_plain: bool, sink: &mut K) -> Result<(), SinkFault>
    ensures taken { OnOk result
        (K.accepts sink.old (shown_as T.row_of T.letter_of is_plain x.now) sink.new) }
    ensures refused { OnErr result
        (K.refuses sink.old (shown_as T.row_of T.letter_of is_plain x.now) sink.new) }
{
    let row = x.row();
    if is_plain {
        sink.take(Item::Plan(&row))
    } else {
        sink.take(Item::Marked(&row, x.letter()))
    }
}

// Passes the sink the rows, in their order.
fn emit_each<T: Lettered, K: RowSink>(
    rows: &[&T],
    is_plain: bool,
    sink: &mut K,
) -> Result<usize, ListFault>
    ensures all { IfOk result (λ count. (count ≡ length rows.now) × AcceptsAll K.accepts sink.old
        (map (λ x. shown_as T.row_of T.letter_of is_plain x.now) rows.now) sink.new) }
    ensures part { IfErr result (λ fault. EndsWithin K.accepts K.refuses sink.old
        (map (λ x. shown_as T.row_of T.letter_of is_plain x.now) rows.now) sink.new fault) }
    ensures blames { IfErr result (λ fault. fault ≢ ListFault.Device) }
{
    for x in rows {
        match emit(*x, is_plain, sink) {
            Ok(()) => {}
            Err(fault) => return Err(ListFault::Sink(fault)),
        }
    }
    Ok(rows.len())
}

// Passes the sink the rows of a set, of one application or all, by input arrival, application and serial.
fn emit_rows<T: Lettered, K: RowSink>(
    alloc: Global,
    list: &RowBlocks<T>,
    app: Option<&App>,
    is_plain: bool,
    sink: &mut K,
) -> Result<usize, ListFault>
    ensures all { AreRows T.row_of list.now.items
        → IfOk result (EmitsAll K.accepts (ShowsSet T.row_of T.letter_of is_plain list.now.items
        (option_copied app.entry)) sink.old sink.new) }
    ensures part { AreRows T.row_of list.now.items
        → IfErr result (EmitsPart K.accepts K.refuses (ShowsSet T.row_of T.letter_of is_plain
        list.now.items
        (option_copied app.entry)) sink.old sink.new) }
    ensures blames { IfErr result (λ fault. fault ≢ ListFault.Device) }
{
    match part_of(alloc, list, app) {
        Ok(mut found) => {
            put_in_order(&mut found);
            emit_each(&found, is_plain, sink)
        }
        Err(_) => Err(ListFault::Memory),
    }
}

// Puts rows by input arrival, application and serial. They are sorted in place, so that no memory is needed.
fn put_in_order<T: PlanRow>(found: &mut Vec<&T>)
    ensures { SortsRows T.row_of (map (λ x. x.now) found.old.items)
        (map (λ x. x.now) found.new.items) }
{
    found.sort_unstable_by_key(|x| x.row());
}

// Adds the occurrences of a set.
fn push_occurrences<'a, T: Lettered>(
    all: &mut Vec<&'a Row>,
    rows: &'a [T],
) -> Result<(), AllocError>
    ensures { OnOk result (map (λ row. row.now) all.new.items
        ≡ map (λ row. row.now) all.old.items ++ map T.row_of rows.now) }
{
    for x in rows {
        all.push(x.occurrence())?;
    }
    Ok(())
}

// Adds the occurrences of all rows of a set.
fn push_set<'a, T: Lettered>(
    all: &mut Vec<&'a Row>,
    list: &'a RowBlocks<T>,
) -> Result<(), AllocError>
    ensures { OnOk result (map (λ row. row.now) all.new.items
        ≡ map (λ row. row.now) all.old.items ++ map T.row_of list.now.items) }
{
    let blocks = list.blocks();
    for block in blocks {
        push_occurrences(all, block.items())?;
    }
    Ok(())
}

// The occurrence of the serial, where these are sorted by serial.
fn with_number(all: &[&Row], serial: Serial) -> Option<Row>
    ensures { (s : Sets) → AreNumbered s → AreBySerial (λ row. row.now) s all.now
        → result ≡ row_at s serial }
{
    match all.binary_search_by_key(&serial.get(), |row| row.serial.get()) {
        Ok(at) => Some(*all[at]),
        Err(_at) => None,
    }
}

// The two rows of a pair, where its successor is of the application.
fn linked(all: &[&Row], pair: Pair, app: Option<&App>) -> Option<(Row, Row)>
    ensures { (s : Sets) → AreNumbered s → AreBySerial (λ row. row.now) s all.now
        → option_map linked_rows result ≡ link_at s (option_copied app.entry) pair }
{
    let successor = with_number(all, pair.successor)?;
    if let Some(app) = app
        && successor.key.app != *app
    {
        return None;
    }
    let predecessor = with_number(all, pair.predecessor)?;
    Some((successor, predecessor))
}

// Passes the sink the rows of these pairs, of one application or all.
fn emit_links<K: RowSink>(
    all: &[&Row],
    pairs: &[Pair],
    app: Option<&App>,
    sink: &mut K,
) -> Result<usize, ListFault>
    ensures all { (s : Sets) → AreNumbered s → AreBySerial (λ row. row.now) s all.now
        → IfOk result (λ count. (count ≡ length (links_at s (option_copied app.entry) pairs.now))
        × AcceptsAll K.accepts sink.old (map link_shown
        (links_at s (option_copied app.entry) pairs.now)) sink.new) }
    ensures part { (s : Sets) → AreNumbered s → AreBySerial (λ row. row.now) s all.now
        → IfErr result (λ fault. EndsWithin K.accepts K.refuses sink.old
        (map link_shown (links_at s (option_copied app.entry) pairs.now)) sink.new fault) }
    ensures blames { IfErr result (λ fault. fault ≢ ListFault.Device) }
{
    let mut count = 0;
    for pair in pairs {
        match linked(all, *pair, app) {
            Some(link) => match sink.take(Item::Pair(&link.0, &link.1)) {
                Ok(()) => count += 1,
                Err(fault) => return Err(ListFault::Sink(fault)),
            },
            None => {}
        }
    }
    Ok(count)
}

// Passes the sink the entries of lists, in their order, each with its limit.
fn emit_lists<K: RowSink>(links: &[Link], sink: &mut K) -> Result<usize, ListFault>
    ensures all { IfOk result (λ count. (count ≡ length links.now)
        × AcceptsAll K.accepts sink.old (map in_force_shown links.now) sink.new) }
    ensures part { IfErr result (λ fault. EndsWithin K.accepts K.refuses sink.old
        (map in_force_shown links.now) sink.new fault) }
    ensures blames { IfErr result (λ fault. fault ≢ ListFault.Device) }
{
    for link in links {
        match sink.take(Item::Link(link)) {
            Ok(()) => {}
            Err(fault) => return Err(ListFault::Sink(fault)),
        }
    }
    Ok(links.len())
}

// Passes the sink the entries of all lists, block after block.
fn emit_all_lists<K: RowSink>(lists: &LinkBlocks, sink: &mut K) -> Result<usize, ListFault>
    ensures all { IfOk result (λ count. (count ≡ length lists.now.items)
        × AcceptsAll K.accepts sink.old (map in_force_shown lists.now.items) sink.new) }
    ensures part { IfErr result (λ fault. EndsWithin K.accepts K.refuses sink.old
        (map in_force_shown lists.now.items) sink.new fault) }
    ensures blames { IfErr result (λ fault. fault ≢ ListFault.Device) }
{
    let mut count: usize = 0;
    let all = lists.blocks();
    for block in all {
        let list = block.items();
        // more than can be counted are in no memory
        let Some(sum) = count.checked_add(list.len()) else {
            return Err(ListFault::Memory);
        };
        emit_lists(list, sink)?;
        count = sum;
    }
    Ok(count)
}

/// Passes the sink deletions in their order, wherever they are stored. If they are all of one application, that is its
/// listing.
pub fn deletions_to<K: RowSink>(
    alloc: Global,
    deletions: &[Deletion],
    sink: &mut K,
) -> Result<usize, ListFault>
    ensures all { (c : Known) (app : List ℕ) → AreNumbered c.sets
        → AreDeletionsOf app c.sets.deletions deletions.now
        → IfOk result (EmitsAll K.accepts (IsListing Showable.Deletions (Some app) c)
        sink.old sink.new) }
    ensures part { (c : Known) (app : List ℕ) → AreNumbered c.sets
        → AreDeletionsOf app c.sets.deletions deletions.now
        → IfErr result (EmitsPart K.accepts K.refuses (IsListing Showable.Deletions (Some app) c)
        sink.old sink.new) }
    ensures blames { IfErr result (λ fault. fault ≢ ListFault.Device) }
{
    let mut found = Vec::new(alloc);
    match push_rows(&mut found, deletions) {
        Ok(()) => emit_each(&found, false, sink),
        Err(_) => Err(ListFault::Memory),
    }
}

impl Content {
    // These rows and the occurrences of both plans, by serial.
    fn by_serial<'a>(
        &'a self,
        alloc: Global,
        history: &'a [Row],
        deletions: &'a [Deletion],
    ) -> Result<Vec<&'a Row>, AllocError>
        ensures { (rest : Rest) → AreNumbered (with_rest rest (content_of self.now)).sets
            → ListsAll of_row history.now rest.history
            → ListsAll of_deletion deletions.now rest.deletions
            → IfOk result (λ all. AreBySerial (λ row. row.now)
            (with_rest rest (content_of self.now)).sets all.items) }
    {
        let mut all = Vec::new(alloc);
        push_set(&mut all, &self.ltp)?;
        push_set(&mut all, &self.cp)?;
        push_occurrences(&mut all, history)?;
        push_occurrences(&mut all, deletions)?;
        all.sort_unstable_by_key(|row| row.serial.get());
        Ok(all)
    }

    /// Passes the sink the long-term plan, as `rows_to` does, wherever history and deletions are stored.
    pub fn ltp_to<K: RowSink>(
        &self,
        alloc: Global,
        app: Option<&App>,
        sink: &mut K,
    ) -> Result<usize, ListFault>
        ensures all { (rest : Rest) → AreNumbered (with_rest rest (content_of self.now)).sets
            → IfOk result (EmitsAll K.accepts (IsListing Showable.Ltp (option_copied app.entry)
            (with_rest rest (content_of self.now))) sink.old sink.new) }
        ensures part { (rest : Rest) → AreNumbered (with_rest rest (content_of self.now)).sets
            → IfErr result (EmitsPart K.accepts K.refuses (IsListing Showable.Ltp
            (option_copied app.entry) (with_rest rest (content_of self.now)))
            sink.old sink.new) }
        ensures blames { IfErr result (λ fault. fault ≢ ListFault.Device) }
    {
        emit_rows(alloc, &self.ltp, app, true, sink)
    }

    /// Passes the sink the current plan, as `rows_to` does, wherever history and deletions are stored.
    pub fn cp_to<K: RowSink>(
        &self,
        alloc: Global,
        app: Option<&App>,
        sink: &mut K,
    ) -> Result<usize, ListFault>
        ensures all { (rest : Rest) → AreNumbered (with_rest rest (content_of self.now)).sets
            → IfOk result (EmitsAll K.accepts (IsListing Showable.Cp (option_copied app.entry)
            (with_rest rest (content_of self.now))) sink.old sink.new) }
        ensures part { (rest : Rest) → AreNumbered (with_rest rest (content_of self.now)).sets
            → IfErr result (EmitsPart K.accepts K.refuses (IsListing Showable.Cp
            (option_copied app.entry) (with_rest rest (content_of self.now)))
            sink.old sink.new) }
        ensures blames { IfErr result (λ fault. fault ≢ ListFault.Device) }
    {
        emit_rows(alloc, &self.cp, app, false, sink)
    }

    /// Passes the sink the pairs, as `rows_to` does, where these rows, in any order, are all of history and all
    /// deletions, wherever those are stored. The occurrences are sorted by serial once.
    pub fn pairs_to<K: RowSink>(
        &self,
        alloc: Global,
        history: &[Row],
        deletions: &[Deletion],
        app: Option<&App>,
        sink: &mut K,
    ) -> Result<usize, ListFault>
        ensures all { (rest : Rest) → AreNumbered (with_rest rest (content_of self.now)).sets
            → ListsAll of_row history.now rest.history
            → ListsAll of_deletion deletions.now rest.deletions
            → IfOk result (EmitsAll K.accepts (IsListing Showable.Dependencies
            (option_copied app.entry) (with_rest rest (content_of self.now)))
            sink.old sink.new) }
        ensures part { (rest : Rest) → AreNumbered (with_rest rest (content_of self.now)).sets
            → ListsAll of_row history.now rest.history
            → ListsAll of_deletion deletions.now rest.deletions
            → IfErr result (EmitsPart K.accepts K.refuses (IsListing Showable.Dependencies
            (option_copied app.entry) (with_rest rest (content_of self.now)))
            sink.old sink.new) }
        ensures blames { IfErr result (λ fault. fault ≢ ListFault.Device) }
    {
        self.pairs.rise();
        let Ok(pairs) = self.pairs.to_vec(alloc) else {
            return Err(ListFault::Memory);
        };
        match self.by_serial(alloc, history, deletions) {
            Ok(all) => emit_links(&all, &pairs, app, sink),
            Err(_) => Err(ListFault::Memory),
        }
    }

    /// Passes the sink the lists in force, as `rows_to` does, wherever history and deletions are stored.
    pub fn links_to<K: RowSink>(&self, app: Option<&App>, sink: &mut K) -> Result<usize, ListFault>
        ensures all { (rest : Rest) → AreNumbered (with_rest rest (content_of self.now)).sets
            → IfOk result (EmitsAll K.accepts (IsListing Showable.Links (option_copied app.entry)
            (with_rest rest (content_of self.now))) sink.old sink.new) }
        ensures part { (rest : Rest) → AreNumbered (with_rest rest (content_of self.now)).sets
            → IfErr result (EmitsPart K.accepts K.refuses (IsListing Showable.Links
            (option_copied app.entry) (with_rest rest (content_of self.now)))
            sink.old sink.new) }
        ensures blames { IfErr result (λ fault. fault ≢ ListFault.Device) }
    {
        match app {
            Some(app) => emit_lists(self.in_force.list(app), sink),
            None => {
                self.in_force.rise();
                emit_all_lists(&self.in_force, sink)
            }
        }
    }

    /// Passes the sink what a listing shows, in its order, of one application or of all, and returns how many items
    /// the sink accepted. A fault leaves the sink with those before it; the device never causes one.
    pub fn rows_to<K: RowSink>(
        &self,
        alloc: Global,
        what: What,
        app: Option<&App>,
        sink: &mut K,
    ) -> Result<usize, ListFault>
        ensures all { AreNumbered (content_of self.now).sets
            → IfOk result (EmitsAll K.accepts (IsListing what (option_copied app.entry)
            (content_of self.now)) sink.old sink.new) }
        ensures part { AreNumbered (content_of self.now).sets
            → IfErr result (EmitsPart K.accepts K.refuses (IsListing what (option_copied app.entry)
            (content_of self.now)) sink.old sink.new) }
        ensures blames { IfErr result (λ fault. fault ≢ ListFault.Device) }
    {
        match what {
            What::Ltp => self.ltp_to(alloc, app, sink),
            What::Cp => self.cp_to(alloc, app, sink),
            What::History => emit_rows(alloc, &self.history, app, false, sink),
            What::Deletions => emit_rows(alloc, &self.deletions, app, false, sink),
            What::Dependencies => self.listed_pairs_to(alloc, app, sink),
            What::Links => self.links_to(app, sink),
        }
    }

    /// Each listing has its items, even if it isn't passed to a sink.
    pub fn has_listings(&self)
        ensures { AreNumbered (content_of self.now).sets
            → (what : Showable) (app : Option (List ℕ))
            → (items : List Shown) × IsListing what app (content_of self.now) items }
    {
        self.has_listings_with();
    }

    /// Each listing has its items, wherever history and the deletions are stored.
    pub fn has_listings_with(&self)
        ensures { (rest : Rest) → AreNumbered (with_rest rest (content_of self.now)).sets
            → (what : Showable) (app : Option (List ℕ)) → (items : List Shown)
            × IsListing what app (with_rest rest (content_of self.now)) items }
    {
        self.pairs.rise();
        self.in_force.rise();
    }
}
