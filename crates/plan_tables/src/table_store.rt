// A store over a database.

ghost use Rattle.std.specs.Prelude.{◌≡◌, ◌≢◌, ◌⊎◌, ◌↔◌, ◌<◌, ◌≤◌, false, ◌^◌, Ok, Err, OnOk, IfOk, IfErr, IfSome, IsSome, IsTrue, Some};
ghost use Rattle.std.specs.Prelude.{option_copied};
ghost use Rattle.sqlite.specs.State.{HasCleanDisk};
ghost use Rattle.sqlite.specs.Held.{state};
ghost use Rattle.sqlite.specs.declared.error.Error.TheVariants.{SqliteFailure};
ghost use Rattle.sqlite.specs.declared.error.ErrorCode.TheVariants.{OutOfMemory};
ghost use Rattle.planner_machine.specs.Sound.{IsSound};
ghost use Rattle.planner_machine.specs.declared.job.Job.{Job as JobValue};
ghost use Rattle.plan_store.specs.AppDeletions.{AreDeletionsOf};
ghost use Rattle.plan_store.specs.Changes.{Fits, after};
ghost use Rattle.plan_store.specs.Contents.{content_of};
ghost use Rattle.plan_store.specs.Faults.{MoreFailures};
ghost use Rattle.plan_store.specs.Parts.{IsPartOf};
ghost use Rattle.plan_store.specs.Room.{no_jobs};
ghost use Rattle.plan_tables_windows.specs.Changes.{KnowsNamed};
ghost use Rattle.plan_store.specs.declared.listings.What.TheVariants as Showable;
ghost use Rattle.plan_store.specs.declared.stores.StoreFault.TheVariants.{Device, Memory};
ghost use Rattle.plan_tables_content.specs.Content.{answer_text};
ghost use Rattle.plan_tables_schema.specs.Rows.{tables_of};
ghost use Rattle.plan_tables_schema.specs.Schema.{HasOnlyKeyIndexes, HasTables};
ghost use Rattle.plan_tables_windows.specs.Fetching.{told_rest};
ghost use Rattle.plan_tables_opening.specs.Opened.{IsStored};
ghost use Rattle.plan_tables.specs.Applied.{AppliesBy, ListsBy, ReadsBy};
ghost use Rattle.plan_tables.specs.Causes.{CanAccept, HasFailed};
ghost use Rattle.plan_tables.specs.Kept.{CanRead, KeepsSound, NotesIn};
ghost use Rattle.plan_tables.specs.Listing.{what_of};
ghost use Rattle.plan_tables.specs.Session.{IsWhole, Keeps};
ghost use Rattle.plan_tables.specs.Stored.{LeavesSound, MayLeave};
ghost use Rattle.plan_tables.specs.Accepted.{HasRoomFor, KeepsSchema};
ghost use Rattle.plan_tables.specs.Representable.{BringMoves};

use crate::answers::{added_rise, change_is_representable};
use crate::gone::{arrivals_of, deletions_kept, note_gone, noted_of};
use crate::keeping::{Unmade, change_both};
use crate::listing::{ListedTable, list_kept, listing_fault};
use crate::looking::job_kept;
use crate::prepared::{Prepared, can_number, prepare};
use crate::seeking::{Sought, cut_lists, loaded_rows, seek};
use crate::session::Session;
use app_definitions::Definitions;
use external_dependencies::Links;
use occurrences::Deletion;
use plan_store::{
    Change, Content, ListFault, Need, PlanStore, RowSink, SinkFault, StoreFault, View, What,
    deletions_to,
};
use plan_store_lists::ArrivalBlocks;
use plan_tables_constraints::fitting_changes_are_accepted;
use plan_tables_content::{tables_have_one_content, tables_represent_sets};
use plan_tables_lookups::Stopped;
use plan_tables_opening::has_only_key_indexes;
use planner_machine::{Bounds, Job};
use sqlite::{Alter, Connection, Error};
use std::alloc::Global;
use work_calendars::App;

// So many rows of a table are read in the time of one look-up.
const ROWS_A_LOOK_UP: usize = 64;

/// What a planner knows, in the tables of a database. Lists in memory hold the plans, their pairs and the definitions,
/// and serve all reads of these. Of history and of the deletions they have what was fetched from the tables; a job is
/// fetched each time. The deletions of an application are found by their arrivals, which are noted. After a failure it
/// returns that the device failed.
#[derive(Drop)]
pub struct TableStore<S: Alter> {
    // the connection, its failures, and whether it is known to be open
    session: Session<S>,
    // the plans, their pairs and the definitions, and of history and of the deletions what was loaded
    lists: Content,
    // how many rows of history and of the deletions the lists had when they were cut last
    kept: usize,
    // the arrivals of the deletions, and perhaps of others; `None` once memory was refused for them
    gone: Option<ArrivalBlocks>,
    // how many deletions there are, or a few more
    gone_count: usize,
    // the job that was fetched last, which is lent
    found: Option<Job>,
    ghost jobless: { (content_of lists).jobs ≡ no_jobs },
    ghost stored: { Keeps S.Store session (content_of lists) },
    ghost told: { ∥ (HasCleanDisk (state S.Store session.conn)
        → LeavesSound (state S.Store session.conn)) ∥₁ },
    ghost noted: { NotesIn (state S.Store session.conn) gone },
    ghost sound: { KeepsSound (state S.Store session.conn) (content_of lists) },
}

impl<S: Alter + Drop> TableStore<S> {
    ghost use Rattle.plan_tables.specs.Stores.{Commits, MakesReady, kept_by, state_of};

    /// Whether the tables have no indexes but those of their keys: one that someone made beside may refuse a row. Its
    /// only error is want of memory.
    pub fn has_only_key_indexes(&self, alloc: Global) -> Result<bool, Error>
        ensures own { IfOk result (λ own. HasTables (state_of self.now).now.schema
            → (IsTrue own ↔ HasOnlyKeyIndexes (state_of self.now).now.schema)) }
        ensures refused { IfErr result (λ error. error ≡ SqliteFailure OutOfMemory) }
    {
        has_only_key_indexes(alloc, &self.session.conn)
    }

    /// The connection, given back.
    pub fn into_connection(self) -> Connection<S>
        ensures { result ≡ self.session.conn }
    {
        let TableStore { session, .. } = self;
        let Session { conn, .. } = session;
        conn
    }

    // A store over a database that has the content of the lists. It keeps the plans of these lists, and of the rest
    // what its statements read.
    pub(crate) fn over(alloc: Global, conn: Connection<S>, lists: Content) -> TableStore<S>
        requires mode { conn.in_transaction ≡ false }
        requires opened { HasCleanDisk (state S.Store conn)
            → IsStored (state S.Store conn) (content_of lists) }
        requires sound { IsSound (content_of lists) }
        ensures conn { result.session.conn ≡ conn }
        ensures kept { HasCleanDisk (state_of result)
            → kept_by result ≡ content_of lists }
        ensures part { HasCleanDisk (state_of result)
            → IsPartOf (told_rest (tables_of (state_of result).now.trees))
            (content_of result.lists) }
        ensures whole { result.session.failures ≡ 0 }
        ensures sure { result.session.in_doubt ≡ false }
    {
        tables_represent_sets();
        // its clause says that an open connection has a database
        let _ = conn.schema();
        let mut lists = lists;
        let gone = arrivals_of(alloc, &lists.deletions);
        let gone_count = lists.deletions.len();
        let _ = lists.keep_part(alloc);
        let kept = loaded_rows(&lists);
        TableStore {
            session: Session {
                conn,
                failures: 0,
                in_doubt: false,
            },
            lists,
            kept,
            gone,
            gone_count,
            found: None,
        }
    }

    // Fetches the job that is kept under the number, which can then be lent.
    fn look_up(&mut self, alloc: Global, number: u64) -> Result<(), StoreFault>
        ensures { ReadsBy ⟦<TableStore<S> as PlanStore>⟧ self.old self.new result
            (λ _. self.new.found ≡ (kept_by self.old).jobs number) }
    {
        self.session.check()?;
        match job_kept(alloc, &mut self.session.conn, number) {
            Ok(found) => {
                self.found = found;
                Ok(())
            }
            Err(why) => Err(self.session.blame(why)),
        }
    }

    // Fetches what is sought, and loads it into the lists. Lists that loaded much are cut first.
    fn make_ready(&mut self, alloc: Global, sought: Sought<'_>) -> Result<(), StoreFault>
        ensures { MakesReady ⟦<TableStore<S> as PlanStore>⟧ self.old self.new sought.entry result }
    {
        self.session.check()?;
        cut_lists(alloc, &mut self.lists, &mut self.kept);
        match seek(alloc, &mut self.session.conn, &mut self.lists, sought) {
            Ok(()) => Ok(()),
            Err(why) => Err(self.session.blame(why)),
        }
    }

    // Passes the sink a listing that queries the tables, if nothing failed.
    fn list_asked<K: RowSink>(
        &mut self,
        alloc: Global,
        asked: ListedTable,
        app: Option<&App>,
        sink: &mut K,
    ) -> Result<usize, ListFault>
        requires { self.old.session.failures ≡ 0 }
        ensures { ListsBy ⟦<TableStore<S> as PlanStore>⟧ self.old self.new K.accepts K.refuses
            sink.old sink.new (what_of asked) (option_copied app.entry) result }
    {
        self.lists.has_listings_with();
        match self.session.check() {
            Ok(()) => {}
            Err(fault) => return Err(listing_fault(fault)),
        }
        match list_kept(alloc, &mut self.session.conn, &self.lists, asked, app, sink) {
            Ok(count) => Ok(count),
            Err(Stopped::Sink) => Err(ListFault::Sink(SinkFault)),
            Err(Stopped::Fault(why)) => Err(listing_fault(self.session.blame(why))),
        }
    }

    // Fetches the deletions of an application, those of the arrivals that are noted.
    fn find_gone(&mut self, alloc: Global, app: &App) -> Result<Vec<Deletion>, StoreFault>
        ensures reads { ReadsBy ⟦<TableStore<S> as PlanStore>⟧ self.old self.new result
            (λ found. IfSome self.old.gone (λ _. AreDeletionsOf app.now
            (kept_by self.old).sets.deletions found.items)) }
        ensures whole { OnOk result (IsWhole self.new.session) }
    {
        self.session.check()?;
        let arrivals = noted_of(&self.gone, app);
        match deletions_kept(alloc, &mut self.session.conn, arrivals) {
            Ok(found) => Ok(found),
            Err(why) => Err(self.session.blame(why)),
        }
    }

    // Whether arrivals are noted, and so few of the application that looking its deletions up one by one takes less time
    // than reading the table.
    fn knows_few(&self, app: &App) -> bool
        ensures { IsTrue result → IsSome self.now.gone }
    {
        match &self.gone {
            Some(noted) => noted.of_app(app).len() <= self.gone_count / ROWS_A_LOOK_UP,
            None => false,
        }
    }

    // Passes the sink the deletions of an application, if nothing failed.
    fn list_gone<K: RowSink>(
        &mut self,
        alloc: Global,
        app: &App,
        sink: &mut K,
    ) -> Result<usize, ListFault>
        requires { self.old.session.failures ≡ 0 }
        ensures { ListsBy ⟦<TableStore<S> as PlanStore>⟧ self.old self.new K.accepts K.refuses
            sink.old sink.new Showable.Deletions (Some app.now) result }
    {
        self.lists.has_listings_with();
        if !self.knows_few(app) {
            return self.list_asked(alloc, ListedTable::Deletions, Some(app), sink);
        }
        match self.find_gone(alloc, app) {
            Ok(found) => deletions_to(alloc, found.as_slice(), sink),
            Err(fault) => Err(listing_fault(fault)),
        }
    }

    // Passes the sink the deletions of one application or of all, if nothing failed.
    fn list_deletions<K: RowSink>(
        &mut self,
        alloc: Global,
        app: Option<&App>,
        sink: &mut K,
    ) -> Result<usize, ListFault>
        requires { self.old.session.failures ≡ 0 }
        ensures { ListsBy ⟦<TableStore<S> as PlanStore>⟧ self.old self.new K.accepts K.refuses
            sink.old sink.new Showable.Deletions (option_copied app.entry) result }
    {
        match app {
            Some(app) => self.list_gone(alloc, app, sink),
            None => self.list_asked(alloc, ListedTable::Deletions, None, sink),
        }
    }

    // What is made of a change before it is written. None if the store failed before, or if memory is refused.
    fn prepared(&self, alloc: Global, change: &Change) -> Result<Prepared, StoreFault>
        ensures whole { OnOk result (self.now.session.failures ≡ 0) }
        ensures moves { IfOk result (λ made. BringMoves change.now.definitions made.moves) }
        ensures line { IfOk result (λ made. IfSome change.now.job
            (λ (job : JobValue). made.line.items ≡ answer_text job.reply)) }
        ensures blames { IfErr result (λ fault. fault ≡ Device → 0 < self.now.session.failures) }
        ensures broken { 0 < self.now.session.failures → result ≡ Err Device }
    {
        if self.session.failures > 0 {
            return Err(StoreFault::Device);
        }
        Ok(prepare(alloc, change)?)
    }

    // Whether the lists admit a change, and the number of its job can be stored.
    fn admits(&self, alloc: Global, change: &Change) -> Result<bool, StoreFault>
        ensures admits { IfOk result (λ is. IsTrue is ↔ (Fits change.now (content_of self.now.lists)
            × IfSome change.now.job (λ (job : JobValue). job.number < 2 ^ 63))) }
        ensures memory { IfErr result (λ fault. fault ≡ Memory) }
    {
        if !can_number(&change.job) {
            return Ok(false);
        }
        Ok(self.lists.admits(alloc, change)?)
    }

    // Goes on with a change that fits, as any does that was decided over what is kept here. One that doesn't was
    // decided over bytes that a disk gave back and that were not written, and counts as a failure. It takes no memory.
    fn admit(&mut self, change: &Change, is_fit: bool) -> Result<(), StoreFault>
        requires fit { IsTrue is_fit ↔ (Fits change.now (content_of self.old.lists)
            × IfSome change.now.job (λ (job : JobValue). job.number < 2 ^ 63)) }
        requires whole { IsWhole self.old.session }
        requires fits { CanRead (state_of self.old) → Fits change.now (kept_by self.old) }
        requires sound { CanRead (state_of self.old)
            → IsSound (after change.now (kept_by self.old)) }
        requires knows { CanRead (state_of self.old) → KnowsNamed
            (told_rest (tables_of (state_of self.old).now.trees)) change.now
            (content_of self.old.lists) }
        ensures fits { OnOk result (Fits change.now (content_of self.new.lists)) }
        ensures number { OnOk result (IfSome change.now.job
            (λ (job : JobValue). job.number < 2 ^ 63)) }
        ensures ok { OnOk result (self.new ≡ self.old) }
        ensures refused { IfErr result (λ fault. (fault ≡ Device) × (is_fit ≡ false)) }
        ensures conn { self.new.session.conn ≡ self.old.session.conn }
        ensures lists { self.new.lists ≡ self.old.lists }
        ensures blames { IfErr result (λ fault. fault ≡ Device
            → MoreFailures self.old.session.failures self.new.session.failures) }
        ensures counts { self.old.session.failures ≤ self.new.session.failures }
        ensures admits { HasCleanDisk (state_of self.old)
            → IfErr result (λ fault. fault ≢ Device) }
    {
        let _ = change;
        if is_fit {
            return Ok(());
        }
        Err(self.session.blame(Unmade::Device))
    }

    // Makes a change that is prepared in the tables and in the lists, all of it or nothing, also over a crash.
    fn commit(
        &mut self,
        alloc: Global,
        prepared: &Prepared,
        change: Change,
    ) -> Result<(), StoreFault>
        requires whole { IsWhole self.old.session }
        requires listed { Fits change (content_of self.old.lists) }
        requires fits { CanRead (state_of self.old) → Fits change (kept_by self.old) }
        requires sound { CanRead (state_of self.old) → IsSound (after change (kept_by self.old)) }
        requires knows { CanRead (state_of self.old) → KnowsNamed
            (told_rest (tables_of (state_of self.old).now.trees)) change
            (content_of self.old.lists) }
        requires moves { BringMoves change.definitions prepared.now.moves }
        requires number { IfSome change.job (λ (job : JobValue). job.number < 2 ^ 63) }
        requires line { IfSome change.job (λ (job : JobValue). prepared.now.line.items
            ≡ answer_text job.reply) }
        ensures { Commits self.old self.new change result }
    {
        tables_have_one_content();
        tables_represent_sets();
        fitting_changes_are_accepted();
        change_is_representable(&change);
        added_rise(&change);
        note_gone(alloc, &mut self.gone, &change.deletions.put);
        self.gone_count = self.gone_count.saturating_add(change.deletions.put.len());
        match change_both(
            &mut self.session.conn,
            &mut self.lists,
            alloc,
            &prepared.moves,
            change,
            &prepared.line,
        ) {
            Ok(()) => Ok(()),
            Err(why) => Err(self.session.blame(why)),
        }
    }
}

impl<S: Alter + Drop> PlanStore for TableStore<S> {
    ghost use Rattle.std.specs.Prelude.{◌≡◌, ◌⊎◌, false};
    ghost use Rattle.sqlite.specs.State.{HasCleanDisk};
    ghost use Rattle.sqlite.specs.Held.{state};
    ghost use Rattle.plan_store.specs.Contents.{content_of};
    ghost use Rattle.plan_tables.specs.Causes.{HasFailed};
    ghost use Rattle.plan_tables.specs.Kept.{CanRead};
    ghost use Rattle.plan_tables.specs.Session.{IsWhole};
    ghost use Rattle.std.proofs.Math.Logic.{∥∥₁_map};
    ghost use Rattle.app_definition_soundness.proofs.SoundAgain.{sound_again};
    ghost use Rattle.plan_tables.specs.Stored.{MayLeave};
    ghost use Rattle.plan_tables.specs.Stores.{kept_by, state_of};

    // the jobs are those of the table, and all else that of the lists
    ghost content = { kept_by };

    ghost is_honest = { λ store. CanRead (state_of store) };

    ghost failures = { λ store. store.session.failures };

    // of a disk that failed nothing is said
    ghost may_leave = { λ store c. HasCleanDisk (state_of store)
        × MayLeave (state_of store) c };

    ghost is_clean = { λ store. HasCleanDisk (state_of store) };

    ghost is_whole = { λ store. IsWhole store.session };

    // by the count of sqlite, or a limit on steps is set; or the connection was shut
    ghost has_failed = { λ old new. ∥ HasFailed (state_of old) (state_of new)
        ⊎ ((state_of old).is_open ≡ false) ∥₁ };

    ghost left_is_clean = { λ _ _ left. left.0 };

    ghost honest_is_sound = { λ store honest. sound_again (kept_by store)
        (∥∥₁_map store.sound (λ held. held honest)) };

    // A store that is read stays as it was. It returns that the device failed if a failure was counted before, and
    // only then.
    fn definitions(&mut self, _alloc: Global) -> Result<Definitions, StoreFault>
        ensures kept { self.new ≡ self.old }
        ensures answer { self.old.session.failures ≡ 0 → (result ≡ Ok self.old.lists.definitions)
            ⊎ (result ≡ Err StoreFault.Memory) }
        ensures broken { 0 < self.old.session.failures → result ≡ Err StoreFault.Device }
    {
        if self.session.failures > 0 {
            return Err(StoreFault::Device);
        }
        Ok(self.lists.definitions.clone()?)
    }

    fn bounds(&mut self) -> Result<Option<Bounds>, StoreFault>
        ensures kept { self.new ≡ self.old }
        ensures answer { self.old.session.failures ≡ 0 → result ≡ Ok self.old.lists.bounds }
        ensures broken { 0 < self.old.session.failures → result ≡ Err StoreFault.Device }
    {
        if self.session.failures > 0 {
            return Err(StoreFault::Device);
        }
        Ok(self.lists.bounds)
    }

    fn links(&mut self, alloc: Global) -> Result<Links, StoreFault>
        ensures kept { self.new ≡ self.old }
        ensures answer { self.old.session.failures ≡ 0 → (result ≡ Ok self.old.lists.in_force.items)
            ⊎ (result ≡ Err StoreFault.Memory) }
        ensures broken { 0 < self.old.session.failures → result ≡ Err StoreFault.Device }
    {
        if self.session.failures > 0 {
            return Err(StoreFault::Device);
        }
        Ok(self.lists.in_force.to_links(alloc)?)
    }

    fn read_window<'a>(&'a mut self, alloc: Global, need: Need) -> Result<View<'a>, StoreFault> {
        self.make_ready(alloc, Sought::Window(&need))?;
        self.lists.fill_window(alloc, &need)?;
        Ok(self.lists.window(&need))
    }

    fn job<'a>(&'a mut self, alloc: Global, number: u64) -> Result<Option<&'a Job>, StoreFault> {
        self.look_up(alloc, number)?;
        match &self.found {
            Some(job) => Ok(Some(job)),
            None => Ok(None),
        }
    }

    fn rows_to<K: RowSink>(
        &mut self,
        alloc: Global,
        what: What,
        app: Option<&App>,
        sink: &mut K,
    ) -> Result<usize, ListFault> {
        self.lists.has_listings_with();
        if self.session.failures > 0 {
            return Err(ListFault::Device);
        }
        match what {
            What::Ltp => self.lists.ltp_to(alloc, app, sink),
            What::Cp => self.lists.cp_to(alloc, app, sink),
            What::Links => self.lists.links_to(app, sink),
            What::History => self.list_asked(alloc, ListedTable::History, app, sink),
            What::Deletions => self.list_deletions(alloc, app, sink),
            What::Dependencies => self.list_asked(alloc, ListedTable::Pairs, app, sink),
        }
    }

    // The clauses of every store, and why the device is blamed: over an open connection whose tables accept the change
    // it failed meanwhile, by the count of sqlite, or a limit on steps is set. The tables accept each change for which
    // there is room, and keep their schema.
    fn apply(&mut self, alloc: Global, change: Change) -> Result<(), StoreFault>
        requires fits { CanRead (state_of self.old) → Fits change
            (kept_by self.old) }
        requires sound { CanRead (state_of self.old) → IsSound (after change
            (kept_by self.old)) }
        ensures applies { AppliesBy ⟦<TableStore<S> as PlanStore>⟧ self.old self.new change result }
        ensures caused { self.old.session.failures ≡ 0 → HasCleanDisk (state_of self.new)
            → CanAccept (state_of self.old)
            (kept_by self.old) change
            → IfErr result (λ fault. fault ≡ StoreFault.Device
            → ∥ HasFailed (state_of self.old) (state_of self.new)
            ⊎ ((state_of self.old).is_open ≡ false) ∥₁) }
        ensures taken { self.old.session.failures ≡ 0 → HasCleanDisk (state_of self.new)
            → HasRoomFor (state_of self.old) change
            → IfErr result (λ fault. fault ≡ StoreFault.Device
            → ∥ HasFailed (state_of self.old) (state_of self.new)
            ⊎ ((state_of self.old).is_open ≡ false) ∥₁) }
        ensures schema { KeepsSchema (state_of self.old)
            (state_of self.new) result }
    {
        let prepared = self.prepared(alloc, &change)?;
        self.make_ready(alloc, Sought::Change(&change))?;
        let is_fit = self.admits(alloc, &change)?;
        self.admit(&change, is_fit)?;
        self.commit(alloc, &prepared, change)
    }
}
