ghost use Rattle.std.specs.Prelude.{◌≡◌, [], Contains, OnOk, OnErr, IfOk, option_copied, true};

use crate::buffers::Buffer;
use crate::changes::{Change, DefinitionChange};
use crate::in_force::{put_in_force, reserve_list};
use crate::jobs::{find_job, keep_job};
use crate::lasts::{fill_lasts, key_of};
use crate::moving::move_rows;
use crate::pairs::change_pairs;
use crate::queries::last_queries_of;
use crate::redefining::{begin, end, undo};
use crate::slices::arriving_before;
use crate::staged::Staged;
use crate::stores::Need;
use crate::views::View;
use app_definitions::Definitions;
use external_dependencies::Pair;
use occurrences::{CurrentRow, Deletion, Row};
use plan_store_lists::{
    Blocks, LinkBlocks, PairBlocks, RowBlocks, SeatBlocks, note_rows, reserve_for,
};
use planner_machine::{Bounds, Job};
use std::alloc::{AllocError, Global};
use std::mem::replace;
use work_calendars::Moment;

/// All that a planner knows, each set of rows as a list by application, input arrival and serial, in blocks.
#[derive(Drop)]
pub struct Content {
    /// The definitions.
    pub definitions: Definitions,
    /// How far the plans reach; `None` before the long-term plan is created.
    pub bounds: Option<Bounds>,
    /// How many serials are issued.
    pub issued: u32,
    /// The lists in force.
    pub in_force: LinkBlocks,
    /// The long-term plan.
    pub ltp: RowBlocks<Row>,
    /// The current plan.
    pub cp: RowBlocks<CurrentRow>,
    /// History.
    pub history: RowBlocks<Row>,
    /// The deletions.
    pub deletions: RowBlocks<Deletion>,
    /// The pairs of successors and predecessors.
    pub pairs: PairBlocks,
    /// The kept jobs, by number.
    pub jobs: Vec<Job>,
    // the key of each serial; there may be more of them than rows
    pub(crate) seats: SeatBlocks,
    // what windows show that is no part of a list
    pub(crate) buffer: Buffer,
    ghost ltp_rows: { AreRows of_row ltp.items },
    ghost cp_rows: { AreRows of_current cp.items },
    ghost history_rows: { AreRows of_row history.items },
    ghost deletion_rows: { AreRows of_deletion deletions.items },
    ghost numbered_jobs: { AreJobs jobs.items },
    ghost ltp_seats: { HasSeats of_row ltp.items seats },
    ghost cp_seats: { HasSeats of_current cp.items seats },
    ghost history_seats: { HasSeats of_row history.items seats },
    ghost deletion_seats: { HasSeats of_deletion deletions.items seats },
}

ghost use Rattle.plan_store_lists.specs.Rows.{AreRows, of_row, of_current, of_deletion};
ghost use Rattle.planner_machine.specs.Moves.{keep, or_else};
ghost use Rattle.plan_store.specs.Jobs.{AreJobs};
ghost use Rattle.plan_store_lists.specs.Rows.{HasEachOnce};
ghost use Rattle.plan_store_lists.specs.Seats.{HasSeats};
ghost use Rattle.plan_store_lists.specs.declared.seats.Seat.{Seat as SeatValue};
ghost use Rattle.plan_store.specs.declared.changes.Change.{Change as ChangeValue};
ghost use Rattle.planner_machine.specs.Content.{Content as ContentValue};
ghost use Rattle.plan_store_lists.specs.Blocks.{items_of};
ghost use Rattle.plan_store_lists.specs.PairBlocks.{ArePairBlocks};

impl Content {
    ghost use Rattle.plan_store.specs.Changes.{Fits, after};
    ghost use Rattle.planner_machine.specs.Content.{nothing_known};
    ghost use Rattle.planner_machine.specs.Sound.{AreNumbered};
    ghost use Rattle.plan_store.specs.Contents.{content_of};
    ghost use Rattle.plan_store.specs.Parts.{Rest, with_rest};
    ghost use Rattle.plan_store_lists.specs.Rows.{look_up};
    ghost use Rattle.plan_store.specs.Views.{IsPrepared, IsFilled, ShowsListed, TellsSizes, bars, current_serial};
    ghost use Rattle.plan_store.specs.Views.{deletion_serial, row_serial, shown, with_part, with_plans_alone};
    ghost use Rattle.occurrences.specs.declared.row.Row.{Row as RowValue};
    ghost use Rattle.plan_store.specs.Room.{HasPutSeats, HasRoom, HasRowRoom, HasSame, with_pairs_of};
    ghost use Rattle.plan_store.specs.Room.{no_jobs, with_bounds_of, with_definitions, with_in_force, with_job_set};
    ghost use Rattle.plan_store.specs.Staged.{IsReady, IsStagedFor};
    ghost use Rattle.plan_store.specs.declared.changes.DefinitionChange.TheVariants.{AsBefore};
    ghost use Rattle.plan_store.specs.declared.stores.Need.TheVariants.{Daily};

    /// The content before the first statement.
    pub fn new(alloc: Global) -> Content
        ensures { content_of result ≡ nothing_known }
    {
        Content {
            definitions: Definitions::new(alloc),
            bounds: None,
            issued: 0,
            in_force: LinkBlocks::new(alloc),
            ltp: RowBlocks::new(alloc),
            cp: RowBlocks::new(alloc),
            history: RowBlocks::new(alloc),
            deletions: RowBlocks::new(alloc),
            pairs: PairBlocks::new(alloc),
            jobs: Vec::new(alloc),
            seats: SeatBlocks::new(alloc),
            buffer: Buffer::new(alloc),
        }
    }

    /// Makes ready what a window for the need shows that is no part of a list: for a daily plan the rows of the
    /// long-term plan that arrive before its end, and for a key and for the long-term plan the rows of history that are
    /// asked for. The content stays as it is.
    pub fn fill_window(&mut self, alloc: Global, need: &Need) -> Result<(), AllocError>
        ensures same { content_of self.new ≡ content_of self.old }
        ensures filled { OnOk result (IsFilled need.now self.new) }
    {
        match need {
            Need::Daily(moment) => self.fill_early(alloc, *moment),
            Need::Key(_) | Need::LongTerm(_) => self.fill_for(alloc, need),
            Need::Definitions => Ok(()),
        }
    }

    // Fills the buffer with the rows of the long-term plan that arrive before the moment.
    fn fill_early(&mut self, alloc: Global, moment: Moment) -> Result<(), AllocError>
        ensures same { content_of self.new ≡ content_of self.old }
        ensures filled { OnOk result (IsFilled (Daily moment) self.new) }
    {
        let found = arriving_before(alloc, &self.ltp, moment)?;
        let early = RowBlocks::from_rows(alloc, &found)?;
        self.buffer.early = early;
        Ok(())
    }

    // Fills the buffer with the rows of history that a statement with the need reads.
    fn fill_for(&mut self, alloc: Global, need: &Need) -> Result<(), AllocError>
        ensures same { content_of self.new ≡ content_of self.old }
        ensures filled { OnOk result (IsPrepared need.now self.new.buffer.lasts.items self.new) }
    {
        self.buffer.key = key_of(need);
        let queries = last_queries_of(alloc, self, need)?;
        fill_lasts(&mut self.buffer.lasts, &self.history, &queries)
    }

    /// Lends a window that shows what the need names, which `fill_window` prepared. It has the sizes of the plans even
    /// if history and the deletions are stored elsewhere.
    pub fn window(&self, need: &Need) -> View<'_>
        requires { IsFilled need.now self.now }
        ensures shows { ShowsListed need.now result (content_of self.now) }
        ensures parts { (rest : Rest) → AreNumbered (with_rest rest (content_of self.now)).sets
            → TellsSizes (content_of self.now).sets result }
    {
        match need {
            Need::Definitions => {
                self.window_of_plans(&self.buffer.no_rows, &self.buffer.no_current)
            }
            Need::Daily(_) => self.window_of_plans(&self.buffer.early, &self.cp),
            Need::Key(_) => { self.window_of_lasts(&self.buffer.lasts, &self.buffer.no_deletions) }
            Need::LongTerm(_) => self.window_of_lasts(&self.buffer.lasts, &self.deletions),
        }
    }

    // A window of these rows of the two plans, and no other row or pair.
    fn window_of_plans<'a>(
        &'a self,
        ltp: &'a RowBlocks<Row>,
        cp: &'a RowBlocks<CurrentRow>,
    ) -> View<'a>
        requires ltp_rows { AreRows of_row ltp.now.items }
        requires ltp_seats { HasSeats of_row ltp.now.items self.now.seats }
        requires cp_rows { AreRows of_current cp.now.items }
        requires cp_seats { HasSeats of_current cp.now.items self.now.seats }
        ensures shown { shown result ≡ with_plans_alone (look_up row_serial ltp.now.items)
            (look_up current_serial cp.now.items) (content_of self.now) }
        ensures whole { result.content.now ≡ self.now }
    {
        View {
            content: self,
            ltp,
            cp,
            lasts: &[],
            deletions: &self.buffer.no_deletions,
            pairs: &self.buffer.no_pairs,
            key: &self.buffer.key,
            history: &self.buffer.no_rows,
        }
    }

    // A window of both plans and the pairs that are asked for, with both their rows, of these rows of history, which were
    // asked for, and of these deletions what keeps keys from being made. On which key it is was noted where it was
    // filled.
    fn window_of_lasts<'a>(
        &'a self,
        lasts: &'a [Row],
        deletions: &'a RowBlocks<Deletion>,
    ) -> View<'a>
        requires lasts { AreRows of_row lasts.now }
        requires part { (row : RowValue) → Contains lasts.now row
            → Contains self.now.history.items row }
        requires rows { AreRows of_deletion deletions.now.items }
        requires seats { HasSeats of_deletion deletions.now.items self.now.seats }
        ensures shown { shown result ≡ with_part self.now.buffer.key (look_up row_serial lasts.now)
            (λ serial. keep (bars self.now.bounds)
            (look_up deletion_serial deletions.now.items serial))
            (content_of self.now) }
        ensures history { result.history.now.items ≡ self.now.history.items }
        ensures whole { result.content.now ≡ self.now }
    {
        View {
            content: self,
            ltp: &self.ltp,
            cp: &self.cp,
            lasts,
            deletions,
            pairs: &self.pairs,
            key: &self.buffer.key,
            history: &self.history,
        }
    }

    /// The job that is kept under the number.
    pub fn job(&self, number: u64) -> Option<&Job>
        ensures { option_copied result ≡ (content_of self.now).jobs number }
    {
        match find_job(&self.jobs, number) {
            Ok(at) => Some(&self.jobs[at]),
            Err(_at) => None,
        }
    }

    /// Drops the kept jobs, which are stored elsewhere.
    pub fn forget_jobs(&mut self, alloc: Global)
        ensures { content_of self.new ≡ with_job_set no_jobs (content_of self.old) }
    {
        self.jobs = Vec::new(alloc);
    }

    /// Replaces the definitions.
    pub fn set_definitions(&mut self, definitions: Definitions)
        ensures { content_of self.new ≡ with_definitions definitions (content_of self.old) }
    {
        self.definitions = definitions;
    }

    /// Replaces the bounds.
    pub fn set_bounds(&mut self, bounds: Option<Bounds>)
        ensures { content_of self.new ≡ with_bounds_of bounds (content_of self.old) }
    {
        self.bounds = bounds;
    }

    /// Replaces the lists in force.
    pub fn set_in_force(&mut self, lists: LinkBlocks)
        ensures { content_of self.new ≡ with_in_force lists.items (content_of self.old) }
    {
        self.in_force = lists;
    }

    // Notes the serials of all rows that the change puts.
    fn note(&mut self, alloc: Global, change: &Change) -> Result<(), AllocError>
        requires { Fits change.now (content_of self.old) }
        ensures same { HasSame self.old self.new }
        ensures noted { OnOk result (HasPutSeats change.now self.new) }
    {
        note_puts(alloc, &mut self.seats, change)
    }

    // Makes room for the rows, the list in force and the job that the change puts. The serials of the rows are noted.
    fn reserve(&mut self, alloc: Global, change: &Change) -> Result<(), AllocError>
        requires seats { HasPutSeats change.now self.old }
        requires ltp { HasEachOnce of_row change.now.ltp.put.items }
        requires cp { HasEachOnce of_current change.now.cp.put.items }
        requires history { HasEachOnce of_row change.now.history.put.items }
        requires deletions { HasEachOnce of_deletion change.now.deletions.put.items }
        ensures same { HasSame self.old self.new }
        ensures room { OnOk result (HasRowRoom change.now self.new) }
    {
        self.ltp.reserve(alloc, &change.ltp.put)?;
        self.cp.reserve(alloc, &change.cp.put)?;
        self.history.reserve(alloc, &change.history.put)?;
        self.deletions.reserve(alloc, &change.deletions.put)?;
        reserve_list(alloc, &mut self.in_force, &change.in_force)?;
        self.jobs.reserve(1)?;
        Ok(())
    }

    // Makes room for all that the change puts, and takes the pairs out of the content. If memory is refused, the content
    // is as it was.
    fn make_room(&mut self, alloc: Global, change: &Change) -> Result<Blocks<u32, Pair>, AllocError>
        requires { Fits change.now (content_of self.old) }
        ensures taken { IfOk result (λ pairs. (items_of pairs ≡ (content_of self.old).pairs)
            × HasRoom change.now self.new pairs) }
        ensures blocks { IfOk result (λ pairs. ArePairBlocks pairs) }
        ensures ok { OnOk result (content_of self.new ≡ with_pairs_of [] (content_of self.old)) }
        ensures err { OnErr result (content_of self.new ≡ content_of self.old) }
    {
        self.note(alloc, change)?;
        self.reserve(alloc, change)?;
        let mut pairs = replace(&mut self.pairs, PairBlocks::new(alloc)).into_blocks();
        match reserve_for(alloc, &mut pairs, change.pairs.added.as_slice()) {
            Ok(()) => Ok(pairs),
            Err(error) => {
                self.pairs = PairBlocks::from_blocks(pairs);
                Err(error)
            }
        }
    }

    /// Stages a change: makes room for all that it puts, takes the pairs out, and adds the definitions of a block. If
    /// memory is refused, the content is as it was.
    pub fn stage(&mut self, alloc: Global, change: Change) -> Result<Staged, AllocError>
        requires { Fits change (content_of self.old) }
        ensures ready { IfOk result (IsReady self.new) }
        ensures staged { IfOk result
            (IsStagedFor change (content_of self.old) (content_of self.new)) }
        ensures err { OnErr result (content_of self.new ≡ content_of self.old) }
    {
        let mut rest = change;
        let definitions = replace(&mut rest.definitions, DefinitionChange::AsBefore);
        let pairs = self.make_room(alloc, &rest)?;
        match begin(&mut self.definitions, definitions) {
            Ok(redefining) => Ok(Staged {
                rest,
                pairs,
                redefining,
            }),
            Err(error) => {
                self.pairs = PairBlocks::from_blocks(pairs);
                Err(error)
            }
        }
    }

    /// Makes the rest of a change that is staged. It needs no memory.
    pub fn finish(&mut self, staged: Staged)
        requires { IsReady self.old staged }
        ensures { (change : ChangeValue) (before : ContentValue)
            → IsStagedFor change before (content_of self.old) staged
            → content_of self.new ≡ after change before }
    {
        let Staged {
            rest,
            pairs,
            redefining,
        } = staged;
        self.make(rest, pairs);
        end(&mut self.definitions, redefining);
    }

    /// Takes back a change that is staged. It needs no memory.
    pub fn cancel(&mut self, staged: Staged)
        requires { IsReady self.old staged }
        ensures { (change : ChangeValue) (before : ContentValue)
            → IsStagedFor change before (content_of self.old) staged
            → content_of self.new ≡ before }
    {
        let Staged {
            rest: _,
            pairs,
            redefining,
        } = staged;
        undo(&mut self.definitions, redefining);
        self.pairs = PairBlocks::from_blocks(pairs);
    }

    // Makes a change, but that of the definitions, in the room that was made for it, and puts the pairs back.
    fn make(&mut self, change: Change, taken: Blocks<u32, Pair>)
        requires fits { Fits change (content_of self.old) }
        requires room { HasRoom change self.old taken }
        requires blocks { ArePairBlocks taken }
        requires defined { change.definitions ≡ AsBefore }
        ensures { content_of self.new
            ≡ after change (with_pairs_of (items_of taken) (content_of self.old)) }
    {
        let Change {
            definitions: _,
            bounds,
            issued,
            in_force,
            ltp,
            cp,
            history,
            deletions,
            pairs: moves,
            job,
        } = change;
        let mut pairs = taken;
        change_pairs(&mut pairs, moves);
        self.pairs = PairBlocks::from_blocks(pairs);
        self.bounds = new_or_old(bounds, self.bounds);
        self.issued = issued.unwrap_or(self.issued);
        put_in_force(&mut self.in_force, in_force);
        move_rows(&mut self.ltp, ltp);
        move_rows(&mut self.cp, cp);
        move_rows(&mut self.history, history);
        move_rows(&mut self.deletions, deletions);
        keep_job(&mut self.jobs, job);
    }

    /// Makes the change; if memory is refused, none of it.
    pub fn apply(&mut self, alloc: Global, change: Change) -> Result<(), AllocError>
        requires { Fits change (content_of self.old) }
        ensures ok { OnOk result (content_of self.new ≡ after change (content_of self.old)) }
        ensures err { OnErr result (content_of self.new ≡ content_of self.old) }
    {
        let staged = self.stage(alloc, change)?;
        self.finish(staged);
        Ok(())
    }
}

// Notes the seats of all that the change puts.
fn note_puts(alloc: Global, seats: &mut SeatBlocks, change: &Change) -> Result<(), AllocError>
    requires ltp { HasEachOnce of_row change.now.ltp.put.items }
    requires cp { HasEachOnce of_current change.now.cp.put.items }
    requires history { HasEachOnce of_row change.now.history.put.items }
    requires deletions { HasEachOnce of_deletion change.now.deletions.put.items }
    ensures stay { (seat : SeatValue) → Contains seats.old seat
        → Contains seats.new seat }
    ensures ltp { OnOk result (HasSeats of_row change.now.ltp.put.items seats.new) }
    ensures cp { OnOk result (HasSeats of_current change.now.cp.put.items seats.new) }
    ensures history { OnOk result (HasSeats of_row change.now.history.put.items seats.new) }
    ensures deletions { OnOk result
        (HasSeats of_deletion change.now.deletions.put.items seats.new) }
{
    note_rows(alloc, seats, &change.ltp.put)?;
    note_rows(alloc, seats, &change.cp.put)?;
    note_rows(alloc, seats, &change.history.put)?;
    note_rows(alloc, seats, &change.deletions.put)
}

// The new bounds, or the old ones where there are no new.
fn new_or_old(new: Option<Bounds>, old: Option<Bounds>) -> Option<Bounds>
    ensures { result ≡ or_else new old }
{
    match new {
        Some(bounds) => Some(bounds),
        None => old,
    }
}
