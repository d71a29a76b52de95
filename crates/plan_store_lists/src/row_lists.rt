// The rows of a set as one list, which is kept in blocks.

ghost use Rattle.std.specs.Prelude.{◌≡◌, ◌↔◌, ◌⊎◌, ◌<◌, ◌^◌, ℕ, List, [], length, Contains, IfOk, IsTrue, OnOk};
ghost use Rattle.external_dependencies.specs.Arrival.{arrival_cmp};
ghost use Rattle.external_dependencies.specs.Nearest.{arrival_of};
ghost use Rattle.plan_store_lists.specs.Blocks.{items_in, items_of};
ghost use Rattle.plan_store_lists.specs.Keyed.{AreApart, HasKey, IsKeyed, LacksKey};
ghost use Rattle.plan_store_lists.specs.RowBlocks.{AreRowBlocks, HasRoomForRows};
ghost use Rattle.plan_store_lists.specs.RowLists.{HasRowRoom};
ghost use Rattle.plan_store_lists.specs.Rows.{HasEachOnce};
ghost use Rattle.plan_store_lists.specs.Seats.{HasSeats};
ghost use Rattle.plan_store_lists.specs.declared.seats.Seat.{Seat as SeatValue};

use crate::blocks::{Block, Blocks, all_of};
use crate::row_blocks::{from_rows, insert_rows, remove_rows, replace_rows, reserve_rows, rows_of};
use crate::rows::PlanRow;
use crate::search::{are_keyed, sort};
use crate::seats::{SeatBlocks, note_blocks};
use std::alloc::{AllocError, Global};
use std::marker::Model;
use work_calendars::App;

// A list of rows has fewer than this.
const TOO_MANY: usize = 0x4000_0000_0000_0000;

// Makes room for these rows, which are given in any order. They are copied only where they have to be sorted.
fn reserve_any<T: PlanRow>(
    alloc: Global,
    list: &mut Blocks<App, T>,
    rows: &[T],
) -> Result<(), AllocError>
    requires blocks { AreRowBlocks T.row_of list.old }
    requires once { HasEachOnce T.row_of rows.now }
    ensures blocks { AreRowBlocks T.row_of list.new }
    ensures same { items_of list.new ≡ items_of list.old }
    ensures room { OnOk result (HasRoomForRows T.row_of rows.now list.new) }
{
    if are_keyed(rows) {
        return reserve_rows(alloc, list, rows);
    }
    let mut sorted = Vec::new(alloc);
    sorted.extend_from_slice(rows)?;
    sort(&mut sorted);
    reserve_rows(alloc, list, &sorted)
}

/// The rows of a set, in a block for each application. Contracts see them as one list, in the order of application,
/// input arrival and serial, and beside it the blocks, for the room in them.
#[derive(Drop)]
pub struct RowBlocks<T: PlanRow> {
    blocks: Blocks<App, T>,
    count: usize,
}

impl<T: PlanRow> Model for RowBlocks<T> {
    ghost use Rattle.plan_store_lists.specs.RowLists.{AreCountedRows, RowList, listed};

    ghost Value = { RowList T };

    ghost view = { λ s. listed s.blocks.blocks.items };

    ghost invariant = { λ s. AreCountedRows T.row_of s.blocks s.count };
}

impl<T: PlanRow> RowBlocks<T> {
    /// No rows.
    pub fn new(alloc: Global) -> RowBlocks<T>
        ensures { result.items ≡ [] }
    {
        RowBlocks {
            blocks: Blocks::new(alloc),
            count: 0,
        }
    }

    /// These rows, which are given in order.
    pub fn from_rows(alloc: Global, rows: &[T]) -> Result<RowBlocks<T>, AllocError>
        requires { IsKeyed arrival_cmp (λ x. arrival_of (T.row_of x)) rows.now }
        ensures { IfOk result (λ list. list.items ≡ rows.now) }
    {
        if rows.len() >= TOO_MANY {
            return Err(AllocError);
        }
        let blocks = from_rows(alloc, rows)?;
        Ok(RowBlocks {
            blocks,
            count: rows.len(),
        })
    }

    /// The rows are in order.
    pub fn rise(&self)
        ensures { IsKeyed arrival_cmp (λ x. arrival_of (T.row_of x)) self.now.items }
    {
        let _blocks = &self.blocks;
    }

    /// How many rows there are. They are few enough that the rows of all sets can be counted.
    pub fn len(&self) -> usize
        ensures count { result ≡ length self.now.items }
        ensures few { result < 2 ^ 62 }
    {
        self.count
    }

    /// Whether there are no rows.
    pub fn is_empty(&self) -> bool
        ensures { IsTrue result ↔ (self.now.items ≡ []) }
    {
        self.blocks.is_empty()
    }

    /// The blocks: of each application one, with its rows in order. The rows of one block after another are all rows.
    pub fn blocks(&self) -> &[Block<App, T>]
        ensures all { items_in result.now ≡ self.now.items }
        ensures keyed { (block : Block (List ℕ) T) → Contains result.now block
            → IsKeyed arrival_cmp (λ x. arrival_of (T.row_of x)) block.items.items }
        ensures one { (block : Block (List ℕ) T) (x : T) → Contains result.now block
            → Contains block.items.items x → (T.row_of x).key.app ≡ block.group }
    {
        self.blocks.blocks()
    }

    /// The rows of an application.
    pub fn of_app(&self, app: &App) -> &[T]
        ensures keyed { IsKeyed arrival_cmp (λ x. arrival_of (T.row_of x)) result.now }
        ensures all { (x : T) → Contains result.now x
            ↔ (Contains self.now.items x × ((T.row_of x).key.app ≡ app.now)) }
    {
        rows_of(&self.blocks, app)
    }

    /// The rows as a list of their own, in order.
    pub fn to_vec(&self, alloc: Global) -> Result<Vec<T>, AllocError>
        ensures { IfOk result (λ rows. rows.items ≡ self.now.items) }
    {
        all_of(alloc, &self.blocks)
    }

    /// Notes the seats of all rows, block after block; if memory is refused, those of some blocks.
    pub fn note_in(&self, alloc: Global, seats: &mut SeatBlocks) -> Result<(), AllocError>
        requires { HasEachOnce T.row_of self.now.items }
        ensures stay { (seat : SeatValue) → Contains seats.old seat → Contains seats.new seat }
        ensures noted { OnOk result (HasSeats T.row_of self.now.items seats.new) }
    {
        note_blocks(alloc, seats, &self.blocks)
    }

    /// Makes room for these rows, which are given in any order. They are copied only where they have to be sorted.
    pub fn reserve(&mut self, alloc: Global, rows: &[T]) -> Result<(), AllocError>
        requires { HasEachOnce T.row_of rows.now }
        ensures same { self.new.items ≡ self.old.items }
        ensures room { OnOk result (HasRowRoom T.row_of rows.now self.new) }
    {
        if rows.len() >= TOO_MANY - self.count {
            return Err(AllocError);
        }
        reserve_any(alloc, &mut self.blocks, rows)
    }

    /// Removes the rows that have the keys of these, which are given in order. Each is there.
    pub fn remove(&mut self, rows: &[T])
        requires sorted { IsKeyed arrival_cmp (λ x. arrival_of (T.row_of x)) rows.now }
        requires stand { (x : T) → Contains rows.now x
            → HasKey (λ y. arrival_of (T.row_of y)) self.old.items (arrival_of (T.row_of x)) }
        ensures removed { (x : T) → Contains self.new.items x
            ↔ (Contains self.old.items x
            × LacksKey (λ y. arrival_of (T.row_of y)) rows.now (arrival_of (T.row_of x))) }
        ensures stays { (more : List T) → HasRowRoom T.row_of more self.old
            → HasRowRoom T.row_of more self.new }
    {
        remove_rows(&mut self.blocks, rows);
        self.count -= rows.len();
    }

    /// Writes rows in the place of those that have their keys. Allocates no memory.
    pub fn replace(&mut self, rows: &[T])
        requires apart { AreApart (λ x. arrival_of (T.row_of x)) rows.now }
        requires stand { (x : T) → Contains rows.now x
            → HasKey (λ y. arrival_of (T.row_of y)) self.old.items (arrival_of (T.row_of x)) }
        ensures replaced { (x : T) → Contains self.new.items x
            ↔ (Contains rows.now x ⊎ (Contains self.old.items x
            × LacksKey (λ y. arrival_of (T.row_of y)) rows.now (arrival_of (T.row_of x)))) }
        ensures stays { (more : List T) → HasRowRoom T.row_of more self.old
            → HasRowRoom T.row_of more self.new }
    {
        replace_rows(&mut self.blocks, rows);
    }

    /// Inserts rows of new keys, which are given in order. There is room for them. Only rows of the same applications
    /// move.
    pub fn insert(&mut self, rows: &[T])
        requires sorted { IsKeyed arrival_cmp (λ x. arrival_of (T.row_of x)) rows.now }
        requires new { (x : T) → Contains rows.now x
            → LacksKey (λ y. arrival_of (T.row_of y)) self.old.items (arrival_of (T.row_of x)) }
        requires room { HasRowRoom T.row_of rows.now self.old }
        ensures keyed { IsKeyed arrival_cmp (λ x. arrival_of (T.row_of x)) self.new.items }
        ensures inserted { (x : T) → Contains self.new.items x
            ↔ (Contains rows.now x ⊎ Contains self.old.items x) }
    {
        insert_rows(&mut self.blocks, rows);
        self.count += rows.len();
    }
}
