// The rows of a set in blocks: one for each application.

ghost use Rattle.std.specs.Prelude.{◌≡◌, ◌↔◌, ◌⊎◌, ℕ, List, Contains, IfOk, OnOk};
ghost use Rattle.external_dependencies.specs.Arrival.{arrival_cmp};
ghost use Rattle.external_dependencies.specs.Nearest.{arrival_of};
ghost use Rattle.plan_store_lists.specs.Blocks.{HasRoomAt, items_of};
ghost use Rattle.plan_store_lists.specs.Keyed.{AreApart, HasKey, IsKeyed, LacksKey};
ghost use Rattle.plan_store_lists.specs.RowBlocks.{AreRowBlocks, HasRoomForRows};

use crate::blocks::{Blocks, insert_into, of_group, remove_from, replace_in, reserve_for};
use crate::rows::PlanRow;
use std::alloc::{AllocError, Global};
use work_calendars::App;

/// The rows of an application.
pub fn rows_of<'a, T: PlanRow>(list: &'a Blocks<App, T>, app: &App) -> &'a [T]
    requires { AreRowBlocks T.row_of list.now }
    ensures keyed { IsKeyed arrival_cmp (λ x. arrival_of (T.row_of x)) result.now }
    ensures all { (x : T) → Contains result.now x
        ↔ (Contains (items_of list.now) x × ((T.row_of x).key.app ≡ app.now)) }
{
    of_group(list, app)
}

/// Makes room for these rows, which are given in order.
pub fn reserve_rows<T: PlanRow>(
    alloc: Global,
    list: &mut Blocks<App, T>,
    rows: &[T],
) -> Result<(), AllocError>
    requires blocks { AreRowBlocks T.row_of list.old }
    requires sorted { IsKeyed arrival_cmp (λ x. arrival_of (T.row_of x)) rows.now }
    ensures blocks { AreRowBlocks T.row_of list.new }
    ensures same { items_of list.new ≡ items_of list.old }
    ensures room { OnOk result (HasRoomForRows T.row_of rows.now list.new) }
{
    reserve_for(alloc, list, rows)
}

/// Removes the rows that have the keys of these, which are given in order.
pub fn remove_rows<T: PlanRow>(list: &mut Blocks<App, T>, rows: &[T])
    requires blocks { AreRowBlocks T.row_of list.old }
    requires sorted { IsKeyed arrival_cmp (λ x. arrival_of (T.row_of x)) rows.now }
    ensures blocks { AreRowBlocks T.row_of list.new }
    ensures removed { (x : T) → Contains (items_of list.new) x
        ↔ (Contains (items_of list.old) x
        × LacksKey (λ y. arrival_of (T.row_of y)) rows.now (arrival_of (T.row_of x))) }
    ensures stays { (app : List ℕ) (count : ℕ) → HasRoomAt list.old.blocks.items app count
        → HasRoomAt list.new.blocks.items app count }
{
    remove_from(list, rows);
}

/// Writes rows in the place of those that have their keys. Allocates no memory.
pub fn replace_rows<T: PlanRow>(list: &mut Blocks<App, T>, rows: &[T])
    requires blocks { AreRowBlocks T.row_of list.old }
    requires apart { AreApart (λ x. arrival_of (T.row_of x)) rows.now }
    requires stand { (x : T) → Contains rows.now x
        → HasKey (λ y. arrival_of (T.row_of y)) (items_of list.old) (arrival_of (T.row_of x)) }
    ensures blocks { AreRowBlocks T.row_of list.new }
    ensures replaced { (x : T) → Contains (items_of list.new) x
        ↔ (Contains rows.now x ⊎ (Contains (items_of list.old) x
        × LacksKey (λ y. arrival_of (T.row_of y)) rows.now (arrival_of (T.row_of x)))) }
    ensures stays { (app : List ℕ) (count : ℕ) → HasRoomAt list.old.blocks.items app count
        → HasRoomAt list.new.blocks.items app count }
{
    replace_in(list, rows);
}

/// Inserts rows of new keys, which are given in order. There is room for them.
pub fn insert_rows<T: PlanRow>(list: &mut Blocks<App, T>, rows: &[T])
    requires blocks { AreRowBlocks T.row_of list.old }
    requires sorted { IsKeyed arrival_cmp (λ x. arrival_of (T.row_of x)) rows.now }
    requires new { (x : T) → Contains rows.now x
        → LacksKey (λ y. arrival_of (T.row_of y)) (items_of list.old) (arrival_of (T.row_of x)) }
    requires room { HasRoomForRows T.row_of rows.now list.old }
    ensures blocks { AreRowBlocks T.row_of list.new }
    ensures inserted { (x : T) → Contains (items_of list.new) x
        ↔ (Contains rows.now x ⊎ Contains (items_of list.old) x) }
{
    insert_into(list, rows);
}

/// These rows in blocks. They are given in order.
pub fn from_rows<T: PlanRow>(alloc: Global, rows: &[T]) -> Result<Blocks<App, T>, AllocError>
    requires { IsKeyed arrival_cmp (λ x. arrival_of (T.row_of x)) rows.now }
    ensures blocks { IfOk result (λ list. AreRowBlocks T.row_of list) }
    ensures same { IfOk result (λ list. items_of list ≡ rows.now) }
{
    let mut list = Blocks::new(alloc);
    reserve_rows(alloc, &mut list, rows)?;
    insert_rows(&mut list, rows);
    Ok(list)
}
