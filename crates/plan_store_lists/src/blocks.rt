// Lists that are kept in blocks, so that a change moves the items of a block alone.

ghost use Rattle.std.specs.Prelude.{◌≡◌, ◌≢◌, ◌<◌, ◌≤◌, ℕ, ◌++◌, ◌↔◌, ◌⊎◌, [], length, Contains, IfOk, IfErr, OnOk};
ghost use Rattle.std.specs.Prelude.{IsTrue, take, drop};
ghost use Rattle.std.specs.List.{HoldsAt};
ghost use Rattle.std.specs.List.Sorted.{IsPartitionPoint};
ghost use Rattle.std.specs.FinMap.{IsAntisymmetric};
ghost use Rattle.std.specs.declared.cmp.Ordering.TheVariants.{Less, Greater};
ghost use Rattle.plan_store_lists.specs.Keyed.{AreApart, HasKey, IsKeyed, LacksKey, holds_key};

use crate::changes;
use crate::grouped::Grouped;
use crate::search::find;
use std::alloc::{AllocError, Global};

/// The items of one group, in the order of their keys.
#[derive(Drop)]
pub struct Block<G, T> {
    pub(crate) group: G,
    pub(crate) items: Vec<T>,
}

/// A list of items in the order of their keys, kept in a block for each group. A block may be empty.
#[derive(Drop)]
pub struct Blocks<G, T> {
    pub(crate) blocks: Vec<Block<G, T>>,
}

impl<G, T> Block<G, T> {
    /// Its items, in the order of their keys.
    pub fn items(&self) -> &[T]
        ensures { result.now ≡ self.now.items.items }
    {
        &self.items
    }
}

impl<G, T> Blocks<G, T> {
    ghost use Rattle.plan_store_lists.specs.Blocks.{items_of};

    /// No items.
    pub fn new(alloc: Global) -> Blocks<G, T>
        ensures { result.blocks.items ≡ [] }
    {
        Blocks {
            blocks: Vec::new(alloc),
        }
    }

    /// The blocks, in the order of their groups.
    pub fn blocks(&self) -> &[Block<G, T>]
        ensures { result.now ≡ self.now.blocks.items }
    {
        &self.blocks
    }

    /// Whether it has no items.
    pub fn is_empty(&self) -> bool
        ensures { IsTrue result ↔ (items_of self.now ≡ []) }
    {
        for block in &self.blocks {
            if !block.items.is_empty() {
                return false;
            }
        }
        true
    }

    /// Whether it has more items than so many. It counts no further than that.
    pub fn has_more_than(&self, most: usize) -> bool
        ensures { IsTrue result ↔ (most < length (items_of self.now)) }
    {
        let mut left = most;
        for block in &self.blocks {
            let count = block.items.len();
            if left < count {
                return true;
            }
            left -= count;
        }
        false
    }
}

// How many items there are, for a list that is about to get them.
fn count_of<G, T>(list: &Blocks<G, T>) -> usize {
    let mut count: usize = 0;
    for block in &list.blocks {
        count = count.saturating_add(block.items.len());
    }
    count
}

/// All items, in their order, as a list of their own.
pub fn all_of<G, T: Copy>(alloc: Global, list: &Blocks<G, T>) -> Result<Vec<T>, AllocError>
    ensures { IfOk result (λ found. found.items ≡ items_of list.now) }
{
    let mut found = Vec::with_capacity(alloc, count_of(list))?;
    for block in &list.blocks {
        found.extend_from_slice(&block.items)?;
    }
    Ok(found)
}

// The place of the block of a group, or the place where it would be inserted.
fn place_of<G: Ord + Copy, T>(blocks: &[Block<G, T>], group: &G) -> Result<usize, usize>
    requires { IsAntisymmetric G.cmp }
    ensures taken { IfOk result (λ i. (i < length blocks.now)
        × HoldsAt (λ block. block.group ≡ group.now) blocks.now i) }
    ensures free { GroupsRise G.cmp blocks.now → IfErr result (λ i. (i ≤ length blocks.now)
        × IsPartitionPoint (λ block. G.cmp block.group group.now ≡ Less) (λ block.
        G.cmp block.group group.now ≡ Greater) blocks.now i) }
{
    blocks.binary_search_by_key(group, |block| block.group)
}

ghost use Rattle.plan_store_lists.specs.Blocks.{AreBlocks, GroupsRise, HasRoomAt, HasRoomFor, items_in, items_of};

/// The items of a group.
pub fn of_group<'a, T: Grouped>(list: &'a Blocks<T::Group, T>, group: &T::Group) -> &'a [T]
    requires { AreBlocks T.Group.cmp T.Key.cmp T.group_of T.key_of list.now.blocks.items }
    ensures keyed { IsKeyed T.Key.cmp T.key_of result.now }
    ensures all { (x : T) → Contains result.now x
        ↔ (Contains (items_of list.now) x × (T.group_of x ≡ group.now)) }
{
    match place_of(&list.blocks, group) {
        Ok(at) => list.blocks[at].items.as_slice(),
        Err(_at) => &[],
    }
}

/// Whether the list has an item of the key of this one.
pub fn has_item<T: Grouped>(list: &Blocks<T::Group, T>, item: &T) -> bool
    requires { AreBlocks T.Group.cmp T.Key.cmp T.group_of T.key_of list.now.blocks.items }
    ensures { result ≡ holds_key T.Key.cmp T.key_of (items_of list.now) (T.key_of item.now) }
{
    find(of_group(list, &item.group()), &item.key()).is_ok()
}

// The items at the front that are of the first item's group.
fn front_group<T: Grouped>(items: &[T]) -> &[T]
    requires some { 0 < length items.now }
    requires keyed { IsKeyed T.Key.cmp T.key_of items.now }
    ensures some { 0 < length result.now }
    ensures front { result.now ≡ take (length result.now) items.now }
    ensures within { length result.now ≤ length items.now }
    ensures one { (x y : T) → Contains result.now x → Contains result.now y
        → T.group_of x ≡ T.group_of y }
    ensures rest { (x y : T) → Contains result.now x
        → Contains (drop (length result.now) items.now) y → T.group_of x ≢ T.group_of y }
{
    let group = items[0].group();
    let count = items.partition_point(|x| x.group() <= group);
    &items[..count]
}

// Makes room for so many more items in a list that has an eighth more than it needs, where it has to grow.
fn grow<T>(list: &mut Vec<T>, more: usize) -> Result<(), AllocError>
    ensures items { list.new.items ≡ list.old.items }
    ensures capacity { vec_capacity list.old ≤ vec_capacity list.new }
    ensures room { OnOk result (vec_len list.new + more ≤ vec_capacity list.new) }
{
    if more <= list.capacity() - list.len() {
        return Ok(());
    }
    list.reserve_exact(more.max(list.len() / 8))
}

ghost use Rattle.std.specs.Prelude.{◌+◌, vec_len, vec_capacity};

// Makes room for so many items of a group.
pub(crate) fn reserve_group<G: Ord + Copy, T: Copy>(
    alloc: Global,
    list: &mut Blocks<G, T>,
    group: &G,
    more: usize,
) -> Result<(), AllocError>
    requires ties { IsAntisymmetric G.cmp }
    requires rise { GroupsRise G.cmp list.old.blocks.items }
    ensures rise { GroupsRise G.cmp list.new.blocks.items }
    ensures same { items_of list.new ≡ items_of list.old }
    ensures blocks { (block : Block G T) → Contains list.new.blocks.items block
        → (block.items.items ≡ []) ⊎ ((was : Block G T) × Contains list.old.blocks.items was
        × (was.group ≡ block.group) × (was.items.items ≡ block.items.items)) }
    ensures stays { (other : G) (count : ℕ) → HasRoomAt list.old.blocks.items other count
        → HasRoomAt list.new.blocks.items other count }
    ensures room { OnOk result (HasRoomAt list.new.blocks.items group.now more) }
{
    let at = match place_of(&list.blocks, group) {
        Ok(at) => at,
        Err(at) => {
            list.blocks.insert(
                at,
                Block {
                    group: *group,
                    items: Vec::new(alloc),
                },
            )?;
            at
        }
    };
    grow(&mut list.blocks[at].items, more)
}

/// Makes room for these items, which are given in the order of their keys.
pub fn reserve_for<T: Grouped>(
    alloc: Global,
    list: &mut Blocks<T::Group, T>,
    items: &[T],
) -> Result<(), AllocError>
    requires blocks { AreBlocks T.Group.cmp T.Key.cmp T.group_of T.key_of list.old.blocks.items }
    requires sorted { IsKeyed T.Key.cmp T.key_of items.now }
    ensures blocks { AreBlocks T.Group.cmp T.Key.cmp T.group_of T.key_of list.new.blocks.items }
    ensures same { items_of list.new ≡ items_of list.old }
    ensures room { OnOk result (HasRoomFor T.Group.cmp T.group_of items.now list.new.blocks.items) }
{
    let mut start = 0;
    while start < items.len() {
        let run = front_group(&items[start..]);
        reserve_group(alloc, list, &run[0].group(), run.len())?;
        start += run.len();
    }
    Ok(())
}

// Removes the items that have the keys of these, which are of one group and in the order of their keys.
pub(crate) fn remove_run<T: Grouped>(list: &mut Blocks<T::Group, T>, run: &[T])
    requires blocks { AreBlocks T.Group.cmp T.Key.cmp T.group_of T.key_of list.old.blocks.items }
    requires sorted { IsKeyed T.Key.cmp T.key_of run.now }
    requires some { 0 < length run.now }
    requires one { (x y : T) → Contains run.now x → Contains run.now y
        → T.group_of x ≡ T.group_of y }
    ensures blocks { AreBlocks T.Group.cmp T.Key.cmp T.group_of T.key_of list.new.blocks.items }
    ensures removed { (x : T) → Contains (items_of list.new) x
        ↔ (Contains (items_of list.old) x × LacksKey T.key_of run.now (T.key_of x)) }
    ensures stays { (group : T.Group) (count : ℕ) → HasRoomAt list.old.blocks.items group count
        → HasRoomAt list.new.blocks.items group count }
{
    match place_of(&list.blocks, &run[0].group()) {
        Ok(at) => changes::remove_all(&mut list.blocks[at].items, run),
        Err(_at) => {}
    }
}

/// Removes the items that have the keys of these, which are given in the order of their keys. Only items of the blocks
/// of these move.
pub fn remove_from<T: Grouped>(list: &mut Blocks<T::Group, T>, items: &[T])
    requires blocks { AreBlocks T.Group.cmp T.Key.cmp T.group_of T.key_of list.old.blocks.items }
    requires sorted { IsKeyed T.Key.cmp T.key_of items.now }
    ensures blocks { AreBlocks T.Group.cmp T.Key.cmp T.group_of T.key_of list.new.blocks.items }
    ensures removed { (x : T) → Contains (items_of list.new) x
        ↔ (Contains (items_of list.old) x × LacksKey T.key_of items.now (T.key_of x)) }
    ensures stays { (group : T.Group) (count : ℕ) → HasRoomAt list.old.blocks.items group count
        → HasRoomAt list.new.blocks.items group count }
{
    let mut start = 0;
    while start < items.len() {
        let run = front_group(&items[start..]);
        remove_run(list, run);
        start += run.len();
    }
}

// Writes an item in the place of the one that has its key.
fn replace_one_in<T: Grouped>(list: &mut Blocks<T::Group, T>, item: T)
    requires blocks { AreBlocks T.Group.cmp T.Key.cmp T.group_of T.key_of list.old.blocks.items }
    requires stands { HasKey T.key_of (items_of list.old) (T.key_of item) }
    ensures blocks { AreBlocks T.Group.cmp T.Key.cmp T.group_of T.key_of list.new.blocks.items }
    ensures stand { (k : T.Key) → HasKey T.key_of (items_of list.old) k
        → HasKey T.key_of (items_of list.new) k }
    ensures replaced { (x : T) → Contains (items_of list.new) x
        ↔ ((item ≡ x) ⊎ (Contains (items_of list.old) x × (T.key_of x ≢ T.key_of item))) }
    ensures stays { (group : T.Group) (count : ℕ) → HasRoomAt list.old.blocks.items group count
        → HasRoomAt list.new.blocks.items group count }
{
    match place_of(&list.blocks, &item.group()) {
        Ok(at) => changes::replace_one(&mut list.blocks[at].items, item),
        Err(_at) => {}
    }
}

/// Writes items in the place of those that have their keys. Allocates no memory, and moves no other item.
pub fn replace_in<T: Grouped>(list: &mut Blocks<T::Group, T>, items: &[T])
    requires blocks { AreBlocks T.Group.cmp T.Key.cmp T.group_of T.key_of list.old.blocks.items }
    requires apart { AreApart T.key_of items.now }
    requires stand { (x : T) → Contains items.now x
        → HasKey T.key_of (items_of list.old) (T.key_of x) }
    ensures blocks { AreBlocks T.Group.cmp T.Key.cmp T.group_of T.key_of list.new.blocks.items }
    ensures replaced { (x : T) → Contains (items_of list.new) x ↔ (Contains items.now x
        ⊎ (Contains (items_of list.old) x × LacksKey T.key_of items.now (T.key_of x))) }
    ensures stays { (group : T.Group) (count : ℕ) → HasRoomAt list.old.blocks.items group count
        → HasRoomAt list.new.blocks.items group count }
{
    for item in items {
        replace_one_in(list, *item);
    }
}

// Inserts items of new keys, which are of one group and in the order of their keys. There is room for them.
pub(crate) fn insert_run<T: Grouped>(list: &mut Blocks<T::Group, T>, run: &[T])
    requires blocks { AreBlocks T.Group.cmp T.Key.cmp T.group_of T.key_of list.old.blocks.items }
    requires sorted { IsKeyed T.Key.cmp T.key_of run.now }
    requires new { (x : T) → Contains run.now x
        → LacksKey T.key_of (items_of list.old) (T.key_of x) }
    requires some { 0 < length run.now }
    requires one { (x y : T) → Contains run.now x → Contains run.now y
        → T.group_of x ≡ T.group_of y }
    requires room { (x : T) → Contains run.now x
        → HasRoomAt list.old.blocks.items (T.group_of x) (length run.now) }
    ensures blocks { AreBlocks T.Group.cmp T.Key.cmp T.group_of T.key_of list.new.blocks.items }
    ensures inserted { (x : T) → Contains (items_of list.new) x
        ↔ (Contains run.now x ⊎ Contains (items_of list.old) x) }
    ensures stays { (x : T) (group : T.Group) (count : ℕ) → Contains run.now x
        → T.group_of x ≢ group → HasRoomAt list.old.blocks.items group count
        → HasRoomAt list.new.blocks.items group count }
{
    match place_of(&list.blocks, &run[0].group()) {
        Ok(at) => changes::insert_all(&mut list.blocks[at].items, run),
        Err(_at) => {}
    }
}

/// Inserts items of new keys, which are given in the order of their keys. There is room for them. Only items of the
/// blocks of these move.
pub fn insert_into<T: Grouped>(list: &mut Blocks<T::Group, T>, items: &[T])
    requires blocks { AreBlocks T.Group.cmp T.Key.cmp T.group_of T.key_of list.old.blocks.items }
    requires sorted { IsKeyed T.Key.cmp T.key_of items.now }
    requires new { (x : T) → Contains items.now x
        → LacksKey T.key_of (items_of list.old) (T.key_of x) }
    requires room { HasRoomFor T.Group.cmp T.group_of items.now list.old.blocks.items }
    ensures blocks { AreBlocks T.Group.cmp T.Key.cmp T.group_of T.key_of list.new.blocks.items }
    ensures inserted { (x : T) → Contains (items_of list.new) x
        ↔ (Contains items.now x ⊎ Contains (items_of list.old) x) }
{
    let mut start = 0;
    while start < items.len() {
        let run = front_group(&items[start..]);
        insert_run(list, run);
        start += run.len();
    }
}

// These items in blocks. They are given in the order of their keys.
pub(crate) fn from_items<T: Grouped>(
    alloc: Global,
    items: &[T],
) -> Result<Blocks<T::Group, T>, AllocError>
    requires { IsKeyed T.Key.cmp T.key_of items.now }
    ensures blocks { IfOk result (λ list.
        AreBlocks T.Group.cmp T.Key.cmp T.group_of T.key_of list.blocks.items) }
    ensures same { IfOk result (λ list. (x : T) → Contains (items_of list) x ↔ Contains items.now x) }
{
    let mut list = Blocks::new(alloc);
    reserve_for(alloc, &mut list, items)?;
    insert_into(&mut list, items);
    Ok(list)
}

// Puts these items, which are of one group and in the order of their keys, in the place of all those of the group,
// which has a block.
pub(crate) fn put_group<T: Grouped>(list: &mut Blocks<T::Group, T>, group: &T::Group, items: Vec<T>)
    requires blocks { AreBlocks T.Group.cmp T.Key.cmp T.group_of T.key_of list.old.blocks.items }
    requires sorted { IsKeyed T.Key.cmp T.key_of items.items }
    requires one { (x : T) → Contains items.items x → T.group_of x ≡ group.now }
    requires room { HasRoomAt list.old.blocks.items group.now 0 }
    ensures blocks { AreBlocks T.Group.cmp T.Key.cmp T.group_of T.key_of list.new.blocks.items }
    ensures replaced { (x : T) → Contains (items_of list.new) x ↔ (Contains items.items x
        ⊎ (Contains (items_of list.old) x × (T.group_of x ≢ group.now))) }
{
    match place_of(&list.blocks, group) {
        Ok(at) => list.blocks[at].items = items,
        Err(_at) => {}
    }
}
