ghost use Rattle.std.specs.Prelude.{◌≡◌, ◌≢◌, ◌+◌, ◌≤◌, ◌++◌, length, take, drop, Contains, vec_len, vec_capacity, ◌↔◌, ◌⊎◌};
ghost use Rattle.plan_store_lists.specs.Keyed.{IsKeyed, AreApart, HasKey, LacksKey};

use crate::keyed::Keyed;
use crate::search::{find, range_from_back, range_from_front};

// Writes an item in the place of the one that has its key.
pub(crate) fn replace_one<T: Keyed>(list: &mut Vec<T>, item: T)
    requires keyed { IsKeyed T.Key.cmp T.key_of list.old.items }
    requires stands { HasKey T.key_of list.old.items (T.key_of item) }
    ensures keyed { IsKeyed T.Key.cmp T.key_of list.new.items }
    ensures length { vec_len list.new ≡ vec_len list.old }
    ensures capacity { vec_capacity list.new ≡ vec_capacity list.old }
    ensures stand { (k : T.Key) → HasKey T.key_of list.old.items k
        → HasKey T.key_of list.new.items k }
    ensures replaced { (x : T) → Contains list.new.items x
        ↔ ((item ≡ x) ⊎ (Contains list.old.items x × (T.key_of x ≢ T.key_of item))) }
{
    match find(list.as_slice(), &item.key()) {
        Ok(at) => list[at] = item,
        Err(_at) => {}
    }
}

/// Writes items in the place of those that have their keys. Allocates no memory.
pub fn replace_all<T: Keyed>(list: &mut Vec<T>, items: &[T])
    requires keyed { IsKeyed T.Key.cmp T.key_of list.old.items }
    requires apart { AreApart T.key_of items.now }
    requires stand { (x : T) → Contains items.now x → HasKey T.key_of list.old.items (T.key_of x) }
    ensures keyed { IsKeyed T.Key.cmp T.key_of list.new.items }
    ensures length { vec_len list.new ≡ vec_len list.old }
    ensures capacity { vec_capacity list.new ≡ vec_capacity list.old }
    ensures replaced { (x : T) → Contains list.new.items x
        ↔ (Contains items.now x ⊎ (Contains list.old.items x × LacksKey T.key_of items.now (T.key_of x))) }
{
    for item in items {
        replace_one(list, *item);
    }
}

// Moves items down to a place before them.
fn move_down<T: Copy>(list: &mut Vec<T>, from: usize, count: usize, to: usize)
    requires down { to ≤ from }
    requires within { from + count ≤ vec_len list.old }
    ensures moved { take (to + count) list.new.items ≡ take to list.old.items
        ++ take count (drop from list.old.items) }
    ensures rest { drop (from + count) list.new.items ≡ drop (from + count) list.old.items }
    ensures length { vec_len list.new ≡ vec_len list.old }
    ensures capacity { vec_capacity list.new ≡ vec_capacity list.old }
{
    if to < from {
        list.copy_within(from..from + count, to);
    }
}

/// Removes the items that have the keys of these, which are given in the order of their keys. Each item that stays
/// moves at most once, together with all up to the next one that goes; those before the first that goes don't move.
pub fn remove_all<T: Keyed>(list: &mut Vec<T>, items: &[T])
    requires keyed { IsKeyed T.Key.cmp T.key_of list.old.items }
    requires sorted { IsKeyed T.Key.cmp T.key_of items.now }
    ensures keyed { IsKeyed T.Key.cmp T.key_of list.new.items }
    ensures length { vec_len list.new ≤ vec_len list.old }
    ensures capacity { vec_capacity list.new ≡ vec_capacity list.old }
    ensures removed { (x : T) → Contains list.new.items x
        ↔ (Contains list.old.items x × LacksKey T.key_of items.now (T.key_of x)) }
{
    let mut kept = 0;
    let mut rest = 0;
    for item in items {
        let (below, upto) = range_from_front(&list[rest..], &item.key());
        move_down(list, rest, below, kept);
        kept += below;
        rest += upto;
    }
    let count = list.len() - rest;
    move_down(list, rest, count, kept);
    list.truncate(kept + count);
}

// Moves items up by so many places.
fn move_up<T: Copy>(list: &mut Vec<T>, from: usize, count: usize, by: usize)
    requires { from + count + by ≤ vec_len list.old }
    ensures front { take from list.new.items ≡ take from list.old.items }
    ensures moved { drop (from + by) list.new.items
        ≡ take count (drop from list.old.items) ++ drop (from + count + by) list.old.items }
    ensures length { vec_len list.new ≡ vec_len list.old }
{
    list.copy_within(from..from + count, from + by);
}

/// Inserts items of new keys, which are given in the order of their keys. There is room for them. From the last on,
/// the items between the places of two of them move together; those before all new ones stay.
pub fn insert_all<T: Keyed>(list: &mut Vec<T>, items: &[T])
    requires keyed { IsKeyed T.Key.cmp T.key_of list.old.items }
    requires sorted { IsKeyed T.Key.cmp T.key_of items.now }
    requires new { (x : T) → Contains items.now x → LacksKey T.key_of list.old.items (T.key_of x) }
    requires room { vec_len list.old + length items.now ≤ vec_capacity list.old }
    ensures keyed { IsKeyed T.Key.cmp T.key_of list.new.items }
    ensures inserted { (x : T) → Contains list.new.items x
        ↔ (Contains items.now x ⊎ Contains list.old.items x) }
{
    let mut left = list.len();
    let mut right = items.len();
    let _ = list.extend_from_slice(items);
    while right > 0 {
        let last = items[right - 1];
        let (at, _end) = range_from_back(&list[..left], &last.key());
        move_up(list, at, left - at, right);
        list[at + right - 1] = last;
        left = at;
        right -= 1;
    }
}
