ghost use Rattle.std.specs.Prelude.{◌≡◌, ◌<◌, ◌≤◌, true, false, length, take, drop, Contains, IfOk, IfErr, IsTrue, vec_len, ◌↔◌};
ghost use Rattle.std.specs.List.{HoldsAt};
ghost use Rattle.std.specs.List.Sorted.{IsPartitionPoint};
ghost use Rattle.std.specs.declared.cmp.Ordering.TheVariants.{Less, Greater};
ghost use Rattle.plan_store_lists.specs.Keyed.{IsKeyed, AreApart, holds_key};

use crate::keyed::Keyed;

/// The place of the key in the list, or the place where it would be inserted.
pub fn find<T: Keyed>(list: &[T], key: &T::Key) -> Result<usize, usize>
    ensures taken { IfOk result (λ i. (i < length list.now)
        × HoldsAt (λ x. T.key_of x ≡ key.now) list.now i) }
    ensures free { IsKeyed T.Key.cmp T.key_of list.now → IfErr result (λ i. (i ≤ length list.now)
        × IsPartitionPoint (λ x. T.Key.cmp (T.key_of x) key.now ≡ Less) (λ x.
        T.Key.cmp (T.key_of x) key.now ≡ Greater) list.now i) }
{
    list.binary_search_by_key(key, |x| x.key())
}

// Where the items below the key end, and where those above it begin.
fn equal_range<T: Keyed>(list: &[T], key: &T::Key) -> (usize, usize)
    requires { IsKeyed T.Key.cmp T.key_of list.now }
    ensures order { (result.0 ≤ result.1) × (result.1 ≤ length list.now) }
    ensures below { (y : T) → Contains (take result.0 list.now) y → T.Key.cmp (T.key_of y) key.now
        ≡ Less }
    ensures equal { (y : T) → Contains (drop result.0 (take result.1 list.now)) y
        → T.key_of y ≡ key.now }
    ensures above { (y : T) → Contains (drop result.1 list.now) y → T.Key.cmp key.now (T.key_of y)
        ≡ Less }
{
    match find(list, key) {
        Ok(at) => (at, at + 1),
        Err(at) => (at, at),
    }
}

// Whether the item before a place has the key or a higher one, or all items come before it.
fn ends_range<T: Keyed>(list: &[T], end: usize, key: &T::Key) -> bool
    requires keyed { IsKeyed T.Key.cmp T.key_of list.now }
    requires within { (1 ≤ end) × (end ≤ length list.now) }
    ensures inside { result ≡ false → end < length list.now }
    ensures above { result ≡ true → (y : T) → Contains (drop end list.now) y
        → T.Key.cmp key.now (T.key_of y) ≡ Less }
{
    end == list.len() || list[end - 1].key().cmp(key).is_ge()
}

// `equal_range`, searched from the front, each time up to twice as far.
pub(crate) fn range_from_front<T: Keyed>(list: &[T], key: &T::Key) -> (usize, usize)
    requires { IsKeyed T.Key.cmp T.key_of list.now }
    ensures order { (result.0 ≤ result.1) × (result.1 ≤ length list.now) }
    ensures below { (y : T) → Contains (take result.0 list.now) y → T.Key.cmp (T.key_of y) key.now
        ≡ Less }
    ensures equal { (y : T) → Contains (drop result.0 (take result.1 list.now)) y
        → T.key_of y ≡ key.now }
    ensures above { (y : T) → Contains (drop result.1 list.now) y → T.Key.cmp key.now (T.key_of y)
        ≡ Less }
{
    if list.is_empty() {
        return (0, 0);
    }
    let mut end = 1;
    while !ends_range(list, end, key) {
        end += end.min(list.len() - end);
    }
    equal_range(&list[..end], key)
}

// Whether the item at a place has the key or a lower one, or no item comes before it.
fn begins_range<T: Keyed>(list: &[T], start: usize, key: &T::Key) -> bool
    requires keyed { IsKeyed T.Key.cmp T.key_of list.now }
    requires within { start < length list.now }
    ensures inside { result ≡ false → 0 < start }
    ensures below { result ≡ true → (y : T) → Contains (take start list.now) y
        → T.Key.cmp (T.key_of y) key.now ≡ Less }
{
    start == 0 || list[start].key().cmp(key).is_le()
}

// `equal_range`, searched from the back, each time up to twice as far.
pub(crate) fn range_from_back<T: Keyed>(list: &[T], key: &T::Key) -> (usize, usize)
    requires { IsKeyed T.Key.cmp T.key_of list.now }
    ensures order { (result.0 ≤ result.1) × (result.1 ≤ length list.now) }
    ensures below { (y : T) → Contains (take result.0 list.now) y → T.Key.cmp (T.key_of y) key.now
        ≡ Less }
    ensures equal { (y : T) → Contains (drop result.0 (take result.1 list.now)) y
        → T.key_of y ≡ key.now }
    ensures above { (y : T) → Contains (drop result.1 list.now) y → T.Key.cmp key.now (T.key_of y)
        ≡ Less }
{
    if list.is_empty() {
        return (0, 0);
    }
    let mut start = list.len() - 1;
    while !begins_range(list, start, key) {
        start -= start.min(list.len() - start);
    }
    let (below, upto) = equal_range(&list[start..], key);
    (start + below, start + upto)
}

/// Whether an item of the list has the key.
pub fn has_key<T: Keyed>(list: &[T], key: &T::Key) -> bool
    ensures { IsKeyed T.Key.cmp T.key_of list.now
        → result ≡ holds_key T.Key.cmp T.key_of list.now key.now }
{
    find(list, key).is_ok()
}

// Whether the items are in rising order of their keys.
pub(crate) fn are_keyed<T: Keyed>(list: &[T]) -> bool
    ensures { IsTrue result ↔ IsKeyed T.Key.cmp T.key_of list.now }
{
    for at in 1..list.len() {
        let before = list[at - 1].key();
        let here = list[at].key();
        if before.cmp(&here).is_ge() {
            return false;
        }
    }
    true
}

/// Sorts the items by their keys.
pub fn sort<T: Keyed>(list: &mut Vec<T>)
    ensures keyed { AreApart T.key_of list.old.items → IsKeyed T.Key.cmp T.key_of list.new.items }
    ensures same { (x : T) → Contains list.new.items x ↔ Contains list.old.items x }
    ensures length { vec_len list.new ≡ vec_len list.old }
{
    list.sort_unstable_by_key(|x| x.key());
}
