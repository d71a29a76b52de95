// Room in a list.

ghost use Rattle.std.specs.Prelude.{◌≡◌, ◌+◌, ◌≤◌, OnOk, vec_len, vec_capacity};

use std::alloc::AllocError;

// Room for so many more items. A list that has to grow grows by at least an eighth of its length, so that a long list
// seldom moves and has little room that it doesn't need.
pub(crate) fn grow<T>(list: &mut Vec<T>, more: usize) -> Result<(), AllocError>
    ensures items { list.new.items ≡ list.old.items }
    ensures len { vec_len list.new ≡ vec_len list.old }
    ensures room { OnOk result (vec_len list.new + more ≤ vec_capacity list.new) }
{
    if more <= list.capacity() - list.len() {
        return Ok(());
    }
    list.reserve_exact(more.max(list.len() / 8))
}
