// New lists in force.

ghost use Rattle.std.specs.Prelude.{◌≡◌, OnOk};
ghost use Rattle.plan_store.specs.Changes.{lists_after};
ghost use Rattle.plan_store.specs.Room.{HasNewRoom};

use crate::changes::NewLists;
use plan_store_lists::LinkBlocks;
use std::alloc::{AllocError, Global};

// Makes room for a list that is put into force alone.
pub(crate) fn reserve_list(
    alloc: Global,
    lists: &mut LinkBlocks,
    new: &Option<NewLists>,
) -> Result<(), AllocError>
    ensures same { lists.new.items ≡ lists.old.items }
    ensures room { OnOk result (HasNewRoom new.now lists.new) }
{
    match new {
        Some(NewLists::One(list)) => lists.reserve(alloc, list),
        Some(NewLists::All(_)) | None => Ok(()),
    }
}

// Puts new lists into force, if there are any. There is room for one that is put alone.
pub(crate) fn put_in_force(lists: &mut LinkBlocks, new: Option<NewLists>)
    requires { HasNewRoom new lists.old }
    ensures { lists.new.items ≡ lists_after new lists.old.items }
{
    match new {
        Some(NewLists::All(all)) => *lists = all,
        Some(NewLists::One(list)) => lists.put(list),
        None => {}
    }
}
