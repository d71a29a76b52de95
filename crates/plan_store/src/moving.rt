ghost use Rattle.std.specs.Prelude.{◌≡◌, ℕ};
ghost use Rattle.plan_store_lists.specs.RowLists.{HasRowRoom};
ghost use Rattle.plan_store_lists.specs.Rows.{AreRows, look_up};
ghost use Rattle.plan_store.specs.Changes.{FitsSet, moved_set};

use crate::changes::Moves;
use plan_store_lists::{PlanRow, RowBlocks, sort};

// Makes the moves in the list of a set. There is room for what is put.
pub(crate) fn move_rows<T: PlanRow>(list: &mut RowBlocks<T>, moves: Moves<T>)
    requires rows { AreRows T.row_of list.old.items }
    requires fits { FitsSet T.row_of moves (look_up (λ x. (T.row_of x).serial) list.old.items) }
    requires room { HasRowRoom T.row_of moves.put.items list.old }
    ensures rows { AreRows T.row_of list.new.items }
    ensures moved { (serial : ℕ) → look_up (λ x. (T.row_of x).serial) list.new.items serial
        ≡ moved_set T.row_of moves (look_up (λ x. (T.row_of x).serial) list.old.items) serial }
{
    let Moves {
        mut gone,
        changed,
        mut put,
    } = moves;
    sort(&mut gone);
    sort(&mut put);
    list.remove(&gone);
    list.replace(&changed);
    list.insert(&put);
}
