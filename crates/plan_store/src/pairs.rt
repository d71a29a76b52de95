ghost use Rattle.std.specs.Prelude.{◌≡◌};
ghost use Rattle.plan_store_lists.specs.Blocks.{items_of};
ghost use Rattle.plan_store_lists.specs.PairBlocks.{ArePairBlocks, HasPairRoom};
ghost use Rattle.plan_store.specs.Changes.{pairs_after};

use external_dependencies::{Pair, PairChange};
use plan_store_lists::{Blocks, has_item, insert_into, remove_from};

// Makes a change in the list of the pairs. There is room for those that come.
pub(crate) fn change_pairs(pairs: &mut Blocks<u32, Pair>, change: PairChange)
    requires blocks { ArePairBlocks pairs.old }
    requires room { HasPairRoom change.added pairs.old }
    ensures blocks { ArePairBlocks pairs.new }
    ensures changed { items_of pairs.new ≡ pairs_after change (items_of pairs.old) }
{
    let PairChange { removed, added } = change;
    remove_from(pairs, removed.as_slice());
    let mut new = added.into_vec();
    new.retain(|pair| !has_item(pairs, pair));
    insert_into(pairs, &new);
}
