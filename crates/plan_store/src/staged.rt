// A change under way.

ghost use Rattle.std.specs.Prelude.{◌≡◌};
ghost use Rattle.plan_store_lists.specs.PairBlocks.{ArePairBlocks};

use crate::changes::Change;
use crate::redefining::Redefining;
use external_dependencies::Pair;
use plan_store_lists::Blocks;

/// A change that is staged in a content: there is room for all that it puts, and of the definitions a block's are
/// there. `finish` makes the rest of it and `cancel` takes it back; neither needs memory.
#[derive(Drop)]
pub struct Staged {
    // what is left of the change: all but the definitions
    pub(crate) rest: Change,
    // the pairs of the content, taken out of it, with room for those that come
    pub(crate) pairs: Blocks<u32, Pair>,
    pub(crate) redefining: Redefining,
    ghost pair_blocks: { ArePairBlocks pairs },
}

impl Staged {
    ghost use Rattle.planner_machine.specs.Content.{Content as ContentValue};
    ghost use Rattle.plan_store.specs.Staged.{IsReady, IsStagedFor, jobless};
    ghost use Rattle.plan_store.specs.declared.changes.Change.{Change as ChangeValue};
    ghost use Rattle.plan_store.specs.declared.contents.Content.{Content as Kept};

    /// What is left of the change: all but the definitions.
    pub fn rest(&self) -> &Change
        ensures { result.now ≡ self.now.rest }
    {
        &self.rest
    }

    /// The pairs of the content, as long as the change is under way.
    pub fn pairs(&self) -> &Blocks<u32, Pair>
        ensures all { result.now ≡ self.now.pairs }
        ensures blocks { ArePairBlocks self.now.pairs }
    {
        &self.pairs
    }

    /// Leaves out the job, which is stored elsewhere.
    pub fn forget_job(&mut self)
        ensures ready { (kept : Kept) → IsReady kept self.old → IsReady kept self.new }
        ensures staged { (change : ChangeValue) (before kept : ContentValue)
            → IsStagedFor change before kept self.old
            → IsStagedFor (jobless change) before kept self.new }
    {
        self.rest.job = None;
    }
}
