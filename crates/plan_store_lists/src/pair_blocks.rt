// The pairs of a plan in blocks.

ghost use Rattle.std.specs.Prelude.{◌≡◌, ◌↔◌, ◌<◌, [], length, Contains, IfOk, IsTrue};
ghost use Rattle.external_dependencies.specs.Pair.{pair_cmp};
ghost use Rattle.external_dependencies.specs.Rising.{IsRising};
ghost use Rattle.external_dependencies.specs.declared.pairs.Pair.{Pair as PairValue};
ghost use Rattle.plan_store_lists.specs.Blocks.{items_of};
ghost use Rattle.plan_store_lists.specs.PairBlocks.{ArePairBlocks};

use crate::blocks::{Blocks, all_of, insert_into, of_group, reserve_for};
use crate::grouped::{Grouped, group_of_serial};
use external_dependencies::Pair;
use occurrences::Serial;
use std::alloc::{AllocError, Global};
use std::marker::Model;

/// Pairs of occurrences, in a block for every 256 serials of successors. Contracts see them in rising order, each once.
#[derive(Drop)]
pub struct PairBlocks {
    blocks: Blocks<u32, Pair>,
}

impl Model for PairBlocks {
    ghost use Rattle.std.specs.Prelude.{List};
    ghost use Rattle.external_dependencies.specs.declared.pairs.Pair.{Pair};

    ghost Value = { List Pair };

    ghost use Rattle.plan_store_lists.specs.Blocks.{items_of};
    ghost use Rattle.plan_store_lists.specs.PairBlocks.{ArePairBlocks};

    ghost view = { λ s. items_of s.blocks };

    ghost invariant = { λ s. ArePairBlocks s.blocks };
}

impl Grouped for Pair {
    ghost use Rattle.std.specs.FinMap.{nat_cmp-IsAntisymmetric};
    ghost use Rattle.plan_store_lists.specs.PairBlocks.{groups_rise, pair_group};

    type Group = u32;

    ghost group_of = { pair_group };

    ghost group_ties = { nat_cmp-IsAntisymmetric };

    ghost rises = { groups_rise };

    fn group(&self) -> u32 {
        group_of_serial(self.successor)
    }
}

impl PairBlocks {
    /// No pairs.
    pub fn new(alloc: Global) -> PairBlocks
        ensures { result ≡ [] }
    {
        PairBlocks {
            blocks: Blocks::new(alloc),
        }
    }

    /// These pairs, which are given in rising order.
    pub fn from_slice(alloc: Global, pairs: &[Pair]) -> Result<PairBlocks, AllocError>
        requires { IsRising pair_cmp pairs.now }
        ensures { IfOk result (λ blocks. blocks ≡ pairs.now) }
    {
        let mut blocks = Blocks::new(alloc);
        reserve_for(alloc, &mut blocks, pairs)?;
        insert_into(&mut blocks, pairs);
        Ok(PairBlocks { blocks })
    }

    /// The pairs in these blocks.
    pub fn from_blocks(blocks: Blocks<u32, Pair>) -> PairBlocks
        requires { ArePairBlocks blocks }
        ensures { result ≡ items_of blocks }
    {
        PairBlocks { blocks }
    }

    /// The blocks of the pairs.
    pub fn into_blocks(self) -> Blocks<u32, Pair>
        ensures all { items_of result ≡ self }
        ensures blocks { ArePairBlocks result }
    {
        let PairBlocks { blocks } = self;
        blocks
    }

    /// The pairs as a list of their own, in rising order.
    pub fn to_vec(&self, alloc: Global) -> Result<Vec<Pair>, AllocError>
        ensures { IfOk result (λ pairs. pairs.items ≡ self.now) }
    {
        all_of(alloc, &self.blocks)
    }

    /// The pairs are in rising order.
    pub fn rise(&self)
        ensures { IsRising pair_cmp self.now }
    {
        let _blocks = &self.blocks;
    }

    /// Whether there are no pairs.
    pub fn is_empty(&self) -> bool
        ensures { IsTrue result ↔ (self.now ≡ []) }
    {
        self.blocks.is_empty()
    }

    /// Whether there are more pairs than so many. It counts no further than that.
    pub fn has_more_than(&self, most: usize) -> bool
        ensures { IsTrue result ↔ (most < length self.now) }
    {
        self.blocks.has_more_than(most)
    }

    /// The pairs of one successor.
    pub fn of_successor(&self, successor: Serial) -> &[Pair]
        ensures rising { IsRising pair_cmp result.now }
        ensures all { (pair : PairValue) →
            Contains result.now pair ↔ (Contains self.now pair × (pair.successor ≡ successor)) }
    {
        let pairs = of_group(&self.blocks, &group_of_serial(successor));
        let start = pairs.partition_point(|pair| pair.successor < successor);
        let rest = &pairs[start..];
        let count = rest.partition_point(|pair| pair.successor <= successor);
        &rest[..count]
    }
}
