ghost use Rattle.std.specs.Prelude.{◌≡◌, ◌↔◌, Contains, IfOk, map};
ghost use Rattle.external_dependencies.specs.Rising.{IsRising};
ghost use Rattle.external_dependencies.specs.Pair.{follower_cmp, follower_of, pair_of};
ghost use Rattle.external_dependencies.specs.declared.followers.Follower.{Follower};

use crate::pairs::{Pair, Pairs};
use crate::rising::into_rising;
use occurrences::Serial;
use std::alloc::{AllocError, Global};
use std::marker::Model;

/// A pair, its predecessor first.
/// Followers are ordered by predecessor, then by successor.
#[derive(Clone, Copy, Debug, PartialEq, Eq, PartialOrd, Ord, Hash)]
pub struct Follower {
    /// The occurrence that is waited for.
    pub predecessor: Serial,
    /// The occurrence that waits for it.
    pub successor: Serial,
}

/// Pairs by their predecessors: made once from some pairs, it gives those of one predecessor without going over all.
/// Contracts see the followers in rising order, each once.
#[derive(Drop)]
pub struct Followers {
    followers: Vec<Follower>,
}

impl Model for Followers {
    ghost use Rattle.std.specs.Prelude.{List};
    ghost use Rattle.external_dependencies.specs.declared.followers.Follower.{Follower};

    ghost Value = { List Follower };

    ghost use Rattle.external_dependencies.specs.Rising.{IsRising};
    ghost use Rattle.external_dependencies.specs.Pair.{follower_cmp};

    ghost view = { λ s. s.followers.items };

    ghost invariant = { λ s. IsRising follower_cmp s.followers.items };
}

impl Followers {
    /// The followers that these pairs make.
    pub fn build(alloc: Global, pairs: &Pairs) -> Result<Followers, AllocError>
        ensures { IfOk result (λ followers. (follower : Follower) →
            Contains followers follower ↔ Contains pairs.now (pair_of follower)) }
    {
        Ok(Followers {
            followers: into_rising(turned(alloc, pairs.as_slice())?),
        })
    }

    /// The followers of one predecessor.
    pub fn of_predecessor(&self, predecessor: Serial) -> &[Follower]
        ensures rising { IsRising follower_cmp result.now }
        ensures all { (follower : Follower) →
            Contains result.now follower ↔ (Contains self.now follower
            × (follower.predecessor ≡ predecessor)) }
    {
        let start = self
            .followers
            .partition_point(|follower| follower.predecessor < predecessor);
        let rest = &self.followers[start..];
        let count = rest.partition_point(|follower| follower.predecessor <= predecessor);
        &rest[..count]
    }
}

// Each pair, its predecessor first.
fn turned(alloc: Global, pairs: &[Pair]) -> Result<Vec<Follower>, AllocError>
    ensures { IfOk result (λ followers. followers.items ≡ map follower_of pairs.now) }
{
    pairs
        .iter()
        .map(|pair| Follower {
            predecessor: pair.predecessor,
            successor: pair.successor,
        })
        .collect(alloc)
}
