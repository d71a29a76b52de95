ghost use Rattle.std.specs.Prelude.{◌≡◌, [], ◌↔◌, Contains, IfOk, OnOk, IsTrue};
ghost use Rattle.external_dependencies.specs.Rising.{IsRising};
ghost use Rattle.external_dependencies.specs.Pair.{pair_cmp, AddsPairsOf, ArePairsOf, IsPairAmong};
ghost use Rattle.external_dependencies.specs.declared.pairs.Pair.{Pair};

use crate::links::{Link, Links};
use crate::live::{Live, nearest};
use crate::rising::into_rising;
use crate::rows::{PlacedRow, Rows};
use occurrences::{Row, Serial};
use std::alloc::{AllocError, Global};
use std::marker::Model;

/// An external dependency: an occurrence, and one that it follows.
/// Pairs are ordered by successor, then by predecessor.
#[derive(Clone, Copy, Debug, PartialEq, Eq, PartialOrd, Ord, Hash)]
pub struct Pair {
    /// The occurrence that waits.
    pub successor: Serial,
    /// The occurrence that it waits for.
    pub predecessor: Serial,
}

/// Pairs of occurrences. Contracts see them in rising order, each once.
#[derive(Drop)]
pub struct Pairs {
    pairs: Vec<Pair>,
}

impl Model for Pairs {
    ghost use Rattle.std.specs.Prelude.{List};
    ghost use Rattle.external_dependencies.specs.declared.pairs.Pair.{Pair};

    ghost Value = { List Pair };

    ghost use Rattle.external_dependencies.specs.Rising.{IsRising};
    ghost use Rattle.external_dependencies.specs.Pair.{pair_cmp};

    ghost view = { λ s. s.pairs.items };

    ghost invariant = { λ s. IsRising pair_cmp s.pairs.items };
}

impl Clone for Pairs {
    ghost is_clone = { λ old new. new ≡ old };

    fn clone(&self) -> Result<Pairs, AllocError> {
        Ok(Pairs {
            pairs: self.pairs.clone()?,
        })
    }
}

impl Pairs {
    /// No pairs.
    pub fn new(alloc: Global) -> Pairs
        ensures { result ≡ [] }
    {
        Pairs {
            pairs: Vec::new(alloc),
        }
    }

    /// These pairs, given in any order.
    pub fn from_vec(pairs: Vec<Pair>) -> Pairs
        ensures { (pair : Pair) → Contains result pair ↔ Contains pairs.items pair }
    {
        Pairs {
            pairs: into_rising(pairs),
        }
    }

    /// These pairs, which are given in rising order. Nothing is moved.
    pub fn from_rising(pairs: Vec<Pair>) -> Pairs
        requires { IsRising pair_cmp pairs.items }
        ensures { result ≡ pairs.items }
    {
        Pairs { pairs }
    }

    /// The pairs, in rising order.
    pub fn as_slice(&self) -> &[Pair]
        ensures all { result.now ≡ self.now }
        ensures rising { IsRising pair_cmp self.now }
    {
        self.pairs.as_slice()
    }

    /// The pairs, in rising order.
    pub fn into_vec(self) -> Vec<Pair>
        ensures all { result.items ≡ self }
        ensures rising { IsRising pair_cmp self }
    {
        let Pairs { pairs } = self;
        pairs
    }

    /// Whether the pair is one of these.
    pub fn contains(&self, pair: &Pair) -> bool
        ensures { IsTrue result ↔ Contains self.now pair.now }
    {
        self.pairs.binary_search(pair).is_ok()
    }

    /// The pairs of one successor.
    pub fn of_successor(&self, successor: Serial) -> &[Pair]
        ensures rising { IsRising pair_cmp result.now }
        ensures all { (pair : Pair) →
            Contains result.now pair ↔ (Contains self.now pair × (pair.successor ≡ successor)) }
    {
        let start = self
            .pairs
            .partition_point(|pair| pair.successor < successor);
        let rest = &self.pairs[start..];
        let count = rest.partition_point(|pair| pair.successor <= successor);
        &rest[..count]
    }

    /// The pairs that are not among the others.
    pub fn without(&self, alloc: Global, others: &Pairs) -> Result<Pairs, AllocError>
        ensures { IfOk result (λ left. (pair : Pair) →
            Contains left pair ↔ (Contains self.now pair × (Contains others.now pair → ⊥))) }
    {
        let mut left = Vec::new(alloc);
        for pair in self.pairs.as_slice() {
            if !others.contains(pair) {
                left.push(*pair)?;
            }
        }
        Ok(Pairs::from_vec(left))
    }
}

/// The pairs from scratch: each open occurrence with its nearest predecessor in each application of its list, where
/// there is one. An occurrence is open in the long-term plan, and in the current plan while it waits.
pub fn resolve_all(alloc: Global, rows: &Rows, links: &Links) -> Result<Pairs, AllocError>
    ensures { IfOk result (ArePairsOf rows.now links.now) }
{
    resolve_some(alloc, rows, rows.as_slice(), links)
}

/// The pairs from scratch of some of the occurrences: each open one of these with its nearest predecessor among all
/// rows in each application of its list, where there is one.
pub fn resolve_some(
    alloc: Global,
    rows: &Rows,
    asked: &[PlacedRow],
    links: &Links,
) -> Result<Pairs, AllocError>
    ensures { IfOk result (λ pairs. (pair : Pair) →
        Contains pairs pair ↔ IsPairAmong rows.now asked.now links.now pair) }
{
    let live = Live::build(alloc, rows)?;
    let mut pairs = Vec::new(alloc);
    for placed in asked {
        if placed.place.is_open() {
            let list = links.list(&placed.row.key.app);
            push_pairs(&live, &placed.row, list, &mut pairs)?;
        }
    }
    Ok(Pairs::from_vec(pairs))
}

// Adds the pairs of one occurrence, by its application's list.
fn push_pairs(
    live: &Live,
    row: &Row,
    list: &[Link],
    pairs: &mut Vec<Pair>,
) -> Result<(), AllocError>
    ensures { OnOk result (AddsPairsOf live.now row.now list.now pairs.old.items pairs.new.items) }
{
    for link in list {
        if let Some(predecessor) = nearest(live, &row.key, &link.predecessor, link.within) {
            pairs.push(Pair {
                successor: row.serial,
                predecessor,
            })?;
        }
    }
    Ok(())
}
