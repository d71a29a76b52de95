//! Laws of the definitions: each is the contract of a function that does nothing.

ghost use Rattle.std.specs.Prelude.{◌≡◌, ◌↔◌, true};
ghost use Rattle.external_dependencies.specs.Laws.{NearestIsUnique, NearestArrivesLast, PairsDependOnSet};
ghost use Rattle.external_dependencies.specs.Laws.{PairsHaveNoLoop, NoRowPrecedesItself, IsOrderBy, IsOrderOfNames};
ghost use Rattle.external_dependencies.specs.Arrival.{arrival_cmp, ArrivalBefore};
ghost use Rattle.external_dependencies.specs.Link.{link_cmp, HaveSameNames};
ghost use Rattle.external_dependencies.specs.Pair.{pair_cmp, PairBefore};
ghost use Rattle.external_dependencies.specs.Rising.{RisingIsUnique};

use crate::links::Link;
use crate::live::Arrival;
use crate::pairs::Pair;

/// An occurrence has one nearest predecessor in an application at most.
pub fn nearest_is_unique()
    ensures { NearestIsUnique }
{}

/// Where no two live occurrences have one key, every other candidate arrives strictly before the nearest predecessor.
pub fn nearest_arrives_last()
    ensures { NearestArrivesLast }
{}

/// The pairs from scratch depend on the set of rows and on the set of links alone.
pub fn pairs_depend_on_set()
    ensures { PairsDependOnSet }
{}

/// Where each serial names one occurrence, no occurrence precedes itself, and where the lists have no loop either, the
/// pairs from scratch have no loop.
pub fn pairs_have_no_loop()
    ensures ring { PairsHaveNoLoop }
    ensures itself { NoRowPrecedesItself }
{}

/// Pairs, links and arrivals in rising order are determined by their elements alone.
pub fn rising_is_unique()
    ensures pairs { RisingIsUnique pair_cmp }
    ensures links { RisingIsUnique link_cmp }
    ensures arrivals { RisingIsUnique arrival_cmp }
{}

/// Pairs are ordered by successor, then by predecessor: a strict order, by which they compare and test as equal.
pub fn pair_order()
    ensures order { IsOrderBy pair_cmp PairBefore }
    ensures compared { (a b : Pair) → ⟦<Pair as Ord>⟧.cmp a b ≡ pair_cmp a b }
    ensures equal { (a b : Pair) → (⟦<Pair as PartialEq>⟧.eq a b ≡ true) ↔ (a ≡ b) }
{}

/// Links are ordered by application, then by predecessor, in byte order: a strict order of names, by which they compare
/// and test as equal. Their limits are not looked at.
pub fn link_order()
    ensures order { IsOrderOfNames }
    ensures compared { (a b : Link) → ⟦<Link as Ord>⟧.cmp a b ≡ link_cmp a b }
    ensures equal { (a b : Link) → (⟦<Link as PartialEq>⟧.eq a b ≡ true) ↔ HaveSameNames a b }
{}

/// Arrivals are ordered by application in byte order, then by input arrival, then by serial: a strict order, by which
/// they compare and test as equal.
pub fn arrival_order()
    ensures order { IsOrderBy arrival_cmp ArrivalBefore }
    ensures compared { (a b : Arrival) → ⟦<Arrival as Ord>⟧.cmp a b ≡ arrival_cmp a b }
    ensures equal { (a b : Arrival) → (⟦<Arrival as PartialEq>⟧.eq a b ≡ true) ↔ (a ≡ b) }
{}
