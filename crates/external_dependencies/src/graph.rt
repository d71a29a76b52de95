ghost use Rattle.std.specs.Prelude.{◌≢◌, ℕ, ◌<◌, ◌↔◌, length, IfOk, IsTrue, MatchBool, Contains, All};
ghost use Rattle.external_dependencies.specs.Walk.{ReturnsTo};
ghost use Rattle.external_dependencies.specs.Falling.{FallAlong, IsLeastReturning};
ghost use Rattle.external_dependencies.specs.Search.{Visits};
ghost use Rattle.std.specs.Ordering.{nat_cmp};
ghost use Rattle.std.specs.Cmp.Lexicographic.{slice_cmp};
ghost use Rattle.external_dependencies.specs.Rising.{IsRising};
ghost use Rattle.external_dependencies.specs.Places.{ArePlaces, IsGraphOf};

use crate::components::components;
use crate::falling::{lone, none_above};
use crate::links::{Link, Links};
use std::alloc::{AllocError, Global};
use std::marker::Model;
use work_calendars::App;

/// Edges between numbered nodes. Contracts see, for each node, the list of the nodes that its edges lead to.
#[derive(Drop)]
pub(crate) struct Graph {
    targets: Vec<Vec<usize>>,
}

impl Model for Graph {
    ghost use Rattle.std.specs.Prelude.{List, ℕ, map};
    ghost use Rattle.external_dependencies.specs.Walk.{IsGraph, items_of};

    ghost Value = { List (List ℕ) };

    ghost view = { λ g. map items_of g.targets.items };

    ghost invariant = { λ g. IsGraph (map items_of g.targets.items) };
}

impl Graph {
    /// The graph of the lists over their applications, by their places in `names`: an edge leads from an application
    /// to each in its list. A predecessor that has no list is left out.
    pub(crate) fn new(alloc: Global, links: &Links, names: &[App]) -> Result<Graph, AllocError>
        requires { IsRising (slice_cmp nat_cmp) names.now }
        ensures { IfOk result (λ graph. IsGraphOf links.now names.now (length names.now) graph) }
    {
        let mut targets = Vec::new(alloc);
        for name in names {
            targets.push(places(alloc, names, links.list(name))?)?;
        }
        Ok(Graph { targets })
    }

    /// Whether a walk along edges between different nodes leads from `start` back to it.
    pub(crate) fn returns_to(&self, alloc: Global, start: usize) -> Result<bool, AllocError>
        requires { start < length self.now }
        ensures { IfOk result (λ b. IsTrue b ↔ ReturnsTo self.now start) }
    {
        let mut reached = vec![in alloc; false; self.targets.len()]?;
        let mut order = Vec::new(alloc);
        order.push(start)?;
        let mut done = 0;
        while done < order.len() {
            let node = order[done];
            let targets = &self.targets[node];
            if visit(targets, node, start, &mut reached, &mut order)? {
                return Ok(true);
            }
            done += 1;
        }
        Ok(false)
    }

    /// The least node from which a walk along edges between different nodes leads back to it.
    pub(crate) fn least_returning(&self, alloc: Global) -> Result<Option<usize>, AllocError>
        ensures { IfOk result (IsLeastReturning self.now) }
    {
        let numbers = components(alloc, &self.targets)?;
        for node in self.settled(alloc, &numbers)?..self.targets.len() {
            if self.returns_to(alloc, node)? {
                return Ok(Some(node));
            }
        }
        Ok(None)
    }

    // How many nodes, from the first on, certainly don't lead back to themselves. If the numbers fall along the edges,
    // a node that leads back to itself shares its number with another. 0 if they don't fall.
    fn settled(&self, alloc: Global, numbers: &[usize]) -> Result<usize, AllocError>
        ensures { IfOk result (λ count. (node : ℕ) → node < count → node < length self.now →
            ReturnsTo self.now node → ⊥) }
    {
        if self.fall_along(numbers) {
            lone(alloc, numbers)
        } else {
            Ok(0)
        }
    }

    // Whether each node has a number, and no edge leads to a greater one.
    fn fall_along(&self, numbers: &[usize]) -> bool
        ensures { IsTrue result → FallAlong self.now numbers.now }
    {
        if numbers.len() != self.targets.len() {
            return false;
        }
        for (node, targets) in self.targets.iter().enumerate() {
            let number = numbers[node];
            if number >= numbers.len() || !none_above(targets, numbers, number) {
                return false;
            }
        }
        true
    }
}

// The places of the predecessors in a list.
fn places(alloc: Global, names: &[App], list: &[Link]) -> Result<Vec<usize>, AllocError>
    requires { IsRising (slice_cmp nat_cmp) names.now }
    ensures { IfOk result (λ found. ArePlaces names.now list.now found.items) }
{
    let mut found = Vec::new(alloc);
    for link in list {
        if let Ok(place) = names.binary_search(&link.predecessor) {
            found.push(place)?;
        }
    }
    Ok(found)
}

// Notes the targets of a node that were not reached before, and returns whether one of them is the start.
fn visit(
    targets: &[usize],
    node: usize,
    start: usize,
    reached: &mut Vec<bool>,
    order: &mut Vec<usize>,
) -> Result<bool, AllocError>
    requires { All (λ w. w < length reached.old.items) targets.now }
    ensures { IfOk result (λ found. MatchBool found (Contains targets.now start × (start ≢ node))
        (Visits targets.now node start
        reached.old.items order.old.items reached.new.items order.new.items)) }
{
    for &next in targets {
        if next == node || reached[next] {
            continue;
        }
        if next == start {
            return Ok(true);
        }
        order.push(next)?;
        reached[next] = true;
    }
    Ok(false)
}
