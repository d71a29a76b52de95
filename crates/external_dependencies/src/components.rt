use std::alloc::{AllocError, Global};

// Tarjan's search for the strongly connected components of a graph, with a stack of its own. No contract says what it
// finds: its caller checks the result before using it.
#[derive(Drop)]
struct Search {
    // By node: when it was reached, counted from 1; 0 before, and the greatest number once its component is closed.
    reached: Vec<usize>,
    // By node: when the earliest open node that it leads to was reached.
    earliest: Vec<usize>,
    // By node: how many of its edges were followed.
    followed: Vec<usize>,
    // By node: the number of its component.
    component: Vec<usize>,
    // The path from the first node to the current one.
    path: Vec<usize>,
    // The nodes that were reached and whose components are not closed yet.
    open: Vec<usize>,
    // How many nodes were reached, and how many are in closed components.
    nodes_reached: usize,
    nodes_closed: usize,
}

impl Search {
    fn new(alloc: Global, nodes: usize) -> Result<Search, AllocError> {
        Ok(Search {
            reached: vec![in alloc; 0; nodes]?,
            earliest: vec![in alloc; 0; nodes]?,
            followed: vec![in alloc; 0; nodes]?,
            component: vec![in alloc; 0; nodes]?,
            path: Vec::new(alloc),
            open: Vec::new(alloc),
            nodes_reached: 0,
            nodes_closed: 0,
        })
    }

    // Reaches a node.
    fn enter(&mut self, node: usize) -> Result<(), AllocError> {
        self.path.push(node)?;
        self.open.push(node)?;
        self.nodes_reached = self.nodes_reached.wrapping_add(1);
        put(&mut self.reached, node, self.nodes_reached);
        put(&mut self.earliest, node, self.nodes_reached);
        Ok(())
    }

    // Notes that a node leads to one that was reached then.
    fn leads_to(&mut self, node: usize, reached: usize) {
        let earliest = at(&self.earliest, node).min(reached);
        put(&mut self.earliest, node, earliest);
    }

    // Closes the component of a node: the open nodes from it on.
    fn close(&mut self, node: usize) {
        let number = self.nodes_closed;
        while let Some(last) = self.open.pop() {
            put(&mut self.component, last, number);
            put(&mut self.reached, last, usize::MAX);
            self.nodes_closed = self.nodes_closed.wrapping_add(1);
            if last == node {
                break;
            }
        }
    }

    // Does one step; false if the path has come to its end.
    fn step(&mut self, targets: &[Vec<usize>]) -> Result<bool, AllocError> {
        let Some(node) = self.path.last().copied() else {
            return Ok(false);
        };
        let place = at(&self.followed, node);
        if let Some(to) = target(targets, node, place) {
            put(&mut self.followed, node, place.wrapping_add(1));
            match at(&self.reached, to) {
                0 => self.enter(to)?,
                reached => self.leads_to(node, reached),
            }
        } else {
            self.leave(node);
        }
        Ok(true)
    }

    // Leaves the last node of the path.
    fn leave(&mut self, node: usize) {
        let earliest = at(&self.earliest, node);
        if earliest == at(&self.reached, node) {
            self.close(node);
        }
        self.path.pop();
        if let Some(before) = self.path.last().copied() {
            self.leads_to(before, earliest);
        }
    }
}

// A number for each node: those of one component have one number, and no edge leads to a greater one.
pub(crate) fn components(alloc: Global, targets: &[Vec<usize>]) -> Result<Vec<usize>, AllocError> {
    let mut search = Search::new(alloc, targets.len())?;
    for root in 0..targets.len() {
        if at(&search.reached, root) == 0 {
            search.enter(root)?;
            for _ in 0..u64::MAX {
                if !search.step(targets)? {
                    break;
                }
            }
        }
    }
    let Search { component, .. } = search;
    Ok(component)
}

// The node that an edge leads to.
fn target(targets: &[Vec<usize>], node: usize, place: usize) -> Option<usize> {
    targets.get(node)?.get(place).copied()
}

// The number at a place; 0 where there is none.
fn at(numbers: &[usize], place: usize) -> usize {
    numbers.get(place).copied().unwrap_or(0)
}

fn put(numbers: &mut [usize], place: usize, number: usize) {
    if let Some(old) = numbers.get_mut(place) {
        *old = number;
    }
}
