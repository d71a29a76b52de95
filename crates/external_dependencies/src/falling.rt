ghost use Rattle.std.specs.Prelude.{◌≢◌, ℕ, ◌<◌, length, slice_index, All, IfOk, IsTrue};
ghost use Rattle.external_dependencies.specs.Falling.{AreInRange, IsAtMost, AreShared};

use std::alloc::{AllocError, Global};

// Whether the numbers of these nodes are at most the limit.
pub(crate) fn none_above(nodes: &[usize], numbers: &[usize], limit: usize) -> bool
    ensures { IsTrue result → All (IsAtMost numbers.now limit) nodes.now }
{
    for &node in nodes {
        if node >= numbers.len() || numbers[node] > limit {
            return false;
        }
    }
    true
}

// How many nodes from the first on have a number that no other node has.
pub(crate) fn lone(alloc: Global, numbers: &[usize]) -> Result<usize, AllocError>
    requires { AreInRange numbers.now }
    ensures { IfOk result (λ count. (i j : ℕ) → i < count → j < length numbers.now → i ≢ j →
        slice_index numbers.now i ≢ slice_index numbers.now j) }
{
    let shared = shared(alloc, numbers)?;
    let mut count = 0;
    for &number in numbers {
        if shared[number] {
            break;
        }
        count += 1;
    }
    Ok(count)
}

// Whether two nodes or more have a number, by number.
fn shared(alloc: Global, numbers: &[usize]) -> Result<Vec<bool>, AllocError>
    requires { AreInRange numbers.now }
    ensures { IfOk result (λ shared. AreShared numbers.now (length numbers.now) shared.items) }
{
    let mut seen = vec![in alloc; false; numbers.len()]?;
    let mut shared = vec![in alloc; false; numbers.len()]?;
    for &number in numbers {
        if seen[number] {
            shared[number] = true;
        } else {
            seen[number] = true;
        }
    }
    Ok(shared)
}
