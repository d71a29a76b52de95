// Numbers that fall along pairs, which then have no ring.

ghost use Rattle.std.specs.Prelude.{◌≡◌, ◌<◌, IsTrue, slice_index};
ghost use Rattle.std.specs.List.{All};
ghost use Rattle.plan_store_soundness.specs.Closed.{FallsBy};

use external_dependencies::Pair;
use occurrences::Serial;
use std::alloc::{AllocError, Global};

// How often the pairs are scanned at most.
const SWEEPS: usize = 32;

// The number of a serial; 0 where there is none.
fn number_of(numbers: &[u32], serial: Serial) -> u32
    ensures { result ≡ slice_index numbers.now serial }
{
    let at = serial.get() as usize;
    if at < numbers.len() { numbers[at] } else { 0 }
}

// Whether the predecessor has a lesser number.
fn falls(numbers: &[u32], pair: &Pair) -> bool
    ensures { IsTrue result → FallsBy numbers.now pair.now }
{
    number_of(numbers, pair.predecessor) < number_of(numbers, pair.successor)
}

// Whether the numbers fall along all of the pairs.
pub(crate) fn all_fall(numbers: &[u32], pairs: &[Pair]) -> bool
    ensures { IsTrue result → All (FallsBy numbers.now) pairs.now }
{
    for pair in pairs {
        if !falls(numbers, pair) {
            return false;
        }
    }
    true
}

// Raises the number of the successor above that of the predecessor; returns whether it had to.
fn raise(numbers: &mut [u32], pair: &Pair) -> bool {
    if falls(numbers, pair) {
        return false;
    }
    let number = number_of(numbers, pair.predecessor).saturating_add(1);
    if let Some(old) = numbers.get_mut(pair.successor.get() as usize) {
        *old = number;
    }
    true
}

// Scans the pairs forwards and backwards; returns whether a number was raised.
fn sweep(numbers: &mut [u32], pairs: &[Pair]) -> bool {
    let mut raised = false;
    for pair in pairs {
        raised |= raise(numbers, pair);
    }
    for pair in pairs.iter().rev() {
        raised |= raise(numbers, pair);
    }
    raised
}

/// Numbers for the serials. No contract says what they are: the caller checks them before using them. Where no long
/// chain of pairs goes to and fro between lesser and greater serials, they fall along the pairs.
pub(crate) fn depths(alloc: Global, rows: usize, pairs: &[Pair]) -> Result<Vec<u32>, AllocError> {
    let mut numbers = vec![in alloc; 0u32; rows.saturating_add(1)]?;
    for _ in 0..SWEEPS {
        if !sweep(&mut numbers, pairs) {
            break;
        }
    }
    Ok(numbers)
}
