ghost use Rattle.std.specs.Prelude.{◌≡◌, ℕ, ◌-◌, ◌≤◌, ◌<◌, ◌⊎◌, MatchBool, IfOk, MatchOption, None, Some, length};
ghost use Rattle.std.specs.Prelude.{vec_len, slice_index_or, slice_set, Option};
ghost use Rattle.external_dependencies.specs.declared.rows.PlacedRow.{PlacedRow as PlacedValue};
ghost use Rattle.std.specs.List.{AllPairs};
ghost use Rattle.plan_store_soundness.specs.Pairs.{at_serial};
ghost use Rattle.plan_store_soundness.specs.Seats.{AreSeated, IsTable, Puts};

use external_dependencies::PlacedRow;
use occurrences::Serial;
use std::alloc::{AllocError, Global};

/// The row of a serial in a table by serials.
pub(crate) fn row_of(table: &[Option<PlacedRow>], serial: Serial) -> Option<PlacedRow>
    ensures { result ≡ at_serial table.now serial }
{
    let at = serial.get() as usize - 1;
    if at < table.len() { table[at] } else { None }
}

// Puts a row at the place of its serial; false if there is no such place, or it has a row.
fn put(table: &mut Vec<Option<PlacedRow>>, placed: &PlacedRow) -> bool
    ensures { Puts placed.now table.old.items table.new.items result }
{
    let at = placed.row.serial.get() as usize - 1;
    if at >= table.len() {
        return false;
    }
    match table[at] {
        Some(_) => false,
        None => {
            table[at] = Some(*placed);
            true
        }
    }
}

// Whether each place has a row.
fn is_full(table: &[Option<PlacedRow>]) -> bool
    ensures { MatchBool result ((k : ℕ) → k < length table.now → (p : PlacedValue) ×
        (slice_index_or table.now k None ≡ Some p)) ((k : ℕ) × (k < length table.now) ×
        (slice_index_or table.now k None ≡ None)) }
{
    for row in table {
        match row {
            Some(_) => {}
            None => return false,
        }
    }
    true
}

// The rows by serial, if each serial from 1 to the number issued has one of them, and no other serial has; else
// `None`.
pub(crate) fn table_of(
    alloc: Global,
    issued: u32,
    all: &[PlacedRow],
) -> Result<Option<Vec<Option<PlacedRow>>>, AllocError>
    requires { AllPairs (λ x y. x ≡ y → ⊥) all.now }
    ensures { IfOk result (λ made. MatchOption made (AreSeated issued all.now → ⊥)
        (λ table. IsTable issued all.now table.items)) }
{
    let mut table = vec![in alloc; None; issued as usize]?;
    for placed in all {
        if !put(&mut table, placed) {
            return Ok(None);
        }
    }
    if is_full(&table) {
        Ok(Some(table))
    } else {
        Ok(None)
    }
}
