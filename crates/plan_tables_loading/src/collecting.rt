// The facts that rows encode, collected one at a time.

ghost use Rattle.std.specs.Prelude.{◌≡◌, [], ◌∷◌, ◌++◌, false, map, IfOk, IsTrue};

use crate::decode::Decode;
use plan_tables_lookups::{RowRefused, ValuesSink};
use sqlite::Row as Cells;
use std::alloc::{AllocError, Global};

/// Keeps what each row encodes that it accepts.
#[derive(Drop)]
pub(crate) struct Collector<X> {
    /// The allocator.
    pub alloc: Global,
    /// What the rows encode that it accepted.
    pub xs: Vec<X>,
    /// If it refused a row, whether memory was refused; if not, nothing has the values of that row.
    pub is_short: bool,
}

// Appends what the row encodes; false if nothing has its values.
fn put<X: Decode + Drop>(alloc: Global, xs: &mut Vec<X>, cells: &Cells) -> Result<bool, AllocError>
    ensures put { IfOk result (λ is_told. IsTrue is_told
        → map X.values xs.new.items ≡ map X.values xs.old.items ++ cells.now ∷ []) }
    ensures none { IfOk result (λ is_told. is_told ≡ false → (x : X) → X.has_form x
        → X.values x ≡ cells.now → ⊥) }
{
    match X::decode(alloc, cells)? {
        Some(x) => {
            xs.push(x)?;
            Ok(true)
        }
        None => Ok(false),
    }
}

impl<X: Decode + Drop> ValuesSink for Collector<X> {
    ghost accepts = { λ old row new.
        map X.values new.xs.items ≡ map X.values old.xs.items ++ row ∷ [] };

    ghost refuses = { λ old row new. new.is_short ≡ false → (x : X) → X.has_form x
        → X.values x ≡ row → ⊥ };

    fn accept(&mut self, cells: &Cells) -> Result<(), RowRefused> {
        match put(self.alloc, &mut self.xs, cells) {
            Ok(true) => Ok(()),
            Ok(false) => {
                self.is_short = false;
                Err(RowRefused)
            }
            Err(AllocError) => {
                self.is_short = true;
                Err(RowRefused)
            }
        }
    }
}
