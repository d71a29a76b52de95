ghost use Rattle.std.specs.Prelude.{◌≡◌, []};

use occurrences::{Place, Row};
use std::alloc::Global;
use std::marker::Model;

/// An occurrence, and the place that it is in.
#[derive(Clone, Copy, Debug, PartialEq, Eq, Hash)]
pub struct PlacedRow {
    /// The occurrence.
    pub row: Row,
    /// The place that it is in.
    pub place: Place,
}

/// Occurrences with their places, in any order. Contracts see them as a list.
#[derive(Drop)]
pub struct Rows {
    rows: Vec<PlacedRow>,
}

impl Model for Rows {
    ghost use Rattle.std.specs.Prelude.{List};
    ghost use Rattle.external_dependencies.specs.declared.rows.PlacedRow.{PlacedRow};

    ghost Value = { List PlacedRow };

    ghost view = { λ r. r.rows.items };
}

impl Rows {
    /// No occurrences.
    pub fn new(alloc: Global) -> Rows
        ensures { result ≡ [] }
    {
        Rows {
            rows: Vec::new(alloc),
        }
    }

    /// These occurrences.
    pub fn from_vec(rows: Vec<PlacedRow>) -> Rows
        ensures { result ≡ rows.items }
    {
        Rows { rows }
    }

    /// The occurrences, in the order in which they were given.
    pub fn as_slice(&self) -> &[PlacedRow]
        ensures { result.now ≡ self.now }
    {
        self.rows.as_slice()
    }

    /// The occurrences, in the order in which they were given.
    pub fn into_vec(self) -> Vec<PlacedRow>
        ensures { result.items ≡ self }
    {
        let Rows { rows } = self;
        rows
    }
}
