// Tables, but for their trees.

ghost use Rattle.std.specs.Prelude.{◌≡◌, ◌↔◌, IsTrue};
ghost use Rattle.plan_tables_opening.specs.Alike.{HaveSameChecks, HaveSameColumns, HaveSameKeys, IsAlike};
ghost use Rattle.plan_tables_opening.specs.Indexes.{IsOfKey};

use crate::same_schema::values::{Same, are_same};
use sqlite_schema::schema::{Column, Index, Reference, Stamps, Table};

impl Same for Column {
    fn is_same(&self, other: &Column) -> bool {
        self.name.is_same(&other.name)
            && self.kind == other.kind
            && self.is_strict == other.is_strict
            && self.not_null == other.not_null
            && self.default.is_same(&other.default)
            && self.collation == other.collation
    }
}

impl Same for Reference {
    fn is_same(&self, other: &Reference) -> bool {
        self.columns.is_same(&other.columns)
            && self.parent.is_same(&other.parent)
            && are_same(
                self.parent_columns.as_slice(),
                other.parent_columns.as_slice(),
            )
            && self.on_delete == other.on_delete
            && self.on_update == other.on_update
            && self.is_deferred == other.is_deferred
    }
}

impl Same for Stamps {
    fn is_same(&self, other: &Stamps) -> bool {
        self.places.is_same(&other.places)
            && self.terms.is_same(&other.terms)
            && are_same(self.formats.as_slice(), other.formats.as_slice())
    }
}

// Whether the two have the same name, columns and key.
fn has_same_columns(a: &Table, b: &Table) -> bool
    ensures { IsTrue result ↔ HaveSameColumns a.now b.now }
{
    a.name.is_same(&b.name)
        && are_same(a.columns.as_slice(), b.columns.as_slice())
        && a.key == b.key
}

// Whether the two have the same keys.
fn has_same_keys(a: &Table, b: &Table) -> bool
    ensures { IsTrue result ↔ HaveSameKeys a.now b.now }
{
    a.primary.is_same(&b.primary)
        && are_same(a.uniques.as_slice(), b.uniques.as_slice())
        && are_same(a.orders.as_slice(), b.orders.as_slice())
        && are_same(a.references.as_slice(), b.references.as_slice())
}

// Whether the two have the same checks and defaults.
fn has_same_checks(a: &Table, b: &Table) -> bool
    ensures { IsTrue result ↔ HaveSameChecks a.now b.now }
{
    a.checks.is_same(&b.checks)
        && a.computed.is_same(&b.computed)
        && a.stamps.is_same(&b.stamps)
        && a.is_counted == b.is_counted
}

/// Whether the two are the same but for their trees.
pub(crate) fn is_alike(a: &Table, b: &Table) -> bool
    ensures { IsTrue result ↔ IsAlike a.now b.now }
{
    has_same_columns(a, b) && has_same_keys(a, b) && has_same_checks(a, b)
}

/// Whether the index is that of the only key of the table.
pub(crate) fn has_key(made: &Table, index: &Index) -> bool
    ensures { IsTrue result ↔ IsOfKey made.now index.now }
{
    let [columns] = made.uniques.as_slice() else {
        return false;
    };
    let [order] = made.orders.as_slice() else {
        return false;
    };
    columns.is_same(&index.columns) && order.is_same(&index.order)
}
