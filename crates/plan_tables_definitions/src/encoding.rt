// The rows of all definitions of a kind.

ghost use Rattle.std.specs.Prelude.{◌≡◌, ℕ, suc, List, length, IfOk, OnOk};
ghost use Rattle.sqlite.specs.Order.{Row as Values, column};
ghost use Rattle.sqlite.specs.declared.types.Value.TheVariants.{Text};
ghost use Rattle.app_definition_records.specs.Rising.{AreRising};
ghost use Rattle.plan_tables_definitions.specs.Adding.{Adds, HaveOwnKeys, IsOfName, IsOfPlace};
ghost use Rattle.plan_tables_definitions.specs.Storing.{AreRowsOf};

use app_definitions::ByName;
use sqlite_value::row::Row;
use std::alloc::{AllocError, Global};
use work_calendars::Name;

/// The rows of definitions in one of the tables.
pub(crate) trait Encoding {
    /// A definition.
    type Of;

    /// It is a row of the definition of the name.
    ghost IsRow: { List ℕ → Self.Of → Values → Type 0 };

    /// How many cells, apart from the name, distinguish a row of a definition from the others.
    ghost cells: { ℕ };

    /// A row begins with its name.
    ghost named: { (name : List ℕ) (d : Self.Of) (v : Values) → IsRow name d v
        → column v 0 ≡ Text name };

    /// Appends the rows of the definition.
    fn push(
        alloc: Global,
        rows: &mut Vec<Row>,
        name: &Name,
        definition: &Self::Of,
    ) -> Result<(), AllocError>
        ensures { OnOk result
            (Adds (suc cells) (IsRow name.now definition.now) rows.old.items rows.new.items) };
}

// Appends the rows of what is defined by the name.
fn push_named<E: Encoding>(
    alloc: Global,
    rows: &mut Vec<Row>,
    definitions: &ByName<E::Of>,
    name: &Name,
) -> Result<(), AllocError>
    ensures { OnOk result
        (Adds (suc E.cells) (IsOfName E.IsRow definitions.now name.now)
        rows.old.items rows.new.items) }
{
    match definitions.get(name) {
        Some(definition) => E::push(alloc, rows, name, definition),
        None => Ok(()),
    }
}

// Appends the rows of what is defined by these names.
fn push_each<E: Encoding>(
    alloc: Global,
    rows: &mut Vec<Row>,
    definitions: &ByName<E::Of>,
    names: &[Name],
) -> Result<(), AllocError>
    requires { AreRising (λ name. name) names.now }
    ensures { OnOk result (Adds (suc E.cells)
        (IsOfPlace (λ _. IsOfName E.IsRow definitions.now) names.now (length names.now))
        rows.old.items rows.new.items) }
{
    for name in names {
        push_named::<E>(alloc, rows, definitions, name)?;
    }
    Ok(())
}

/// The rows of all definitions.
pub(crate) fn rows_of<E: Encoding>(
    alloc: Global,
    definitions: &ByName<E::Of>,
) -> Result<Vec<Row>, AllocError>
    ensures rows { IfOk result (λ rows. AreRowsOf E.IsRow rows.items definitions.now) }
    ensures keys { IfOk result (λ rows. HaveOwnKeys (suc E.cells) rows.items) }
{
    let names = definitions.names(alloc)?;
    let mut rows = Vec::new(alloc);
    push_each::<E>(alloc, &mut rows, definitions, &names)?;
    Ok(rows)
}
