// Rows of predecessors.

ghost use Rattle.std.specs.Prelude.{◌≡◌, ◌↔◌, length, map, IfOk, IfSome, OnOk, ℕ, List, IsSome, IsTrue};
ghost use Rattle.std.specs.FinMap as maps;
ghost use Rattle.sqlite.specs.declared.types.Value.TheVariants.{Text};
ghost use Rattle.plan_tables_content.specs.Facts.{IsPredecessorRow, predecessor_values};
ghost use Rattle.plan_tables_definitions.specs.Adding.{Adds, HaveOwnKeys, IsOfPlace};
ghost use Rattle.plan_tables_definitions.specs.Parts.{IsLinkRow};
ghost use Rattle.sqlite.specs.Order.{column};
ghost use Rattle.work_calendars.specs.Name.{IsName};
ghost use Rattle.work_calendars.specs.Within.{IsWithinHours};
ghost use Rattle.app_definition_records.specs.Rising.{AreRising};
ghost use Rattle.app_definition_records.specs.declared.predecessors.Predecessor.{Predecessor as PredecessorValue};
ghost use Rattle.plan_tables_content.specs.Content.{AreEach, ByName as Defined};
ghost use Rattle.plan_tables_definitions.specs.Drafted.{AreSoundPredecessors, IsReadPredecessor, predecessor_of};
ghost use Rattle.plan_tables_definitions.specs.Drafted.{predecessors_named, read_predecessor_named};
ghost use Rattle.plan_tables_definitions.specs.Gathering.{AreSound};
ghost use Rattle.plan_tables_definitions.specs.Storing.{AreRowsOf};
ghost use Rattle.plan_tables_definitions.specs.Representable.{ArePredecessors};

use crate::cells::{optional_limit, row_of};
use crate::columns::{name_at, optional_limit_at};
use crate::encoding::{Encoding, rows_of};
use crate::gathering::{Draft, gathered};
use app_definitions::{ByName, Predecessor, Predecessors};
use sqlite::types::ValueRef;
use sqlite_value::row::Row;
use std::alloc::{AllocError, Global};
use work_calendars::{Name, Within};

// The row of one predecessor of an application.
fn link_row(alloc: Global, app: &Name, predecessor: &Predecessor) -> Result<Row, AllocError>
    ensures { IfOk result (λ row. row ≡ predecessor_values app.now predecessor.now) }
{
    row_of(
        alloc,
        &[
            ValueRef::Text(app.as_bytes()),
            ValueRef::Text(predecessor.name.as_bytes()),
            optional_limit(&predecessor.within),
        ],
    )
}

// Appends the rows of these predecessors.
fn push_links(
    alloc: Global,
    rows: &mut Vec<Row>,
    app: &Name,
    listed: &[Predecessor],
) -> Result<(), AllocError>
    requires { AreRising (λ p. p.name) listed.now }
    ensures { OnOk result (Adds 2
        (IsOfPlace (λ _. IsLinkRow app.now) listed.now (length listed.now))
        rows.old.items rows.new.items) }
{
    for predecessor in listed {
        let row = link_row(alloc, app, predecessor)?;
        rows.push(row)?;
    }
    Ok(())
}

struct PredecessorRows;

impl Encoding for PredecessorRows {
    type Of = Predecessors;

    ghost IsRow = { IsPredecessorRow };

    ghost cells = { 1 };

    ghost named = { predecessors_named };

    fn push(
        alloc: Global,
        rows: &mut Vec<Row>,
        name: &Name,
        definition: &Predecessors,
    ) -> Result<(), AllocError> {
        push_links(alloc, rows, name, definition.as_slice())
    }
}

/// The rows of the lists of predecessors in the table `predecessor`.
pub fn predecessor_rows(
    alloc: Global,
    predecessors: &ByName<Predecessors>,
) -> Result<Vec<Row>, AllocError>
    ensures rows { IfOk result (λ rows. AreRowsOf IsPredecessorRow rows.items predecessors.now) }
    ensures keys { IfOk result (λ rows. HaveOwnKeys 2 rows.items) }
{
    rows_of::<PredecessorRows>(alloc, predecessors)
}

// The predecessor that a row of this application encodes, with its limit.
fn predecessor_at(row: &Row, app: &Name) -> Option<Predecessor>
    requires { column row.now 0 ≡ Text app.now }
    ensures value { IfSome result (λ p. row.now ≡ predecessor_values app.now p) }
    ensures found { (p : PredecessorValue) → IsName p.name → IfSome p.within IsWithinHours
        → row.now ≡ predecessor_values app.now p
        → result ≡ Some p }
{
    if row.len() != 3 {
        return None;
    }
    let name = name_at(row, 1)?;
    let within = optional_limit_at(row, 2)?;
    Some(Predecessor { name, within })
}

// The limit, or the lack of one, that was read with the name, or none where the name was not read.
fn limit_of(limits: &ByName<Option<Within>>, name: &Name) -> Option<Option<Within>>
    ensures { result ≡ maps.get limits.now name.now }
{
    limits.get(name).copied()
}

// The predecessor of this name, with the limit that was read with it.
fn predecessor_of(limits: &ByName<Option<Within>>, name: &Name) -> Predecessor
    ensures { result ≡ predecessor_of limits.now name.now }
{
    let within = match limit_of(limits, name) {
        Some(within) => within,
        None => None,
    };
    Predecessor {
        name: *name,
        within,
    }
}

// The predecessors of these names.
fn predecessors_of(
    alloc: Global,
    limits: &ByName<Option<Within>>,
    names: &[Name],
) -> Result<Vec<Predecessor>, AllocError>
    ensures { IfOk result (λ listed. listed.items ≡ map (predecessor_of limits.now) names.now) }
{
    names
        .iter()
        .map(|name| predecessor_of(limits, name))
        .collect(alloc)
}

// The predecessors that the rows encode: of each name its limit.
#[derive(Drop)]
struct PredecessorDraft {
    limits: ByName<Option<Within>>,
}

impl Draft for PredecessorDraft {
    type Of = Predecessors;

    ghost IsRow = { IsPredecessorRow };

    ghost IsSound = { AreSoundPredecessors };

    ghost IsTold = { ArePredecessors };

    ghost IsRead = { λ name x. IsReadPredecessor name x.limits };

    fn begin(alloc: Global) -> PredecessorDraft {
        PredecessorDraft {
            limits: ByName::new(alloc),
        }
    }

    fn join(&mut self, name: &Name, row: &Row) -> Result<bool, AllocError> {
        let Some(read) = predecessor_at(row, name) else {
            return Ok(false);
        };
        match limit_of(&self.limits, &read.name) {
            Some(within) => Ok(within == read.within),
            None => {
                self.limits.insert(read.name, read.within)?;
                Ok(true)
            }
        }
    }

    fn finish(&self, alloc: Global, _name: &Name) -> Result<Option<Predecessors>, AllocError> {
        let names = self.limits.names(alloc)?;
        let listed = predecessors_of(alloc, &self.limits, &names)?;
        Ok(Predecessors::from_vec(listed))
    }

    ghost named = { predecessors_named };

    ghost read_named = { λ name x v is. read_predecessor_named name x.limits v is };
}

/// The lists of predecessors that have exactly these rows, or none where no sound ones have.
pub(crate) fn read_predecessors(
    alloc: Global,
    rows: &[Row],
) -> Result<Option<ByName<Predecessors>>, AllocError>
    ensures made { IfOk result (λ found. IfSome found (AreRowsOf IsPredecessorRow rows.now)) }
    ensures told { IfOk result (λ found. IfSome found (AreEach ArePredecessors)) }
    ensures found { IfOk result (λ found. (all : Defined (List PredecessorValue))
        → AreSound AreSoundPredecessors all
        → AreRowsOf IsPredecessorRow rows.now all → IsSome found) }
{
    gathered::<PredecessorDraft>(alloc, rows)
}
