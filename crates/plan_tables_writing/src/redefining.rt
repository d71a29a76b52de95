// Definitions in their tables.

ghost use Rattle.std.specs.Prelude.{⊤};
ghost use Rattle.plan_tables_schema.specs.Rows.{IsAlone, with_cells, without_key};
ghost use Rattle.plan_tables_schema.specs.Accepted.{LosesKey, AcceptsRow};
ghost use Rattle.plan_tables_definitions.specs.Storing.{IsStorable};
ghost use Rattle.plan_tables_writing.specs.Redefining.{AreAlone, AreRowsFor, AreStorableMoves};
ghost use Rattle.plan_tables_schema.specs.declared.tables.Table.TheVariants.{Offset, RunCycle};
ghost use Rattle.plan_tables_writing.specs.Redefining.{cycles_gone, cycles_put, cycles_renewed, definitions_moved};
ghost use Rattle.plan_tables_writing.specs.Redefining.{name_key, renewed, rows_of};
ghost use Rattle.plan_tables_writing.specs.Accepted.{AreKeysOf, AcceptsCycles, AcceptsEach, AcceptsKind};
ghost use Rattle.plan_tables_writing.specs.Accepted.{AcceptsNamed, WritesAccepted};
ghost use Rattle.plan_tables_writing.specs.Writing.{StandAlone, with_each, without_each};

use crate::lone_rows::write_meta;
use crate::loops::{ForEach, write_each};
use app_definitions::Kind;
use plan_store::Content;
use plan_tables_definitions::lend;
use plan_tables_schema::{Table, delete, insert};
use sqlite::types::ValueRef;
use sqlite::{Alter, Error, Transaction};
use sqlite_value::row::Row;
use std::alloc::Global;
use work_calendars::Name;

/// The changes in the tables of definitions: of one kind, if any, the rows of these names are deleted, and those rows
/// inserted.
#[derive(Drop)]
pub struct DefinitionMoves {
    /// The kind; `None` if nothing changes.
    pub kind: Option<Kind>,
    /// The names whose rows are deleted.
    pub names: Vec<Name>,
    /// The rows that are inserted.
    pub rows: Vec<Row>,
    /// Of run cycles, the rows of their offsets, which are inserted too.
    pub offsets: Vec<Row>,
}

// Inserts a row into the table.
fn put_row<S: Alter>(
    tx: &mut Transaction<'_, S>,
    alloc: Global,
    table: Table,
    row: &Row,
) -> Result<(), Error>
    ensures { WritesAccepted (λ _. IsStorable table row.now)
        (λ all. IsStorable table row.now × AcceptsRow table row.now all) S.Store tx.old tx.new result
        (with_cells table row.now) }
{
    let values = lend(alloc, row)?;
    insert(tx, table, &values)
}

// A row, in the table.
#[derive(Drop)]
struct PutRow {
    alloc: Global,
    table: Table,
}

impl ForEach<Row> for PutRow {
    ghost fits = { λ it row _. IsStorable it.table row };

    ghost accepts = { λ it row all. IsStorable it.table row × AcceptsRow it.table row all };

    ghost makes = { λ it row. with_cells it.table row };

    fn write<S: Alter>(&self, tx: &mut Transaction<'_, S>, item: &Row) -> Result<(), Error> {
        put_row(tx, self.alloc, self.table, item)
    }
}

// Inserts rows into the table.
fn put_rows<S: Alter>(
    tx: &mut Transaction<'_, S>,
    alloc: Global,
    table: Table,
    rows: &[Row],
) -> Result<(), Error>
    ensures { WritesAccepted (λ _. AreRowsFor table rows.now)
        (λ all. AreRowsFor table rows.now × AcceptsEach table rows_of rows.now all)
        S.Store tx.old tx.new result
        (with_each table rows_of rows.now) }
{
    write_each(tx, &PutRow { alloc, table }, rows)
}

// Deletes the rows of a name from the table.
fn delete_name<S: Alter>(
    tx: &mut Transaction<'_, S>,
    table: Table,
    name: &Name,
) -> Result<(), Error>
    ensures { WritesAccepted (IsAlone table (name_key name.now)) (LosesKey table (name_key name.now))
        S.Store tx.old tx.new result
        (without_key table (name_key name.now)) }
{
    delete(tx, table, &[ValueRef::Text(name.as_bytes())])
}

// The rows of a name, out of the table.
#[derive(Drop)]
struct DeleteName {
    table: Table,
}

impl ForEach<Name> for DeleteName {
    ghost fits = { λ it name. IsAlone it.table (name_key name) };

    ghost accepts = { λ it name. LosesKey it.table (name_key name) };

    ghost makes = { λ it name. without_key it.table (name_key name) };

    fn write<S: Alter>(&self, tx: &mut Transaction<'_, S>, item: &Name) -> Result<(), Error> {
        delete_name(tx, self.table, item)
    }
}

// Deletes the rows of these names from the table.
fn delete_names<S: Alter>(
    tx: &mut Transaction<'_, S>,
    table: Table,
    names: &[Name],
) -> Result<(), Error>
    ensures { WritesAccepted (AreAlone table names.now)
        (λ all. AreKeysOf table name_key × AreAlone table names.now all)
        S.Store tx.old tx.new result
        (without_each table name_key names.now) }
{
    write_each(tx, &DeleteName { table }, names)
}

// Deletes the rows of these names from the table, and inserts rows.
fn renew<S: Alter>(
    tx: &mut Transaction<'_, S>,
    alloc: Global,
    table: Table,
    moves: &DefinitionMoves,
) -> Result<(), Error>
    ensures { WritesAccepted (λ _. StandAlone table × AreRowsFor table moves.now.rows.items)
        (λ all. (AreKeysOf table name_key × StandAlone table)
        × (AreRowsFor table moves.now.rows.items
        × AcceptsNamed table moves.now.names.items moves.now.rows.items all))
        S.Store tx.old tx.new result
        (renewed table moves.now.names.items moves.now.rows.items) }
{
    delete_names(tx, table, &moves.names)?;
    put_rows(tx, alloc, table, &moves.rows)
}

// Deletes the run cycles of these applications from their table, after their offsets.
fn delete_cycles<S: Alter>(tx: &mut Transaction<'_, S>, apps: &[Name]) -> Result<(), Error>
    ensures { WritesAccepted (λ _. ⊤) (λ _. ⊤) S.Store tx.old tx.new result (cycles_gone apps.now) }
{
    delete_names(tx, Table::Offset, apps)?;
    delete_names(tx, Table::RunCycle, apps)
}

// Inserts run cycles into their table, before their offsets.
fn put_cycles<S: Alter>(
    tx: &mut Transaction<'_, S>,
    alloc: Global,
    cycles: &[Row],
    offsets: &[Row],
) -> Result<(), Error>
    ensures { WritesAccepted (λ _. AreRowsFor RunCycle cycles.now × AreRowsFor Offset offsets.now)
        (λ all. (AreRowsFor RunCycle cycles.now × AcceptsEach RunCycle rows_of cycles.now all)
        × (AreRowsFor Offset offsets.now
        × AcceptsEach Offset rows_of offsets.now (with_each RunCycle rows_of cycles.now all)))
        S.Store tx.old tx.new result
        (cycles_put cycles.now offsets.now) }
{
    put_rows(tx, alloc, Table::RunCycle, cycles)?;
    put_rows(tx, alloc, Table::Offset, offsets)
}

// Deletes the run cycles of these applications, and inserts run cycles.
fn renew_cycles<S: Alter>(
    tx: &mut Transaction<'_, S>,
    alloc: Global,
    moves: &DefinitionMoves,
) -> Result<(), Error>
    ensures { WritesAccepted
        (λ _. AreRowsFor RunCycle moves.now.rows.items × AreRowsFor Offset moves.now.offsets.items)
        (λ all. (AreRowsFor RunCycle moves.now.rows.items
        × AreRowsFor Offset moves.now.offsets.items) × AcceptsCycles moves.now all)
        S.Store tx.old tx.new result
        (cycles_renewed moves.now.names.items moves.now.rows.items moves.now.offsets.items) }
{
    delete_cycles(tx, &moves.names)?;
    put_cycles(tx, alloc, &moves.rows, &moves.offsets)
}

/// Changes the rows of definitions. The content already has the options that are stored.
#[tactic(auto, using(crate::proofs::KindLemmas::kinds))]
pub(crate) fn write_definitions<S: Alter>(
    tx: &mut Transaction<'_, S>,
    alloc: Global,
    content: &Content,
    moves: &DefinitionMoves,
) -> Result<(), Error>
    ensures { WritesAccepted (λ _. AreStorableMoves moves.now)
        (λ all. AreStorableMoves moves.now × AcceptsKind moves.now.kind content.now.bounds
        content.now.issued content.now.definitions.options moves.now all)
        S.Store tx.old tx.new result
        (definitions_moved content.now.bounds content.now.issued content.now.definitions.options
        moves.now) }
{
    match moves.kind {
        None => Ok(()),
        Some(Kind::Applications) => renew(tx, alloc, Table::Application, moves),
        Some(Kind::Calendars) => renew(tx, alloc, Table::CalendarEntry, moves),
        Some(Kind::Periods) => renew(tx, alloc, Table::Period, moves),
        Some(Kind::Predecessors) => renew(tx, alloc, Table::Predecessor, moves),
        Some(Kind::RunCycles) => renew_cycles(tx, alloc, moves),
        Some(Kind::Options) => write_meta(
            tx,
            &content.bounds,
            content.issued,
            &content.definitions.options,
        ),
    }
}
