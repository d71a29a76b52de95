// The changes in the tables of definitions.

ghost use Rattle.std.specs.Prelude.{◌≡◌, ◌∷◌, [], None, Some, IfOk};
ghost use Rattle.plan_tables_writing.specs.Redefining.{BringsRows, kind_of};
ghost use Rattle.plan_tables.specs.Representable.{BringMoves};

use app_definitions::{Block, Kind};
use plan_store::DefinitionChange;
use plan_tables_definitions::{
    application_rows, calendar_rows, cycle_rows, offset_rows, period_rows, predecessor_rows,
};
use plan_tables_writing::DefinitionMoves;
use std::alloc::{AllocError, Global};
use work_calendars::Name;

// Nothing moves.
fn nothing(alloc: Global) -> DefinitionMoves
    ensures { result.kind ≡ None }
{
    DefinitionMoves {
        kind: None,
        names: Vec::new(alloc),
        rows: Vec::new(alloc),
        offsets: Vec::new(alloc),
    }
}

// The rows of a name are deleted.
fn without_name(alloc: Global, kind: Kind, name: Name) -> Result<DefinitionMoves, AllocError>
    ensures kind { IfOk result (λ moves. moves.kind ≡ Some kind) }
    ensures names { IfOk result (λ moves. moves.names.items ≡ name ∷ []) }
    ensures rows { IfOk result (λ moves. moves.rows.items ≡ []) }
    ensures offsets { IfOk result (λ moves. moves.offsets.items ≡ []) }
{
    let mut names = Vec::new(alloc);
    names.push(name)?;
    Ok(DefinitionMoves {
        kind: Some(kind),
        names,
        rows: Vec::new(alloc),
        offsets: Vec::new(alloc),
    })
}

// The rows of a block are inserted.
fn rows_of_block(alloc: Global, block: &Block) -> Result<DefinitionMoves, AllocError>
    ensures kind { IfOk result (λ moves. moves.kind ≡ Some (kind_of block.now)) }
    ensures rows { IfOk result (λ moves. BringsRows block.now moves) }
{
    let offsets = Vec::new(alloc);
    match block {
        Block::Applications(more) => Ok(DefinitionMoves {
            kind: Some(Kind::Applications),
            names: more.names(alloc)?,
            rows: application_rows(alloc, more)?,
            offsets,
        }),
        Block::Calendars(more) => Ok(DefinitionMoves {
            kind: Some(Kind::Calendars),
            names: more.names(alloc)?,
            rows: calendar_rows(alloc, more)?,
            offsets,
        }),
        Block::Periods(more) => Ok(DefinitionMoves {
            kind: Some(Kind::Periods),
            names: more.names(alloc)?,
            rows: period_rows(alloc, more)?,
            offsets,
        }),
        Block::Predecessors(more) => Ok(DefinitionMoves {
            kind: Some(Kind::Predecessors),
            names: more.names(alloc)?,
            rows: predecessor_rows(alloc, more)?,
            offsets,
        }),
        Block::RunCycles(more) => Ok(DefinitionMoves {
            kind: Some(Kind::RunCycles),
            names: more.names(alloc)?,
            rows: cycle_rows(alloc, more)?,
            offsets: offset_rows(alloc, more)?,
        }),
        Block::Options(_given) => Ok(DefinitionMoves {
            kind: Some(Kind::Options),
            names: Vec::new(alloc),
            rows: Vec::new(alloc),
            offsets,
        }),
    }
}

/// The changes in the tables that a change of definitions makes.
pub(crate) fn moves_of(
    alloc: Global,
    change: &DefinitionChange,
) -> Result<DefinitionMoves, AllocError>
    ensures { IfOk result (BringMoves change.now) }
{
    match change {
        DefinitionChange::AsBefore => Ok(nothing(alloc)),
        DefinitionChange::Merged(block) => rows_of_block(alloc, block),
        DefinitionChange::Removed { kind, name } => without_name(alloc, *kind, *name),
    }
}
