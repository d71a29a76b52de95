// All that the tables show, read one after another.

ghost use Rattle.std.specs.Prelude.{◌≡◌, false, is_ok, None, IfOk, IfSome, IsSome};
ghost use Rattle.sqlite.specs.State.{HasCleanDisk};
ghost use Rattle.sqlite.specs.Held.{state};
ghost use Rattle.plan_tables_schema.specs.Rows.{Tables, tables_of};
ghost use Rattle.plan_store.specs.Contents.{content_of};
ghost use Rattle.plan_tables_content.specs.Content.{IsContentOf};
ghost use Rattle.plan_tables_loading.specs.Lists.{HasLists};
ghost use Rattle.plan_tables_loading.specs.Reading.{HasPlan, Looks};
ghost use Rattle.plan_tables_loading.specs.Tables.{HaveShownRowids, RepresentPlans};
ghost use Rattle.app_definitions.specs.declared.definitions.Definitions.{Definitions as DefinitionsValue};
ghost use Rattle.plan_tables_definitions.specs.Defined.{AreSoundDefinitions};
ghost use Rattle.plan_tables_definitions.specs.Storing.{HaveRows};
ghost use Rattle.plan_tables_loading.specs.Readable.{ArePlansReadable};
ghost use Rattle.plan_tables_opening.specs.Stored.{AllHaveRowids, HaveHiddenRowids, RepresentStored};

use crate::rowids::Rowids;
use crate::stored::Shown;
use crate::table_places::{
    APPLICATION, CALENDAR_ENTRY, LINK_IN_FORCE, OFFSET, PERIOD, PREDECESSOR, RUN_CYCLE,
};
use app_definitions::Definitions;
use plan_store::Content;
use plan_tables_definitions::{StoredRows, definitions_of_rows};
use plan_tables_loading::{PlanLists, TablePart, content_of_lists, read_lists};
use sqlite::{Alter, Connection, Error};
use std::alloc::{AllocError, Global};

// The rows of the tables of definitions.
type StoredParts = (
    (Shown<CALENDAR_ENTRY>, Shown<PERIOD>),
    (
        (Shown<APPLICATION>, Shown<RUN_CYCLE>),
        (Shown<OFFSET>, Shown<PREDECESSOR>),
    ),
);

// The rowids of the tables whose rows are read without them.
type HiddenRowids = (
    (
        (Rowids<CALENDAR_ENTRY>, Rowids<PERIOD>),
        (Rowids<APPLICATION>, Rowids<RUN_CYCLE>),
    ),
    ((Rowids<OFFSET>, Rowids<PREDECESSOR>), Rowids<LINK_IN_FORCE>),
);

/// The tables of the plans, and the rowids that are read with their rows.
#[derive(Drop)]
pub(crate) struct PlanPart {
    /// What they list.
    pub lists: PlanLists,
}

impl TablePart for PlanPart {
    ghost tells = { λ all part. RepresentPlans all part.lists × HaveShownRowids all };

    ghost in_order = { λ _. Unit {0} };

    ghost readable = { ArePlansReadable };

    fn read<S: Alter>(alloc: Global, conn: &mut Connection<S>) -> Result<Option<PlanPart>, Error> {
        match read_lists(alloc, conn)? {
            Some(lists) => Ok(Some(PlanPart { lists })),
            None => Ok(None),
        }
    }
}

/// The tables of the definitions.
#[derive(Drop)]
pub(crate) struct DefinitionPart {
    /// Their rows.
    pub stored: StoredRows,
}

fn stored_of(parts: StoredParts) -> StoredRows
    ensures { (all : Tables) → ⟦<StoredParts as TablePart>⟧.tells all parts → RepresentStored all result }
{
    let ((calendars, periods), ((applications, run_cycles), (offsets, predecessors))) = parts;
    StoredRows {
        calendars: calendars.rows,
        periods: periods.rows,
        applications: applications.rows,
        run_cycles: run_cycles.rows,
        offsets: offsets.rows,
        predecessors: predecessors.rows,
    }
}

impl TablePart for DefinitionPart {
    ghost tells = { λ all part. RepresentStored all part.stored };

    ghost in_order = { λ _. Unit {0} };

    ghost readable = { λ _. Unit {0} };

    fn read<S: Alter>(
        alloc: Global,
        conn: &mut Connection<S>,
    ) -> Result<Option<DefinitionPart>, Error> {
        match StoredParts::read(alloc, conn)? {
            Some(parts) => Ok(Some(DefinitionPart {
                stored: stored_of(parts),
            })),
            None => Ok(None),
        }
    }
}

/// The rowids of the tables whose rows are read without them.
#[derive(Drop)]
pub(crate) struct RowidPart {}

fn are_hidden(parts: HiddenRowids) -> RowidPart
    ensures { (all : Tables) → ⟦<HiddenRowids as TablePart>⟧.tells all parts → HaveHiddenRowids all }
{
    drop(parts);
    RowidPart {}
}

impl TablePart for RowidPart {
    ghost tells = { λ all _. HaveHiddenRowids all };

    ghost in_order = { λ _. Unit {0} };

    ghost readable = { AllHaveRowids };

    fn read<S: Alter>(alloc: Global, conn: &mut Connection<S>) -> Result<Option<RowidPart>, Error> {
        match HiddenRowids::read(alloc, conn)? {
            Some(parts) => Ok(Some(are_hidden(parts))),
            None => Ok(None),
        }
    }
}

// The content of these definitions and lists.
fn some_content(
    alloc: Global,
    definitions: Definitions,
    lists: PlanLists,
) -> Result<Option<Content>, AllocError>
    ensures made { IfOk result (λ found. IfSome found (λ content. HasLists definitions lists
        (content_of content))) }
    ensures some { IfOk result IsSome }
{
    Ok(Some(content_of_lists(alloc, definitions, lists)?))
}

// The definitions that have these rows, with the options that were read.
fn found_definitions(
    alloc: Global,
    lists: &PlanLists,
    stored: &StoredRows,
) -> Result<Option<Definitions>, AllocError>
    ensures made { IfOk result (λ found. IfSome found
        (HaveRows stored.now lists.now.meta.options)) }
    ensures refused { IfOk result (λ found. found ≡ None → (all : DefinitionsValue)
        → AreSoundDefinitions all
        → HaveRows stored.now lists.now.meta.options all → ⊥) }
{
    definitions_of_rows(alloc, stored, lists.meta.options)
}

/// The content that has these lists and rows; `None` where no sound definitions have these rows.
pub(crate) fn content_of_tables(
    alloc: Global,
    lists: PlanLists,
    stored: &StoredRows,
) -> Result<Option<Content>, AllocError>
    ensures made { IfOk result (λ found. IfSome found (λ content. (all : Tables)
        → RepresentPlans all lists
        → RepresentStored all stored.now → IsContentOf all (content_of content))) }
    ensures refused { IfOk result (λ found. found ≡ None → (all : DefinitionsValue)
        → AreSoundDefinitions all
        → HaveRows stored.now lists.meta.options all → ⊥) }
{
    match found_definitions(alloc, &lists, stored)? {
        Some(definitions) => some_content(alloc, definitions, lists),
        None => Ok(None),
    }
}
