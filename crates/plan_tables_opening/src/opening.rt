// A database is opened.

ghost use Rattle.std.specs.Prelude.{◌≡◌, ◌↔◌, false, is_ok, map, None, IfErr, IfOk, IfSome, IsTrue};
ghost use Rattle.sqlite.specs.State.{HasCleanDisk, Survives};
ghost use Rattle.sqlite.specs.Held.{state};
ghost use Rattle.planner_machine.specs.Content.{nothing_known};
ghost use Rattle.planner_machine.specs.Sound.{IsSound};
ghost use Rattle.plan_tables_schema.specs.Rows.{MayFail, Tables, shown, tables_of};
ghost use Rattle.plan_tables_schema.specs.declared.tables.Table.TheVariants.{Meta};
ghost use Rattle.plan_store.specs.Contents.{content_of};
ghost use Rattle.plan_tables_content.specs.Content.{IsContentOf};
ghost use Rattle.plan_tables_loading.specs.Reading.{HasPlan, Looks};
ghost use Rattle.plan_tables_loading.specs.Tables.{RepresentPlans};
ghost use Rattle.plan_tables_opening.specs.declared.faults.OpenFault.TheVariants.{Rows};
ghost use Rattle.plan_tables_opening.specs.First.{IsBeside};
ghost use Rattle.plan_tables_opening.specs.Foreign.{IsForeign};
ghost use Rattle.plan_tables_opening.specs.Held.{AreKnown, HasVersion, HoldSound, HoldsPlan};
ghost use Rattle.plan_tables_opening.specs.Judging.{IsJudged, IsSoundIfFound};
ghost use Rattle.plan_tables_opening.specs.Opened.{HasRoom, IsCommon, IsStored, IsUnmade, MakesFirst};
ghost use Rattle.plan_tables_opening.specs.Opening.{IsOpened, IsUnopened, IsUnread};
ghost use Rattle.plan_tables_opening.specs.Stored.{RepresentStored};

use crate::faults::{OpenFault, fault_for};
use crate::judging::{Judged, found_by, tell};
use crate::making::make_first;
use crate::schemas::{Found, find_tables};
use crate::version_texts::version_text;
use crate::whole::{DefinitionPart, PlanPart, RowidPart, content_of_tables};
use plan_store::Content;
use plan_store_soundness::is_sound;
use plan_tables_content::tables_have_one_content;
use plan_tables_definitions::StoredRows;
use plan_tables_loading::{PlanLists, TablePart};
use plan_tables_schema::{SCHEMA_VERSION, Table, select};
use planner_machine::empty_content_is_sound;
use sqlite::types::ValueRef;
use sqlite::{Alter, Connection, Error, Row as Cells};
use std::alloc::{AllocError, Global};

// The content, if it is sound.
fn if_sound(alloc: Global, content: Content) -> Result<Option<Content>, AllocError>
    ensures sound { IfOk result (λ found. IfSome found (λ same. IsSound (content_of same))) }
    ensures same { IfOk result (λ found. IfSome found (λ same.
        content_of same ≡ content_of content)) }
    ensures refused { IfOk result (λ found. found ≡ None → IsSound (content_of content) → ⊥) }
{
    if is_sound(alloc, &content)? {
        Ok(Some(content))
    } else {
        Ok(None)
    }
}

// The sound content that has these lists and rows, if there is one.
fn sound_content(
    alloc: Global,
    lists: PlanLists,
    stored: &StoredRows,
) -> Result<Option<Content>, AllocError>
    ensures sound { IfOk result (λ found. IfSome found (λ content. IsSound (content_of content))) }
    ensures content { IfOk result (λ found. IfSome found (λ content. (all : Tables)
        → RepresentPlans all lists
        → RepresentStored all stored.now
        → IsContentOf all (content_of content))) }
    ensures refused { IfOk result (λ found. found ≡ None → (all : Tables) → RepresentPlans all lists
        → RepresentStored all stored.now
        → HoldSound all → ⊥) }
{
    tables_have_one_content();
    match content_of_tables(alloc, lists, stored)? {
        Some(content) => if_sound(alloc, content),
        None => Ok(None),
    }
}

/// Whether these are the one row of a known version.
pub fn is_known(rows: &[Cells]) -> bool
    ensures { IsTrue result ↔ AreKnown rows.now }
{
    match rows {
        [cells] => match cells.get_ref(1) {
            Ok(ValueRef::Int(version)) => version == i64::from(SCHEMA_VERSION),
            _ => false,
        },
        _ => false,
    }
}

// Whether the tables of the plan are of a known version.
#[tactic(auto, unfolding(plan_tables_loading::specs::Reading::HasPlan))]
fn has_version<S: Alter>(conn: &mut Connection<S>) -> Result<bool, Error>
    ensures told { HasCleanDisk (state S.Store conn.new) → HasPlan (state S.Store conn.old)
        → IfOk result (λ b.
        IsTrue b ↔ AreKnown (map (shown Meta)
        (tables_of (state S.Store conn.old).now.trees Meta))) }
    ensures looks { Looks (state S.Store conn.old) (state S.Store conn.new) (is_ok result) }
    ensures fails { HasCleanDisk (state S.Store conn.new) → HasPlan (state S.Store conn.old)
        → IfErr result (MayFail (state S.Store conn.old) (state S.Store conn.new)) }
    ensures mode { conn.old.in_transaction ≡ false → conn.new.in_transaction ≡ false }
{
    let rows = select(conn, Table::Meta)?;
    Ok(is_known(&rows))
}

// What is found of tables of a known version.
fn read_whole<S: Alter>(alloc: Global, conn: &mut Connection<S>) -> Result<Judged, Error>
    requires { conn.old.in_transaction ≡ false }
    ensures judged { HasCleanDisk (state S.Store conn.new) → HasVersion (state S.Store conn.old)
        → IfOk result (IsJudged (state S.Store conn.old) (state S.Store conn.new)) }
    ensures sound { IfOk result IsSoundIfFound }
    ensures looks { Looks (state S.Store conn.old) (state S.Store conn.new) (is_ok result) }
    ensures fails { HasCleanDisk (state S.Store conn.new) → HasPlan (state S.Store conn.old)
        → IfErr result (MayFail (state S.Store conn.old) (state S.Store conn.new)) }
    ensures mode { conn.new.in_transaction ≡ false }
{
    let settled = conn.is_autocommit();
    prove!(settled);
    // its clause says that an open connection has a database
    let _ = conn.schema();
    match <(RowidPart, (PlanPart, DefinitionPart))>::read(alloc, conn)? {
        Some((_, (plans, definitions))) => {
            let found = sound_content(alloc, plans.lists, &definitions.stored);
            Ok(found_by(found))
        }
        None => Ok(Judged::Unsound),
    }
}

// What is found of a database that has the tables of the plan.
fn read_plan<S: Alter>(alloc: Global, conn: &mut Connection<S>) -> Result<Judged, Error>
    requires plan { HasPlan (state S.Store conn.old) }
    requires mode { conn.old.in_transaction ≡ false }
    ensures judged { HasCleanDisk (state S.Store conn.new)
        → IfOk result (IsJudged (state S.Store conn.old) (state S.Store conn.new)) }
    ensures sound { IfOk result IsSoundIfFound }
    ensures looks { Looks (state S.Store conn.old) (state S.Store conn.new) (is_ok result) }
    ensures fails { HasCleanDisk (state S.Store conn.new)
        → IfErr result (MayFail (state S.Store conn.old) (state S.Store conn.new)) }
    ensures mode { conn.new.in_transaction ≡ false }
{
    if has_version(conn)? {
        read_whole(alloc, conn)
    } else {
        Ok(Judged::Unknown)
    }
}

// Opens a database that has the tables of the plan.
fn open_plan<S: Alter>(alloc: Global, conn: &mut Connection<S>) -> Result<Content, OpenFault>
    requires plan { HasPlan (state S.Store conn.old) }
    requires mode { conn.old.in_transaction ≡ false }
    ensures opened { HasCleanDisk (state S.Store conn.new)
        → IfOk result (λ content. IsStored (state S.Store conn.new) (content_of content)) }
    ensures told { HasCleanDisk (state S.Store conn.new)
        → IfOk result (λ content. IsContentOf (tables_of (state S.Store conn.old).now.trees)
        (content_of content)) }
    ensures sound { IfOk result (λ content. IsSound (content_of content)) }
    ensures unread { HasCleanDisk (state S.Store conn.new)
        → IfErr result (IsUnread (state S.Store conn.old) (state S.Store conn.new)) }
    ensures mode { conn.new.in_transaction ≡ false }
    ensures survives { Survives (state S.Store conn.old) (state S.Store conn.new) (λ _. ⊥) }
{
    let settled = conn.is_autocommit();
    prove!(settled);
    let found = read_plan(alloc, conn);
    tell(found)
}

// Opens a database in which nothing is in the way of the tables: they are added to its own.
fn open_new<S: Alter>(alloc: Global, conn: &mut Connection<S>) -> Result<Content, OpenFault>
    requires room { HasRoom (state S.Store conn.old) }
    requires mode { conn.old.in_transaction ≡ false }
    ensures opened { HasCleanDisk (state S.Store conn.new)
        → IfOk result (λ content. IsStored (state S.Store conn.new) (content_of content)) }
    ensures sound { IfOk result (λ content. IsSound (content_of content)) }
    ensures empty { IfOk result (λ content. content_of content ≡ nothing_known) }
    ensures beside { HasCleanDisk (state S.Store conn.new)
        → IfOk result (λ _. IsBeside (state S.Store conn.old).now (state S.Store conn.new).now) }
    ensures unmade { HasCleanDisk (state S.Store conn.new)
        → IfErr result (IsUnmade (state S.Store conn.old) (state S.Store conn.new)) }
    ensures mode { conn.new.in_transaction ≡ false }
    ensures survives { Survives (state S.Store conn.old) (state S.Store conn.new)
        (MakesFirst (state S.Store conn.old)) }
{
    match make_first(conn) {
        Ok(()) => {
            empty_content_is_sound();
            Ok(Content::new(alloc))
        }
        Err(error) => Err(fault_for(&error, OpenFault::Unopened)),
    }
}

// Why a database of other tables is not opened: for its tables, if the version can be read and is known.
fn foreign_fault<S: Alter>(conn: &mut Connection<S>) -> OpenFault
    requires { conn.old.in_transaction ≡ false }
    ensures told { HasCleanDisk (state S.Store conn.new)
        → IsForeign (state S.Store conn.old) (state S.Store conn.new) result }
    ensures rows { result ≡ Rows → ⊥ }
    ensures mode { conn.new.in_transaction ≡ false }
    ensures survives { Survives (state S.Store conn.old) (state S.Store conn.new) (λ _. ⊥) }
{
    match conn.query_all(version_text(), &[]) {
        Ok(rows) => if is_known(&rows) {
            OpenFault::Tables
        } else {
            OpenFault::Unopened
        },
        Err(error) => fault_for(&error, OpenFault::Unopened),
    }
}

/// Opens a database. Either it has the tables of the plan, of a known version, with a sound content; or nothing in it
/// is in their way, and the tables of a content of which nothing is known are added to its own. If it is not opened,
/// it stays as it was, or has these first tables and nothing in them. One that has a sound plan is opened with it, and is
/// never refused for anything in it.
pub fn open_content<S: Alter>(alloc: Global, conn: &mut Connection<S>) -> Result<Content, OpenFault>
    requires { conn.old.in_transaction ≡ false }
    ensures opened { IfOk result (λ content.
        IsOpened (state S.Store conn.old) (state S.Store conn.new) (content_of content)) }
    ensures unopened { HasCleanDisk (state S.Store conn.new)
        → IfErr result (IsUnopened (state S.Store conn.old) (state S.Store conn.new)) }
    ensures holds { HasCleanDisk (state S.Store conn.new) → HoldsPlan (state S.Store conn.old)
        → IfErr result (IsCommon (state S.Store conn.old) (state S.Store conn.new)) }
    ensures tells { HasCleanDisk (state S.Store conn.new) → HoldsPlan (state S.Store conn.old)
        → IfOk result (λ content. IsContentOf (tables_of (state S.Store conn.old).now.trees)
        (content_of content)) }
    ensures mode { conn.new.in_transaction ≡ false }
    ensures crash { Survives (state S.Store conn.old) (state S.Store conn.new)
        (MakesFirst (state S.Store conn.old)) }
{
    match find_tables(alloc, conn) {
        Ok(Found::Plan) => open_plan(alloc, conn),
        Ok(Found::Room) => open_new(alloc, conn),
        Ok(Found::Others) => Err(foreign_fault(conn)),
        Err(_) => Err(OpenFault::Memory),
    }
}
