// The deletions of one application. Their table has no index but that of its serials, so the store notes the arrivals of
// all deletions, and looks up those of the application.

ghost use Rattle.std.specs.Prelude.{◌≡◌, ◌↔◌, ◌++◌, ◌∷◌, ℕ, Contains, IfOk, IfSome, Option};
ghost use Rattle.std.specs.Ordering.{is_eq};
ghost use Rattle.sqlite.specs.Held.{state};
ghost use Rattle.sqlite.specs.State.{HasCleanDisk};
ghost use Rattle.occurrences.specs.declared.place.Deletion.{Deletion as DeletionValue};
ghost use Rattle.external_dependencies.specs.Arrival.{arrival_cmp};
ghost use Rattle.external_dependencies.specs.Nearest.{arrival_of};
ghost use Rattle.external_dependencies.specs.declared.live.Arrival.{Arrival as ArrivalValue};
ghost use Rattle.planner_machine.specs.Content.{Content};
ghost use Rattle.plan_store_lists.specs.Keyed.{IsKeyed};
ghost use Rattle.plan_tables_queries.specs.Finding.{FindsFact};
ghost use Rattle.plan_tables.specs.Gone.{NotesAll, of_arrival, of_arrivals};
ghost use Rattle.plan_tables.specs.Kept.{IsKept, kept_in};
ghost use Rattle.plan_tables.specs.Session.{Asks, why_in};

use crate::keeping::{Unmade, why_of};
use external_dependencies::Arrival;
use occurrences::Deletion;
use plan_store_lists::{ArrivalBlocks, Keyed, RowBlocks};
use plan_tables_lookups::TableFault;
use plan_tables_queries::deleted_row;
use sqlite::{Alter, Connection};
use std::alloc::Global;
use work_calendars::App;

/// The arrivals of these deletions; `None` if memory is refused.
pub(crate) fn arrivals_of(alloc: Global, deletions: &RowBlocks<Deletion>) -> Option<ArrivalBlocks>
    ensures { IfSome result (λ noted. (d : DeletionValue) → Contains deletions.now.items d
        → Contains noted (arrival_of d.row)) }
{
    let mut noted = ArrivalBlocks::new(alloc);
    match noted.note_all(alloc, deletions) {
        Ok(()) => Some(noted),
        Err(_) => None,
    }
}

/// Notes the arrivals of these deletions too. If memory is refused, none are noted any more.
pub(crate) fn note_gone(alloc: Global, gone: &mut Option<ArrivalBlocks>, deletions: &[Deletion])
    ensures stay { (all : ℕ → Option DeletionValue) → NotesAll all gone.old → NotesAll all gone.new }
    ensures noted { IfSome gone.new (λ noted. (d : DeletionValue) → Contains deletions.now d
        → Contains noted (arrival_of d.row)) }
{
    let is_noted = match gone {
        Some(noted) => noted.note(alloc, deletions).is_ok(),
        None => false,
    };
    if !is_noted {
        *gone = None;
    }
}

/// The arrivals that are noted of an application.
pub(crate) fn noted_of<'a>(gone: &'a Option<ArrivalBlocks>, app: &App) -> &'a [Arrival]
    ensures keyed { IsKeyed arrival_cmp (λ (a : ArrivalValue). a) result.now }
    ensures all { IfSome gone.now (λ noted. (a : ArrivalValue) → Contains result.now a
        ↔ (Contains noted a × (a.app ≡ app.now))) }
{
    match gone {
        Some(noted) => noted.of_app(app),
        None => &[],
    }
}

// Whether the deletion is of this arrival.
fn is_of(deletion: &Deletion, arrival: &Arrival) -> bool
    ensures { result ≡ is_eq (arrival_cmp (arrival_of deletion.now.row) arrival.now) }
{
    deletion.key().cmp(arrival).is_eq()
}

// Adds the deletion of this arrival, if there is one.
fn add_deletion<S: Alter>(
    alloc: Global,
    conn: &mut Connection<S>,
    found: &mut Vec<Deletion>,
    arrival: &Arrival,
) -> Result<(), TableFault>
    ensures { FindsFact S.Store conn.old conn.new result (λ c _. found.new.items
        ≡ found.old.items ++ of_arrival arrival.now (c.sets.deletions arrival.now.serial)) }
{
    match deleted_row(alloc, conn, arrival.serial)? {
        Some(deletion) => {
            if is_of(&deletion, arrival) {
                found.push(deletion)?;
            }
            Ok(())
        }
        None => Ok(()),
    }
}

// The deletions of these arrivals, one after another.
fn find_deletions<S: Alter>(
    alloc: Global,
    conn: &mut Connection<S>,
    first: &Arrival,
    rest: &[Arrival],
) -> Result<Vec<Deletion>, TableFault>
    ensures { FindsFact S.Store conn.old conn.new result (λ c found.
        found.items ≡ of_arrivals c.sets.deletions (first.now ∷ rest.now)) }
{
    let mut found = Vec::new(alloc);
    add_deletion(alloc, conn, &mut found, first)?;
    for arrival in rest {
        add_deletion(alloc, conn, &mut found, arrival)?;
    }
    Ok(found)
}

/// The deletions of these arrivals that the tables keep, one after another.
pub(crate) fn deletions_kept<S: Alter>(
    alloc: Global,
    conn: &mut Connection<S>,
    arrivals: &[Arrival],
) -> Result<Vec<Deletion>, Unmade>
    ensures found { HasCleanDisk (state S.Store conn.new) → (lists : Content)
        → IsKept (state S.Store conn.old) lists
        → IfOk result (λ found. found.items ≡ of_arrivals
        (kept_in (state S.Store conn.old) lists).sets.deletions arrivals.now) }
    ensures asks { (lists : Content) → Asks S.Store conn.old conn.new lists (why_in result) }
{
    match arrivals.split_first() {
        Some((first, rest)) => match find_deletions(alloc, conn, first, rest) {
            Ok(found) => Ok(found),
            Err(fault) => Err(why_of(conn, &fault)),
        },
        None => Ok(Vec::new(alloc)),
    }
}
