ghost use Rattle.std.specs.Prelude.{◌≡◌, ◌↔◌, ◌+◌, ◌++◌, ◌≤◌, ℕ, List, length, map, Contains, IfOk, IsTrue};
ghost use Rattle.std.specs.Prelude.{None, Option, Some, false};
ghost use Rattle.std.specs.List.{filter_map};
ghost use Rattle.work_calendars.specs.Day.{last_kept_day};
ghost use Rattle.occurrences.specs.declared.row.Row.{Row as RowValue};
ghost use Rattle.occurrences.specs.declared.serial.TheConstants.{GREATEST_SERIAL};
ghost use Rattle.planner_machine.specs.declared.content.Draft.{Draft as DraftValue};
ghost use Rattle.planner_machine.specs.Content.{Content, Sets};
ghost use Rattle.planner_machine.specs.Modify.{withdrawn};
ghost use Rattle.planner_machine.specs.ModifyAll.{modify_all};
ghost use Rattle.planner_machine.specs.ModifyOne.{modify_one};
ghost use Rattle.planner_machine.specs.Moves.{size};
ghost use Rattle.planner_machine.specs.Pairs.{ArePairs};
ghost use Rattle.planner_machine.specs.Sound.{IsSound};
ghost use Rattle.plan_store_lists.specs.Rows.{of_row};
ghost use Rattle.plan_store.specs.Changes.{LeadsOn, lists_after, pairs_after};
ghost use Rattle.plan_store.specs.Verdicts.{VerdictIs};
ghost use Rattle.plan_store.specs.Views.{HoldsOfSound, HoldsOfAny, IsAny, ListsSet, Shows, ShowsDeleted, shown};
ghost use Rattle.occurrences.specs.declared.key.Key.{Key as KeyValue};
ghost use Rattle.plan_store_pairs.specs.Turns.{AreKnownLinks, ArePlanned, IsTouchOf};
ghost use Rattle.long_term_plan.specs.Early.{IsRefusedEarly};
ghost use Rattle.long_term_plan.specs.Drafting.{DraftsRise};
ghost use Rattle.long_term_plan.specs.Modifying.{AreAsked, AreModifying, AreOf, AreTooMany, HavePlanned, Looks};
ghost use Rattle.long_term_plan.specs.Modifying.{ModifiesPlan, ModifiesRows, modified_sets, outcome};
ghost use Rattle.long_term_plan.specs.Reaching.{AreRowsOf, IsNewOf};

use crate::drafts::{named_drafts, unmet_drafts};
use crate::lists::{defined_lists, lists_then, loop_of_one, new_list};
use crate::making::numbered_rows;
use crate::parting::{Parted, parted_rows, staying_rows};
use crate::refusals::{lacking_definition, lacking_own_definition};
use app_definitions::Definitions;
use app_occurrences::active;
use external_dependencies::{PairChange, Touch, find_loop};
use occurrences::{Deletion, GREATEST_SERIAL, Reason, Refusal, Reply, Row};
use plan_store::{Change, DefinitionChange, Moves, Need, NewLists, Verdict, View};
use plan_store_lists::{LinkBlocks, RowBlocks};
use plan_store_pairs::{
    are_few, live_rows_of, live_rows_with, pair_change, pairs_of_apps, pairs_of_plans,
    reached_apps, single, touch_of, touch_of_list, touch_of_rows,
};
use planner_machine::{Bounds, Draft, MOST_PLANNED_ROWS};
use std::alloc::{AllocError, Global};
use work_calendars::{App, Day};

/// `ltp-modify-all`: the long-term plan from the plan end on, as the definitions are now, with all lists that are
/// defined in force. Refused where there is no plan (20), where an active application lacks its calendar (22) or a
/// period (23), where the lists have a loop (25), and where the rows would be too many (31).
pub fn modify_all(alloc: Global, view: &View<'_>) -> Result<Verdict, AllocError>
    ensures { IfOk result (λ verdict. (c : Content) → Shows (Need.LongTerm None) view.now c → IsSound c
        → VerdictIs modify_all c verdict) }
{
    let Some(bounds) = view.bounds() else {
        return Ok(Verdict::Refused(Refusal::NoPlan));
    };
    if let Some(refusal) = lacking_definition(view.definitions()) {
        return Ok(Verdict::Refused(refusal));
    }
    let links = defined_lists(alloc, view.definitions())?;
    if let Some(app) = find_loop(alloc, &links)? {
        return Ok(Verdict::Refused(Refusal::Loop { app }));
    }
    let lists = LinkBlocks::from_links(alloc, &links)?;
    modify(alloc, view, &bounds, &None, Some(NewLists::All(lists)))
}

/// `ltp-modify-one`: the same for one application, whose list alone comes into force. Refused where there is no plan
/// (20),
/// where the application is active and lacks its calendar (22) or a period (23), where the lists would have a loop
/// (25),
/// where it isn't active (26), and where the rows would be too many (31).
pub fn modify_one(alloc: Global, view: &View<'_>, app: &App) -> Result<Verdict, AllocError>
    ensures { IfOk result (λ verdict. (c : Content) → Shows (Need.LongTerm (Some app.now)) view.now c
        → IsSound c → VerdictIs (modify_one app.now) c verdict) }
{
    let Some(bounds) = view.bounds() else {
        return Ok(Verdict::Refused(Refusal::NoPlan));
    };
    let all = view.definitions();
    if let Some(refusal) = lacking_own_definition(all, app) {
        return Ok(Verdict::Refused(refusal));
    }
    let new = new_list(alloc, all, view.in_force(), app)?;
    if let Some(least) = loop_of_one(alloc, view, &new, app)? {
        return Ok(Verdict::Refused(Refusal::Loop { app: least }));
    }
    if active(all, app).is_none() {
        return Ok(Verdict::Refused(Refusal::NoActiveApplication));
    }
    modify(alloc, view, &bounds, &Some(*app), new)
}

/// Why `ltp-modify-all` and `ltp-modify-one` are refused by the bounds, which a window of the definitions shows: there is
/// no plan (20).
pub fn modify_refusal(view: &View<'_>) -> Option<Refusal>
    ensures all { (c : Content) → Shows Need.Definitions view.now c
        → IsRefusedEarly modify_all c result }
    ensures one { (app : List ℕ) (c : Content) → Shows Need.Definitions view.now c
        → IsRefusedEarly (modify_one app) c result }
{
    match view.bounds() {
        Some(_) => None,
        None => Some(Refusal::NoPlan),
    }
}

// The verdict if the statement looks at all applications, or at one, and these lists come into force, or none.
fn modify(
    alloc: Global,
    view: &View<'_>,
    bounds: &Bounds,
    only: &Option<App>,
    new: Option<NewLists>,
) -> Result<Verdict, AllocError>
    ensures { IsNewOf only.now new → IfOk result (λ verdict. HoldsOfSound (Need.LongTerm only.now) view.now
        (λ c. AreKnownLinks c (lists_after new c.in_force)
        → c.sets.bounds ≡ Some bounds.now
        → ((key : KeyValue) → bounds.now.plan_end ≤ key.ia → ShowsDeleted c view.now key)
        → ModifiesPlan c only.now (lists_after new c.in_force) verdict)) }
{
    let all = view.definitions();
    let apps = asked(alloc, all, only)?;
    let last = last_planned(bounds);
    let named = named_drafts(alloc, all, apps.as_slice(), bounds.plan_end, last)?;
    let rows = view.ltp();
    let looked = looked_rows(alloc, view, only)?;
    let parted = parted_rows(alloc, &looked, only, &named)?;
    drop(looked);
    let Parted { gone, changed, met } = parted;
    let made = unmet_drafts(alloc, view, &named, &met)?;
    drop(met);
    if are_too_many(view, &gone, &made) {
        return Ok(Verdict::Refused(Refusal::TooManyRows));
    }
    let put = numbered_rows(alloc, view.issued(), &made)?;
    let pairs = pairs_then(alloc, view, rows, only, named, &gone, &put, &new)?;
    change_rows(alloc, view, new, pairs, gone, changed, put)
}

// The rows of the long-term plan of the applications that the statement looks at, as a list of their own.
fn looked_rows(alloc: Global, view: &View<'_>, only: &Option<App>) -> Result<Vec<Row>, AllocError>
    ensures { IfOk result (λ rows. ListsSet of_row (shown view.now).sets.ltp (λ row.
        Looks only.now row.key.app) rows.items) }
{
    match only {
        Some(app) => {
            let mut rows = Vec::new(alloc);
            rows.extend_from_slice(view.ltp_of(app))?;
            Ok(rows)
        }
        None => view.ltp().to_vec(alloc),
    }
}

// The last day of the plan, which is no later than the last day that a plan may have.
fn last_planned(bounds: &Bounds) -> Day
    ensures within { result ≤ last_kept_day }
    ensures same { bounds.now.last_day ≤ last_kept_day → result ≡ bounds.now.last_day }
{
    if bounds.last_day > Day::LAST_KEPT {
        return Day::LAST_KEPT;
    }
    bounds.last_day
}

// Whether the plans would hold too many rows once rows are removed and the new ones made, or too many serials were
// issued.
fn are_too_many(view: &View<'_>, gone: &[Row], new: &[Draft]) -> bool
    ensures too_many { HoldsOfAny view.now (λ c. IsSound c → (kept : ℕ)
        → kept + length gone.now ≡ size c.sets.ltp c.sets.issued
        → IsTrue result ↔ AreTooMany c.sets kept (length new.now)) }
    ensures serials { result ≡ false → (shown view.now).sets.issued + length new.now
        ≤ GREATEST_SERIAL }
{
    let rows = view.ltp().len() + view.cp().len() + new.len();
    let issued = view.issued() as usize + new.len();
    rows > MOST_PLANNED_ROWS + gone.len() || issued > GREATEST_SERIAL as usize
}

// What leads from the pairs before the statement to those after it. What it reaches is collected by applications if
// they are few; the list of what is named is dropped before the pairs are found.
fn pairs_then(
    alloc: Global,
    view: &View<'_>,
    rows: &RowBlocks<Row>,
    only: &Option<App>,
    named: Vec<Draft>,
    gone: &[Row],
    put: &[Row],
    new: &Option<NewLists>,
) -> Result<PairChange, AllocError>
    ensures { DraftsRise named.items
        → ListsSet of_row (shown view.now).sets.ltp IsAny rows.now.items
        → IsNewOf only.now new.now → AreRowsOf only.now gone.now → AreRowsOf only.now put.now
        → IfOk result (λ change. HoldsOfSound (Need.LongTerm only.now) view.now
        (λ c. AreKnownLinks c (lists_after new.now c.in_force)
        → (s : Sets)
        → ArePlanned rows.now.items (filter_map (outcome only.now named.items) rows.now.items)
        gone.now put.now
        → HavePlanned c.sets (filter_map (outcome only.now named.items) rows.now.items
        ++ put.now) s
        → ArePairs c.pairs (lists_after new.now c.in_force) s (pairs_after change c.pairs)
        × LeadsOn c.pairs change)) }
{
    let current = view.cp();
    let lasts = view.lasts();
    let lists = lists_then(view, new);
    let touch = touch_then(alloc, view, gone, put, new)?;
    let apps = reached_apps(alloc, &lists, &touch)?;
    let few = are_few(view, &apps);
    let live = if few {
        let planned = planned_of(alloc, view, &apps, only, &named, put)?;
        live_rows_of(alloc, view, &apps, &planned)?
    } else {
        let all = rows.to_vec(alloc)?;
        let kept = staying_rows(alloc, &all, only, &named)?;
        drop(all);
        live_rows_with(alloc, &kept, put, current, lasts)?
    };
    drop(named);
    let before = if few {
        pairs_of_apps(alloc, view, &apps)?
    } else {
        pairs_of_plans(alloc, view)?
    };
    let links = if few {
        lists.of_apps(alloc, &apps)?
    } else {
        lists.to_links(alloc)?
    };
    pair_change(alloc, &before, &live, &links, &touch)
}

// What is touched where these rows are removed and made, and these lists come into force, or none.
fn touch_then(
    alloc: Global,
    view: &View<'_>,
    gone: &[Row],
    put: &[Row],
    new: &Option<NewLists>,
) -> Result<Touch, AllocError>
    ensures touched { IfOk result (IsTouchOf gone.now put.now (shown view.now).in_force
        (lists_after new.now (shown view.now).in_force)) }
    ensures lists { IfOk result (λ touch. (only : Option (List ℕ)) → IsNewOf only new.now
        → (app : List ℕ) → Contains touch.lists.items app → Looks only app) }
{
    match new {
        Some(new) => touch_with(alloc, view, gone, put, new),
        None => touch_of_rows(alloc, gone, put),
    }
}

// What is touched where these rows are removed and made, and these lists come into force.
fn touch_with(
    alloc: Global,
    view: &View<'_>,
    gone: &[Row],
    put: &[Row],
    new: &NewLists,
) -> Result<Touch, AllocError>
    ensures touched { IfOk result (IsTouchOf gone.now put.now (shown view.now).in_force
        (lists_after (Some new.now) (shown view.now).in_force)) }
    ensures lists { IfOk result (λ touch. (only : Option (List ℕ)) → IsNewOf only (Some new.now)
        → (app : List ℕ) → Contains touch.lists.items app → Looks only app) }
{
    match new {
        NewLists::All(lists) => touch_of(alloc, gone, put, view.in_force(), lists),
        NewLists::One(list) => touch_of_list(alloc, gone, put, &list.app),
    }
}

// The rows of the long-term plan then of these applications, of which are all that are made.
fn planned_of(
    alloc: Global,
    view: &View<'_>,
    apps: &[App],
    only: &Option<App>,
    named: &[Draft],
    put: &[Row],
) -> Result<Vec<Row>, AllocError>
    ensures { DraftsRise named.now → (rows : List RowValue)
        → ListsSet of_row (shown view.now).sets.ltp IsAny rows
        → ((row : RowValue) → Contains put.now row → Contains apps.now row.key.app)
        → IfOk result (λ planned. AreOf apps.now
        (filter_map (outcome only.now named.now) rows ++ put.now) planned.items) }
{
    let mut planned = staying_of(alloc, view, apps, only, named)?;
    planned.extend_from_slice(put)?;
    Ok(planned)
}

// The rows of these applications that stay, each as it is then.
fn staying_of(
    alloc: Global,
    view: &View<'_>,
    apps: &[App],
    only: &Option<App>,
    named: &[Draft],
) -> Result<Vec<Row>, AllocError>
    ensures { DraftsRise named.now → (rows : List RowValue)
        → ListsSet of_row (shown view.now).sets.ltp IsAny rows → IfOk result (λ kept.
        AreOf apps.now (filter_map (outcome only.now named.now) rows) kept.items) }
{
    let mut kept = Vec::new(alloc);
    for app in apps {
        let own = staying_rows(alloc, view.ltp_of(app), only, named)?;
        kept.extend_from_slice(&own)?;
    }
    Ok(kept)
}

// The names of the applications that the statement looks at.
fn asked(alloc: Global, all: &Definitions, only: &Option<App>) -> Result<Vec<App>, AllocError>
    ensures { IfOk result (λ apps. AreAsked all.now only.now apps.items) }
{
    match only {
        Some(app) => single(alloc, *app),
        None => all.applications.names(alloc),
    }
}

// The change: rows are removed and changed, new ones are made, the pairs follow, and all else stays.
fn change_rows(
    alloc: Global,
    view: &View<'_>,
    new: Option<NewLists>,
    pairs: PairChange,
    gone: Vec<Row>,
    changed: Vec<Row>,
    put: Vec<Row>,
) -> Result<Verdict, AllocError>
    requires { (shown view.now).sets.issued + length put.items ≤ GREATEST_SERIAL }
    ensures { IfOk result (λ verdict. HoldsOfAny view.now (λ c. IsSound c
        → (only : Option (List ℕ)) (named made : List DraftValue)
        → AreModifying c.sets only named made gone.items changed.items put.items
        → ArePairs c.pairs (lists_after new c.in_force) (modified_sets only named made c.sets)
        (pairs_after pairs c.pairs)
        → LeadsOn c.pairs pairs
        → ModifiesRows c (lists_after new c.in_force) only named made verdict)) }
{
    let made = put.len();
    let reply = Reply::Made {
        made,
        withdrawn: gone.len(),
    };
    let deleted = deletions_of(alloc, gone.as_slice())?;
    let change = Change {
        definitions: DefinitionChange::AsBefore,
        bounds: None,
        issued: Some(view.issued() + made as u32),
        in_force: new,
        ltp: Moves { gone, changed, put },
        cp: Moves::none(alloc),
        history: Moves::none(alloc),
        deletions: Moves {
            gone: Vec::new(alloc),
            changed: Vec::new(alloc),
            put: deleted,
        },
        pairs,
        job: None,
    };
    Ok(Verdict::Done(change, reply))
}

// The rows as the deletions have them.
fn deletions_of(alloc: Global, rows: &[Row]) -> Result<Vec<Deletion>, AllocError>
    ensures { IfOk result (λ deletions. deletions.items ≡ map withdrawn rows.now) }
{
    rows.iter()
        .map(|row| Deletion {
            row: *row,
            reason: Reason::Withdrawn,
        })
        .collect(alloc)
}
