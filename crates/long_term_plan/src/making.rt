ghost use Rattle.std.specs.Prelude.{◌≡◌, ◌↔◌, ◌+◌, ◌≤◌, List, length, IfOk, IsTrue, None, false};
ghost use Rattle.work_calendars.specs.Day.{last_kept_day};
ghost use Rattle.occurrences.specs.Serial.{IsSerial};
ghost use Rattle.occurrences.specs.declared.serial.TheConstants.{GREATEST_SERIAL};
ghost use Rattle.planner_machine.specs.declared.content.Draft.{Draft as DraftValue};
ghost use Rattle.planner_machine.specs.declared.limits.TheConstants.{MOST_PLANNED_ROWS};
ghost use Rattle.planner_machine.specs.Moves.{numbered_row};
ghost use Rattle.planner_machine.specs.Plans.{HoldTooMany};
ghost use Rattle.planner_machine.specs.Sound.{IsSound};
ghost use Rattle.plan_store.specs.Views.{HoldsOfSound, HoldsOfAny, ShowsDeleted, shown};
ghost use Rattle.plan_store_pairs.specs.Turns.{AreKnownLinks};
ghost use Rattle.occurrences.specs.declared.key.Key.{Key as KeyValue};
ghost use Rattle.long_term_plan.specs.Making.{AddsDays, AreDaysAdded, KeepsRowsSound, MakesDrafts, numbered};
ghost use Rattle.long_term_plan.specs.Making.{planned_sets};

use crate::creation::midnight;
use crate::drafts::{named_drafts, new_drafts};
use external_dependencies::Links;
use occurrences::{GREATEST_SERIAL, Refusal, Reply, Row, Serial};
use plan_store::{Change, DefinitionChange, Moves, Need, NewLists, Verdict, View};
use plan_store_lists::LinkBlocks;
use plan_store_pairs::{live_rows_with, pair_change, pairs_of_rows, planned_for, touch_of};
use planner_machine::{Bounds, Draft, MOST_PLANNED_ROWS};
use std::alloc::{AllocError, Global};
use work_calendars::Moment;

// The verdict if the plan gets these bounds and lists, and all applications are planned from a moment to its last day.
pub(crate) fn add_days(
    alloc: Global,
    view: &View<'_>,
    bounds: &Bounds,
    links: Links,
    first: Moment,
) -> Result<Verdict, AllocError>
    requires { bounds.now.last_day ≤ last_kept_day }
    ensures { IfOk result (λ verdict. HoldsOfSound (Need.LongTerm None) view.now
        (λ c. AreKnownLinks c links
        → ((key : KeyValue) → first ≤ key.ia → ShowsDeleted c view.now key)
        → ((new : List DraftValue) → AreDaysAdded c bounds.now first new
        → KeepsRowsSound c bounds.now new) → AddsDays c bounds.now first links verdict)) }
{
    let all = view.definitions();
    let apps = all.applications.names(alloc)?;
    let named = named_drafts(alloc, all, apps.as_slice(), first, bounds.last_day)?;
    let new = new_drafts(alloc, view, named.as_slice())?;
    drop(named);
    if would_hold_too_many(view, bounds, new.as_slice()) {
        return Ok(Verdict::Refused(Refusal::TooManyRows));
    }
    make_drafts(alloc, view, bounds, links, new)
}

// Whether the plans would hold too many rows, or too many serials were issued.
fn would_hold_too_many(view: &View<'_>, bounds: &Bounds, new: &[Draft]) -> bool
    ensures too_many { HoldsOfAny view.now (λ c. IsSound c
        → IsTrue result ↔ HoldTooMany (planned_sets bounds.now new.now c.sets)) }
    ensures serials { result ≡ false → (shown view.now).sets.issued + length new.now
        ≤ GREATEST_SERIAL }
{
    let rows = view.ltp().len() + view.cp().len() + new.len();
    let issued = view.issued() as usize + new.len();
    rows > MOST_PLANNED_ROWS || issued > GREATEST_SERIAL as usize
}

// The drafts are made under the serials after those issued, and all else follows.
fn make_drafts(
    alloc: Global,
    view: &View<'_>,
    bounds: &Bounds,
    links: Links,
    new: Vec<Draft>,
) -> Result<Verdict, AllocError>
    requires { (shown view.now).sets.issued + length new.items ≤ GREATEST_SERIAL }
    ensures { IfOk result (λ verdict. HoldsOfSound (Need.LongTerm None) view.now
        (λ c. AreKnownLinks c links
        → KeepsRowsSound c bounds.now new.items
        → MakesDrafts c bounds.now links new.items verdict)) }
{
    let made = new.len();
    let rows = numbered_rows(alloc, view.issued(), new.as_slice())?;
    drop(new);
    let lists = LinkBlocks::from_links(alloc, &links)?;
    let touch = touch_of(alloc, &[], &rows, view.in_force(), &lists)?;
    let planned = planned_for(alloc, view.ltp(), &touch, midnight(bounds.last_day))?;
    let live = live_rows_with(alloc, &planned, &rows, view.cp(), view.lasts())?;
    let before = pairs_of_rows(alloc, view, &planned)?;
    drop(planned);
    let pairs = pair_change(alloc, &before, &live, &links, &touch)?;
    let change = Change {
        definitions: DefinitionChange::AsBefore,
        bounds: Some(*bounds),
        issued: Some(view.issued() + made as u32),
        in_force: Some(NewLists::All(lists)),
        ltp: Moves {
            gone: Vec::new(alloc),
            changed: Vec::new(alloc),
            put: rows,
        },
        cp: Moves::none(alloc),
        history: Moves::none(alloc),
        deletions: Moves::none(alloc),
        pairs,
        job: None,
    };
    let withdrawn = 0;
    Ok(Verdict::Done(change, Reply::Made { made, withdrawn }))
}

// The rows of drafts, under the serials after those issued.
pub(crate) fn numbered_rows(
    alloc: Global,
    issued: u32,
    drafts: &[Draft],
) -> Result<Vec<Row>, AllocError>
    requires { issued + length drafts.now ≤ GREATEST_SERIAL }
    ensures { IfOk result (λ rows. rows.items ≡ numbered issued drafts.now) }
{
    let mut rows = Vec::with_capacity(alloc, drafts.len())?;
    let mut number = issued;
    for draft in drafts {
        number += 1;
        rows.push(numbered_row(number, draft))?;
    }
    Ok(rows)
}

// The row of a draft under that serial.
fn numbered_row(number: u32, draft: &Draft) -> Row
    requires { IsSerial number }
    ensures { result ≡ numbered_row number draft.now }
{
    match Serial::new(number) {
        Some(serial) => Row {
            key: draft.key,
            serial,
            deadline: draft.deadline,
            origin: draft.origin,
        },
        None => unreachable!(),
    }
}
