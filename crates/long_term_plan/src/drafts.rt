ghost use Rattle.std.specs.Prelude.{◌≡◌, ◌≢◌, ◌↔◌, ℕ, ◌+◌, ◌≤◌, ◌++◌, List, Contains, IfOk, OnOk, IsTrue};
ghost use Rattle.std.specs.Prelude.{length};
ghost use Rattle.std.specs.List.{AllPairs};
ghost use Rattle.work_calendars.specs.Day.{last_kept_day};
ghost use Rattle.app_occurrences.specs.NamedOccurrences.{AreIndexesOf};
ghost use Rattle.planner_machine.specs.declared.content.Draft.{Draft as DraftValue};
ghost use Rattle.planner_machine.specs.Content.{midnight};
ghost use Rattle.planner_machine.specs.Drafts.{AreDrafts, draft_of};
ghost use Rattle.planner_machine.specs.Sound.{AreDefinitions};
ghost use Rattle.plan_store.specs.Views.{HoldsOfAny, ShowsDeleted};
ghost use Rattle.long_term_plan.specs.Drafting.{AddsDrafts, AreNew, ArePlannedKeys, DraftsRise, HaveOwnKeys};
ghost use Rattle.long_term_plan.specs.Drafting.{IsNewKey, IsPlannedKey, NamesFor, drafts_from};

use app_definitions::Definitions;
use app_occurrences::{WorkIndexes, active, named_occurrences};
use occurrences::{Key, Origin};
use plan_store::View;
use planner_machine::Draft;
use run_cycles::Named;
use std::alloc::{AllocError, Global};
use work_calendars::{App, Day, Moment};

// The drafts that the calendars name for these applications, from a moment to the end of a day, by key. The index of
// each calendar's work days is built once.
pub(crate) fn named_drafts(
    alloc: Global,
    all: &Definitions,
    apps: &[App],
    first: Moment,
    last: Day,
) -> Result<Vec<Draft>, AllocError>
    requires planned { last ≤ last_kept_day }
    requires apart { AllPairs (λ (a b : List ℕ). a ≢ b) apps.now }
    ensures { IfOk result (λ drafts. AreDefinitions all.now
        → AreDrafts (NamesFor all.now apps.now first (midnight (last + 1))) drafts.items) }
{
    let mut indexes = WorkIndexes::new(alloc);
    let mut drafts = Vec::new(alloc);
    for app in apps {
        add_drafts(alloc, &mut drafts, &mut indexes, all, app, first, last)?;
    }
    sort_drafts(&mut drafts);
    Ok(drafts)
}

// Adds the drafts of one application, none where it isn't active.
fn add_drafts(
    alloc: Global,
    drafts: &mut Vec<Draft>,
    indexes: &mut WorkIndexes,
    all: &Definitions,
    app: &App,
    first: Moment,
    last: Day,
) -> Result<(), AllocError>
    requires planned { last ≤ last_kept_day }
    requires indexes { AreIndexesOf all.now indexes.old }
    ensures indexes { AreIndexesOf all.now indexes.new }
    ensures added { OnOk result
        (AddsDrafts all.now app.now first last drafts.old.items drafts.new.items) }
{
    let Some(application) = active(all, app) else {
        return Ok(());
    };
    let named = named_occurrences(alloc, all, indexes, app, &application, first.day(), last)?;
    push_drafts(drafts, app, named.as_slice(), first)
}

// Adds the drafts of named occurrences that arrive at or after the moment.
fn push_drafts(
    drafts: &mut Vec<Draft>,
    app: &App,
    named: &[Named],
    first: Moment,
) -> Result<(), AllocError>
    ensures { OnOk result (drafts.new.items ≡ drafts.old.items
        ++ drafts_from app.now first named.now) }
{
    for occurrence in named {
        let draft = draft_of(app, occurrence);
        if draft.key.ia >= first {
            drafts.push(draft)?;
        }
    }
    Ok(())
}

// The draft of a named occurrence of the application.
fn draft_of(app: &App, named: &Named) -> Draft
    ensures { result ≡ draft_of app.now named.now }
{
    Draft {
        key: Key {
            ia: Moment::new(named.day, named.time),
            app: *app,
        },
        deadline: named.deadline,
        origin: Origin::Generated(named.run_cycle),
    }
}

// Sorts the drafts by key.
fn sort_drafts(drafts: &mut Vec<Draft>)
    ensures in_order { HaveOwnKeys drafts.old.items → DraftsRise drafts.new.items }
    ensures same { (draft : DraftValue) → Contains drafts.new.items draft
        ↔ Contains drafts.old.items draft }
{
    drafts.sort_unstable_by_key(|draft| draft.key);
}

// Those of the drafts that a planning statement makes: no row of the long-term plan has their key, and no operator
// deleted an occurrence of it.
pub(crate) fn new_drafts(
    alloc: Global,
    view: &View<'_>,
    named: &[Draft],
) -> Result<Vec<Draft>, AllocError>
    ensures { IfOk result (λ new. HoldsOfAny view.now (λ c.
        ((draft : DraftValue) → Contains named.now draft → ShowsDeleted c view.now draft.key)
        → AreNew c.sets named.now new.items)) }
{
    let mut new = Vec::new(alloc);
    for draft in named {
        if is_new(view, &draft.key) {
            new.push(*draft)?;
        }
    }
    Ok(new)
}

// Whether a planning statement is allowed to make the key.
fn is_new(view: &View<'_>, key: &Key) -> bool
    ensures { HoldsOfAny view.now (λ c. ShowsDeleted c view.now key.now
        → IsTrue result ↔ IsNewKey c.sets key.now) }
{
    view.ltp_row(key).is_none() && !view.is_deleted_by_operator(key)
}

// Those of the drafts that a planning statement makes, where it is known of each whether a row of the long-term plan
// has its key.
pub(crate) fn unmet_drafts(
    alloc: Global,
    view: &View<'_>,
    named: &[Draft],
    met: &[bool],
) -> Result<Vec<Draft>, AllocError>
    requires { length met.now ≡ length named.now }
    ensures { IfOk result (λ new. HoldsOfAny view.now (λ c.
        ((draft : DraftValue) → Contains named.now draft → ShowsDeleted c view.now draft.key)
        → ArePlannedKeys c.sets named.now met.now → AreNew c.sets named.now new.items)) }
{
    let mut new = Vec::new(alloc);
    for (i, draft) in named.iter().enumerate() {
        if is_unmet(view, &draft.key, met[i]) {
            new.push(*draft)?;
        }
    }
    Ok(new)
}

// Whether a planning statement may make the key, where it is known whether a row of the long-term plan has it.
fn is_unmet(view: &View<'_>, key: &Key, met: bool) -> bool
    ensures { HoldsOfAny view.now (λ c. ShowsDeleted c view.now key.now
        → (IsTrue met ↔ IsPlannedKey c.sets key.now) → IsTrue result ↔ IsNewKey c.sets key.now) }
{
    !met && !view.is_deleted_by_operator(key)
}
