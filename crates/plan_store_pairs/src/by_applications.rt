ghost use Rattle.std.specs.Prelude.{◌≡◌, ◌↔◌, ◌++◌, Contains, IfOk, OnOk, map};
ghost use Rattle.std.specs.FinMap.{IsAntisymmetric};
ghost use Rattle.occurrences.specs.declared.row.Row.{Row as RowValue};
ghost use Rattle.external_dependencies.specs.Rising.{IsRising};
ghost use Rattle.external_dependencies.specs.Touch.{IsMoved};
ghost use Rattle.external_dependencies.specs.declared.links.Link.{Link as LinkValue};
ghost use Rattle.plan_store.specs.Views.{shown};
ghost use Rattle.plan_store_lists.specs.ListsThen.{links_then};
ghost use Rattle.plan_store_lists.specs.declared.namings.Naming.{Naming as NamingValue};
ghost use Rattle.plan_store_pairs.specs.ByApplications.{AreGathered, HasReached};

use crate::listing::{push_current, push_rows};
use external_dependencies::{Link, Rows, Touch};
use occurrences::{Place, Row};
use plan_store::View;
use plan_store_lists::{LinkBlocks, ListsThen, Naming};
use std::alloc::{AllocError, Global};
use work_calendars::App;

/// The applications whose rows hold what a change reaches: those with rows that were made or withdrawn, those whose
/// lists changed, those whose lists name one with such rows, and all that the lists of these name. `then` are the lists
/// after it. Looks only at the links that name one with such rows, and at the lists of the applications that are reached.
pub fn reached_apps(
    alloc: Global,
    then: &ListsThen<'_>,
    touch: &Touch,
) -> Result<Vec<App>, AllocError>
    ensures { IfOk result (λ apps. HasReached touch.now (links_then then.now) apps.items) }
{
    let touched = in_order(moved_apps(alloc, touch)?);
    let mut reached = naming_apps(alloc, then, &touched)?;
    reached.extend_from_slice(&touched)?;
    reached.extend_from_slice(&touch.lists)?;
    let reached = in_order(reached);
    let mut apps = named_apps(alloc, then, &reached)?;
    apps.extend_from_slice(&reached)?;
    Ok(in_order(apps))
}

// The applications of the rows that were made or withdrawn.
fn moved_apps(alloc: Global, touch: &Touch) -> Result<Vec<App>, AllocError>
    ensures { IfOk result (λ apps. (row : RowValue) → IsMoved touch.now row
        → Contains apps.items row.key.app) }
{
    let mut apps = apps_of(alloc, &touch.made)?;
    let more = apps_of(alloc, &touch.withdrawn)?;
    apps.extend_from_slice(&more)?;
    Ok(apps)
}

// The applications of rows.
fn apps_of(alloc: Global, rows: &[Row]) -> Result<Vec<App>, AllocError>
    ensures { IfOk result (λ apps.
        apps.items ≡ map (λ (row : RowValue). row.key.app) rows.now) }
{
    rows.iter().map(|row| row.key.app).collect(alloc)
}

// The applications whose lists name one of these. If a list replaces another, its application is among them too.
fn naming_apps(alloc: Global, then: &ListsThen<'_>, apps: &[App]) -> Result<Vec<App>, AllocError>
    ensures { IfOk result (λ naming. (link : LinkValue)
        → Contains (links_then then.now) link → Contains apps.now link.predecessor
        → Contains naming.items link.app) }
{
    let mut naming = standing_apps(alloc, then.lists, apps)?;
    if let Some(own) = then.own {
        naming.push(own.app)?;
    }
    Ok(naming)
}

// The applications whose lists name one of these, where none is replaced.
fn standing_apps(alloc: Global, lists: &LinkBlocks, apps: &[App]) -> Result<Vec<App>, AllocError>
    ensures { IfOk result (λ naming. (link : LinkValue)
        → Contains lists.now.items link → Contains apps.now link.predecessor
        → Contains naming.items link.app) }
{
    let mut naming = Vec::new(alloc);
    for app in apps {
        push_naming(&mut naming, lists.naming(app))?;
    }
    Ok(naming)
}

// Adds the applications of these.
fn push_naming(apps: &mut Vec<App>, found: &[Naming]) -> Result<(), AllocError>
    ensures { OnOk result (apps.new.items
        ≡ apps.old.items ++ map (λ (naming : NamingValue). naming.link.app) found.now) }
{
    for naming in found {
        apps.push(naming.link.app)?;
    }
    Ok(())
}

// The applications that the lists of these name.
fn named_apps(alloc: Global, then: &ListsThen<'_>, apps: &[App]) -> Result<Vec<App>, AllocError>
    ensures { IfOk result (λ named. (link : LinkValue)
        → Contains (links_then then.now) link → Contains apps.now link.app
        → Contains named.items link.predecessor) }
{
    let mut named = Vec::new(alloc);
    for app in apps {
        push_named(&mut named, then.list(app))?;
    }
    Ok(named)
}

// Adds the predecessors of a list.
fn push_named(named: &mut Vec<App>, list: &[Link]) -> Result<(), AllocError>
    ensures { OnOk result (named.new.items
        ≡ named.old.items ++ map (λ (link : LinkValue). link.predecessor) list.now) }
{
    for link in list {
        named.push(link.predecessor)?;
    }
    Ok(())
}

// The items in rising order, each once.
fn in_order<T: Ord + Copy>(mut items: Vec<T>) -> Vec<T>
    requires { IsAntisymmetric T.cmp }
    ensures rising { IsRising T.cmp result.items }
    ensures same { (x : T) → Contains result.items x ↔ Contains items.items x }
{
    items.sort_unstable();
    items.dedup();
    items
}

/// Whether these applications have at most half as many live rows as there are rows and lists, so that listing their
/// rows apart is worth while.
pub fn are_few(view: &View<'_>, apps: &[App]) -> bool {
    let rows = view.ltp().len() + view.cp().len() + view.lasts().len();
    let all = rows.saturating_add(view.in_force().blocks().len());
    let mut count: usize = 0;
    for app in apps {
        let rows = view.ltp_of(app).len() + view.cp_of(app).len() + view.lasts_of(app).len();
        count = count.saturating_add(rows);
    }
    count <= all / 2
}

/// The live occurrences of these applications, where these rows of them are the long-term plan's.
pub fn live_rows_of(
    alloc: Global,
    view: &View<'_>,
    apps: &[App],
    planned: &[Row],
) -> Result<Rows, AllocError>
    ensures { IfOk result (λ rows. AreGathered (shown view.now).sets apps.now planned.now rows) }
{
    let mut rows = Vec::new(alloc);
    push_rows(&mut rows, planned, Place::LongTerm)?;
    for app in apps {
        push_current(&mut rows, view.cp_of(app))?;
        push_rows(&mut rows, view.lasts_of(app), Place::History)?;
    }
    Ok(Rows::from_vec(rows))
}
