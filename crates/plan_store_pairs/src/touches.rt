ghost use Rattle.std.specs.Prelude.{[], ◌≡◌, ◌⊎◌, ◌∷◌, ℕ, List, Contains, IfOk, OnOk};
ghost use Rattle.external_dependencies.specs.Touch.{HasSameList};
ghost use Rattle.external_dependencies.specs.declared.links.Link.{Link as LinkValue};
ghost use Rattle.plan_store_lists.specs.LinkBlocks.{with_list};
ghost use Rattle.plan_store_pairs.specs.Turns.{IsTouchOf};

use crate::singles::single;
use external_dependencies::{Link, Touch};
use occurrences::Row;
use plan_store_lists::LinkBlocks;
use std::alloc::{AllocError, Global};
use work_calendars::App;

/// What a planning statement touches if it removes these rows of the long-term plan, makes these, and puts the one
/// lists into force in place of the other.
pub fn touch_of(
    alloc: Global,
    gone: &[Row],
    made: &[Row],
    before: &LinkBlocks,
    links: &LinkBlocks,
) -> Result<Touch, AllocError>
    ensures { IfOk result (IsTouchOf gone.now made.now before.now.items links.now.items) }
{
    let mut touch = touch_of_rows(alloc, gone, made)?;
    touch.lists = changed_lists(alloc, before, links)?;
    Ok(touch)
}

/// The same where the lists in force stay.
pub fn touch_of_rows(alloc: Global, gone: &[Row], made: &[Row]) -> Result<Touch, AllocError>
    ensures touched { IfOk result (λ touch. (links : List LinkValue)
        → IsTouchOf gone.now made.now links links touch) }
    ensures lists { IfOk result (λ touch. touch.lists.items ≡ []) }
{
    Ok(Touch {
        made: Vec::from_slice(alloc, made)?,
        withdrawn: Vec::from_slice(alloc, gone)?,
        opened: Vec::new(alloc),
        closed: Vec::new(alloc),
        lists: Vec::new(alloc),
    })
}

/// The same where the statement puts a list into force in place of that of one application.
pub fn touch_of_list(
    alloc: Global,
    gone: &[Row],
    made: &[Row],
    app: &App,
) -> Result<Touch, AllocError>
    ensures touched { IfOk result (λ touch. (list before : List LinkValue)
        → ((link : LinkValue) → Contains list link → link.app ≡ app.now)
        → IsTouchOf gone.now made.now before (with_list app.now list before) touch) }
    ensures lists { IfOk result (λ touch. touch.lists.items ≡ app.now ∷ []) }
{
    let mut touch = touch_of_rows(alloc, gone, made)?;
    touch.lists = single(alloc, *app)?;
    Ok(touch)
}

// The applications whose lists differ.
fn changed_lists(
    alloc: Global,
    before: &LinkBlocks,
    links: &LinkBlocks,
) -> Result<Vec<App>, AllocError>
    ensures { IfOk result (λ apps. (app : List ℕ) →
        HasSameList before.now.items links.now.items app ⊎ Contains apps.items app) }
{
    let mut apps = lists_beside(alloc, before, links)?;
    let more = lists_beside(alloc, links, before)?;
    apps.extend_from_slice(&more)?;
    Ok(apps)
}

// The applications of those links that are not among the others with the same limit.
fn lists_beside(
    alloc: Global,
    links: &LinkBlocks,
    others: &LinkBlocks,
) -> Result<Vec<App>, AllocError>
    ensures { IfOk result (λ apps. (link : LinkValue) → Contains links.now.items link
        → Contains others.now.items link ⊎ Contains apps.items link.app) }
{
    let mut apps = Vec::new(alloc);
    for block in links.blocks() {
        push_beside(&mut apps, block.items(), others)?;
    }
    Ok(apps)
}

// Adds the applications of those of the links that are not among the others with the same limit.
fn push_beside(apps: &mut Vec<App>, links: &[Link], others: &LinkBlocks) -> Result<(), AllocError>
    ensures stay { OnOk result ((app : List ℕ) → Contains apps.old.items app
        → Contains apps.new.items app) }
    ensures told { OnOk result ((link : LinkValue) → Contains links.now link
        → Contains others.now.items link ⊎ Contains apps.new.items link.app) }
{
    for link in links {
        if !others.contains(link) {
            apps.push(link.app)?;
        }
    }
    Ok(())
}
