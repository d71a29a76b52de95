ghost use Rattle.std.specs.Prelude.{◌≡◌, ◌↔◌, Contains, IfOk, IfSome, IsTrue, None, Some, map};
ghost use Rattle.external_dependencies.specs.Loop.{IsLeastOnLoop, LoopsPass};
ghost use Rattle.external_dependencies.specs.Link.{AreNamedOnce};
ghost use Rattle.external_dependencies.specs.declared.links.Link.{Link as LinkValue};
ghost use Rattle.app_definitions.specs.declared.definitions.Definitions.{Definitions as Defined};
ghost use Rattle.planner_machine.specs.InForce.{AreLinks, IsDefinedLink, PutsOne};
ghost use Rattle.plan_store_lists.specs.ListsThen.{links_then, with_own};
ghost use Rattle.plan_store.specs.Changes.{lists_after};
ghost use Rattle.plan_store.specs.Views.{shown};
ghost use Rattle.long_term_plan.specs.Lists.{AreListed, link_of, link_to};
ghost use Rattle.long_term_plan.specs.Reaching.{IsNewOf};

use app_definitions::{Definitions, Predecessor};
use app_occurrences::defined_links;
use external_dependencies::{Link, Links, find_loop, find_loop_through};
use plan_store::{NewLists, View};
use plan_store_lists::{AppList, LinkBlocks, ListsThen};
use std::alloc::{AllocError, Global};
use std::collections::HashSet;
use work_calendars::App;

// All lists that are defined.
pub(crate) fn defined_lists(alloc: Global, all: &Definitions) -> Result<Links, AllocError>
    ensures { IfOk result (λ links. AreLinks (IsDefinedLink all.now) links) }
{
    let listed = defined_links(alloc, all)?;
    let links = links_of(alloc, listed.as_slice())?;
    Ok(Links::from_vec(links))
}

// The links of applications and their predecessors.
fn links_of(alloc: Global, listed: &[(App, Predecessor)]) -> Result<Vec<Link>, AllocError>
    ensures { IfOk result (λ links. links.items ≡ map link_of listed.now) }
{
    listed
        .iter()
        .map(|(app, predecessor)| Link {
            app: *app,
            predecessor: predecessor.name,
            within: predecessor.within,
        })
        .collect(alloc)
}

// What comes into force for one application: the list that is defined for it; `None` where that is in force.
pub(crate) fn new_list(
    alloc: Global,
    all: &Definitions,
    before: &LinkBlocks,
    app: &App,
) -> Result<Option<NewLists>, AllocError>
    ensures puts { IfOk result (λ new. PutsOne app.now all.now before.now.items
        (lists_after new before.now.items)) }
    ensures own { IfOk result (IsNewOf (Some app.now)) }
{
    match list_of_one(alloc, all, before, app)? {
        Some(list) => Ok(Some(NewLists::One(list))),
        None => Ok(None),
    }
}

// The list that is defined for the application; `None` where it is in force.
fn list_of_one(
    alloc: Global,
    all: &Definitions,
    before: &LinkBlocks,
    app: &App,
) -> Result<Option<AppList>, AllocError>
    ensures puts { IfOk result (λ own. PutsOne app.now all.now before.now.items
        (with_own own before.now.items)) }
    ensures own { IfOk result (λ own. IfSome own (λ list. list.app ≡ app.now)) }
{
    let listed = own_links(alloc, all, app)?;
    let own = Links::from_vec(listed);
    before.rise();
    if are_same(own.as_slice(), before.list(app)) {
        return Ok(None);
    }
    Ok(Some(AppList {
        app: *app,
        links: own.into_vec(),
    }))
}

// Whether the links are those, in their order and with the same limits.
fn are_same(links: &[Link], others: &[Link]) -> bool
    ensures { IsTrue result → links.now ≡ others.now }
{
    if links.len() != others.len() {
        return false;
    }
    for (place, link) in links.iter().enumerate() {
        if !is_same(link, &others[place]) {
            return false;
        }
    }
    true
}

// Whether the links have the same names and the same limit.
fn is_same(link: &Link, other: &Link) -> bool
    ensures { IsTrue result → link.now ≡ other.now }
{
    link == other && link.within == other.within
}

// The lists in force then, without a copy.
pub(crate) fn lists_then<'a>(view: &View<'a>, new: &'a Option<NewLists>) -> ListsThen<'a>
    ensures { links_then result ≡ lists_after new.now (shown view.now).in_force }
{
    match new {
        Some(NewLists::All(lists)) => ListsThen { lists, own: None },
        Some(NewLists::One(list)) => ListsThen {
            lists: view.in_force(),
            own: Some(list),
        },
        None => ListsThen {
            lists: view.in_force(),
            own: None,
        },
    }
}

// The least application on a loop of the lists that come into force for one application, where those before have none.
pub(crate) fn loop_of_one(
    alloc: Global,
    view: &View<'_>,
    new: &Option<NewLists>,
    app: &App,
) -> Result<Option<App>, AllocError>
    ensures { IfOk result (λ found. (all : Defined)
        → PutsOne app.now all (shown view.now).in_force
        (lists_after new.now (shown view.now).in_force)
        → IsLeastOnLoop (shown view.now).in_force None
        → IsLeastOnLoop (lists_after new.now (shown view.now).in_force) found) }
{
    match new {
        Some(_) => loop_through(alloc, &lists_then(view, new), app),
        None => Ok(None),
    }
}

// The least application on a loop of the lists, where every loop passes this one. It reads only the lists that the
// application leads to.
fn loop_through(alloc: Global, lists: &ListsThen<'_>, app: &App) -> Result<Option<App>, AllocError>
    ensures { IfOk result (λ found. LoopsPass (links_then lists.now) app.now
        → IsLeastOnLoop (links_then lists.now) found) }
{
    let names = names_ahead(alloc, lists, app)?;
    let some = lists.of_apps(alloc, &names)?;
    if has_app(&names, app) && are_listed(&names, some.as_slice()) {
        find_loop_through(alloc, &some, app)
    } else {
        find_loop(alloc, &lists.to_links(alloc)?)
    }
}

// The application and those that its list leads to, over lists of these too, in order. The caller checks them.
fn names_ahead(alloc: Global, lists: &ListsThen<'_>, app: &App) -> Result<Vec<App>, AllocError> {
    let mut seen = HashSet::new(alloc);
    let mut names = Vec::new(alloc);
    seen.insert(*app)?;
    names.push(*app)?;
    for done in 0..usize::MAX {
        if done >= names.len() {
            break;
        }
        let name = names[done];
        for link in lists.list(&name) {
            if seen.insert(link.predecessor)? {
                names.push(link.predecessor)?;
            }
        }
    }
    names.sort_unstable();
    Ok(names)
}

// Whether the predecessors of the links are all among the names.
fn are_listed(names: &[App], links: &[Link]) -> bool
    ensures { IsTrue result → AreListed names.now links.now }
{
    for link in links {
        if !has_app(names, &link.predecessor) {
            return false;
        }
    }
    true
}

// Whether the application is found among the names, which should be in order.
fn has_app(names: &[App], app: &App) -> bool
    ensures { IsTrue result → Contains names.now app.now }
{
    names.binary_search(app).is_ok()
}

// The links of the list that is defined for the application.
fn own_links(alloc: Global, all: &Definitions, app: &App) -> Result<Vec<Link>, AllocError>
    ensures exactly { IfOk result (λ links. (link : LinkValue)
        → Contains links.items link ↔ ((link.app ≡ app.now) × IsDefinedLink all.now link)) }
    ensures once { IfOk result (λ links. AreNamedOnce links.items) }
{
    match all.predecessors.get(app) {
        Some(listed) => links_to(alloc, app, listed.as_slice()),
        None => Ok(Vec::new(alloc)),
    }
}

// The links of the application to these predecessors.
fn links_to(alloc: Global, app: &App, listed: &[Predecessor]) -> Result<Vec<Link>, AllocError>
    ensures { IfOk result (λ links. links.items ≡ map (link_to app.now) listed.now) }
{
    listed
        .iter()
        .map(|predecessor| Link {
            app: *app,
            predecessor: predecessor.name,
            within: predecessor.within,
        })
        .collect(alloc)
}
