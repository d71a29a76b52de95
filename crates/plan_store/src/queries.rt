// What a window reads of history: for some applications, the last row at a moment or before it.

ghost use Rattle.std.specs.Prelude.{[], ◌↔◌, ◌+◌, ℕ, Contains, IfOk, List, None, OnOk, Some};
ghost use Rattle.std.specs.FinMap.{IsAntisymmetric};
ghost use Rattle.app_definition_records.specs.declared.predecessors.Predecessor.{Predecessor as PredecessorValue};
ghost use Rattle.external_dependencies.specs.Link.{Lists};
ghost use Rattle.external_dependencies.specs.declared.links.Link.{Link as LinkValue};
ghost use Rattle.plan_store_lists.specs.declared.namings.Naming.{Naming as NamingValue};
ghost use Rattle.plan_store.specs.Queries.{AddsQueries, AreDistinct, IsQueriedIn};
ghost use Rattle.plan_store.specs.declared.queries.LastQuery.{LastQuery as LastQueryValue};
ghost use Rattle.plan_store.specs.HistoryReads.{ReadsKey, ReadsNaming, ReadsPlan, ListsDefined};
ghost use Rattle.plan_store.specs.Contents.{content_of};
ghost use Rattle.plan_store.specs.Queries.{ReadByOne, ReadsEach, ReadsEnd, ReadsEndOf, ReadsRow, IsAsked, IsDefined};
ghost use Rattle.plan_store.specs.Views.{Asks};

use crate::contents::Content;
use crate::stores::Need;
use app_definitions::{Definitions, Predecessor};
use external_dependencies::Link;
use occurrences::{CurrentRow, Key, Status};
use plan_store_lists::{LinkBlocks, Naming, RowBlocks};
use planner_machine::Bounds;
use std::alloc::{AllocError, Global};
use work_calendars::{App, Moment};

/// The last row of an application in history, at a moment or before it.
#[derive(Clone, Copy, Debug, PartialEq, Eq, PartialOrd, Ord)]
pub struct LastQuery {
    /// The application.
    pub app: App,
    /// The moment.
    pub moment: Moment,
}

/// What a window for the need reads of history, each once.
pub fn last_queries_of(
    alloc: Global,
    lists: &Content,
    need: &Need,
) -> Result<Vec<LastQuery>, AllocError>
    ensures found { IfOk result (λ queries. (app : List ℕ) (minute : ℕ)
        → Asks need.now (content_of lists.now) app minute → IsQueriedIn queries.items app minute) }
    ensures only { IfOk result (λ queries. (query : LastQueryValue) → Contains queries.items query
        → Asks need.now (content_of lists.now) query.app (query.moment + 1)) }
    ensures apart { IfOk result (λ queries. AreDistinct queries.items) }
{
    match need {
        Need::Key(key) => key_queries(alloc, lists, key),
        Need::LongTerm(only) => plan_queries(alloc, lists, only),
        Need::Definitions | Need::Daily(_) => Ok(Vec::new(alloc)),
    }
}

// What a statement on the key reads.
fn key_queries(alloc: Global, lists: &Content, key: &Key) -> Result<Vec<LastQuery>, AllocError>
    ensures adds { IfOk result (λ queries.
        AddsQueries (ReadsKey (content_of lists.now) key.now) [] queries.items) }
    ensures apart { IfOk result (λ queries. AreDistinct queries.items) }
{
    let mut queries = Vec::new(alloc);
    add_query(&mut queries, &key.app, key.ia)?;
    add_list(&mut queries, &lists.in_force, &key.app, key.ia)?;
    put_in_order(&mut queries);
    Ok(queries)
}

// What a statement on the long-term plan reads, for all applications or for one.
fn plan_queries(
    alloc: Global,
    lists: &Content,
    only: &Option<App>,
) -> Result<Vec<LastQuery>, AllocError>
    ensures adds { IfOk result (λ queries.
        AddsQueries (ReadsPlan only.now (content_of lists.now)) [] queries.items) }
    ensures apart { IfOk result (λ queries. AreDistinct queries.items) }
{
    match only {
        Some(app) => queries_of_one(alloc, lists, app),
        None => queries_of_all(alloc, lists),
    }
}

// The same for one application. It reads the lists of that one and of those whose list in force names it.
fn queries_of_one(alloc: Global, lists: &Content, app: &App) -> Result<Vec<LastQuery>, AllocError>
    ensures adds { IfOk result (λ queries.
        AddsQueries (ReadsPlan (Some app.now) (content_of lists.now)) [] queries.items) }
    ensures apart { IfOk result (λ queries. AreDistinct queries.items) }
{
    let mut queries = Vec::new(alloc);
    add_naming(&mut queries, lists, app)?;
    add_each_naming(&mut queries, lists, lists.in_force.naming(app))?;
    put_in_order(&mut queries);
    Ok(queries)
}

// Adds what is read for each application of these links.
fn add_each_naming(
    queries: &mut Vec<LastQuery>,
    lists: &Content,
    namings: &[Naming],
) -> Result<(), AllocError>
    ensures { OnOk result (AddsQueries
        (ReadByOne (λ (naming : NamingValue). ReadsNaming (content_of lists.now) naming.link.app)
        namings.now) queries.old.items queries.new.items) }
{
    for naming in namings {
        add_naming(queries, lists, &naming.link.app)?;
    }
    Ok(())
}

// Adds what is read for the application.
fn add_naming(queries: &mut Vec<LastQuery>, lists: &Content, naming: &App) -> Result<(), AllocError>
    ensures { OnOk result (AddsQueries (ReadsNaming (content_of lists.now) naming.now)
        queries.old.items queries.new.items) }
{
    let rows = lists.cp.of_app(naming);
    add_waiting(queries, &lists.in_force, &lists.definitions, rows)?;
    add_end_of(
        queries,
        &lists.in_force,
        &lists.definitions,
        lists.bounds,
        naming,
    )
}

// Adds, if there is a plan, the last row at the plan end of each application in the lists of the application, in force
// and defined.
fn add_end_of(
    queries: &mut Vec<LastQuery>,
    in_force: &LinkBlocks,
    definitions: &Definitions,
    bounds: Option<Bounds>,
    naming: &App,
) -> Result<(), AllocError>
    ensures { OnOk result (AddsQueries
        (ReadsEndOf in_force.now.items definitions.now bounds naming.now)
        queries.old.items queries.new.items) }
{
    let Some(bounds) = bounds else {
        return Ok(());
    };
    let moment = bounds.plan_end;
    add_list(queries, in_force, naming, moment)?;
    add_defined(queries, definitions, naming, moment)
}

// The same for all applications.
fn queries_of_all(alloc: Global, lists: &Content) -> Result<Vec<LastQuery>, AllocError>
    ensures adds { IfOk result (λ queries.
        AddsQueries (ReadsPlan None (content_of lists.now)) [] queries.items) }
    ensures apart { IfOk result (λ queries. AreDistinct queries.items) }
{
    let mut queries = Vec::new(alloc);
    add_all_waiting(&mut queries, &lists.in_force, &lists.definitions, &lists.cp)?;
    add_plan_end(
        &mut queries,
        &lists.in_force,
        &lists.definitions,
        lists.bounds,
    )?;
    put_in_order(&mut queries);
    Ok(queries)
}

// Adds the last row of the application at the moment or before it.
fn add_query(queries: &mut Vec<LastQuery>, app: &App, moment: Moment) -> Result<(), AllocError>
    ensures { OnOk result (AddsQueries (IsAsked app.now (moment + 1)) queries.old.items queries.new.items) }
{
    queries.push(LastQuery { app: *app, moment })?;
    Ok(())
}

// Adds the last row of each predecessor of the links.
fn add_links(queries: &mut Vec<LastQuery>, links: &[Link], moment: Moment) -> Result<(), AllocError>
    ensures { OnOk result (AddsQueries
        (ReadByOne (λ (link : LinkValue). IsAsked link.predecessor (moment + 1)) links.now)
        queries.old.items queries.new.items) }
{
    for link in links {
        add_query(queries, &link.predecessor, moment)?;
    }
    Ok(())
}

// Adds the last row of each application that a list in force names.
fn add_all_links(
    queries: &mut Vec<LastQuery>,
    in_force: &LinkBlocks,
    moment: Moment,
) -> Result<(), AllocError>
    ensures { OnOk result (AddsQueries
        (ReadByOne (λ (link : LinkValue). IsAsked link.predecessor (moment + 1)) in_force.now.items)
        queries.old.items queries.new.items) }
{
    let all = in_force.blocks();
    for block in all {
        add_links(queries, block.items(), moment)?;
    }
    Ok(())
}

// Adds the last row of each application in the list of the application that is in force.
fn add_list(
    queries: &mut Vec<LastQuery>,
    in_force: &LinkBlocks,
    app: &App,
    moment: Moment,
) -> Result<(), AllocError>
    ensures { OnOk result (AddsQueries (ReadsEach (Lists in_force.now.items app.now) (moment + 1))
        queries.old.items queries.new.items) }
{
    add_links(queries, in_force.list(app), moment)
}

// Adds the last row of each of the predecessors.
fn add_named(
    queries: &mut Vec<LastQuery>,
    listed: &[Predecessor],
    moment: Moment,
) -> Result<(), AllocError>
    ensures { OnOk result (AddsQueries
        (ReadByOne (λ (p : PredecessorValue). IsAsked p.name (moment + 1)) listed.now)
        queries.old.items queries.new.items) }
{
    for predecessor in listed {
        add_query(queries, &predecessor.name, moment)?;
    }
    Ok(())
}

// Adds the last row of each application in the list that is defined for the application.
fn add_defined(
    queries: &mut Vec<LastQuery>,
    definitions: &Definitions,
    app: &App,
    moment: Moment,
) -> Result<(), AllocError>
    ensures { OnOk result (AddsQueries (ReadsEach (ListsDefined definitions.now app.now) (moment + 1))
        queries.old.items queries.new.items) }
{
    match definitions.predecessors.get(app) {
        Some(listed) => add_named(queries, listed.as_slice(), moment),
        None => Ok(()),
    }
}

// Adds the last row of each application in a list that is defined.
fn add_all_defined(
    queries: &mut Vec<LastQuery>,
    definitions: &Definitions,
    moment: Moment,
) -> Result<(), AllocError>
    ensures { OnOk result (AddsQueries (ReadsEach (IsDefined definitions.now) (moment + 1))
        queries.old.items queries.new.items) }
{
    for (_app, listed) in definitions.predecessors.iter() {
        add_named(queries, listed.as_slice(), moment)?;
    }
    Ok(())
}

// Adds, for each of the rows that waits, the last row at its arrival of each application in its lists, in force and
// defined.
fn add_waiting(
    queries: &mut Vec<LastQuery>,
    in_force: &LinkBlocks,
    definitions: &Definitions,
    rows: &[CurrentRow],
) -> Result<(), AllocError>
    ensures { OnOk result (AddsQueries
        (ReadByOne (ReadsRow in_force.now.items definitions.now) rows.now)
        queries.old.items queries.new.items) }
{
    for current in rows {
        if current.status == Status::W {
            let key = current.row.key;
            let moment = key.ia;
            add_list(queries, in_force, &key.app, moment)?;
            add_defined(queries, definitions, &key.app, moment)?;
        }
    }
    Ok(())
}

// Adds that for each of the rows of the current plan that waits.
fn add_all_waiting(
    queries: &mut Vec<LastQuery>,
    in_force: &LinkBlocks,
    definitions: &Definitions,
    cp: &RowBlocks<CurrentRow>,
) -> Result<(), AllocError>
    ensures { OnOk result (AddsQueries
        (ReadByOne (ReadsRow in_force.now.items definitions.now) cp.now.items)
        queries.old.items queries.new.items) }
{
    let all = cp.blocks();
    for block in all {
        add_waiting(queries, in_force, definitions, block.items())?;
    }
    Ok(())
}

// Adds, if there is a plan, the last row at the plan end of each application that a list names, in force or defined.
fn add_plan_end(
    queries: &mut Vec<LastQuery>,
    in_force: &LinkBlocks,
    definitions: &Definitions,
    bounds: Option<Bounds>,
) -> Result<(), AllocError>
    ensures { OnOk result (AddsQueries (ReadsEnd in_force.now.items definitions.now bounds)
        queries.old.items queries.new.items) }
{
    let Some(bounds) = bounds else {
        return Ok(());
    };
    let moment = bounds.plan_end;
    add_all_links(queries, in_force, moment)?;
    add_all_defined(queries, definitions, moment)?;
    Ok(())
}

// Puts the items in order, each once.
fn put_in_order<T: Ord + Copy>(items: &mut Vec<T>)
    requires { IsAntisymmetric T.cmp }
    ensures same { (x : T) → Contains items.new.items x ↔ Contains items.old.items x }
    ensures apart { AreDistinct items.new.items }
{
    items.sort_unstable();
    items.dedup();
}
