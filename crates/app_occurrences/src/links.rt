// The predecessors that the definitions list, over all applications.

ghost use Rattle.std.specs.Prelude.{◌≡◌, ◌↔◌, ◌++◌, ℕ, List, Contains, IfOk, OnOk, map};
ghost use Rattle.app_occurrences.specs.Links.{HaveOwnNames, IsDefinedLink};
ghost use Rattle.app_definition_records.specs.declared.predecessors.Predecessor.{Predecessor as PredecessorValue};

use app_definitions::{Definitions, Predecessor};
use std::alloc::{AllocError, Global};
use work_calendars::App;

// Appends the application with each of the predecessors.
fn push_links(
    links: &mut Vec<(App, Predecessor)>,
    app: App,
    listed: &[Predecessor],
) -> Result<(), AllocError>
    ensures { OnOk result (links.new.items ≡ links.old.items ++ map (λ predecessor.
        (app, predecessor)) listed.now) }
{
    for predecessor in listed {
        links.push((app, *predecessor))?;
    }
    Ok(())
}

/// Each application with each predecessor in its list, in no order, each pair of names once.
pub fn defined_links(
    alloc: Global,
    all: &Definitions,
) -> Result<Vec<(App, Predecessor)>, AllocError>
    ensures exactly { IfOk result (λ links. (app : List ℕ) (predecessor : PredecessorValue)
        → Contains links.items (app, predecessor) ↔ IsDefinedLink all.now app predecessor) }
    ensures own_names { IfOk result (λ links. HaveOwnNames links.items) }
{
    let mut links = Vec::new(alloc);
    for (app, predecessors) in all.predecessors.iter() {
        push_links(&mut links, *app, predecessors.as_slice())?;
    }
    Ok(links)
}
