ghost use Rattle.std.specs.Prelude.{◌≡◌, List, map, IfOk};
ghost use Rattle.std.specs.Ordering.{nat_cmp};
ghost use Rattle.std.specs.Cmp.Lexicographic.{slice_cmp};
ghost use Rattle.external_dependencies.specs.Loop.{AreApplications, IsLeastOnLoop, LeadsWithin, LoopsPass};
ghost use Rattle.external_dependencies.specs.Places.{IsLeastAmong};
ghost use Rattle.external_dependencies.specs.Rising.{IsRising};
ghost use Rattle.external_dependencies.specs.declared.links.Link.{Link};

use crate::graph::Graph;
use crate::links::{Link, Links};
use crate::rising::into_rising;
use std::alloc::{AllocError, Global};
use work_calendars::App;

/// The least application, in byte order, on a loop of two or more different applications, each in the list of the one
/// before; `None` if there is no loop. An application that names itself alone makes none.
pub fn find_loop(alloc: Global, links: &Links) -> Result<Option<App>, AllocError>
    ensures { IfOk result (λ found. IsLeastOnLoop links.now found) }
{
    let names = applications(alloc, links)?;
    least_among(alloc, links, &names)
}

/// The same where every loop passes one application, as after a change of its list alone. `links` are its list and that
/// of each application that these lists name; no others need be there.
pub fn find_loop_through(alloc: Global, links: &Links, app: &App) -> Result<Option<App>, AllocError>
    ensures { IfOk result (λ found. (all : List Link) → LeadsWithin links.now all app.now
        → LoopsPass all app.now → IsLeastOnLoop all found) }
{
    find_loop(alloc, links)
}

// The least of the names on a loop that stays among them.
fn least_among(alloc: Global, links: &Links, names: &[App]) -> Result<Option<App>, AllocError>
    requires { IsRising (slice_cmp nat_cmp) names.now }
    ensures { IfOk result (λ found. IsLeastAmong links.now names.now found) }
{
    let graph = Graph::new(alloc, links, names)?;
    match graph.least_returning(alloc)? {
        Some(place) => Ok(Some(names[place])),
        None => Ok(None),
    }
}

// The applications that have a list, in byte order, each once.
fn applications(alloc: Global, links: &Links) -> Result<Vec<App>, AllocError>
    ensures { IfOk result (λ names. AreApplications links.now names.items) }
{
    Ok(into_rising(apps(alloc, links.as_slice())?))
}

// The application of each link.
fn apps(alloc: Global, links: &[Link]) -> Result<Vec<App>, AllocError>
    ensures { IfOk result (λ apps. apps.items ≡ map (λ (link : Link). link.app) links.now) }
{
    links.iter().map(|link| link.app).collect(alloc)
}
