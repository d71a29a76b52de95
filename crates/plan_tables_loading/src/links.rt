// Lists in force, made of their links.

ghost use Rattle.std.specs.Prelude.{◌≡◌, ◌↔◌, Contains, None, IfOk, IfSome, IsTrue};
ghost use Rattle.std.specs.List.{All};
ghost use Rattle.external_dependencies.specs.Link.{AreNamedOnce};
ghost use Rattle.external_dependencies.specs.Rising.{HaveSame};

use external_dependencies::{Link, Links};
use std::alloc::AllocError;

// Whether all of the links are in the lists, with the same limits.
fn are_listed(links: &[Link], lists: &Links) -> bool
    ensures { IsTrue result ↔ All (Contains lists.now) links.now }
{
    links.iter().all(|link| lists.contains(link))
}

/// The lists that the links make; `None` if two of them have the same names but different limits.
pub(crate) fn lists_of_links(links: Vec<Link>) -> Result<Option<Links>, AllocError>
    ensures same { IfOk result (λ found. IfSome found (λ lists. HaveSame lists links.items)) }
    ensures none { IfOk result (λ found. found ≡ None → AreNamedOnce links.items → ⊥) }
{
    let lists = Links::from_vec(links.clone()?);
    if are_listed(&links, &lists) {
        Ok(Some(lists))
    } else {
        Ok(None)
    }
}
