ghost use Rattle.std.specs.Prelude.{◌↔◌, ℕ, List, IfOk, IsTrue};
ghost use Rattle.external_dependencies.specs.Loop.{OnLoop};
ghost use Rattle.plan_store.specs.Contents.{content_of};

use external_dependencies::find_loop;
use plan_store::Content;
use std::alloc::{AllocError, Global};

/// Whether the lists in force have no loop over two or more applications.
pub(crate) fn has_no_loop(alloc: Global, content: &Content) -> Result<bool, AllocError>
    ensures { IfOk result (λ b. IsTrue b
        ↔ ((app : List ℕ) → OnLoop (content_of content.now).in_force app → ⊥)) }
{
    let links = content.in_force.to_links(alloc)?;
    match find_loop(alloc, &links)? {
        None => Ok(true),
        Some(_) => Ok(false),
    }
}
