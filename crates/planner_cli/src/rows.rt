//! Rows on their way to a reply.
ghost use Rattle.std.specs.Prelude.{◌≡◌, ◌++◌, ℕ, List, IfOk, OnOk, flat_map};
ghost use Rattle.planner_cli.specs.Replies.{ended};
ghost use Rattle.planner_cli.specs.Rows.{AreDaysLines};

use plan_listings::days_line;
use run_cycles::Named;
use std::alloc::{AllocError, Global};

/// Appends a line and the line feed that ends it.
#[tactic(auto, unfolding(crate::specs::Replies::ended))]
pub fn append_line(text: &mut Vec<u8>, line: &[u8]) -> Result<(), AllocError>
    ensures { OnOk result (text.new.items ≡ text.old.items ++ ended line.now) }
{
    text.extend_from_slice(line)?;
    text.extend_from_slice(b"\n")
}

/// The lines of named occurrences, each with its line feed.
pub fn days_rows(alloc: Global, named: &[Named]) -> Result<Vec<u8>, AllocError>
    ensures { IfOk result (λ text. (rows : List (List ℕ))
        × AreDaysLines named.now rows × (text.items ≡ flat_map ended rows)) }
{
    let mut text = Vec::new(alloc);
    for one in named {
        append_line(&mut text, &days_line(one))?;
    }
    Ok(text)
}
