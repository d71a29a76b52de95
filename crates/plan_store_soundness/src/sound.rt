ghost use Rattle.std.specs.Prelude.{◌↔◌, IfOk, IsTrue};
ghost use Rattle.planner_machine.specs.Sound.{IsSound};
ghost use Rattle.plan_store.specs.Contents.{content_of};

use crate::listing::placed_rows;
use crate::pairs::{has_closed_pairs, has_settled_pairs};
use crate::ranges::has_ranges;
use crate::rows::has_sound_rows;
use plan_store::Content;
use std::alloc::{AllocError, Global};

/// Whether the content is sound: all nine rules, whatever was read. The time is nearly linear in definitions, rows and
/// pairs: the rows are listed once, and the list is scanned for each rule, keys are put into sets, and pairs are sorted.
pub fn is_sound(alloc: Global, content: &Content) -> Result<bool, AllocError>
    ensures { IfOk result (λ b. IsTrue b ↔ IsSound (content_of content.now)) }
{
    let all = placed_rows(alloc, content)?;
    let rows = has_sound_rows(alloc, content, &all)?;
    if !rows {
        return Ok(false);
    }
    let ranges = has_ranges(alloc, content, &all)?;
    if !ranges {
        return Ok(false);
    }
    let settled = has_settled_pairs(alloc, content)?;
    if !settled {
        return Ok(false);
    }
    has_closed_pairs(alloc, content, &all)
}
