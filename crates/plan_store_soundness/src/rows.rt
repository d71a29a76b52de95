ghost use Rattle.std.specs.Prelude.{◌≡◌, ◌↔◌, IfOk, IsTrue};
ghost use Rattle.plan_store.specs.Contents.{content_of};
ghost use Rattle.plan_store_soundness.specs.Listing.{placed_list};
ghost use Rattle.plan_store_soundness.specs.Rules.{HasSoundRows};

use crate::bounds::has_bounds;
use crate::jobs::has_kept_jobs;
use crate::links::has_no_loop;
use crate::rules::{has_arrivals, has_own_keys, is_numbered};
use crate::sizes::has_sizes;
use external_dependencies::PlacedRow;
use plan_store::Content;
use std::alloc::{AllocError, Global};

/// Whether bounds, serials, keys, arrivals, sizes, lists in force and kept jobs are those of sound content.
pub(crate) fn has_sound_rows(
    alloc: Global,
    content: &Content,
    all: &[PlacedRow],
) -> Result<bool, AllocError>
    requires { all.now ≡ placed_list content.now }
    ensures { IfOk result (λ b. IsTrue b ↔ HasSoundRows (content_of content.now)) }
{
    if !has_bounds(content) {
        return Ok(false);
    }
    if !has_kept_jobs(content) {
        return Ok(false);
    }
    let numbered = is_numbered(alloc, content, all)?;
    if !numbered {
        return Ok(false);
    }
    if !has_sizes(content) {
        return Ok(false);
    }
    let own_keys = has_own_keys(alloc, content, all)?;
    if !own_keys {
        return Ok(false);
    }
    let arrivals = has_arrivals(alloc, content, all)?;
    if !arrivals {
        return Ok(false);
    }
    has_no_loop(alloc, content)
}
