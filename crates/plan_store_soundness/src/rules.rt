ghost use Rattle.std.specs.Prelude.{◌≡◌, ◌↔◌, IfOk, IsTrue, length};
ghost use Rattle.planner_machine.specs.Sound.{AreNumbered, HaveArrivals, HaveOwnKeys};
ghost use Rattle.plan_store.specs.Contents.{content_of};
ghost use Rattle.plan_store_soundness.specs.Arrivals.{AllInBounds};
ghost use Rattle.plan_store_soundness.specs.Listing.{placed_list};

use crate::arrivals::{all_arrive, none_deleted};
use crate::keys::live_keys_differ;
use crate::seats::table_of;
use external_dependencies::PlacedRow;
use plan_store::Content;
use std::alloc::{AllocError, Global};

// Whether there are as many rows as serials are issued.
fn is_count(all: &[PlacedRow], issued: u32) -> bool
    ensures { IsTrue result ↔ (length all.now ≡ issued) }
{
    all.len() == issued as usize
}

/// Whether each serial from 1 to the number issued is in exactly one set, and no other serial is in any.
pub(crate) fn is_numbered(
    alloc: Global,
    content: &Content,
    all: &[PlacedRow],
) -> Result<bool, AllocError>
    requires { all.now ≡ placed_list content.now }
    ensures { IfOk result (λ b. IsTrue b ↔ AreNumbered (content_of content.now).sets) }
{
    if !is_count(all, content.issued) {
        return Ok(false);
    }
    let table = table_of(alloc, content.issued, all)?;
    match &table {
        Some(_) => Ok(true),
        None => Ok(false),
    }
}

/// Whether no two live occurrences have one key, where the rows are numbered.
pub(crate) fn has_own_keys(
    alloc: Global,
    content: &Content,
    all: &[PlacedRow],
) -> Result<bool, AllocError>
    requires { all.now ≡ placed_list content.now }
    ensures { AreNumbered (content_of content.now).sets → IfOk result (λ b. IsTrue b ↔ HaveOwnKeys
        (content_of content.now).sets) }
{
    let _ = content;
    live_keys_differ(alloc, all)
}

// Whether all rows arrive within the bounds.
fn all_in_bounds(content: &Content, all: &[PlacedRow]) -> bool
    requires { all.now ≡ placed_list content.now }
    ensures { AreNumbered (content_of content.now).sets → (IsTrue result ↔ AllInBounds
        (content_of content.now).sets) }
{
    match content.bounds {
        None => true,
        Some(bounds) => all_arrive(&bounds, all),
    }
}

/// Whether all rows arrive within the bounds, and no generated row of the long-term plan has a key of which an operator
/// deleted an occurrence, where the rows are numbered.
pub(crate) fn has_arrivals(
    alloc: Global,
    content: &Content,
    all: &[PlacedRow],
) -> Result<bool, AllocError>
    requires { all.now ≡ placed_list content.now }
    ensures { AreNumbered (content_of content.now).sets → IfOk result (λ b. IsTrue b ↔ HaveArrivals
        (content_of content.now).sets) }
{
    if all_in_bounds(content, all) {
        let ltp = content.ltp.to_vec(alloc)?;
        let deletions = content.deletions.to_vec(alloc)?;
        none_deleted(alloc, &ltp, &deletions)
    } else {
        Ok(false)
    }
}
