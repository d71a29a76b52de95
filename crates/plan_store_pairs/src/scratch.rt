ghost use Rattle.std.specs.Prelude.{IfOk};
ghost use Rattle.planner_machine.specs.Content.{Sets};
ghost use Rattle.plan_store_pairs.specs.LiveRows.{AreLiveRows, HasPairsAfter};

use external_dependencies::{Links, Pairs, Rows, resolve_all};
use std::alloc::{AllocError, Global};

/// The pairs after a statement, by those before it, the live occurrences after it and the lists in force after it.
pub fn settled_pairs(
    alloc: Global,
    before: &Pairs,
    rows: &Rows,
    links: &Links,
) -> Result<Pairs, AllocError>
    ensures { IfOk result (λ pairs. (s : Sets) → AreLiveRows s rows.now
        → HasPairsAfter before.now links.now s pairs) }
{
    let mut pairs = resolve_all(alloc, rows, links)?.into_vec();
    for placed in rows.as_slice() {
        if !placed.place.is_open() {
            pairs.extend_from_slice(before.of_successor(placed.row.serial))?;
        }
    }
    Ok(Pairs::from_vec(pairs))
}
