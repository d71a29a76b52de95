ghost use Rattle.std.specs.Prelude.{List, IfOk};
ghost use Rattle.external_dependencies.specs.Reached.{HaveSameLists, HoldsReached};
ghost use Rattle.external_dependencies.specs.declared.links.Link.{Link as LinkValue};
ghost use Rattle.external_dependencies.specs.declared.pairs.Pair.{Pair as PairValue};
ghost use Rattle.external_dependencies.specs.declared.rows.PlacedRow.{PlacedRow as PlacedValue};
ghost use Rattle.planner_machine.specs.Content.{Sets};
ghost use Rattle.planner_machine.specs.Pairs.{ArePairs};
ghost use Rattle.plan_store.specs.Changes.{LeadsOn, pairs_after};
ghost use Rattle.plan_store_pairs.specs.Turns.{IsTurn};

use external_dependencies::{Links, PairChange, Pairs, Rows, Touch, resolve_touched};
use std::alloc::{AllocError, Global};

/// What leads from the pairs before a statement to those after it, and no more. The touch names all that the statement
/// touches; the rows, and of the pairs before it these, hold what it reaches. `links` are the lists in force after it of
/// the applications of these rows; others need not be there.
pub fn pair_change(
    alloc: Global,
    pairs: &Pairs,
    rows: &Rows,
    links: &Links,
    touch: &Touch,
) -> Result<PairChange, AllocError>
    ensures { IfOk result (λ change. (s s' : Sets) (was_links all : List LinkValue)
        (now : List PlacedValue) (old : List PairValue) → HaveSameLists rows.now links.now all
        → ArePairs old was_links s old → IsTurn s s' was_links all touch.now now
        → HoldsReached touch.now all now old rows.now pairs.now
        → ArePairs old all s' (pairs_after change old) × LeadsOn old change) }
{
    resolve_touched(alloc, rows, links, pairs, touch)
}
