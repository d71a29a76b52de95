ghost use Rattle.std.specs.Prelude.{◌↔◌, Contains, IfOk};
ghost use Rattle.external_dependencies.specs.declared.pairs.Pair.{Pair as PairValue};
ghost use Rattle.plan_store.specs.Views.{HoldsOfPart};
ghost use Rattle.plan_store_pairs.specs.Gathering.{ShowsList};
ghost use Rattle.plan_store_pairs.specs.RowPairs.{IsRowPair};

use external_dependencies::{Pair, Pairs};
use occurrences::Row;
use plan_store::View;
use std::alloc::{AllocError, Global};

/// The pairs of one row, were it open: with its nearest predecessor in each application of its list, within its limit,
/// where there is one. No pair of another row is looked at.
pub fn row_pairs_of(alloc: Global, view: &View<'_>, row: &Row) -> Result<Pairs, AllocError>
    ensures { IfOk result (λ own. HoldsOfPart view.now (λ c. ShowsList c view.now row.now
        → (pair : PairValue) → Contains own pair ↔ IsRowPair c.in_force c.sets row.now pair)) }
{
    let mut own = Vec::new(alloc);
    for link in view.in_force().list(&row.key.app) {
        if let Some(predecessor) = view.nearest(&row.key, &link.predecessor, link.within) {
            own.push(Pair {
                successor: row.serial,
                predecessor,
            })?;
        }
    }
    Ok(Pairs::from_vec(own))
}
