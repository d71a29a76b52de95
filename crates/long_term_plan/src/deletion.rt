ghost use Rattle.std.specs.Prelude.{◌≡◌, IfOk, Some};
ghost use Rattle.planner_machine.specs.Content.{Content};
ghost use Rattle.planner_machine.specs.Delete.{ltp_delete};
ghost use Rattle.planner_machine.specs.Sound.{IsSound};
ghost use Rattle.plan_store.specs.Verdicts.{VerdictIs};
ghost use Rattle.plan_store.specs.Views.{HoldsOfSound, Shows};
ghost use Rattle.long_term_plan.specs.Deletes.{DeletesRow};

use occurrences::{Deletion, Key, Reason, Refusal, Reply, Row};
use plan_store::{Change, DefinitionChange, Moves, Need, Verdict, View};
use plan_store_pairs::{pairs_without, single};
use std::alloc::{AllocError, Global};

/// `ltp-delete`: the occurrence of the key leaves the long-term plan for the deletions. Refused where there is no plan
/// (20), and where no occurrence of the long-term plan has the key (28).
pub fn delete(alloc: Global, view: &View<'_>, key: &Key) -> Result<Verdict, AllocError>
    ensures { IfOk result (λ verdict. (c : Content) → Shows (Need.Key key.now) view.now c
        → IsSound c
        → VerdictIs (ltp_delete key.now) c verdict) }
{
    if view.bounds().is_none() {
        return Ok(Verdict::Refused(Refusal::NoPlan));
    }
    let Some(row) = view.ltp_row(key) else {
        return Ok(Verdict::Refused(Refusal::NoSuchOccurrence));
    };
    delete_row(alloc, view, &row)
}

// The row leaves the long-term plan for the deletions.
fn delete_row(alloc: Global, view: &View<'_>, row: &Row) -> Result<Verdict, AllocError>
    ensures { IfOk result (λ verdict. HoldsOfSound (Need.Key row.now.key) view.now (λ c.
        c.sets.ltp row.now.serial ≡ Some row.now → DeletesRow c row.now verdict)) }
{
    let gone = single(alloc, *row)?;
    let deletion = Deletion {
        row: *row,
        reason: Reason::Operator,
    };
    let put = single(alloc, deletion)?;
    let pairs = pairs_without(alloc, view, row)?;
    let change = Change {
        definitions: DefinitionChange::AsBefore,
        bounds: None,
        issued: None,
        in_force: None,
        ltp: Moves {
            gone,
            changed: Vec::new(alloc),
            put: Vec::new(alloc),
        },
        cp: Moves::none(alloc),
        history: Moves::none(alloc),
        deletions: Moves {
            gone: Vec::new(alloc),
            changed: Vec::new(alloc),
            put,
        },
        pairs,
        job: None,
    };
    let serial = row.serial.get();
    Ok(Verdict::Done(change, Reply::Numbered { serial }))
}
