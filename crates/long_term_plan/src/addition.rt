ghost use Rattle.std.specs.Prelude.{IfOk};
ghost use Rattle.planner_machine.specs.Add.{ltp_add};
ghost use Rattle.planner_machine.specs.Content.{Content};
ghost use Rattle.planner_machine.specs.Sound.{IsSound};
ghost use Rattle.plan_store.specs.Verdicts.{VerdictIs};
ghost use Rattle.plan_store.specs.Views.{Shows};

use occurrences::Key;
use plan_store::{Need, Verdict, View};
use plan_store_pairs::Plan;
use std::alloc::{AllocError, Global};

/// `ltp-add`: an occurrence of the key is added to the long-term plan, due a day after it arrives. Refused where there
/// is no plan (20), where it doesn't arrive from the plan end to the end of the last day (24), where its application
/// isn't active (26), where a live occurrence has the key (27), and where both plans would hold too many rows or no
/// serial is left (31).
pub fn add(alloc: Global, view: &View<'_>, key: &Key) -> Result<Verdict, AllocError>
    ensures { IfOk result (λ verdict. (c : Content) → Shows (Need.Key key.now) view.now c
        → IsSound c
        → VerdictIs (ltp_add key.now) c verdict) }
{
    plan_store_pairs::add(alloc, view, Plan::LongTerm, key)
}
