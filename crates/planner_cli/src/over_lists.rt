//! A run over a store of lists, which begins with nothing.
ghost use Rattle.std.specs.Prelude.{◌≡◌, ◌≢◌, IfErr, IfOk};
ghost use Rattle.plan_store.specs.Lists.{listed};
ghost use Rattle.planner_machine.specs.Content.{Content, nothing_known};
ghost use Rattle.planner_cli.specs.Faults.{cause_of};
ghost use Rattle.planner_cli.specs.Plans.{RanPlan, StoppedPlan};
ghost use Rattle.planner_cli.specs.Runs.{ends_of};
ghost use Rattle.planner_cli.specs.declared.faults.Cause.TheVariants.{Device};
ghost use Rattle.planner_cli.specs.declared.faults.FaultSource.TheVariants.{Store};

use crate::faults::RunFault;
use crate::stream::run;
use crate::tally::Tally;
use plan_store::ListStore;
use std::alloc::Global;
use std::io::{BufRead, Write};

/// Runs a stream over a store of its own, which keeps its content in memory and ends with the run.
pub fn run_lists<R: BufRead, W: Write>(
    alloc: Global,
    reader: &mut R,
    writer: &mut W,
) -> Result<Tally, RunFault>
    // The replies are what was written, and their statements lead from nothing to a sound content.
    ensures ran { IfOk result (λ tally. (c : Content) × RanPlan (ends_of nothing_known c
        (W.contents writer.old) (W.contents writer.new) (R.remaining reader.old)) tally) }
    // After a fault the same holds of the acknowledged statements.
    ensures fault { IfErr result (λ fault. (c : Content) × StoppedPlan (ends_of nothing_known c
        (W.contents writer.old) (W.contents writer.new) (R.remaining reader.old)) fault) }
    // Its store never fails.
    ensures served { IfErr result (λ fault. cause_of fault ≢ Device Store) }
{
    let mut store = ListStore::new(alloc);
    run_from_nothing(alloc, &mut store, reader, writer)
}

// Runs a stream over a store of lists that keeps nothing yet.
fn run_from_nothing<R: BufRead, W: Write>(
    alloc: Global,
    store: &mut ListStore,
    reader: &mut R,
    writer: &mut W,
) -> Result<Tally, RunFault>
    requires { listed store.old ≡ nothing_known }
    ensures ran { IfOk result (λ tally. (c : Content) × RanPlan (ends_of nothing_known c
        (W.contents writer.old) (W.contents writer.new) (R.remaining reader.old)) tally) }
    ensures fault { IfErr result (λ fault. (c : Content) × StoppedPlan (ends_of nothing_known c
        (W.contents writer.old) (W.contents writer.new) (R.remaining reader.old)) fault) }
    ensures served { IfErr result (λ fault. cause_of fault ≢ Device Store) }
{
    run(alloc, store, reader, writer)
}
