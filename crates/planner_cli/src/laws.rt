//! Laws of runs: each function has no effect, and its contract is the law.
ghost use Rattle.planner_cli.specs.FreshRuns.{CrashLeavesFresh, FaultLeavesFresh};
ghost use Rattle.planner_cli.specs.FreshRuns.{ItemsLeaveFresh, RunLeavesFresh};
ghost use Rattle.planner_cli.specs.Reruns.{RerunAfterRuns, RerunEndsAsOneRun};

use planner_cli_stream::one_statement_per_line;
use planner_machine::{
    fresh_plans as machine_fresh_plans, reruns as machine_reruns, sound_content_stays_sound,
    streams,
};

/// Law: a stream that is run again from its start, on what its first statements left, ends as one uninterrupted run.
/// There is such a run from the first content; it leaves the same content, and each statement with a job number gets
/// the same reply as in that run. This holds after whole runs, faults and crashes, however many, and wherever they
/// came. It is about the steps that `run` takes, over any store.
pub fn reruns()
    ensures one_run { RerunEndsAsOneRun }
    ensures after_runs { RerunAfterRuns }
{
    machine_reruns();
    streams();
    one_statement_per_line();
}

/// Law: where an `ltp-create` or `ltp-modify-all` of a stream is accepted, and not from a kept job, and no `define` or
/// `undefine` is accepted after it, fresh content is left, whatever was there before; and from fresh content a stream
/// without an accepted `define` or `undefine` leaves fresh content. After a fault the same holds of the acknowledged
/// statements. It is about the steps that `run` takes, over any store.
pub fn fresh_plans()
    ensures items { ItemsLeaveFresh }
    ensures ran { RunLeavesFresh }
    ensures after_fault { FaultLeavesFresh }
    ensures after_crash { CrashLeavesFresh }
{
    machine_fresh_plans();
    sound_content_stays_sound();
    streams();
    one_statement_per_line();
}
