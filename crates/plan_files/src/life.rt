//! The life of a plan, over any number of runs.

ghost use Rattle.plan_files.specs.FileRuns.{FilesLive, FilesRerun};
ghost use Rattle.plan_files.specs.Life.{LifeLeads};

use planner_cli::reruns;
use planner_machine::{empty_content_is_sound, streams};

/// Law: whatever runs there were over a plan, each on what the one before it left, they lead from nothing known to a
/// sound content. In it each serial ever issued is in exactly one place, where its fates put it.
pub fn plan_life()
    ensures { LifeLeads }
{
    empty_content_is_sound();
    streams();
}

/// Law: the same of runs over one file, of which each came to the end of its stream, or was ended by a fault or a crash;
/// and a stream that is run again after any of them ends as one run.
pub fn file_life()
    ensures lives { FilesLive }
    ensures rerun { FilesRerun }
{
    plan_life();
    reruns();
}
