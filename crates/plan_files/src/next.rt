//! The next opening of the files that a run left.

ghost use Rattle.plan_files.specs.Next.{BytesLive, BytesRerun, FindsNext, GoesOn, CarriesOn, HoldsNext, PassesOn, WholeLife};

use crate::life::{file_life, plan_life};
use plan_tables_content::tables_have_one_content;
use sqlite_disk::Disk;

/// Law: however a run over files ended, and whatever a crash left of them since, it is a run from their bytes to those, with
/// its own account: what it read and wrote, and how it ended. And one that was refused over files that were opened left
/// nothing to be found that was not found before it.
pub fn carries_on<D: Disk>()
    ensures runs { CarriesOn D.Disk }
    ensures refused { PassesOn D.Disk }
{
    tables_have_one_content();
}

/// Law: what is found in files that a run left, however it ended, is what it led to; they hold a sound plan; and a run over
/// them goes on from there. So what is found after any number of runs and refusals was led to from what was found before
/// them, by the statements that each run acknowledged and, after a fault, perhaps the one in progress. And if all of them
/// had one text to read, a run over it that comes to its end ends as one run.
pub fn next_run()
    ensures finds { FindsNext }
    ensures holds { HoldsNext }
    ensures goes_on { GoesOn }
    ensures lives { BytesLive }
    ensures whole_life { WholeLife }
    ensures rerun { BytesRerun }
{
    tables_have_one_content();
    plan_life();
    file_life();
}
