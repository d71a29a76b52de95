//! `planner_cli`: a run of a job stream over a store, and how it ended.
use plan_store::PlanStore;
use planner_cli::{FaultSource, RunFault, Tally};
use std::alloc::Global;
use std::io::{BufRead, Write};

// Here reader and writer are lent: a contract can then name what the writer has in the end. It requires nothing, and so
// does this.
pub fn run<S: PlanStore, R: BufRead, W: Write>(
    alloc: Global,
    store: &mut S,
    reader: &mut R,
    writer: &mut W,
) -> Result<Tally, RunFault> {
    planner_cli::run(alloc, store, reader, writer)
}

pub fn tally(accepted: u64, refused: u64) -> Tally {
    Tally { accepted, refused }
}

/// The number of a fault, the part that failed if it is 41, and the tally.
pub fn number(fault: RunFault) -> (u8, Option<FaultSource>, Tally) {
    match fault {
        RunFault::Memory { tally } => (40, None, tally),
        RunFault::Device { part, tally } => (41, Some(part), tally),
    }
}

/// The word of a part.
pub fn word(part: FaultSource) -> &'static str {
    match part {
        FaultSource::Store => "store",
        FaultSource::Reader => "reader",
        FaultSource::Writer => "writer",
    }
}

pub fn exit_status(outcome: &Result<Tally, RunFault>) -> u8 {
    planner_cli::exit_status(outcome)
}
