//! Faults: the line before a run on standard output, and what each means on standard error.

use planner_cli::{FaultSource, RunFault, Tally};

/// The exit status after a fault, and after wrong arguments.
pub const FAILED: u8 = 8;

/// The fault of memory.
pub const MEMORY: u8 = 40;

/// Reports a fault before the run, without allocating memory, and returns the exit status.
pub fn report<R: Print + Eprint>(rt: &R, number: u8) -> u8 {
    report_reason(rt, number, None, meaning_before_run(number))
}

/// The same of a fault over the file at a path.
pub fn report_on<R: Print + Eprint>(rt: &R, number: u8, path: &str) -> u8 {
    report_reason(rt, number, Some(path), meaning_before_run(number))
}

/// The same, where standard error gives this reason.
pub fn report_reason<R: Print + Eprint>(
    rt: &R,
    number: u8,
    path: Option<&str>,
    reason: &str,
) -> u8 {
    let _ = println!(rt; "fault {number}");
    let _ = match path {
        Some("") => eprintln!(rt; "opcplan: fault {number}: \"\": {reason}"),
        Some(path) => eprintln!(rt; "opcplan: fault {number}: {path}: {reason}"),
        None => eprintln!(rt; "opcplan: fault {number}: {reason}"),
    };
    FAILED
}

/// Says on standard error what ended a run, if a fault did. Of a store that is not known to be whole it says that the
/// next statement may be done too. No memory is allocated.
pub fn explain(rt: &impl Eprint, outcome: &Result<Tally, RunFault>, is_whole: bool) {
    if let Err(fault) = outcome {
        let _ = rt.eprintln(if is_whole {
            meaning(fault)
        } else {
            meaning_in_doubt(fault)
        });
    }
}

/// What a fault before the run means.
fn meaning_before_run(number: u8) -> &'static str {
    match number {
        MEMORY => "memory was refused before the first statement. Nothing is changed",
        41 => "the disk failed while the file was being opened. Nothing is changed",
        50 =>
            "the file holds no plan of a version that this program knows, and none can be made in it. The file is unchanged",
        51 => "the tables in the file are not those of a plan. The file is unchanged",
        _ => "the rows in the file are no sound plan. The file is unchanged",
    }
}

/// What a fault means that ended a run over a store that is not known to be whole.
fn meaning_in_doubt(fault: &RunFault) -> &'static str {
    match fault {
        RunFault::Memory { .. } => {
            "opcplan: fault 40: memory was refused. Every answered statement is done, and the next one may be. Run the whole stream again"
        }
        RunFault::Device {
            part: FaultSource::Reader,
            ..
        } => {
            "opcplan: fault 41: standard input failed. Every answered statement is done, and the next one may be. Run the whole stream again"
        }
        _ => meaning(fault),
    }
}

/// What a fault that ended a run means.
fn meaning(fault: &RunFault) -> &'static str {
    match fault {
        RunFault::Memory { .. } => {
            "opcplan: fault 40: memory was refused. Every answered statement is done. Run the whole stream again"
        }
        RunFault::Device { part, .. } => match part {
            FaultSource::Store => {
                "opcplan: fault 41: the plan's disk failed, or an index or row of yours in the file leaves no room for a row (docs/rules/REFUSALS.md). Every answered statement is done. Mend the cause, then run the whole stream again"
            }
            FaultSource::Reader => {
                "opcplan: fault 41: standard input failed. Every answered statement is done. Run the whole stream again"
            }
            FaultSource::Writer => {
                "opcplan: fault 41: standard output failed or was closed. Every answered statement is done"
            }
        },
    }
}
