//! The stream over plans in memory. With `faults.rt` and `hints.rt` it is all that `./first` compiles of this program.

use crate::faults::{MEMORY, explain, report};
use crate::hints::Hinting;
use planner_cli::{exit_status, run_lists};
use std::io::{self, BufReader, BufWriter};

/// Runs the stream on standard input, over plans that last as long as it does, and returns the exit status. Standard
/// output gets each reply with its last byte, and a listing some thousand bytes at a time. A person who types it gets
/// hints.
pub fn answer_over_lists<R: AllocGlobal + Input + Print + Eprint>(rt: &R, is_typed: bool) -> u8 {
    let alloc = rt.alloc();
    let Ok(mut reader) = BufReader::new(alloc, rt.reader()) else {
        return report(rt, MEMORY);
    };
    let Ok(mut writer) = BufWriter::new(alloc, Hinting::new(io::writer(rt), rt, is_typed)) else {
        return report(rt, MEMORY);
    };
    let outcome = run_lists(alloc, &mut reader, &mut writer);
    explain(rt, &outcome, true);
    exit_status(&outcome)
}
