//! Runs whose writer fails as no device of a program does: it is interrupted, or fails as it is flushed.
ghost use Rattle.std.specs.Prelude.{◌≤◌, length};

use planner_cli::{FaultSource, RunFault, Tally, exit_status, run_lists};
use std::alloc::Global;
use std::io::{self, ErrorKind, Write};

/// Takes one byte a call, and fails at one call: a write that is interrupted, or a flush. It keeps no text, and knows
/// what it has to get.
#[derive(Drop)]
struct Failing {
    /// How many of the replies' bytes it got.
    got: usize,
    /// Whether it got no other byte.
    is_right: bool,
    /// How many writes there are before the one that fails.
    writes: usize,
    /// How many flushes there are before the one that fails.
    flushes: usize,
}

impl Failing {
    /// Whether the write in progress fails.
    fn is_interrupted(&mut self) -> bool {
        let is_due = self.writes == 0;
        self.writes = if is_due { usize::MAX } else { self.writes - 1 };
        is_due
    }

    /// Whether the flush in progress fails.
    fn does_fail(&mut self) -> bool {
        let is_due = self.flushes == 0;
        self.flushes = if is_due { usize::MAX } else { self.flushes - 1 };
        is_due
    }

    /// Takes the first byte; answers how many it took.
    fn take(&mut self, buf: &[u8]) -> usize
        ensures { result ≤ length buf.now }
    {
        match buf.first() {
            Some(byte) => {
                self.is_right = self.is_right && REPLIES.get(self.got) == Some(byte);
                self.got = self.got.saturating_add(1);
                1
            }
            None => 0,
        }
    }
}

impl Write for Failing {
    fn write(&mut self, buf: &[u8]) -> io::Result<usize> {
        if self.is_interrupted() {
            return Err(ErrorKind::Interrupted.into());
        }
        Ok(self.take(buf))
    }

    fn flush(&mut self) -> io::Result<()> {
        if self.does_fail() {
            return Err(ErrorKind::Other.into());
        }
        Ok(())
    }
}

/// Three items, none a statement: a line, one with data, and one of an unknown first word.
const THREE: &[u8] = b"list up\n\ndefine calendars --job 0\nDEFAULT,SAT,FREE\n/*\n* x\n\x01";

/// The replies to them, each of 11 bytes.
const REPLIES: &[u8] = b"refused 10\nrefused 10\nrefused 10\n";

/// How many replies a run counted that its writer ended, with the status of such a run.
fn refused_before(outcome: &Result<Tally, RunFault>) -> Option<u64> {
    match outcome {
        Err(
            RunFault::Device {
                part: FaultSource::Writer,
                tally,
            },
        ) if exit_status(outcome) == 8 => Some(tally.refused),
        Ok(_) | Err(_) => None,
    }
}

/// Whether a run ends with such a failure, after these bytes and so many replies.
fn ends_after(alloc: Global, writer: Failing, got: usize, refused: u64) -> bool {
    let mut writer = writer;
    let mut reader = THREE;
    let outcome = run_lists(alloc, &mut reader, &mut writer);
    refused_before(&outcome) == Some(refused) && writer.is_right && writer.got == got
}

#[test]
fn an_interrupted_write_ends_a_run(rt: HostRuntime) {
    for writes in 0..33usize {
        let writer = Failing {
            got: 0,
            is_right: true,
            writes,
            flushes: usize::MAX,
        };
        assert!(rt;
            ends_after(rt.alloc(), writer, writes, (writes / 11) as u64),
            "{writes}"
        );
    }
}

#[test]
fn a_failing_flush_ends_a_run(rt: HostRuntime) {
    for flushes in 0..3usize {
        let writer = Failing {
            got: 0,
            is_right: true,
            writes: usize::MAX,
            flushes,
        };
        assert!(rt;
            ends_after(rt.alloc(), writer, flushes * 11 + 11, flushes as u64),
            "{flushes}"
        );
    }
}
