//! Replies on their way to the writer.
ghost use Rattle.std.specs.Prelude.{◌≡◌, ℕ, ◌<◌, ◌≤◌, length, take, OnErr, OnOk, IfErr, IfOk};
ghost use Rattle.std.specs.Io.KnownBytes.{Appends};
ghost use Rattle.planner_cli.specs.declared.faults.Cause.TheVariants.{Device};
ghost use Rattle.planner_cli.specs.Writes.{IsUnwritten, IsWritten};
ghost use Rattle.planner_cli.specs.declared.faults.FaultSource.TheVariants.{Writer};

use crate::answers::Printed;
use crate::faults::{Cause, FaultSource, cause_of_store};
use plan_store::StoreFault;
use std::io::Write;

/// Writes all bytes. Every error of the writer is an error, and so is a write that accepts nothing; the bytes that
/// were accepted before it stay written.
pub fn write_bytes<W: Write>(writer: &mut W, bytes: &[u8]) -> Result<(), Cause>
    ensures ok { OnOk result (Appends (W.contents writer.old) (W.contents writer.new) bytes.now) }
    ensures err { IfErr result (λ cause. cause ≡ Device Writer) }
    ensures front { (n : ℕ) × (n ≤ length bytes.now)
        × Appends (W.contents writer.old) (W.contents writer.new) (take n bytes.now) }
    ensures short { OnErr result ((n : ℕ) × (n < length bytes.now)
        × Appends (W.contents writer.old) (W.contents writer.new) (take n bytes.now)) }
{
    let mut written = 0;
    while written < bytes.len() {
        match writer.write(&bytes[written..]) {
            Ok(0) | Err(_) => return Err(Cause::Device(FaultSource::Writer)),
            Ok(n) => written += n,
        }
    }
    Ok(())
}

/// Writes all bytes, and flushes.
pub fn write_out<W: Write>(writer: &mut W, bytes: &[u8]) -> Result<(), Cause>
    ensures ok { OnOk result (Appends (W.contents writer.old) (W.contents writer.new) bytes.now) }
    ensures err { IfErr result (λ cause. cause ≡ Device Writer) }
    ensures front { (n : ℕ) × (n ≤ length bytes.now)
        × Appends (W.contents writer.old) (W.contents writer.new) (take n bytes.now) }
{
    write_bytes(writer, bytes)?;
    match writer.flush() {
        Ok(()) => Ok(()),
        Err(_) => Err(Cause::Device(FaultSource::Writer)),
    }
}

/// Writes what a reply prints, if one was made. Returns whether it is accepted.
pub(crate) fn write_answer<W: Write>(
    writer: &mut W,
    answered: Result<Printed, StoreFault>,
) -> Result<bool, Cause>
    ensures ok { IfOk result (IsWritten answered (W.contents writer.old) (W.contents writer.new)) }
    ensures err { IfErr result (IsUnwritten answered (W.contents writer.old)
        (W.contents writer.new)) }
{
    let printed = match answered {
        Ok(printed) => printed,
        Err(fault) => return Err(cause_of_store(fault)),
    };
    write_out(writer, &printed.text)?;
    Ok(printed.is_accepted)
}
