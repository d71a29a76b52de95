//! A run over a whole stream.
ghost use Rattle.std.specs.Prelude.{◌≡◌, ◌<◌, ◌≤◌, ℕ, [], false, length, take, IfOk, IfErr, IsTrue, OnOk, Some};
ghost use Rattle.std.specs.Io.KnownBytes.{Appends};
ghost use Rattle.planner_machine.specs.Content.{Content};
ghost use Rattle.planner_cli_stream.specs.Statement.{Reads};
ghost use Rattle.planner_cli_stream.specs.Items.{Alone};
ghost use Rattle.planner_cli_stream.specs.Pages.{item_of, FitsBlock};
ghost use Rattle.planner_cli.specs.Faults.{IsMildCause, cause_of, fault_line, status_of};
ghost use Rattle.planner_cli.specs.Plans.{RunsPlan};
ghost use Rattle.planner_cli.specs.Runs.{Crashed, Ran, Stopped, StoppedSomehow, ends_of};
ghost use Rattle.planner_cli.specs.Steps.{Step};
ghost use Rattle.planner_cli.specs.Stores.{IsBlamed, LeavesOwn};
ghost use Rattle.planner_cli.specs.Writes.{AnswersItem, EndsWith};
ghost use Rattle.planner_cli.specs.declared.faults.Cause.TheVariants.{Device};
ghost use Rattle.planner_cli.specs.declared.faults.FaultSource.TheVariants.{Store};

use crate::answers::no_statement;
use crate::days::answer_days;
use crate::faults::{Cause, FaultSource, RunFault, cause_of_read};
use crate::kinds::{definitions_kind, what_of};
use crate::lists::answer_list;
use crate::steps::{answer_change, answer_define, answer_with_data};
use crate::tally::Tally;
use crate::trials::answer_trial;
use crate::writing::{write_answer, write_bytes};
use app_occurrences::CalendarIndexes;
use plan_store::PlanStore;
use planner_cli_stream::{
    DailyFunction, DataBlock, Item, Page, PlanFunction, Statement, read_statement,
};
use planner_machine::streams;
use std::alloc::Global;
use std::io::{BufRead, Write};

/// Processes the items of a stream in order: each is a step of the planner on the content of the store, and its reply
/// is printed. It ends with the stream or at the first fault. A fault of memory, of the store or of the reader writes
/// a last line, `fault 40` or `fault 41`, which needs no memory; a fault of the writer writes none. However long a
/// line or a block is, only the first 1,026 bytes of one line and the first 262,145 bytes of one block are held.
pub fn run<S: PlanStore, R: BufRead, W: Write>(
    alloc: Global,
    store: &mut S,
    reader: &mut R,
    writer: &mut W,
) -> Result<Tally, RunFault>
    // The headline, in `specs/Plans.antt`.
    ensures { RunsPlan S.is_honest S.failures S.may_leave S.is_clean S.is_whole store.old store.new
        (record {
          before = S.content store.old;
          after = S.content store.new;
          written_before = W.contents writer.old;
          written_after = W.contents writer.new;
          remaining = R.remaining reader.old;
        }) result }
{
    run_reported(alloc, store, reader, writer).0
}

/// The same, and whether all was written that ends the run: after a fault its whole line. That isn't so if the writer
/// accepted no more.
pub fn run_reported<S: PlanStore, R: BufRead, W: Write>(
    alloc: Global,
    store: &mut S,
    reader: &mut R,
    writer: &mut W,
) -> (Result<Tally, RunFault>, bool)
    ensures plan { RunsPlan S.is_honest S.failures S.may_leave S.is_clean S.is_whole store.old store.new
        (record {
          before = S.content store.old;
          after = S.content store.new;
          written_before = W.contents writer.old;
          written_after = W.contents writer.new;
          remaining = R.remaining reader.old;
        }) result.0 }
    ensures line { S.is_honest store.old → S.is_clean store.new → IsTrue result.1
        → IfErr result.0 (λ fault. EndsWith (W.contents writer.old) (W.contents writer.new)
        (fault_line (cause_of fault))) }
    ensures unwritten { result.1 ≡ false
        → IfErr result.0 (λ fault. 0 < length (fault_line (cause_of fault))) }
    ensures ended { OnOk result.0 (IsTrue result.1) }
{
    streams();
    match answer_all(alloc, store, reader, writer) {
        Ok(tally) => (Ok(tally), true),
        Err(fault) => {
            let is_written = write_fault(writer, fault.cause());
            (Err(fault), is_written)
        }
    }
}

/// Processes the items of a stream up to its end or the first fault, whose line is not written yet.
fn answer_all<S: PlanStore, R: BufRead, W: Write>(
    alloc: Global,
    store: &mut S,
    reader: &mut R,
    writer: &mut W,
) -> Result<Tally, RunFault>
    ensures ran { S.is_honest store.new → IfOk result (Ran Step (ends_of (S.content store.old)
        (S.content store.new) (W.contents writer.old) (W.contents writer.new) (R.remaining reader.old))) }
    ensures fault { S.is_honest store.new
        → IfErr result (Stopped Step (λ _. []) (ends_of (S.content store.old)
        (S.content store.new) (W.contents writer.old) (W.contents writer.new) (R.remaining reader.old))) }
    ensures replied { S.is_honest store.old → S.is_clean store.new
        → IfErr result (StoppedSomehow Step (λ _. []) (ends_of (S.content store.old)
        (S.content store.new) (W.contents writer.old) (W.contents writer.new) (R.remaining reader.old))) }
    ensures settled { S.is_honest store.new → LeavesOwn S.PlanStore store.old
        → OnOk result (LeavesOwn S.PlanStore store.new) }
    ensures crash { S.is_honest store.old → S.is_clean store.new
        → LeavesOwn S.PlanStore store.old → IfErr result (λ fault.
        (c : Content) → S.may_leave store.new c
        → Crashed Step (λ _. []) (ends_of (S.content store.old)
        (S.content store.new) (W.contents writer.old) (W.contents writer.new) (R.remaining reader.old)) fault c) }
    ensures blames { IfErr result (λ fault. cause_of fault ≡ Device Store
        → IsBlamed (S.failures store.old) (S.failures store.new)) }
    ensures counts { S.failures store.old ≤ S.failures store.new }
    ensures honest { S.is_honest store.new → S.is_honest store.old }
    ensures clean { S.is_clean store.new → S.is_clean store.old }
    ensures stays_honest { S.is_honest store.old → S.is_clean store.new
        → IfErr result (λ fault. IsMildCause (S.is_whole store.new) (cause_of fault))
        → S.is_honest store.new }
    ensures stays_whole { OnOk result (S.is_whole store.old → S.is_whole store.new) }
{
    let mut page = Page::new(alloc);
    let mut kept = CalendarIndexes::new(alloc);
    let mut tally = Tally::new();
    for _ in 0..u64::MAX {
        if let Err(fault) = page.read_item(reader) {
            return Err(RunFault::new(cause_of_read(fault), tally));
        }
        let Some(item) = page.item() else {
            return Ok(tally);
        };
        match answer_one(alloc, store, &mut kept, item, writer) {
            Ok(is_accepted) => tally.count(is_accepted),
            Err(cause) => return Err(RunFault::new(cause, tally)),
        }
    }
    Err(RunFault::new(Cause::Device(FaultSource::Reader), tally))
}

/// Processes one item: makes the reply, then changes the store, then writes the reply and flushes. The rows of a
/// listing are written as the store yields them. Returns whether the item was accepted.
fn answer_one<S: PlanStore, W: Write>(
    alloc: Global,
    store: &mut S,
    kept: &mut CalendarIndexes,
    item: Item<'_>,
    writer: &mut W,
) -> Result<bool, Cause>
    requires { FitsBlock item }
    ensures { AnswersItem S.PlanStore store.old store.new
        (W.contents writer.old) (W.contents writer.new) (item_of item.entry) result }
{
    match item {
        Item::NoStatement => {
            let answered = no_statement(alloc);
            write_answer(writer, answered)
        }
        Item::Alone(line) => answer_alone(alloc, store, kept, line, writer),
        Item::WithBlock(line, block) => {
            let answered = answer_with_data(alloc, store, line, block);
            write_answer(writer, answered)
        }
    }
}

/// Processes a line without data.
fn answer_alone<S: PlanStore, W: Write>(
    alloc: Global,
    store: &mut S,
    kept: &mut CalendarIndexes,
    line: &[u8],
    writer: &mut W,
) -> Result<bool, Cause>
    ensures { AnswersItem S.PlanStore store.old store.new
        (W.contents writer.old) (W.contents writer.new) (Alone line.now) result }
{
    match read_statement(alloc, line) {
        Ok(Some(statement)) => { answer_statement(alloc, store, kept, line, &statement, writer) }
        Ok(None) => {
            let answered = no_statement(alloc);
            write_answer(writer, answered)
        }
        Err(_) => Err(Cause::Memory),
    }
}

/// Processes a statement without data.
fn answer_statement<S: PlanStore, W: Write>(
    alloc: Global,
    store: &mut S,
    kept: &mut CalendarIndexes,
    line: &[u8],
    statement: &Statement,
    writer: &mut W,
) -> Result<bool, Cause>
    requires { Reads line.now (Some statement.now) }
    ensures { AnswersItem S.PlanStore store.old store.new
        (W.contents writer.old) (W.contents writer.new) (Alone line.now) result }
{
    match statement {
        Statement::Define { kind, job } => {
            let number = u64::from(job.number());
            let kind = definitions_kind(*kind);
            let answered = answer_define(alloc, store, line, number, kind, DataBlock::Unended);
            write_answer(writer, answered)
        }
        Statement::Change { change, job } => {
            let number = u64::from(job.number());
            let answered = answer_change(alloc, store, line, number, change);
            write_answer(writer, answered)
        }
        Statement::Days { app, from, to } => {
            let answered = answer_days(alloc, store, kept, app, *from, *to);
            write_answer(writer, answered)
        }
        Statement::PlanTrial(function) => {
            let answered = answer_trial::<S, PlanFunction>(alloc, store, function);
            write_answer(writer, answered)
        }
        Statement::DailyTrial(function) => {
            let answered = answer_trial::<S, DailyFunction>(alloc, store, function);
            write_answer(writer, answered)
        }
        Statement::List { what } => {
            answer_list(alloc, store, line, what_of(*what), None, writer)
        }
        Statement::ListApp { what, app } => {
            answer_list(alloc, store, line, what_of(*what), Some(app), writer)
        }
    }
}

/// Writes the line of a fault, as far as the writer accepts it. Returns whether that was the whole line.
fn write_fault<W: Write>(writer: &mut W, cause: Cause) -> bool
    ensures front { (n : ℕ) × (n ≤ length (fault_line cause))
        × Appends (W.contents writer.old) (W.contents writer.new) (take n (fault_line cause)) }
    ensures whole { IsTrue result
        → Appends (W.contents writer.old) (W.contents writer.new) (fault_line cause) }
    ensures short { result ≡ false → (n : ℕ) × (n < length (fault_line cause))
        × Appends (W.contents writer.old) (W.contents writer.new) (take n (fault_line cause)) }
{
    match write_bytes(writer, line_of_fault(cause)) {
        Ok(()) => {
            let _ = writer.flush();
            true
        }
        Err(_) => false,
    }
}

/// The line of a fault; empty where the writer failed.
#[tactic(auto, unfolding(crate::specs::Faults::fault_line, crate::specs::Replies::ended))]
fn line_of_fault(cause: Cause) -> &'static [u8]
    ensures { result.now ≡ fault_line cause }
{
    match cause {
        Cause::Memory => b"fault 40\n",
        Cause::Device(FaultSource::Store) | Cause::Device(FaultSource::Reader) => b"fault 41\n",
        Cause::Device(FaultSource::Writer) => b"",
    }
}

/// The exit status of a run: 0 where all statements were accepted, 4 where some were refused, 8 after a fault. It
/// allocates no memory.
pub fn exit_status(outcome: &Result<Tally, RunFault>) -> u8
    ensures { result ≡ status_of outcome.now }
{
    match outcome {
        Ok(tally) if tally.refused == 0 => 0,
        Ok(_) => 4,
        Err(_) => 8,
    }
}
