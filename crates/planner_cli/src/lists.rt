//! `list`: rows go to the writer as the store yields them.
ghost use Rattle.std.specs.Prelude.{◌≡◌, ◌⊎◌, ℕ, ◌≤◌, IfErr, IfOk, List, OnErr, OnOk, Some, option_copied};
ghost use Rattle.std.specs.Io.KnownBytes.{Appends};
ghost use Rattle.planner_machine.specs.Content.{Content};
ghost use Rattle.plan_store.specs.Faults.{IsMildListing};
ghost use Rattle.plan_store.specs.Listings.{IsListing, item_shown};
ghost use Rattle.plan_store.specs.declared.listings.ListFault.TheVariants as list_fault;
ghost use Rattle.planner_cli_stream.specs.Items.{Alone};
ghost use Rattle.planner_cli.specs.Requests.{Asks, list_asked};
ghost use Rattle.planner_cli.specs.Replies.{ended};
ghost use Rattle.planner_cli.specs.Runs.{IsFrontOf};
ghost use Rattle.planner_cli.specs.Sinks.{AcceptsFront, AcceptsLine, WritesAll, WritesPart};
ghost use Rattle.planner_cli.specs.Stores.{IsBlamed};
ghost use Rattle.planner_cli.specs.Writes.{AnswersItem};

use crate::answers::print_alone;
use crate::faults::{Cause, FaultSource};
use crate::writing::{write_answer, write_bytes};
use occurrences::Reply;
use plan_listings::{link_line, marked_line, pair_line, row_line};
use plan_store::{Item, ListFault, PlanStore, RowSink, SinkFault, What};
use std::alloc::Global;
use std::io::Write;
use work_calendars::App;

/// Writes the line of each item.
#[derive(Drop)]
pub struct LineSink<'a, W> {
    writer: &'a mut W,
}

impl<W: Write> RowSink for LineSink<'_, W> {
    ghost accepts = { λ old item new. (new.writer.ghost_name ≡ old.writer.ghost_name)
        × AcceptsLine (W.contents old.writer.now) item (W.contents new.writer.now) };

    ghost refuses = { λ old item new. (new.writer.ghost_name ≡ old.writer.ghost_name)
        × AcceptsFront (W.contents old.writer.now) item (W.contents new.writer.now) };

    fn take(&mut self, item: Item<'_>) -> Result<(), SinkFault> {
        match write_item(self.writer, item) {
            Ok(()) => Ok(()),
            Err(_) => Err(SinkFault),
        }
    }
}

// Writes the line of an item.
fn write_item<W: Write>(writer: &mut W, item: Item<'_>) -> Result<(), Cause>
    ensures ok { OnOk result (AcceptsLine (W.contents writer.old) (item_shown item.entry)
        (W.contents writer.new)) }
    ensures front { OnErr result (AcceptsFront (W.contents writer.old) (item_shown item.entry)
        (W.contents writer.new)) }
{
    match item {
        Item::Plan(row) => write_line(writer, &row_line(row)),
        Item::Marked(row, letter) => write_line(writer, &marked_line(row, letter)),
        Item::Pair(successor, predecessor) => write_line(
            writer,
            &pair_line(successor, predecessor),
        ),
        Item::Link(link) => write_line(
            writer,
            &link_line(&link.app, &link.predecessor, link.within),
        ),
    }
}

// Writes a line and the line feed that ends it.
#[tactic(auto, unfolding(crate::specs::Replies::ended))]
fn write_line<W: Write>(writer: &mut W, line: &[u8]) -> Result<(), Cause>
    ensures ok { OnOk result (Appends (W.contents writer.old) (W.contents writer.new)
        (ended line.now)) }
    ensures front { OnErr result ((front : List ℕ) × IsFrontOf front (ended line.now)
        × Appends (W.contents writer.old) (W.contents writer.new) front) }
{
    write_bytes(writer, line)?;
    write_bytes(writer, b"\n")
}

// Writes the lines of a listing, each as the store yields its item.
fn write_lines<S: PlanStore, W: Write>(
    alloc: Global,
    store: &mut S,
    what: What,
    app: Option<&App>,
    writer: &mut W,
) -> Result<usize, ListFault>
    ensures all { S.is_honest store.new
        → IfOk result (WritesAll (IsListing what (option_copied app.entry)
        (S.content store.old)) (W.contents writer.old) (W.contents writer.new)) }
    ensures part { S.is_honest store.old → S.is_honest store.new ⊎ S.is_clean store.new
        → IfErr result (WritesPart (IsListing what (option_copied app.entry)
        (S.content store.old)) (W.contents writer.old) (W.contents writer.new)) }
    ensures same { S.is_honest store.new → S.content store.new ≡ S.content store.old }
    ensures crash { (c : Content) → S.may_leave store.new c → S.may_leave store.old c }
    ensures blames { IfErr result (λ fault. fault ≡ list_fault.Device
        → IsBlamed (S.failures store.old) (S.failures store.new)) }
    ensures counts { S.failures store.old ≤ S.failures store.new }
    ensures honest { S.is_honest store.new → S.is_honest store.old }
    ensures clean { S.is_clean store.new → S.is_clean store.old }
    ensures stays_honest { S.is_honest store.old → S.is_clean store.new
        → IfErr result (IsMildListing (S.is_whole store.new)) → S.is_honest store.new }
    ensures stays_whole { OnOk result (S.is_whole store.old → S.is_whole store.new) }
{
    let mut sink = LineSink { writer };
    store.rows_to(alloc, what, app, &mut sink)
}

/// Replies to `list`: the rows, one after another, and then how many they are. Nothing changes.
pub(crate) fn answer_list<S: PlanStore, W: Write>(
    alloc: Global,
    store: &mut S,
    line: &[u8],
    what: What,
    app: Option<&App>,
    writer: &mut W,
) -> Result<bool, Cause>
    requires { Asks (Alone line.now) (Some (list_asked what (option_copied app))) }
    ensures { AnswersItem S.PlanStore store.old store.new
        (W.contents writer.old) (W.contents writer.new) (Alone line.now) result }
{
    match write_lines(alloc, store, what, app, writer) {
        Ok(rows) => {
            let answered = print_alone(alloc, &Ok(Reply::Rows { rows }));
            write_answer(writer, answered)
        }
        Err(ListFault::Memory) => Err(Cause::Memory),
        Err(ListFault::Device) => Err(Cause::Device(FaultSource::Store)),
        Err(ListFault::Sink(_)) => Err(Cause::Device(FaultSource::Writer)),
    }
}
