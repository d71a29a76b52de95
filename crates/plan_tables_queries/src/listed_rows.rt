// Each row of a query is decoded and passed on.

ghost use Rattle.std.specs.Prelude.{◌≡◌, ℕ, false, IfErr, IfOk};
ghost use Rattle.sqlite.specs.Held.{state};
ghost use Rattle.sqlite.specs.State.{HasCleanDisk, IsUnchanged, Survives};
ghost use Rattle.sqlite.specs.Values.{bound};
ghost use Rattle.occurrences.specs.Place.{reason_letter};
ghost use Rattle.occurrences.specs.Status.{status_letter};
ghost use Rattle.occurrences.specs.declared.row.Row.{Row as RowValue};
ghost use Rattle.occurrences.specs.declared.status.Status.TheVariants.{C};
ghost use Rattle.plan_tables_lookups.specs.Looks.{AreAsked, question};
ghost use Rattle.plan_tables_lookups.specs.Question.{Answers};
ghost use Rattle.plan_tables_schema.specs.Rows.{StaysOrIsUndone, tables_of};
ghost use Rattle.plan_tables_schema.specs.Schema.{HasTables};
ghost use Rattle.plan_tables_queries.specs.Listing.{StopsFor};
ghost use Rattle.plan_tables_queries.specs.ListedRows.{RefusesRow, AcceptsRow, TellsAll, TellsPart};

use crate::decoding::decode_row;
use occurrences::{Deletion, Row, Status};
use plan_store::{Item, RowSink, SinkFault};
use plan_tables_loading::Decode;
use plan_tables_lookups::{Look, RowRefused, Stopped, TableFault, ValuesSink, emit};
use sqlite::types::ValueRef;
use sqlite::{Alter, Connection, Row as Cells};
use std::alloc::Global;
use std::marker::PhantomData;

/// What a row encodes, and the letter with which a listing shows it.
pub(crate) trait Marked: Decode {
    ghost row_of: { Self → RowValue };

    ghost letter_of: { Self → ℕ };

    fn occurrence(&self) -> &Row
        ensures { result.now ≡ row_of self.now };

    fn letter(&self) -> u8
        ensures { result ≡ letter_of self.now };
}

impl Marked for Row {
    ghost row_of = { λ row. row };

    ghost letter_of = { λ _. status_letter C };

    fn occurrence(&self) -> &Row {
        self
    }

    fn letter(&self) -> u8 {
        Status::C.letter()
    }
}

impl Marked for Deletion {
    ghost row_of = { λ deletion. deletion.row };

    ghost letter_of = { λ deletion. reason_letter deletion.reason };

    fn occurrence(&self) -> &Row {
        &self.row
    }

    fn letter(&self) -> u8 {
        self.reason.letter()
    }
}

// Decodes each row that it accepts, and passes on what that encodes.
#[derive(Drop)]
struct Decoder<'a, T, K> {
    alloc: Global,
    sink: &'a mut K,
    // how many it accepted
    count: usize,
    // why it refused a row, if it did
    why: Stopped<TableFault>,
    told: PhantomData<T>,
}

impl<T: Marked + Drop, K: RowSink> ValuesSink for Decoder<'_, T, K> {
    ghost accepts = { λ old row new. (new.sink.ghost_name ≡ old.sink.ghost_name)
        × AcceptsRow T.values T.row_of T.letter_of K.accepts old.sink.now old.count row new.sink.now
        new.count };

    ghost refuses = { λ old row new. (new.sink.ghost_name ≡ old.sink.ghost_name)
        × RefusesRow T.has_form T.values T.row_of T.letter_of K.refuses old.sink.now row
        new.sink.now new.why };

    fn accept(&mut self, cells: &Cells) -> Result<(), RowRefused> {
        let fact = match decode_row::<T>(self.alloc, cells) {
            Ok(fact) => fact,
            Err(fault) => {
                self.why = Stopped::Fault(fault);
                return Err(RowRefused);
            }
        };
        // no memory has so many rows
        let Some(count) = self.count.checked_add(1) else {
            self.why = Stopped::Fault(TableFault::Memory);
            return Err(RowRefused);
        };
        match self
            .sink
            .take(Item::Marked(fact.occurrence(), fact.letter()))
        {
            Ok(()) => {
                self.count = count;
                Ok(())
            }
            Err(SinkFault) => {
                self.why = Stopped::Sink;
                Err(RowRefused)
            }
        }
    }
}

/// Passes the sink what each row encodes that the query matches with these values, before the next is read, and
/// returns how many.
pub(crate) fn decode_rows<T: Marked + Drop, S: Alter, K: RowSink>(
    alloc: Global,
    conn: &mut Connection<S>,
    look: Look,
    asked: &[ValueRef<'_>],
    sink: &mut K,
) -> Result<usize, Stopped<TableFault>>
    ensures all { HasCleanDisk (state S.Store conn.new)
        → HasTables (state S.Store conn.old).now.schema
        → IfOk result (TellsAll T.values T.row_of T.letter_of K.accepts
        (Answers (question look) (bound asked.now) (tables_of (state S.Store conn.old).now.trees))
        sink.old sink.new) }
    ensures part { HasCleanDisk (state S.Store conn.new)
        → HasTables (state S.Store conn.old).now.schema
        → IfErr result (TellsPart T.has_form T.values T.row_of T.letter_of K.accepts K.refuses
        (Answers (question look) (bound asked.now) (tables_of (state S.Store conn.old).now.trees))
        sink.old sink.new) }
    ensures same { HasCleanDisk (state S.Store conn.new)
        → HasTables (state S.Store conn.old).now.schema
        → IfOk result (λ _. IsUnchanged (state S.Store conn.old) (state S.Store conn.new)) }
    ensures fails { HasCleanDisk (state S.Store conn.new)
        → HasTables (state S.Store conn.old).now.schema → AreAsked look (bound asked.now)
        → IfErr result (StopsFor (state S.Store conn.old) (state S.Store conn.new)) }
    ensures leaves { HasCleanDisk (state S.Store conn.new)
        → HasTables (state S.Store conn.old).now.schema
        → StaysOrIsUndone (state S.Store conn.old) (state S.Store conn.new) }
    ensures mode { conn.old.in_transaction ≡ false → conn.new.in_transaction ≡ false }
    ensures survives { Survives (state S.Store conn.old) (state S.Store conn.new)
        (λ _. HasTables (state S.Store conn.old).now.schema → ⊥) }
{
    let mut decoder: Decoder<'_, T, K> = Decoder {
        alloc,
        sink,
        count: 0,
        why: Stopped::Fault(TableFault::Memory),
        told: PhantomData,
    };
    match emit(conn, look, asked, &mut decoder) {
        Ok(()) => Ok(decoder.count),
        Err(Stopped::Fault(error)) => Err(Stopped::Fault(TableFault::Store(error))),
        Err(Stopped::Sink) => Err(decoder.why),
    }
}
