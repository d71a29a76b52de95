// The pairs, read with the rowids of their rows.

ghost use Rattle.std.specs.Prelude.{◌≡◌, false, is_ok, map, None, IfErr, IfOk, IfSome, OnOk};
ghost use Rattle.std.specs.List.Sorted.{IsPermutation};
ghost use Rattle.sqlite.specs.State.{HasCleanDisk, IsUnchanged, Survives};
ghost use Rattle.sqlite.specs.Held.{state};
ghost use Rattle.plan_tables_lookups.specs.Emitting.{EmitsAll, EmitsPart, StopsFor};
ghost use Rattle.plan_tables_schema.specs.Rows.{MayFail, StaysOrIsUndone, tables_of};
ghost use Rattle.plan_tables_schema.specs.Schema.{HasTables};
ghost use Rattle.plan_tables_schema.specs.declared.tables.Table.TheVariants.{Dependency};
ghost use Rattle.plan_tables_content.specs.Facts.{pair_values};
ghost use Rattle.plan_tables_loading.specs.Cells.{IsPair};
ghost use Rattle.plan_tables_loading.specs.Readable.{ShowsEachOnce};
ghost use Rattle.plan_tables_loading.specs.Reading.{HasPlan, Looks};
ghost use Rattle.plan_tables_loading.specs.Rowids.{pair_of, pair_place, pair_row_values};
ghost use Rattle.plan_tables_loading.specs.Rowids.{pair_shown, pair_sql};
ghost use Rattle.plan_tables_loading.specs.declared.pairs.PairRow.{PairRow as PairRowValue};

use crate::cells::{integer_at, serial_at};
use crate::collecting::Collector;
use crate::decode::Decode;
use crate::order::{Numbered, place_of};
use external_dependencies::Pair;
use plan_tables_lookups::{RowRefused, Stopped, ValuesSink};
use sqlite::{Alter, Connection, Error, ErrorCode, Row as Cells};
use std::alloc::{AllocError, Global};

/// A pair, and the rowid of its row.
#[derive(Drop)]
pub(crate) struct PairRow {
    /// The pair.
    pub pair: Pair,
    /// The rowid of its row.
    pub rowid: i64,
}

#[tactic(auto, using(crate::proofs::CellLemmas::pair_from, crate::proofs::CellLemmas::pair_is))]
fn decode_pair(cells: &Cells) -> Option<PairRow>
    ensures value { IfSome result (λ row. pair_row_values row ≡ cells.now) }
    ensures none { result ≡ None → (row : PairRowValue) → IsPair row.pair
        → pair_row_values row ≡ cells.now → ⊥ }
{
    if cells.column_count() != 3 {
        return None;
    }
    let successor = serial_at(cells, 0)?;
    let predecessor = serial_at(cells, 1)?;
    let rowid = integer_at(cells, 2)?;
    let pair = Pair {
        successor,
        predecessor,
    };
    Some(PairRow { pair, rowid })
}

impl Decode for PairRow {
    ghost values = { pair_row_values };

    ghost has_form = { λ row. IsPair row.pair };

    fn decode(_: Global, cells: &Cells) -> Result<Option<PairRow>, AllocError> {
        Ok(decode_pair(cells))
    }
}

impl Numbered for PairRow {
    ghost number_of = { pair_place };

    fn number(&self) -> u64 {
        place_of(self.rowid)
    }
}

// The text that shows the pairs and the rowids of their rows.
fn pair_text() -> &'static str
    ensures { result.now ≡ pair_sql }
{
    "SELECT successor, predecessor, rowid FROM dependency"
}

// Yields the pairs and the rowids of their rows, each before the next is read, in no order.
fn emit_pairs<S: Alter, K: ValuesSink>(
    conn: &mut Connection<S>,
    sink: &mut K,
) -> Result<(), Stopped<Error>>
    ensures all { HasCleanDisk (state S.Store conn.new)
        → HasTables (state S.Store conn.old).now.schema
        → OnOk result (EmitsAll K.accepts (IsPermutation
        (map pair_shown (tables_of (state S.Store conn.old).now.trees Dependency)))
        sink.old sink.new) }
    ensures part { HasCleanDisk (state S.Store conn.new)
        → HasTables (state S.Store conn.old).now.schema
        → IfErr result (EmitsPart K.accepts K.refuses (IsPermutation
        (map pair_shown (tables_of (state S.Store conn.old).now.trees Dependency)))
        sink.old sink.new) }
    ensures same { HasCleanDisk (state S.Store conn.new)
        → HasTables (state S.Store conn.old).now.schema
        → OnOk result (IsUnchanged (state S.Store conn.old) (state S.Store conn.new)) }
    ensures fails { HasCleanDisk (state S.Store conn.new)
        → HasTables (state S.Store conn.old).now.schema
        → IfErr result (StopsFor (state S.Store conn.old) (state S.Store conn.new)) }
    ensures leaves { HasCleanDisk (state S.Store conn.new)
        → HasTables (state S.Store conn.old).now.schema
        → StaysOrIsUndone (state S.Store conn.old) (state S.Store conn.new) }
    ensures mode { conn.old.in_transaction ≡ false → conn.new.in_transaction ≡ false }
    ensures survives { Survives (state S.Store conn.old) (state S.Store conn.new)
        (λ _. HasTables (state S.Store conn.old).now.schema → ⊥) }
{
    // its clause says that an open connection has a database
    let _ = conn.schema();
    let mut rows = conn.query(pair_text(), &[])?;
    'rows: for _ in 0..u64::MAX {
        rows.advance()?;
        let Some(row) = rows.get() else {
            return Ok(());
        };
        if let Err(RowRefused) = sink.accept(row) {
            return Err(Stopped::Sink);
        }
    }
    // no memory has so many rows
    Err(Stopped::Fault(Error::SqliteFailure(ErrorCode::OutOfMemory)))
}

/// What the rows of the pairs encode.
#[tactic(auto, unfolding(crate::specs::Reading::HasPlan))]
pub(crate) fn read_pairs<S: Alter>(
    alloc: Global,
    conn: &mut Connection<S>,
) -> Result<Option<Vec<PairRow>>, Error>
    ensures listed { HasCleanDisk (state S.Store conn.new) → HasPlan (state S.Store conn.old)
        → IfOk result (λ found. IfSome found (λ told. IsPermutation (map pair_shown
        (tables_of (state S.Store conn.old).now.trees Dependency))
        (map pair_row_values told.items))) }
    ensures refused { HasCleanDisk (state S.Store conn.new) → HasPlan (state S.Store conn.old)
        → IfOk result (λ found. found ≡ None
        → ShowsEachOnce (tables_of (state S.Store conn.old).now.trees) Dependency pair_values
        IsPair → ⊥) }
    ensures looks { Looks (state S.Store conn.old) (state S.Store conn.new) (is_ok result) }
    ensures fails { HasCleanDisk (state S.Store conn.new) → HasPlan (state S.Store conn.old)
        → IfErr result (MayFail (state S.Store conn.old) (state S.Store conn.new)) }
    ensures mode { conn.old.in_transaction ≡ false → conn.new.in_transaction ≡ false }
{
    let mut told: Collector<PairRow> = Collector {
        alloc,
        xs: Vec::new(alloc),
        is_short: false,
    };
    match emit_pairs(conn, &mut told) {
        Ok(()) => Ok(Some(told.xs)),
        Err(Stopped::Fault(error)) => Err(error),
        Err(Stopped::Sink) if told.is_short => Err(Error::from(AllocError)),
        Err(Stopped::Sink) => Ok(None),
    }
}

/// Their pairs alone.
pub(crate) fn pairs_of(alloc: Global, told: &[PairRow]) -> Result<Vec<Pair>, AllocError>
    ensures { IfOk result (λ pairs. pairs.items ≡ map pair_of told.now) }
{
    let mut pairs = Vec::with_capacity(alloc, told.len())?;
    for row in told {
        pairs.push(row.pair)?;
    }
    Ok(pairs)
}
