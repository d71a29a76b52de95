// Rowids: integers, and none twice.

ghost use Rattle.std.specs.Prelude.{◌≡◌, ◌↔◌, false, is_ok, map, List, None, IfErr, IfOk, IfSome, IsTrue};
ghost use Rattle.std.specs.List.Sorted.{IsNonDecreasingBy, IsPermutation};
ghost use Rattle.sqlite.specs.Order.{Row as Values, column};
ghost use Rattle.sqlite.specs.View.{is_int};
ghost use Rattle.sqlite.specs.State.{HasCleanDisk};
ghost use Rattle.sqlite.specs.Held.{state};
ghost use Rattle.plan_tables_schema.specs.Rows.{HaveRowids, MayFail, tables_of};
ghost use Rattle.plan_tables_loading.specs.Reading.{HasPlan, Looks};
ghost use Rattle.plan_tables_loading.specs.Rowids.{place_of};
ghost use Rattle.plan_tables_opening.specs.Rowids.{AreIntegers, AreRising, PlacesRise, rowid_shown};
ghost use Rattle.plan_tables_schema.specs.Schema.{table_of};

use crate::rowid_texts::rowid_text;
use crate::table_places::table_at;
use plan_tables_loading::{TablePart, place_of};
use plan_tables_schema::Table;
use sqlite::types::ValueRef;
use sqlite::{Alter, Connection, Error, Row as Cells};
use std::alloc::Global;

// Whether the first cell holds an integer.
fn is_integer(cells: &Cells) -> bool
    ensures { IsTrue result ↔ IsTrue (is_int (column cells.now 0)) }
{
    match cells.get_ref(0) {
        Ok(value) => matches!(value, ValueRef::Int(_)),
        Err(_) => false,
    }
}

// The place of the integer in the first cell; 0 if it holds none.
fn first_place(cells: &Cells) -> u64
    ensures { result ≡ place_of (column cells.now 0) }
{
    match cells.get_ref(0) {
        Ok(ValueRef::Int(n)) => place_of(n),
        _ => 0,
    }
}

// Whether each has an integer in its first cell.
fn are_integers(rows: &[Cells]) -> bool
    ensures { IsTrue result ↔ AreIntegers rows.now }
{
    for cells in rows {
        if !is_integer(cells) {
            return false;
        }
    }
    true
}

// Whether each has its integer at a greater place than all before it.
fn places_rise(rows: &[Cells]) -> bool
    ensures { IsTrue result ↔ PlacesRise rows.now }
{
    for at in 1..rows.len() {
        let last = first_place(&rows[at - 1]);
        let number = first_place(&rows[at]);
        if number <= last {
            return false;
        }
    }
    true
}

// Whether each has an integer in its first cell, at a greater place than all before it.
fn are_rising(rows: &[Cells]) -> bool
    ensures { IsTrue result ↔ AreRising rows.now }
{
    are_integers(rows) && places_rise(rows)
}

// The rowids of the table, in some order.
fn select_rowids<S: Alter>(conn: &mut Connection<S>, table: Table) -> Result<Vec<Cells>, Error>
    ensures rows { HasCleanDisk (state S.Store conn.new) → HasPlan (state S.Store conn.old)
        → IfOk result (λ rows.
        IsPermutation (map rowid_shown (tables_of
        (state S.Store conn.old).now.trees table)) rows.items) }
    ensures looks { Looks (state S.Store conn.old) (state S.Store conn.new) (is_ok result) }
    ensures fails { HasCleanDisk (state S.Store conn.new) → HasPlan (state S.Store conn.old)
        → IfErr result (MayFail (state S.Store conn.old) (state S.Store conn.new)) }
    ensures mode { conn.old.in_transaction ≡ false → conn.new.in_transaction ≡ false }
{
    // its clause says that an open connection has a database
    let _ = conn.schema();
    conn.query_all(rowid_text(table), &[])
}

// Puts the rows in the order of the places of their integers, so that equal ones come together: they may come in the
// order of an index.
fn sort_rowids(rows: &mut Vec<Cells>)
    ensures same { IsPermutation rows.old.items rows.new.items }
    ensures sorted { IsNonDecreasingBy (λ r. place_of (column r 0)) rows.new.items }
{
    rows.sort_unstable_by_key(|cells| first_place(cells));
}

/// Whether rows that show the rowids of a table show integers, none of them twice. It puts them in their order.
pub fn are_rowids(shown: &mut Vec<Cells>) -> bool
    ensures { (rows : List Values) → IsPermutation (map rowid_shown rows) shown.old.items
        → (IsTrue result ↔ HaveRowids rows) }
{
    sort_rowids(shown);
    are_rising(shown)
}

/// Whether each row of the table has an integer as its rowid, and no two the same.
pub(crate) fn has_rowids<S: Alter>(conn: &mut Connection<S>, table: Table) -> Result<bool, Error>
    ensures told { HasCleanDisk (state S.Store conn.new) → HasPlan (state S.Store conn.old)
        → IfOk result (λ b.
        IsTrue b ↔ HaveRowids (tables_of (state S.Store conn.old).now.trees table)) }
    ensures looks { Looks (state S.Store conn.old) (state S.Store conn.new) (is_ok result) }
    ensures fails { HasCleanDisk (state S.Store conn.new) → HasPlan (state S.Store conn.old)
        → IfErr result (MayFail (state S.Store conn.old) (state S.Store conn.new)) }
    ensures mode { conn.old.in_transaction ≡ false → conn.new.in_transaction ≡ false }
{
    let mut rows = select_rowids(conn, table)?;
    Ok(are_rowids(&mut rows))
}

/// The rowids of the table at the place.
#[derive(Drop)]
pub(crate) struct Rowids<const PLACE: usize> {}

impl<const PLACE: usize> TablePart for Rowids<PLACE> {
    ghost tells = { λ all _. HaveRowids (all (table_of PLACE)) };

    ghost in_order = { λ _. Unit {0} };

    ghost readable = { λ all. HaveRowids (all (table_of PLACE)) };

    fn read<S: Alter>(_: Global, conn: &mut Connection<S>) -> Result<Option<Rowids<PLACE>>, Error> {
        if has_rowids(conn, table_at(PLACE))? {
            Ok(Some(Rowids {}))
        } else {
            Ok(None)
        }
    }
}
