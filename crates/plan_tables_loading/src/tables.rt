// What whole tables encode.

ghost use Rattle.std.specs.Prelude.{◌≡◌, false, is_ok, map, None, IfErr, IfOk, IfSome};
ghost use Rattle.std.specs.List.Sorted.{IsPermutation};
ghost use Rattle.sqlite.specs.State.{HasCleanDisk};
ghost use Rattle.sqlite.specs.Held.{state};
ghost use Rattle.plan_tables_schema.specs.Rows.{HaveRowids, MayFail, shown, tables_of};
ghost use Rattle.plan_tables_loading.specs.Reading.{HasPlan, Looks};
ghost use Rattle.plan_tables_loading.specs.Order.{NumbersRise};
ghost use Rattle.plan_tables_loading.specs.Tables.{IsOneOf, ShowsOnly};
ghost use Rattle.plan_tables_loading.specs.Readable.{ShowsEach, ShowsEachOnce, ShowsNumbers};

use crate::collecting::Collector;
use crate::decode::Decode;
use crate::order::{Numbered, in_order};
use plan_tables_lookups::{Stopped, emit_all};
use plan_tables_schema::Table;
use sqlite::{Alter, Connection, Error};
use std::alloc::{AllocError, Global};

/// What the rows of the table encode.
#[tactic(auto, unfolding(crate::specs::Reading::HasPlan))]
pub(crate) fn read_table<X: Decode + Drop, S: Alter>(
    alloc: Global,
    conn: &mut Connection<S>,
    table: Table,
) -> Result<Option<Vec<X>>, Error>
    ensures told { HasCleanDisk (state S.Store conn.new) → HasPlan (state S.Store conn.old)
        → IfOk result (λ found. IfSome found (λ xs.
        ShowsOnly (tables_of (state S.Store conn.old).now.trees) table
        (IsOneOf X.values xs.items))) }
    ensures listed { HasCleanDisk (state S.Store conn.new) → HasPlan (state S.Store conn.old)
        → IfOk result (λ found. IfSome found (λ xs. IsPermutation
        (map (shown table) (tables_of (state S.Store conn.old).now.trees table))
        (map X.values xs.items))) }
    ensures refused { HasCleanDisk (state S.Store conn.new) → HasPlan (state S.Store conn.old)
        → IfOk result (λ found. found ≡ None
        → ShowsEach (tables_of (state S.Store conn.old).now.trees) table X.values X.has_form → ⊥) }
    ensures looks { Looks (state S.Store conn.old) (state S.Store conn.new) (is_ok result) }
    ensures fails { HasCleanDisk (state S.Store conn.new) → HasPlan (state S.Store conn.old)
        → IfErr result (MayFail (state S.Store conn.old) (state S.Store conn.new)) }
    ensures mode { conn.old.in_transaction ≡ false → conn.new.in_transaction ≡ false }
{
    let mut told: Collector<X> = Collector {
        alloc,
        xs: Vec::new(alloc),
        is_short: false,
    };
    match emit_all(conn, table, &mut told) {
        Ok(()) => Ok(Some(told.xs)),
        Err(Stopped::Fault(error)) => Err(error),
        Err(Stopped::Sink) if told.is_short => Err(Error::from(AllocError)),
        Err(Stopped::Sink) => Ok(None),
    }
}

/// What the rows of the table encode, in the order of their numbers, if no two have the same. If the table shows its
/// rowids as these numbers, each row then has its own.
pub(crate) fn read_in_order<X: Decode + Numbered + Drop, S: Alter>(
    alloc: Global,
    conn: &mut Connection<S>,
    table: Table,
) -> Result<Option<Vec<X>>, Error>
    ensures told { HasCleanDisk (state S.Store conn.new) → HasPlan (state S.Store conn.old)
        → IfOk result (λ found. IfSome found (λ xs.
        ShowsOnly (tables_of (state S.Store conn.old).now.trees) table
        (IsOneOf X.values xs.items))) }
    ensures rowids { HasCleanDisk (state S.Store conn.new) → HasPlan (state S.Store conn.old)
        → IfOk result (λ found. IfSome found (λ _. ShowsNumbers table X.values X.number_of
        → HaveRowids (tables_of (state S.Store conn.old).now.trees table))) }
    ensures order { IfOk result (λ found. IfSome found (λ xs. NumbersRise X.number_of xs.items)) }
    ensures refused { HasCleanDisk (state S.Store conn.new) → HasPlan (state S.Store conn.old)
        → IfOk result (λ found. found ≡ None → ShowsNumbers table X.values X.number_of
        → ShowsEachOnce (tables_of (state S.Store conn.old).now.trees) table X.values X.has_form
        → ⊥) }
    ensures looks { Looks (state S.Store conn.old) (state S.Store conn.new) (is_ok result) }
    ensures fails { HasCleanDisk (state S.Store conn.new) → HasPlan (state S.Store conn.old)
        → IfErr result (MayFail (state S.Store conn.old) (state S.Store conn.new)) }
    ensures mode { conn.old.in_transaction ≡ false → conn.new.in_transaction ≡ false }
{
    match read_table::<X, S>(alloc, conn, table)? {
        Some(xs) => Ok(in_order(xs)),
        None => Ok(None),
    }
}
