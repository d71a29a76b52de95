// All that the tables of the plans encode.

ghost use Rattle.std.specs.Prelude.{◌≡◌, false, is_ok, None, IfErr, IfOk, IfSome};
ghost use Rattle.sqlite.specs.State.{HasCleanDisk};
ghost use Rattle.sqlite.specs.Held.{state};
ghost use Rattle.plan_tables_schema.specs.Rows.{MayFail, Tables, tables_of};
ghost use Rattle.plan_tables_loading.specs.Parts.{AreRowsInOrder, AreRestInOrder, RepresentRowParts, RepresentRest};
ghost use Rattle.plan_tables_loading.specs.Readable.{ArePlansReadable};
ghost use Rattle.plan_tables_loading.specs.Reading.{HasPlan, Looks};
ghost use Rattle.plan_tables_loading.specs.Tables.{HaveShownRowids, RepresentPlans, RepresentRows};

use crate::lists::{PlanLists, PlanRows};
use crate::meta::Meta;
use crate::parts::{
    CurrentRows, DeletionRows, HistoryRows, JobRows, LinkRows, LongTermRows, PairRows, TablePart,
};
use sqlite::{Alter, Connection, Error};
use std::alloc::Global;

// The rows of the four sets.
type RowParts = ((LongTermRows, CurrentRows), (HistoryRows, DeletionRows));

// The lists in force, the pairs, how far the plans reach, and the jobs.
type Rest = ((LinkRows, PairRows), (Meta, JobRows));

fn rows_of(parts: RowParts) -> PlanRows
    requires { AreRowsInOrder parts }
    ensures { (all : Tables) → RepresentRowParts all parts → RepresentRows all result }
{
    let ((ltp, cp), (history, deletions)) = parts;
    PlanRows {
        ltp: ltp.rows,
        cp: cp.rows,
        history: history.rows,
        deletions: deletions.rows,
    }
}

fn lists_of(rows: PlanRows, rest: Rest) -> PlanLists
    requires { AreRestInOrder rest }
    ensures { (all : Tables) → RepresentRows all rows → RepresentRest all rest → RepresentPlans all result }
{
    let ((links, pairs), (meta, jobs)) = rest;
    PlanLists {
        meta,
        rows,
        links: links.links,
        pairs: pairs.pairs,
        jobs: jobs.rows,
    }
}

/// All that the tables of the plans encode; `None` if some row of them can't be decoded, two rows have one number, two
/// pairs have one rowid, or two links in force have the same names but different limits.
pub fn read_lists<S: Alter>(
    alloc: Global,
    conn: &mut Connection<S>,
) -> Result<Option<PlanLists>, Error>
    ensures told { HasCleanDisk (state S.Store conn.new) → HasPlan (state S.Store conn.old)
        → IfOk result (λ found. IfSome found
        (RepresentPlans (tables_of (state S.Store conn.old).now.trees))) }
    ensures rowids { HasCleanDisk (state S.Store conn.new) → HasPlan (state S.Store conn.old)
        → IfOk result (λ found. IfSome found (λ _.
        HaveShownRowids (tables_of (state S.Store conn.old).now.trees))) }
    ensures refused { HasCleanDisk (state S.Store conn.new) → HasPlan (state S.Store conn.old)
        → IfOk result (λ found. found ≡ None
        → ArePlansReadable (tables_of (state S.Store conn.old).now.trees) → ⊥) }
    ensures looks { Looks (state S.Store conn.old) (state S.Store conn.new) (is_ok result) }
    ensures fails { HasCleanDisk (state S.Store conn.new) → HasPlan (state S.Store conn.old)
        → IfErr result (MayFail (state S.Store conn.old) (state S.Store conn.new)) }
    ensures mode { conn.old.in_transaction ≡ false → conn.new.in_transaction ≡ false }
{
    match <(RowParts, Rest)>::read(alloc, conn)? {
        Some((rows, rest)) => Ok(Some(lists_of(rows_of(rows), rest))),
        None => Ok(None),
    }
}
