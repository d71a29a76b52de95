// Parts of a content, each read from its table, one after another.

ghost use Rattle.std.specs.Prelude.{◌≡◌, ◌∷◌, refl, [], false, is_ok, length, map, None, IfErr, IfOk, IfSome};
ghost use Rattle.sqlite.specs.State.{HasCleanDisk};
ghost use Rattle.sqlite.specs.Held.{state};
ghost use Rattle.plan_tables_schema.specs.Rows.{MayFail, Tables, tables_of};
ghost use Rattle.plan_tables_schema.specs.declared.tables.Table.TheVariants.{LongTerm, Current, History, Deletion as Gone};
ghost use Rattle.plan_tables_schema.specs.declared.tables.Table.TheVariants.{LinkInForce, Dependency, Job as Kept};
ghost use Rattle.external_dependencies.specs.Link.{AreNamedOnce};
ghost use Rattle.external_dependencies.specs.Rising.{HaveSame};
ghost use Rattle.plan_tables_content.specs.Content.{job_values};
ghost use Rattle.plan_tables_content.specs.Facts.{row_values, current_values, deletion_values, pair_values, link_values};
ghost use Rattle.plan_tables_loading.specs.Order.{NumbersRise, row_number, current_number, deletion_number, job_number};
ghost use Rattle.plan_tables_loading.specs.Cells.{IsNumberedRow, IsPair, IsReadJob};
ghost use Rattle.plan_tables_schema.specs.Schema.{table_of};
ghost use Rattle.plan_tables_loading.specs.Readable.{ShowsEachOnce, ShowsLinks, ShowsMeta, ShowsNumbers};
ghost use Rattle.plan_tables_loading.specs.Reading.{HasPlan, Looks};
ghost use Rattle.plan_tables_loading.specs.Rowids.{AreApart, pair_of};
ghost use Rattle.plan_tables_loading.specs.Tables.{IsOneOf, ShowsOnce, ShowsOnly, RepresentsMetaOnce};

use crate::decode::Decode;
use crate::links::lists_of_links;
use crate::meta::Meta;
use crate::order::{Numbered, in_order};
use crate::pairs::{PairRow, pairs_of, read_pairs};
use crate::tables::{read_in_order, read_table};
use external_dependencies::{Link, Links, Pair};
use occurrences::{CurrentRow, Deletion, Row};
use plan_tables_schema::Table;
use planner_machine::Job;
use sqlite::{Alter, Connection, Error};
use std::alloc::{AllocError, Global};

/// What is read from one table or from several.
pub trait TablePart: Sized + Drop {
    // the tables encode it
    ghost tells: { Tables → Self → Type 0 };

    // what holds of it, whatever was read
    ghost in_order: { Self → Type 0 };

    // all rows that it is read from can be read
    ghost readable: { Tables → Type 0 };

    /// Reads it.
    fn read<S: Alter>(alloc: Global, conn: &mut Connection<S>) -> Result<Option<Self>, Error>
        ensures told { HasCleanDisk (state S.Store conn.new) → HasPlan (state S.Store conn.old)
            → IfOk result (λ found. IfSome found
            (tells (tables_of (state S.Store conn.old).now.trees))) }
        ensures order { IfOk result (λ found. IfSome found in_order) }
        ensures refused { HasCleanDisk (state S.Store conn.new) → HasPlan (state S.Store conn.old)
            → IfOk result (λ found. found ≡ None
            → readable (tables_of (state S.Store conn.old).now.trees) → ⊥) }
        ensures looks { Looks (state S.Store conn.old) (state S.Store conn.new) (is_ok result) }
        ensures fails { HasCleanDisk (state S.Store conn.new) → HasPlan (state S.Store conn.old)
            → IfErr result (MayFail (state S.Store conn.old) (state S.Store conn.new)) }
        ensures mode { conn.old.in_transaction ≡ false → conn.new.in_transaction ≡ false };
}

impl<A: TablePart, B: TablePart> TablePart for (A, B) {
    ghost tells = { λ all both. A.tells all both.0 × B.tells all both.1 };

    ghost in_order = { λ both. A.in_order both.0 × B.in_order both.1 };

    ghost readable = { λ all. A.readable all × B.readable all };

    fn read<S: Alter>(alloc: Global, conn: &mut Connection<S>) -> Result<Option<(A, B)>, Error> {
        match A::read(alloc, conn)? {
            Some(first) => match B::read(alloc, conn)? {
                Some(second) => Ok(Some((first, second))),
                None => Ok(None),
            },
            None => Ok(None),
        }
    }
}

/// The rows of the table at the place, decoded, each under its own number.
pub(crate) trait StandsIn<const PLACE: usize>: Decode + Numbered {
    /// The table.
    fn table() -> Table
        ensures { result ≡ table_of PLACE };

    // the number comes first, and is the rowid
    ghost leads: { ShowsNumbers (table_of PLACE) Self.values Self.number_of };
}

impl StandsIn<8> for Row {
    fn table() -> Table {
        Table::LongTerm
    }

    ghost leads = { record { of_item = λ x. refl; of_row = λ row. refl } };
}

impl StandsIn<9> for CurrentRow {
    fn table() -> Table {
        Table::Current
    }

    ghost leads = { record { of_item = λ x. refl; of_row = λ row. refl } };
}

impl StandsIn<10> for Row {
    fn table() -> Table {
        Table::History
    }

    ghost leads = { record { of_item = λ x. refl; of_row = λ row. refl } };
}

impl StandsIn<11> for Deletion {
    fn table() -> Table {
        Table::Deletion
    }

    ghost leads = { record { of_item = λ x. refl; of_row = λ row. refl } };
}

impl StandsIn<13> for Job {
    fn table() -> Table {
        Table::Job
    }

    ghost leads = { record { of_item = λ x. refl; of_row = λ row. refl } };
}

/// The rows of the table at the place, in the order of their numbers.
#[derive(Drop)]
pub(crate) struct InOrder<X, const PLACE: usize> {
    /// What the rows encode.
    pub rows: Vec<X>,
}

impl<X: StandsIn<PLACE> + Drop, const PLACE: usize> TablePart for InOrder<X, PLACE> {
    ghost tells = { λ all part. ShowsOnce all (table_of PLACE) (IsOneOf X.values part.rows.items) };

    ghost in_order = { λ part. NumbersRise X.number_of part.rows.items };

    ghost readable = { λ all. ShowsEachOnce all (table_of PLACE) X.values X.has_form };

    fn read<S: Alter>(
        alloc: Global,
        conn: &mut Connection<S>,
    ) -> Result<Option<InOrder<X, PLACE>>, Error> {
        match read_in_order(alloc, conn, X::table())? {
            Some(rows) => Ok(Some(InOrder { rows })),
            None => Ok(None),
        }
    }
}

/// The long-term plan.
pub(crate) type LongTermRows = InOrder<Row, 8>;

/// The current plan.
pub(crate) type CurrentRows = InOrder<CurrentRow, 9>;

/// History.
pub(crate) type HistoryRows = InOrder<Row, 10>;

/// The deletions.
pub(crate) type DeletionRows = InOrder<Deletion, 11>;

/// The kept jobs.
pub(crate) type JobRows = InOrder<Job, 13>;

/// The lists in force.
#[derive(Drop)]
pub(crate) struct LinkRows {
    /// The lists.
    pub links: Links,
}

impl TablePart for LinkRows {
    ghost tells = { λ all part. ShowsOnly all LinkInForce (IsOneOf link_values part.links) };

    ghost in_order = { λ _. Unit {0} };

    ghost readable = { ShowsLinks };

    fn read<S: Alter>(alloc: Global, conn: &mut Connection<S>) -> Result<Option<LinkRows>, Error> {
        match read_table(alloc, conn, Table::LinkInForce)? {
            Some(links) => Ok(link_rows(links)?),
            None => Ok(None),
        }
    }
}

// The lists that the links make, if no two that differ have the same names.
fn link_rows(links: Vec<Link>) -> Result<Option<LinkRows>, AllocError>
    ensures same { IfOk result (λ found. IfSome found (λ part. HaveSame part.links links.items)) }
    ensures none { IfOk result (λ found. found ≡ None → AreNamedOnce links.items → ⊥) }
{
    match lists_of_links(links)? {
        Some(links) => Ok(Some(LinkRows { links })),
        None => Ok(None),
    }
}

/// The pairs.
#[derive(Drop)]
pub(crate) struct PairRows {
    /// The pairs.
    pub pairs: Vec<Pair>,
}

impl TablePart for PairRows {
    ghost tells = { λ all part. ShowsOnce all Dependency (IsOneOf pair_values part.pairs.items) };

    ghost in_order = { λ _. Unit {0} };

    ghost readable = { λ all. ShowsEachOnce all Dependency pair_values IsPair };

    fn read<S: Alter>(alloc: Global, conn: &mut Connection<S>) -> Result<Option<PairRows>, Error> {
        match read_pairs(alloc, conn)? {
            Some(told) => Ok(pair_rows(alloc, told)?),
            None => Ok(None),
        }
    }
}

// The pairs that were decoded, if no two have the same rowid.
fn pair_rows(alloc: Global, told: Vec<PairRow>) -> Result<Option<PairRows>, AllocError>
    ensures same { IfOk result (λ found. IfSome found (λ part.
        part.pairs.items ≡ map pair_of told.items)) }
    ensures apart { IfOk result (λ found. IfSome found (λ _. AreApart told.items)) }
    ensures none { IfOk result (λ found. found ≡ None → AreApart told.items → ⊥) }
{
    let pairs = pairs_of(alloc, &told)?;
    match in_order(told) {
        Some(_) => Ok(Some(PairRows { pairs })),
        None => Ok(None),
    }
}

impl TablePart for Meta {
    ghost tells = { RepresentsMetaOnce };

    ghost in_order = { λ _. Unit {0} };

    ghost readable = { ShowsMeta };

    fn read<S: Alter>(alloc: Global, conn: &mut Connection<S>) -> Result<Option<Meta>, Error> {
        match read_table(alloc, conn, Table::Meta)? {
            Some(metas) => Ok(only(metas)),
            None => Ok(None),
        }
    }
}

// The one of the list, if there is just one.
fn only(metas: Vec<Meta>) -> Option<Meta>
    ensures one { IfSome result (λ meta. metas.items ≡ meta ∷ []) }
    ensures none { result ≡ None → length metas.items ≡ 1 → ⊥ }
{
    let mut metas = metas;
    if metas.len() == 1 { metas.pop() } else { None }
}
