// A job, and how far the plans reach.

ghost use Rattle.std.specs.Prelude.{◌<◌, ◌^◌, ◌∷◌, [], Some, None};
ghost use Rattle.std.specs.Prelude.{◌≡◌, ⊤};
ghost use Rattle.plan_tables_content.specs.Content.{answer_text, job_values, meta_values};
ghost use Rattle.plan_tables_content.specs.Facts.{natural};
ghost use Rattle.plan_tables_schema.specs.Rows.{AreOfKinds, with_cells, without_key};
ghost use Rattle.plan_tables_schema.specs.Accepted.{AcceptsRow};
ghost use Rattle.plan_tables_schema.specs.declared.tables.Table.TheVariants.{Job as JobTable, Meta};
ghost use Rattle.plan_tables_writing.specs.Accepted.{AcceptsMeta, WritesAccepted};
ghost use Rattle.plan_tables_writing.specs.Writing.{job_put, meta_told, with_meta};

use crate::cells::number;
use app_definitions::Options;
use plan_tables_schema::{SCHEMA_VERSION, Table, delete, insert};
use planner_machine::{Bounds, Job};
use sqlite::types::ValueRef;
use sqlite::{Alter, Error, Transaction};

/// Inserts a job into its table. The line is that of its reply.
#[tactic(auto, using(crate::proofs::KindLemmas::kinds))]
pub(crate) fn put_job<'x, S: Alter>(
    tx: &mut Transaction<'_, S>,
    job: &'x Job,
    line: &'x [u8],
) -> Result<(), Error>
    requires number { job.now.number < 2 ^ 63 }
    requires line { line.now ≡ answer_text job.now.reply }
    ensures { WritesAccepted (λ _. ⊤) (AcceptsRow JobTable (job_values job.now)) S.Store tx.old tx.new
        result (job_put job.now) }
{
    insert(
        tx,
        Table::Job,
        &[
            ValueRef::Int(job.number as i64),
            ValueRef::Blob(job.text.as_slice()),
            ValueRef::Text(line),
        ],
    )
}

// Stores that there is no plan.
fn put_no_bounds<S: Alter>(
    tx: &mut Transaction<'_, S>,
    table: Table,
    issued: u32,
    options: &Options,
) -> Result<(), Error>
    ensures { WritesAccepted (λ _. AreOfKinds table (meta_values None issued options.now))
        (AcceptsRow table (meta_values None issued options.now))
        S.Store tx.old tx.new result
        (with_cells table (meta_values None issued options.now)) }
{
    insert(
        tx,
        table,
        &[
            number(1),
            number(SCHEMA_VERSION),
            number(0),
            number(0),
            number(0),
            number(0),
            number(issued),
            ValueRef::Text(options.default_calendar.as_bytes()),
            number(u32::from(options.max_extension_hours)),
        ],
    )
}

// Stores how far the plans reach.
fn put_bounds<S: Alter>(
    tx: &mut Transaction<'_, S>,
    table: Table,
    bounds: &Bounds,
    issued: u32,
    options: &Options,
) -> Result<(), Error>
    ensures { WritesAccepted (λ _.
        AreOfKinds table (meta_values (Some bounds.now) issued options.now))
        (AcceptsRow table (meta_values (Some bounds.now) issued options.now))
        S.Store tx.old tx.new result
        (with_cells table (meta_values (Some bounds.now) issued options.now)) }
{
    insert(
        tx,
        table,
        &[
            number(1),
            number(SCHEMA_VERSION),
            number(1),
            number(bounds.first_day.number()),
            number(bounds.last_day.number()),
            number(bounds.plan_end.number()),
            number(issued),
            ValueRef::Text(options.default_calendar.as_bytes()),
            number(u32::from(options.max_extension_hours)),
        ],
    )
}

fn put_meta<S: Alter>(
    tx: &mut Transaction<'_, S>,
    bounds: &Option<Bounds>,
    issued: u32,
    options: &Options,
) -> Result<(), Error>
    ensures { WritesAccepted (λ _. AreOfKinds Meta (meta_values bounds.now issued options.now))
        (AcceptsRow Meta (meta_values bounds.now issued options.now))
        S.Store tx.old tx.new result
        (with_meta bounds.now issued options.now) }
{
    match bounds {
        None => put_no_bounds(tx, Table::Meta, issued, options),
        Some(bounds) => put_bounds(tx, Table::Meta, bounds, issued, options),
    }
}

fn delete_meta<S: Alter>(tx: &mut Transaction<'_, S>) -> Result<(), Error>
    ensures { WritesAccepted (λ _. ⊤) (λ _. ⊤) S.Store tx.old tx.new result
        (without_key Meta (natural 1 ∷ [])) }
{
    delete(tx, Table::Meta, &[number(1)])
}

/// Replaces how far the plans reach, how many serials are issued, and the options.
pub(crate) fn write_meta<S: Alter>(
    tx: &mut Transaction<'_, S>,
    bounds: &Option<Bounds>,
    issued: u32,
    options: &Options,
) -> Result<(), Error>
    ensures { WritesAccepted (λ _. ⊤) (AcceptsMeta bounds.now issued options.now) S.Store tx.old tx.new
        result (meta_told bounds.now issued options.now) }
{
    delete_meta(tx)?;
    put_meta(tx, bounds, issued, options)
}
