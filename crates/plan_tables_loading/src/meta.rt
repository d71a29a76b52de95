// How far the plans reach, and the options.

ghost use Rattle.std.specs.Prelude.{◌≡◌, ◌↔◌, ◌<◌, ◌^◌, ℕ, Option, Some, None, IfSome, IsTrue};
ghost use Rattle.sqlite.specs.Order.{column};
ghost use Rattle.sqlite.specs.declared.types.Value.TheVariants.{Text};
ghost use Rattle.plan_tables_content.specs.Content.{meta_values};
ghost use Rattle.plan_tables_content.specs.Facts.{natural};
ghost use Rattle.app_definitions.specs.declared.options.Options.{Options as OptionsValue};
ghost use Rattle.planner_machine.specs.declared.content.Bounds.{Bounds as BoundsValue};
ghost use Rattle.work_calendars.specs.Name.{IsName};
ghost use Rattle.plan_tables_loading.specs.declared.meta.Meta.{Meta as MetaValue};
ghost use Rattle.plan_tables_loading.specs.Cells.{AreDays, HasBounds, HasOptions, IsMeta};

use crate::cells::{day_at, moment_at, name_at, number_at};
use crate::decode::Decode;
use app_definitions::{MAX_EXTENSION_HOURS, Options};
use plan_tables_schema::SCHEMA_VERSION;
use planner_machine::Bounds;
use sqlite::Row as Cells;
use std::alloc::{AllocError, Global};

/// How far the plans reach, how many serials are issued, and the options.
#[derive(Drop)]
pub struct Meta {
    /// How far the plans reach.
    pub bounds: Option<Bounds>,
    /// How many serials are issued.
    pub issued: u32,
    /// The options.
    pub options: Options,
}

// Whether the cell holds this number.
fn is_number(cells: &Cells, at: usize, n: u32) -> bool
    ensures { IsTrue result ↔ (column cells.now at ≡ natural n) }
{
    match number_at(cells, at) {
        Some(m) => m == n,
        None => false,
    }
}

// That there is no plan.
fn is_unplanned(cells: &Cells) -> bool
    ensures { IsTrue result ↔ HasBounds None cells.now }
{
    is_number(cells, 2, 0)
        && is_number(cells, 3, 0)
        && is_number(cells, 4, 0)
        && is_number(cells, 5, 0)
}

// How far a plan reaches.
fn decode_plan(cells: &Cells) -> Option<Bounds>
    ensures value { IfSome result (λ bounds. HasBounds (Some bounds) cells.now) }
    ensures none { result ≡ None → (bounds : BoundsValue) → AreDays bounds
        → HasBounds (Some bounds) cells.now → ⊥ }
{
    if !is_number(cells, 2, 1) {
        return None;
    }
    let first_day = day_at(cells, 3)?;
    let last_day = day_at(cells, 4)?;
    let plan_end = moment_at(cells, 5)?;
    Some(Bounds {
        first_day,
        last_day,
        plan_end,
    })
}

// How far the plans reach.
fn decode_bounds(cells: &Cells) -> Option<Option<Bounds>>
    ensures value { IfSome result (λ bounds. HasBounds bounds cells.now) }
    ensures none { result ≡ None → (bounds : Option BoundsValue) → IfSome bounds AreDays
        → HasBounds bounds cells.now
        → ⊥ }
{
    if is_unplanned(cells) {
        Some(None)
    } else {
        match decode_plan(cells) {
            Some(bounds) => Some(Some(bounds)),
            None => None,
        }
    }
}

// The options.
fn decode_options(cells: &Cells) -> Option<Options>
    ensures value { IfSome result (λ options. HasOptions options cells.now) }
    ensures none { result ≡ None → (options : OptionsValue) → IsName options.default_calendar
        → HasOptions options cells.now → ⊥ }
{
    let default_calendar = name_at(cells, 7)?;
    let hours = number_at(cells, 8)?;
    if hours < 1 || hours > u32::from(MAX_EXTENSION_HOURS) {
        return None;
    }
    Some(Options {
        default_calendar,
        max_extension_hours: hours as u16,
    })
}

#[tactic(auto, using(crate::proofs::CellLemmas::of_meta))]
fn decode_meta(cells: &Cells) -> Option<Meta>
    ensures value { IfSome result (λ meta. meta_values meta.bounds meta.issued meta.options
        ≡ cells.now) }
    ensures none { result ≡ None → (meta : MetaValue) → IsMeta meta
        → meta_values meta.bounds meta.issued meta.options ≡ cells.now → ⊥ }
{
    if cells.column_count() != 9 {
        return None;
    }
    if !is_number(cells, 0, 1) {
        return None;
    }
    if !is_number(cells, 1, SCHEMA_VERSION) {
        return None;
    }
    let bounds = decode_bounds(cells)?;
    let issued = number_at(cells, 6)?;
    let options = decode_options(cells)?;
    Some(Meta {
        bounds,
        issued,
        options,
    })
}

impl Decode for Meta {
    ghost values = { λ meta. meta_values meta.bounds meta.issued meta.options };

    ghost has_form = { IsMeta };

    fn decode(_: Global, cells: &Cells) -> Result<Option<Meta>, AllocError> {
        Ok(decode_meta(cells))
    }
}
