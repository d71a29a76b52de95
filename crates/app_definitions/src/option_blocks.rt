// Blocks of options.

ghost use Rattle.std.specs.Prelude.{◌↔◌, ℕ, List, Some, codes, IsTrue, IfSome, IfNone, IfOk, IfErr};
ghost use Rattle.toml.specs.Data.{get_member};
ghost use Rattle.toml.specs.View.{view, table_view};
ghost use Rattle.app_definitions.specs.Blocks.{ReadsAs, IsFaultOf};
ghost use Rattle.app_definitions.specs.Options.{GivesCalendar, GivesHours, HasOnlyOptions, AreOptionsIn};
ghost use Rattle.app_definitions.specs.Options.{AreOptionsOf, IsOptionsFault};
ghost use Rattle.app_definitions.specs.declared.options.Options.{Options};

use crate::kinds::{Block, Kind};
use crate::options::{MAX_EXTENSION_HOURS, Options};
use app_definition_records::BlockFault;
use std::alloc::Global;
use toml::{Table, Value};
use work_calendars::Name;

// The name of the default calendar that a value gives.
fn calendar_of(value: &Value) -> Option<Name>
    ensures given { IfSome result (GivesCalendar (Some (view value.now))) }
    ensures refused { IfNone result ((n : List ℕ) → ¬ (GivesCalendar (Some (view value.now)) n)) }
{
    match value {
        Value::String(text) => Name::from_text(text.as_str()),
        _ => None,
    }
}

// The hours that a value gives.
fn hours_of(value: &Value) -> Option<u16>
    ensures given { IfSome result (GivesHours (Some (view value.now))) }
    ensures refused { IfNone result ((n : ℕ) → ¬ (GivesHours (Some (view value.now)) n)) }
{
    match value {
        Value::Integer(hours) if *hours >= 1 && *hours <= MAX_EXTENSION_HOURS as i64 => Some(
            *hours as u16,
        ),
        _ => None,
    }
}

// The name of the default calendar that a table gives.
fn calendar_in(table: &Table) -> Option<Name>
    ensures given { IfSome result
        (GivesCalendar (get_member (codes "default_calendar") (table_view table.now))) }
    ensures refused { IfNone result ((n : List ℕ)
        → ¬ (GivesCalendar (get_member (codes "default_calendar") (table_view table.now)) n)) }
{
    match table.get("default_calendar") {
        None => Some(Options::new().default_calendar),
        Some(value) => calendar_of(value),
    }
}

// The hours that a table gives.
fn hours_in(table: &Table) -> Option<u16>
    ensures given { IfSome result
        (GivesHours (get_member (codes "max_extension_hours") (table_view table.now))) }
    ensures refused { IfNone result ((n : ℕ)
        → ¬ (GivesHours (get_member (codes "max_extension_hours") (table_view table.now)) n)) }
{
    match table.get("max_extension_hours") {
        None => Some(MAX_EXTENSION_HOURS),
        Some(value) => hours_of(value),
    }
}

// Whether every key of the table is an option's.
fn has_only_options(table: &Table) -> bool
    ensures { IsTrue result ↔ HasOnlyOptions (table_view table.now) }
{
    for (key, _) in table.iter() {
        if key.as_str() != "default_calendar" && key.as_str() != "max_extension_hours" {
            return false;
        }
    }
    true
}

// The options that a table gives.
fn options_in(table: &Table) -> Option<Options>
    ensures given { IfSome result (λ o. AreOptionsIn o (table_view table.now)) }
    ensures refused { IfNone result ((o : Options) → ¬ (AreOptionsIn o (table_view table.now))) }
{
    if !has_only_options(table) {
        return None;
    }
    let default_calendar = calendar_in(table)?;
    let max_extension_hours = hours_in(table)?;
    Some(Options {
        default_calendar,
        max_extension_hours,
    })
}

// The options that a text gives.
fn options_of(alloc: Global, text: &[u8]) -> Result<Options, BlockFault>
    ensures given { IfOk result (λ o. AreOptionsOf o text.now) }
    ensures faulty { IfErr result (IsOptionsFault text.now) }
{
    let Ok(text) = std::str::from_utf8(text) else {
        return Err(BlockFault::Faulty { number: 1 });
    };
    let table = match toml::table_from_str(alloc, text) {
        Ok(table) => table,
        Err(error) if error.is_memory() => return Err(BlockFault::Memory),
        Err(_) => return Err(BlockFault::Faulty { number: 1 }),
    };
    options_in(&table).ok_or(BlockFault::Faulty { number: 1 })
}

/// Reads a block of options, one TOML document: an empty one gives the options where none are given. A document that
/// gives none is faulty at record 1.
pub fn read_options(alloc: Global, text: &[u8]) -> Result<Block, BlockFault>
    ensures reads { IfOk result (ReadsAs Kind.Options text.now) }
    ensures faulty { IfErr result (IsFaultOf Kind.Options text.now) }
{
    Ok(Block::Options(options_of(alloc, text)?))
}
