// Values of rows.

ghost use Rattle.std.specs.Prelude.{◌≡◌, map, option_map, IfOk};
ghost use Rattle.sqlite.specs.Value.{owned};
ghost use Rattle.sqlite.specs.declared.types.Value.TheVariants.{Text};
ghost use Rattle.plan_tables_content.specs.Facts.{flag, is_work, natural, or_null};

use sqlite::types::ValueRef;
use sqlite_value::row::Row;
use std::alloc::{AllocError, Global};
use work_calendars::{Day, DayStatus, Name, Within};

/// A row of these values.
pub(crate) fn row_of(alloc: Global, values: &[ValueRef<'_>]) -> Result<Row, AllocError>
    ensures { IfOk result (λ row. row ≡ map owned values.now) }
{
    let mut row = Row::new(alloc);
    for value in values {
        row.push(*value)?;
    }
    Ok(row)
}

/// A number.
pub(crate) fn number(n: u32) -> ValueRef<'static>
    ensures { owned result ≡ natural n }
{
    ValueRef::Int(i64::from(n))
}

/// The number, or NULL.
pub(crate) fn optional_number(n: Option<u32>) -> ValueRef<'static>
    ensures { owned result ≡ or_null (option_map natural n) }
{
    match n {
        Some(n) => number(n),
        None => ValueRef::Null,
    }
}

/// The day's number, or NULL.
pub(crate) fn optional_day(day: &Option<Day>) -> ValueRef<'static>
    ensures { owned result ≡ or_null (option_map natural day.now) }
{
    match day {
        Some(day) => number(day.number()),
        None => ValueRef::Null,
    }
}

/// The hours of the limit, or NULL where there is none.
pub(crate) fn optional_limit(within: &Option<Within>) -> ValueRef<'static>
    ensures { owned result ≡ or_null (option_map natural within.now) }
{
    match within {
        Some(within) => number(within.hours()),
        None => ValueRef::Null,
    }
}

/// 1 for yes, 0 for no.
pub(crate) fn flag(yes: bool) -> ValueRef<'static>
    ensures { owned result ≡ flag yes }
{
    ValueRef::Int(if yes { 1 } else { 0 })
}

/// 1 for work, 0 for free.
pub(crate) fn work(status: DayStatus) -> ValueRef<'static>
    ensures { owned result ≡ is_work status }
{
    match status {
        DayStatus::Work => ValueRef::Int(1),
        DayStatus::Free => ValueRef::Int(0),
    }
}

/// The name, or NULL.
pub(crate) fn optional_name(name: &Option<Name>) -> ValueRef<'_>
    ensures { owned result ≡ or_null (option_map Text name.now) }
{
    match name {
        Some(name) => ValueRef::Text(name.as_bytes()),
        None => ValueRef::Null,
    }
}
