// Values of rows.

ghost use Rattle.std.specs.Prelude.{◌≡◌, option_map};
ghost use Rattle.sqlite.specs.Values.{bound_value};
ghost use Rattle.sqlite.specs.Value.{owned};
ghost use Rattle.sqlite.specs.declared.types.Value.TheVariants.{Text};
ghost use Rattle.occurrences.specs.Row.{run_cycle_of};
ghost use Rattle.plan_tables_content.specs.Facts.{natural, or_null};

use occurrences::Origin;
use sqlite::types::ValueRef;
use work_calendars::Within;

/// A number.
pub(crate) fn number(n: u32) -> ValueRef<'static>
    ensures { bound_value (owned result) ≡ natural n }
{
    ValueRef::Int(i64::from(n))
}

/// The hours of a limit, or NULL where there is none.
pub(crate) fn limit(within: Option<Within>) -> ValueRef<'static>
    ensures { bound_value (owned result) ≡ or_null (option_map natural within) }
{
    match within {
        Some(within) => number(within.hours()),
        None => ValueRef::Null,
    }
}

/// The run cycle that named an occurrence, or NULL where it was added.
pub(crate) fn origin(origin: &Origin) -> ValueRef<'_>
    ensures { bound_value (owned result) ≡ or_null (option_map Text (run_cycle_of origin.now)) }
{
    match origin {
        Origin::Generated(name) => ValueRef::Text(name.as_bytes()),
        Origin::Added => ValueRef::Null,
    }
}
