//! Values in words.
ghost use Rattle.std.specs.Prelude.{◌≡◌, is_some};
ghost use Rattle.planner_cli_stream.specs.Grammar.{value_in};
ghost use Rattle.planner_cli_stream.specs.Values.{HasApp, HasCount, HasDay, HasDays, HasFunction, HasJob, HasKind};
ghost use Rattle.planner_cli_stream.specs.Values.{HasMoment, HasName, HasWhat, Reading};
ghost use Rattle.planner_cli_stream.specs.Arguments.{HasArguments};

use crate::arguments::Arguments;
use crate::extension_days::days_from_text;
use crate::{CountWord, FunctionWord, JobNumber, KindWord, Values, WhatWord};
use work_calendars::{App, Day, Moment, Name};

/// All values that have their forms.
pub(crate) fn arguments_in(values: &Values<'_>) -> Arguments
    ensures { HasArguments values.now result }
{
    Arguments {
        job: job_in(values),
        app: app_in(values),
        from: day_in(values, "from"),
        to: day_in(values, "to"),
        to_moment: moment_in(values, "to"),
        ia: moment_in(values, "ia"),
        days: days_in(values),
        count: count_in(values),
        name: name_in(values),
        kind: kind_in(values),
        function: function_in(values),
        what: what_in(values),
        has_app: is_given(values, "app"),
        has_from: is_given(values, "from"),
        has_to: is_given(values, "to"),
        has_days: is_given(values, "days"),
        has_count: is_given(values, "count"),
    }
}

/// Whether the option `name` is there.
fn is_given(values: &Values<'_>, name: &str) -> bool
    ensures { result ≡ is_some (value_in values.now name.now) }
{
    values.get(name).is_some()
}

/// The value of `--job`.
fn job_in(values: &Values<'_>) -> Option<JobNumber>
    ensures { Reading (HasJob values.now) result }
{
    JobNumber::from_text(values.get("job")?)
}

/// The value of `--app`.
fn app_in(values: &Values<'_>) -> Option<App>
    ensures { Reading (HasApp values.now) result }
{
    App::from_text(values.get("app")?)
}

/// The value of `--name`.
fn name_in(values: &Values<'_>) -> Option<Name>
    ensures { Reading (HasName values.now) result }
{
    Name::from_text(values.get("name")?)
}

/// The value of the option `name`, a day.
fn day_in(values: &Values<'_>, name: &str) -> Option<Day>
    ensures { Reading (HasDay values.now name.now) result }
{
    Day::from_text(values.get(name)?)
}

/// The value of the option `name`, a moment.
fn moment_in(values: &Values<'_>, name: &str) -> Option<Moment>
    ensures { Reading (HasMoment values.now name.now) result }
{
    Moment::from_text(values.get(name)?)
}

/// The value of `--days`.
fn days_in(values: &Values<'_>) -> Option<u8>
    ensures { Reading (HasDays values.now) result }
{
    days_from_text(values.get("days")?)
}

/// The value of `--count`.
fn count_in(values: &Values<'_>) -> Option<CountWord>
    ensures { Reading (HasCount values.now) result }
{
    CountWord::from_text(values.get("count")?)
}

/// The word `KIND`.
fn kind_in(values: &Values<'_>) -> Option<KindWord>
    ensures { Reading (HasKind values.now) result }
{
    KindWord::from_text(values.get("KIND")?)
}

/// The word `FUNCTION`.
fn function_in(values: &Values<'_>) -> Option<FunctionWord>
    ensures { Reading (HasFunction values.now) result }
{
    FunctionWord::from_text(values.get("FUNCTION")?)
}

/// The word `WHAT`.
fn what_in(values: &Values<'_>) -> Option<WhatWord>
    ensures { Reading (HasWhat values.now) result }
{
    WhatWord::from_text(values.get("WHAT")?)
}
