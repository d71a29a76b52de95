// Options.

ghost use Rattle.std.specs.Prelude.{◌≤◌};
ghost use Rattle.app_definitions.specs.declared.options.TheConstants.{MAX_EXTENSION_HOURS};

use work_calendars::Name;

/// The most hours that an extension of the current plan may ever be allowed, and what it is allowed where nothing is
/// given.
pub const MAX_EXTENSION_HOURS: u16 = 504;

/// The options.
#[derive(Clone, Copy, Debug)]
pub struct Options {
    /// The name of the default calendar.
    pub default_calendar: Name,
    /// The most hours of one extension of the current plan.
    pub max_extension_hours: u16,
    ghost some: { 1 ≤ max_extension_hours },
    ghost in_range: { max_extension_hours ≤ MAX_EXTENSION_HOURS },
}

impl Options {
    ghost use Rattle.std.specs.Prelude.{◌≡◌};
    ghost use Rattle.app_definitions.specs.Options.{default_options};

    /// The options where none are given: the calendar `DEFAULT`, and extensions of 504 hours.
    pub fn new() -> Options
        ensures { result ≡ default_options }
    {
        match Name::from_text("DEFAULT") {
            Some(default_calendar) => Options {
                default_calendar,
                max_extension_hours: MAX_EXTENSION_HOURS,
            },
            None => unreachable!(),
        }
    }
}
