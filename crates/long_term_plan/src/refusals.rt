ghost use Rattle.std.specs.Prelude.{Some, ◌≡◌, ◌⊎◌, None};
ghost use Rattle.long_term_plan.specs.Making.{LacksDefinition, LacksOwnDefinition};

use app_definitions::Definitions;
use app_occurrences::{
    active, lacks_calendar, lacks_period, least_without_calendar, least_without_period,
};
use occurrences::Refusal;
use work_calendars::App;

// The refusal of the least application that lacks its calendar, or else of the least one that lacks a period.
pub(crate) fn lacking_definition(all: &Definitions) -> Option<Refusal>
    ensures { LacksDefinition all.now result }
{
    if let Some(app) = least_without_calendar(all) {
        return Some(Refusal::CalendarUndefined { app });
    }
    let app = least_without_period(all)?;
    Some(Refusal::PeriodUndefined { app })
}

// That refusal, and where no application lacks one, that of days that a plan can't have.
pub(crate) fn dates_or_lacking(all: &Definitions) -> Refusal
    ensures { LacksDefinition all.now (Some result)
        ⊎ (LacksDefinition all.now None × (result ≡ Refusal.DatesOutOfRange)) }
{
    match lacking_definition(all) {
        Some(refusal) => refusal,
        None => Refusal::DatesOutOfRange,
    }
}

// The refusal of an application that is active and lacks its calendar, or else a period.
pub(crate) fn lacking_own_definition(all: &Definitions, app: &App) -> Option<Refusal>
    ensures { LacksOwnDefinition all.now app.now result }
{
    let application = active(all, app)?;
    if lacks_calendar(all, &application) {
        return Some(Refusal::CalendarUndefined { app: *app });
    }
    if lacks_period(all, app) {
        return Some(Refusal::PeriodUndefined { app: *app });
    }
    None
}
