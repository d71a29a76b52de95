// Calendars.

ghost use Rattle.std.specs.Prelude.{◌≢◌, ◌↔◌, ◌⊎◌, [], IsTrue};
ghost use Rattle.app_definition_records.specs.Calendars.{FitsCalendar, IsCalendarOf};
ghost use Rattle.app_definition_records.specs.FieldCounts.{HasCalendarFields};
ghost use Rattle.app_definition_soundness.specs.Given.{IsGiven};
ghost use Rattle.app_definition_soundness.specs.Values.{ListsWeekday};
ghost use Rattle.work_calendars.specs.Name.{IsName};

use crate::given::Given;
use crate::names::is_name;
use std::alloc::{AllocError, Global};
use work_calendars::{Calendar, Day, DayStatus, Name, Weekday};

// Whether some weekday is listed.
fn lists_weekday(calendar: &Calendar) -> bool
    ensures { IsTrue result ↔ ListsWeekday calendar.now }
{
    calendar.weekday_status(Weekday::Monday).is_some()
        || calendar.weekday_status(Weekday::Tuesday).is_some()
        || calendar.weekday_status(Weekday::Wednesday).is_some()
        || calendar.weekday_status(Weekday::Thursday).is_some()
        || calendar.weekday_status(Weekday::Friday).is_some()
        || calendar.weekday_status(Weekday::Saturday).is_some()
        || calendar.weekday_status(Weekday::Sunday).is_some()
}

// Whether it has a name and lists something, where these are the dates that it lists.
fn is_calendar(name: &Name, calendar: &Calendar, dates: &[(Day, DayStatus)]) -> bool
    ensures { IsTrue result ↔ (IsName name.now × (ListsWeekday calendar.now ⊎ (dates.now ≢ []))) }
{
    is_name(name) && (!dates.is_empty() || lists_weekday(calendar))
}

impl Given for Calendar {
    ghost IsGiven = { IsGiven HasCalendarFields FitsCalendar IsCalendarOf };

    fn is_given(&self, alloc: Global, name: &Name) -> Result<bool, AllocError> {
        let dates = self.dates(alloc)?;
        Ok(is_calendar(name, self, &dates))
    }
}
