// The least active application that lacks a definition.

ghost use Rattle.std.specs.Prelude.{◌≡◌, ◌≢◌, ◌⊎◌, IfSome, Some};
ghost use Rattle.std.specs.Cmp.Lexicographic.{slice_cmp};
ghost use Rattle.std.specs.Ordering.{nat_cmp};
ghost use Rattle.std.specs.declared.cmp.Ordering.TheVariants.{Greater};
ghost use Rattle.app_occurrences.specs.Active.{HasNoCalendar, HasNoPeriod, IsLeastName};

use crate::applications::{lacks_calendar, lacks_period};
use app_definitions::Definitions;
use work_calendars::App;

// The lesser in byte order of a name and the least one so far.
fn lesser(least: Option<App>, app: &App) -> App
    ensures one { (least ≡ Some result) ⊎ (result ≡ app.now) }
    ensures name { slice_cmp nat_cmp result app.now ≢ Greater }
    ensures least { IfSome least (λ so_far. slice_cmp nat_cmp result so_far ≢ Greater) }
{
    match least {
        Some(least) => least.min(*app),
        None => *app,
    }
}

/// The least in byte order of the active applications that name a calendar that isn't defined, and that isn't the
/// default one.
pub fn least_without_calendar(all: &Definitions) -> Option<App>
    ensures { IsLeastName (HasNoCalendar all.now) result }
{
    let mut least = None;
    for (app, application) in all.applications.iter() {
        if application.active && lacks_calendar(all, application) {
            least = Some(lesser(least, app));
        }
    }
    least
}

/// The least in byte order of the active applications of which one run cycle names a period that isn't defined.
pub fn least_without_period(all: &Definitions) -> Option<App>
    ensures { IsLeastName (HasNoPeriod all.now) result }
{
    let mut least = None;
    for (app, application) in all.applications.iter() {
        if application.active && lacks_period(all, app) {
            least = Some(lesser(least, app));
        }
    }
    least
}
