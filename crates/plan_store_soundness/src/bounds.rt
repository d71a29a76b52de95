ghost use Rattle.std.specs.Prelude.{◌≡◌, ◌*◌, ◌≤◌, ◌↔◌, IsTrue};
ghost use Rattle.planner_machine.specs.Content.{midnight};
ghost use Rattle.planner_machine.specs.Sound.{AreBounds, HasBounds, IsUnplanned};
ghost use Rattle.plan_store.specs.Contents.{content_of};
ghost use Rattle.plan_store_soundness.specs.Listing.{HasNoRows, IsBare};

use plan_store::Content;
use planner_machine::Bounds;
use work_calendars::Day;

// The minutes of a day.
const MINUTES: u32 = 1440;

// The minute at which the day of this number begins.
pub(crate) fn minute_of_day(day: u32) -> u32
    requires { day ≤ 50000 }
    ensures { result ≡ midnight day }
{
    day * MINUTES
}

// Whether the plan begins no later than it ends, ends in time, and the current plan ends within it.
fn are_bounds(bounds: &Bounds) -> bool
    ensures { IsTrue result ↔ AreBounds bounds.now }
{
    let first = bounds.first_day.number();
    let last = bounds.last_day.number();
    let end = bounds.plan_end.number();
    first <= last
        && last <= Day::LAST_KEPT.number()
        && minute_of_day(first) <= end
        && end <= minute_of_day(last + 1)
}

// Whether there are no rows.
fn has_no_rows(content: &Content) -> bool
    ensures { IsTrue result ↔ HasNoRows content.now }
{
    content.ltp.is_empty()
        && content.cp.is_empty()
        && content.history.is_empty()
        && content.deletions.is_empty()
}

// Whether there is nothing of a plan.
fn is_bare(content: &Content) -> bool
    ensures { IsTrue result ↔ IsBare content.now }
{
    content.issued == 0
        && has_no_rows(content)
        && content.pairs.is_empty()
        && content.in_force.is_empty()
}

// Whether nothing is planned.
fn is_unplanned(content: &Content) -> bool
    ensures { IsTrue result ↔ IsUnplanned (content_of content.now) }
{
    is_bare(content)
}

/// Whether nothing is planned before the long-term plan is created, and the bounds of the plans are such as it has
/// after it.
pub(crate) fn has_bounds(content: &Content) -> bool
    ensures { IsTrue result ↔ HasBounds (content_of content.now) }
{
    match &content.bounds {
        None => is_unplanned(content),
        Some(bounds) => are_bounds(bounds),
    }
}
