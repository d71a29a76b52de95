// Ranges and forms of values. All but those of definitions hold by the types.

ghost use Rattle.std.specs.Prelude.{◌≡◌, ◌↔◌, IsTrue, IfOk, IfSome, Some};
ghost use Rattle.std.specs.List.{All};
ghost use Rattle.work_calendars.specs.Day.{IsDay};
ghost use Rattle.work_calendars.specs.Moment.{IsMoment};
ghost use Rattle.work_calendars.specs.Name.{IsName, IsShort};
ghost use Rattle.work_calendars.specs.Within.{IsWithinHours};
ghost use Rattle.external_dependencies.specs.declared.links.Link.{Link as LinkValue};
ghost use Rattle.external_dependencies.specs.declared.rows.PlacedRow.{PlacedRow as PlacedValue};
ghost use Rattle.planner_machine.specs.Sound.{AreNumbered, HasRanges, IsLink, IsOrigin, IsRow};
ghost use Rattle.plan_store.specs.Contents.{content_of};
ghost use Rattle.plan_store_soundness.specs.Listing.{placed_list};
ghost use Rattle.plan_store_soundness.specs.Ranges.{HasBoundsInRange, HaveRanges, IsBoundsValue};

use crate::jobs::is_name;
use app_definition_soundness::are_definitions;
use external_dependencies::{Link, PlacedRow};
use occurrences::{Origin, Row};
use plan_store::Content;
use planner_machine::Bounds;
use std::alloc::{AllocError, Global};
use work_calendars::{Day, Moment, Short, Within};

fn is_short(name: &Short) -> bool
    ensures { IsTrue result ↔ IsShort name.now }
{
    !name.as_bytes().is_empty()
}

fn is_day(day: Day) -> bool
    ensures { IsTrue result ↔ IsDay day }
{
    day.number() >= Day::FIRST.number()
}

fn is_moment(moment: Moment) -> bool
    ensures { IsTrue result ↔ IsMoment moment }
{
    moment.number() >= 1
}

fn is_origin(origin: &Origin) -> bool
    ensures { IsTrue result ↔ IsOrigin origin.now }
{
    match origin {
        Origin::Generated(run_cycle) => is_short(run_cycle),
        Origin::Added => true,
    }
}

fn is_row(row: &Row) -> bool
    ensures { IsTrue result ↔ IsRow row.now }
{
    is_name(&row.key.app)
        && is_moment(row.key.ia)
        && is_moment(row.deadline)
        && is_origin(&row.origin)
}

// Whether all rows are such.
fn are_rows(all: &[PlacedRow]) -> bool
    ensures { IsTrue result ↔ All (λ (p : PlacedValue). IsRow p.row) all.now }
{
    for placed in all {
        if !is_row(&placed.row) {
            return false;
        }
    }
    true
}

fn is_limit(within: &Option<Within>) -> bool
    ensures { IsTrue result ↔ IfSome within.now IsWithinHours }
{
    if let Some(within) = within {
        return within.hours() >= 1;
    }
    true
}

fn is_link(link: &Link) -> bool
    ensures { IsTrue result ↔ IsLink link.now }
{
    is_name(&link.app) && is_name(&link.predecessor) && is_limit(&link.within)
}

// Whether all links are such.
fn are_links(links: &[Link]) -> bool
    ensures { IsTrue result ↔ All IsLink links.now }
{
    for link in links {
        if !is_link(link) {
            return false;
        }
    }
    true
}

fn are_days(bounds: &Bounds) -> bool
    ensures { IsTrue result ↔ IsBoundsValue bounds.now }
{
    is_day(bounds.first_day) && is_day(bounds.last_day) && is_moment(bounds.plan_end)
}

// Whether the days of the bounds are days.
fn has_days(content: &Content) -> bool
    ensures { IsTrue result ↔ HasBoundsInRange (content_of content.now).sets }
{
    match &content.bounds {
        None => true,
        Some(bounds) => are_days(bounds),
    }
}

// Whether the rows have the ranges and forms of rows, where they are numbered.
fn have_ranges(content: &Content, all: &[PlacedRow]) -> bool
    requires { all.now ≡ placed_list content.now }
    ensures { AreNumbered (content_of content.now).sets → (IsTrue result
        ↔ HaveRanges (content_of content.now).sets) }
{
    let _ = content;
    are_rows(all)
}

/// Whether every value has its range and every name its form, and the definitions are such as data blocks give, where
/// the rows are numbered.
pub(crate) fn has_ranges(
    alloc: Global,
    content: &Content,
    all: &[PlacedRow],
) -> Result<bool, AllocError>
    requires { all.now ≡ placed_list content.now }
    ensures { AreNumbered (content_of content.now).sets → IfOk result (λ b. IsTrue b
        ↔ HasRanges (content_of content.now)) }
{
    let definitions = are_definitions(alloc, &content.definitions)?;
    if !definitions {
        return Ok(false);
    }
    if !has_days(content) {
        return Ok(false);
    }
    let links = content.in_force.to_links(alloc)?;
    if !are_links(links.as_slice()) {
        return Ok(false);
    }
    Ok(have_ranges(content, all))
}
