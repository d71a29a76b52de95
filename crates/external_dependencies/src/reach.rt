ghost use Rattle.std.specs.Prelude.{◌≡◌, ◌↔◌, ◌⊎◌, ℕ, Contains, IfOk, IsTrue, map};
ghost use Rattle.std.specs.Cmp.Lexicographic.{slice_cmp};
ghost use Rattle.std.specs.Ordering.{nat_cmp};
ghost use Rattle.external_dependencies.specs.Nearest.{IsCandidate, arrival_of};
ghost use Rattle.external_dependencies.specs.Reach.{HasMoved, IsReachOf};
ghost use Rattle.external_dependencies.specs.Rising.{IsRising};
ghost use Rattle.external_dependencies.specs.Touch.{IsAnew, MayReach};
ghost use Rattle.external_dependencies.specs.declared.links.Link.{Link as LinkValue};
ghost use Rattle.external_dependencies.specs.declared.live.Arrival.{Arrival as ArrivalValue};
ghost use Rattle.external_dependencies.specs.declared.touch.Touch.{Touch as TouchValue};

use crate::links::{Link, Links};
use crate::live::{Arrival, Live, nearest};
use crate::rising::into_rising;
use crate::touch::{Touch, row_serials};
use occurrences::{Key, Row, Serial};
use std::alloc::{AllocError, Global};
use work_calendars::App;

/// What a change may reach, in order: the serials and the lists rise, and so do the arrivals of what came or went.
#[derive(Drop)]
pub(crate) struct Reach {
    serials: Vec<Serial>,
    lists: Vec<App>,
    moved: Live,
}

impl Reach {
    /// What a change that touches this may reach.
    pub(crate) fn build(alloc: Global, touch: &Touch) -> Result<Reach, AllocError>
        ensures { IfOk result (IsReachOf touch.now) }
    {
        Ok(Reach {
            serials: into_rising(anew(alloc, touch)?),
            lists: into_rising(touch.lists.clone()?),
            moved: Live::from_arrivals(moved(alloc, touch)?),
        })
    }

    /// Whether the change may reach the occurrence, if it is open.
    pub(crate) fn has(&self, links: &Links, row: &Row) -> bool
        ensures { (touch : TouchValue) → IsReachOf touch self.now →
            IsTrue result ↔ MayReach touch links.now row.now }
    {
        self.names(row) || precedes_any(&self.moved, links.list(&row.key.app), &row.key)
    }

    // Whether the occurrence was made or opened, or its list changed.
    fn names(&self, row: &Row) -> bool
        ensures { (touch : TouchValue) → IsReachOf touch self.now → IsTrue result
            ↔ (IsAnew touch row.now.serial ⊎ Contains touch.lists.items row.now.key.app) }
    {
        has_serial(&self.serials, row.serial) || has_app(&self.lists, &row.key.app)
    }
}

// The occurrences that were made and those that were opened.
fn anew(alloc: Global, touch: &Touch) -> Result<Vec<Serial>, AllocError>
    ensures { IfOk result (λ serials. (serial : ℕ) → Contains serials.items serial
        ↔ IsAnew touch.now serial) }
{
    let mut serials = row_serials(alloc, &touch.made)?;
    serials.extend_from_slice(&touch.opened)?;
    Ok(serials)
}

// The arrivals of the rows that were made and of those that were withdrawn.
fn moved(alloc: Global, touch: &Touch) -> Result<Vec<Arrival>, AllocError>
    ensures { IfOk result (λ arrivals. (a : ArrivalValue) → Contains arrivals.items a
        ↔ HasMoved touch.now a) }
{
    let mut arrivals = arrivals_of(alloc, &touch.made)?;
    let more = arrivals_of(alloc, &touch.withdrawn)?;
    arrivals.extend_from_slice(&more)?;
    Ok(arrivals)
}

// The arrivals of rows.
fn arrivals_of(alloc: Global, rows: &[Row]) -> Result<Vec<Arrival>, AllocError>
    ensures { IfOk result (λ arrivals. arrivals.items ≡ map arrival_of rows.now) }
{
    rows.iter()
        .map(|row| Arrival {
            app: row.key.app,
            ia: row.key.ia,
            serial: row.serial,
        })
        .collect(alloc)
}

// Whether the serial is one of these, which rise.
fn has_serial(serials: &[Serial], serial: Serial) -> bool
    ensures { IsRising nat_cmp serials.now → IsTrue result ↔ Contains serials.now serial }
{
    serials.binary_search(&serial).is_ok()
}

// Whether the application is one of these, which rise.
fn has_app(apps: &[App], app: &App) -> bool
    ensures { IsRising (slice_cmp nat_cmp) apps.now → IsTrue result ↔ Contains apps.now app.now }
{
    apps.binary_search(app).is_ok()
}

// Whether one of these arrivals may precede the occurrence with the key, by a link of its list.
fn precedes_any(moved: &Live, list: &[Link], key: &Key) -> bool
    ensures { IsTrue result ↔ ((link : LinkValue) × Contains list.now link × ((a : ArrivalValue)
        × Contains moved.now a × IsCandidate key.now link.predecessor link.within a)) }
{
    list.iter().any(|link| precedes(moved, link, key))
}

// Whether one of these arrivals may precede the occurrence with the key, by the link.
fn precedes(moved: &Live, link: &Link, key: &Key) -> bool
    ensures { IsTrue result ↔ ((a : ArrivalValue) × Contains moved.now a
        × IsCandidate key.now link.now.predecessor link.now.within a) }
{
    nearest(moved, key, &link.predecessor, link.within).is_some()
}
