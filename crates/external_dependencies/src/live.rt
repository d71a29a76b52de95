ghost use Rattle.std.specs.Prelude.{◌≡◌, ◌↔◌, Contains, IfOk, IsTrue, None};
ghost use Rattle.external_dependencies.specs.Rising.{IsRising};
ghost use Rattle.external_dependencies.specs.Arrival.{arrival_cmp};
ghost use Rattle.external_dependencies.specs.Nearest.{ArrivesWithin, IsLiveIn, IsNearestAnswer, IsNearestArrival};
ghost use Rattle.external_dependencies.specs.declared.live.Arrival.{Arrival};

use crate::rising::into_rising;
use crate::rows::Rows;
use occurrences::{Key, Serial};
use std::alloc::{AllocError, Global};
use std::marker::Model;
use work_calendars::{App, Moment, Within};

/// What the search for predecessors knows of a live occurrence.
/// Arrivals are ordered by application, then by input arrival, then by serial.
#[derive(Clone, Copy, Debug, PartialEq, Eq, PartialOrd, Ord, Hash)]
pub struct Arrival {
    /// Its application.
    pub app: App,
    /// Its input arrival.
    pub ia: Moment,
    /// Its number.
    pub serial: Serial,
}

/// The live occurrences among some rows: those of the long-term plan, those of the current plan that are not deleted,
/// and those of history. Contracts see their arrivals in rising order, each once.
#[derive(Drop)]
pub struct Live {
    arrivals: Vec<Arrival>,
}

impl Model for Live {
    ghost use Rattle.std.specs.Prelude.{List};
    ghost use Rattle.external_dependencies.specs.declared.live.Arrival.{Arrival};

    ghost Value = { List Arrival };

    ghost use Rattle.external_dependencies.specs.Rising.{IsRising};
    ghost use Rattle.external_dependencies.specs.Arrival.{arrival_cmp};

    ghost view = { λ s. s.arrivals.items };

    ghost invariant = { λ s. IsRising arrival_cmp s.arrivals.items };
}

impl Live {
    /// The live ones of these rows.
    pub fn build(alloc: Global, rows: &Rows) -> Result<Live, AllocError>
        ensures { IfOk result (λ live. (arrival : Arrival) → Contains live arrival
            ↔ IsLiveIn rows.now arrival) }
    {
        let mut arrivals = Vec::new(alloc);
        for placed in rows.as_slice() {
            if placed.place.is_live() {
                arrivals.push(Arrival {
                    app: placed.row.key.app,
                    ia: placed.row.key.ia,
                    serial: placed.row.serial,
                })?;
            }
        }
        Ok(Live {
            arrivals: into_rising(arrivals),
        })
    }

    // These arrivals, each once.
    pub(crate) fn from_arrivals(arrivals: Vec<Arrival>) -> Live
        ensures { (arrival : Arrival) → Contains result arrival ↔ Contains arrivals.items arrival }
    {
        Live {
            arrivals: into_rising(arrivals),
        }
    }

    /// The arrivals of the live occurrences, in rising order.
    pub fn as_slice(&self) -> &[Arrival]
        ensures all { result.now ≡ self.now }
        ensures rising { IsRising arrival_cmp self.now }
    {
        self.arrivals.as_slice()
    }
}

/// The nearest predecessor, in an application, of the occurrence with that key: of the live occurrences of the
/// application that arrive at or before it, the one that arrives last; in its own application only those that arrive
/// before it count, and where there is a limit none that arrives more than so many hours before it. Of several that
/// arrive last together, which no plan has, it is the one of the greatest serial. `None` if there is no such
/// occurrence.
pub fn nearest(live: &Live, key: &Key, app: &App, within: Option<Within>) -> Option<Serial>
    ensures { IsNearestAnswer (Contains live.now) key.now app.now within result }
{
    let Some(last) = last_arrival(live, key, app) else {
        return None;
    };
    if arrives_within(within, key.ia, last.ia) {
        Some(last.serial)
    } else {
        None
    }
}

/// Whether the moment is at most as many hours after the first as the limit says; where there is none, it is.
pub fn arrives_within(within: Option<Within>, ia: Moment, first: Moment) -> bool
    ensures { IsTrue result ↔ ArrivesWithin within ia first }
{
    match within {
        None => true,
        Some(within) => ia.number() <= first.number() + within.hours() * 60,
    }
}

// The nearest predecessor, were there no limit.
fn last_arrival(live: &Live, key: &Key, app: &App) -> Option<Arrival>
    ensures { IsNearestArrival (Contains live.now) key.now app.now None result }
{
    let arrival = key.ia.number();
    let limit = if *app == key.app {
        arrival
    } else {
        arrival + 1
    };
    let count = live
        .arrivals
        .partition_point(|a| a.app.cmp(app).then(a.ia.number().cmp(&limit)).is_lt());
    if count == 0 {
        return None;
    }
    let last = live.arrivals[count - 1];
    if last.app == *app { Some(last) } else { None }
}
