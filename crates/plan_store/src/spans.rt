// Rows of an application in a stretch of time, and when its next live occurrence of the two plans arrives.

ghost use Rattle.std.specs.Prelude.{◌≡◌, ◌↔◌, ◌≤◌, Contains};
ghost use Rattle.external_dependencies.specs.Arrival.{arrival_cmp};
ghost use Rattle.external_dependencies.specs.Nearest.{arrival_of};
ghost use Rattle.external_dependencies.specs.Touch.{IsWithin};
ghost use Rattle.plan_store_lists.specs.Keyed.{IsKeyed};
ghost use Rattle.plan_store_lists.specs.Rows.{AreRows, look_up, of_current, of_row};
ghost use Rattle.occurrences.specs.declared.place.CurrentRow.{CurrentRow as CurrentValue};
ghost use Rattle.planner_machine.specs.Content.{Sets};
ghost use Rattle.plan_store.specs.Arrivals.{arrives, arrives_live};
ghost use Rattle.plan_store.specs.Slices.{HaveOneApp};
ghost use Rattle.plan_store.specs.Spans.{IsLeastOf, IsNextPlanned, earlier_of};
ghost use Rattle.plan_store.specs.Views.{current_serial, row_serial};

use crate::slices::from_on;
use occurrences::{CurrentRow, Row, Status};
use plan_store_lists::{PlanRow, RowBlocks};
use work_calendars::{App, Moment};

// The rows of one application that arrive at the last moment or before it, or all where there is none.
fn up_to<'a, T: PlanRow>(rows: &'a [T], last: Option<Moment>) -> &'a [T]
    ensures { IsKeyed arrival_cmp (λ x. arrival_of (T.row_of x)) rows.now
        → HaveOneApp T.row_of rows.now
        → (x : T) → Contains result.now x ↔ (Contains rows.now x
        × IsWithin last (T.row_of x).key.ia) }
{
    let Some(last) = last else {
        return rows;
    };
    let end = last.number() + 1;
    let count = rows.partition_point(|x| x.row().key.ia.number() < end);
    &rows[..count]
}

/// The rows of one application that arrive from the first moment to the last, or without end.
pub fn between<'a, T: PlanRow>(rows: &'a [T], first: Moment, last: &Option<Moment>) -> &'a [T]
    ensures { IsKeyed arrival_cmp (λ x. arrival_of (T.row_of x)) rows.now
        → HaveOneApp T.row_of rows.now
        → (x : T) → Contains result.now x
        ↔ (Contains rows.now x × (first ≤ (T.row_of x).key.ia)
        × IsWithin last.now (T.row_of x).key.ia) }
{
    up_to(from_on(rows, first.number()), *last)
}

// When the first live occurrence of the application in the two plans arrives after the moment.
pub(crate) fn next_planned(
    ltp: &RowBlocks<Row>,
    cp: &RowBlocks<CurrentRow>,
    app: &App,
    moment: Moment,
) -> Option<Moment>
    requires ltp { AreRows of_row ltp.now.items }
    requires cp { AreRows of_current cp.now.items }
    ensures { (s : Sets) → s.ltp ≡ look_up row_serial ltp.now.items
        → s.cp ≡ look_up current_serial cp.now.items
        → IsNextPlanned s app.now moment result }
{
    let minute = moment.number() + 1;
    let planned = first_arrival(from_on(ltp.of_app(app), minute));
    let current = first_live_arrival(from_on(cp.of_app(app), minute));
    earlier(planned, current)
}

// When the first of some rows of one application arrives.
fn first_arrival(rows: &[Row]) -> Option<Moment>
    ensures { IsKeyed arrival_cmp arrival_of rows.now → HaveOneApp of_row rows.now
        → IsLeastOf (arrives rows.now) result }
{
    let count = rows.len();
    if count == 0 {
        return None;
    }
    Some(rows[0].key.ia)
}

// When the first of some rows of one application arrives that is not deleted.
fn first_live_arrival(rows: &[CurrentRow]) -> Option<Moment>
    ensures { IsKeyed arrival_cmp (λ (x : CurrentValue). arrival_of x.row) rows.now
        → HaveOneApp of_current rows.now
        → IsLeastOf (arrives_live rows.now) result }
{
    for current in rows {
        if current.status != Status::D {
            return Some(current.row.key.ia);
        }
    }
    None
}

// The earlier of two moments.
fn earlier(first: Option<Moment>, second: Option<Moment>) -> Option<Moment>
    ensures { result ≡ earlier_of first second }
{
    match first {
        None => second,
        Some(a) => match second {
            None => Some(a),
            Some(b) => { if b < a { Some(b) } else { Some(a) } }
        },
    }
}
