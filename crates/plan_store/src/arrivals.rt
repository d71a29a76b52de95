ghost use Rattle.std.specs.Prelude.{◌≡◌};
ghost use Rattle.external_dependencies.specs.Arrival.{arrival_cmp};
ghost use Rattle.external_dependencies.specs.Nearest.{arrival_of};
ghost use Rattle.occurrences.specs.declared.place.CurrentRow.{CurrentRow as CurrentValue};
ghost use Rattle.plan_store_lists.specs.Keyed.{IsKeyed};
ghost use Rattle.plan_store.specs.Arrivals.{IsGreatestOf, arrives, arrives_live, later_of};

use external_dependencies::Arrival;
use occurrences::{CurrentRow, Row, Status};

// The arrival of a row.
pub(crate) fn arrival(row: &Row) -> Arrival
    ensures { result ≡ arrival_of row.now }
{
    Arrival {
        app: row.key.app,
        ia: row.key.ia,
        serial: row.serial,
    }
}

// The arrival of the last of some rows.
pub(crate) fn last_of(rows: &[Row]) -> Option<Arrival>
    ensures { IsKeyed arrival_cmp arrival_of rows.now → IsGreatestOf (arrives rows.now) result }
{
    let count = rows.len();
    if count == 0 {
        return None;
    }
    Some(arrival(&rows[count - 1]))
}

// The arrival of the last of some rows of the current plan that is not deleted.
pub(crate) fn last_live(rows: &[CurrentRow]) -> Option<Arrival>
    ensures { IsKeyed arrival_cmp (λ (x : CurrentValue). arrival_of x.row) rows.now
        → IsGreatestOf (arrives_live rows.now) result }
{
    let mut left = rows.len();
    while left > 0 {
        left -= 1;
        if rows[left].status != Status::D {
            return Some(arrival(&rows[left].row));
        }
    }
    None
}

// The later of two arrivals.
pub(crate) fn later(first: Option<Arrival>, second: Option<Arrival>) -> Option<Arrival>
    ensures { result ≡ later_of first second }
{
    match first {
        None => second,
        Some(a) => match second {
            None => Some(a),
            Some(b) => { if a.cmp(&b).is_lt() { Some(b) } else { Some(a) } }
        },
    }
}
