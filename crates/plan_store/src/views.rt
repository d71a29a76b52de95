ghost use Rattle.std.specs.Prelude.{◌≡◌, ◌↔◌, ◌+◌, ◌<◌, length, true, Contains, IsTrue, IfOk};
ghost use Rattle.external_dependencies.specs.Pair.{pair_cmp};
ghost use Rattle.external_dependencies.specs.Rising.{IsRising};
ghost use Rattle.external_dependencies.specs.declared.pairs.Pair.{Pair as PairValue};
ghost use Rattle.planner_machine.specs.Moves.{size};
ghost use Rattle.external_dependencies.specs.Nearest.{IsNearestAnswer};
ghost use Rattle.planner_machine.specs.Pairs.{LiveAt};
ghost use Rattle.planner_machine.specs.Sound.{AreNumbered};

use crate::arrivals::{last_live, last_of, later};
use crate::contents::Content;
use crate::slices::{
    arriving_before, before, first_live, first_of, has_operator, is_asked, is_from_plan_end,
    is_of_key, of_app, of_key, of_serial, with_key,
};
use crate::spans::next_planned;
use app_definitions::Definitions;
use external_dependencies::{Arrival, Pair, PlacedRow, arrives_within};
use occurrences::{CurrentRow, Deletion, Key, Place, Row, Serial};
use plan_store_lists::{LinkBlocks, PairBlocks, RowBlocks};
use planner_machine::Bounds;
use std::alloc::{AllocError, Global};
use work_calendars::{App, Moment, Within};

/// What a decision sees of a content: what its need names, and no more. A store lends it, and it holds no copy.
#[derive(Clone, Copy)]
pub struct View<'a> {
    // of this the definitions, the bounds, the number of serials issued and the lists in force are seen, by any need
    pub(crate) content: &'a Content,
    // and these rows
    pub(crate) ltp: &'a RowBlocks<Row>,
    pub(crate) cp: &'a RowBlocks<CurrentRow>,
    pub(crate) lasts: &'a [Row],
    // and of these deletions those that keep a planning statement from making their keys
    pub(crate) deletions: &'a RowBlocks<Deletion>,
    // and of these pairs those whose successor is open, or is the live row of the key
    pub(crate) pairs: &'a PairBlocks,
    pub(crate) key: &'a Option<Key>,
    // and of these rows of history the predecessors of those pairs; the live row of the key may be among them
    pub(crate) history: &'a RowBlocks<Row>,
    ghost ltp_rows: { AreRows of_row ltp.now.items },
    ghost cp_rows: { AreRows of_current cp.now.items },
    ghost last_rows: { AreRows of_row lasts.now },
    ghost history_rows: { AreRows of_row history.now.items },
    ghost deletion_rows: { AreRows of_deletion deletions.now.items },
    ghost ltp_seats: { HasSeats of_row ltp.now.items content.now.seats },
    ghost cp_seats: { HasSeats of_current cp.now.items content.now.seats },
    ghost last_seats: { HasSeats of_row lasts.now content.now.seats },
    ghost history_seats: { HasSeats of_row history.now.items content.now.seats },
    ghost deletion_seats: { HasSeats of_deletion deletions.now.items content.now.seats },
}

ghost use Rattle.plan_store_lists.specs.Rows.{AreRows, look_up, of_current, of_deletion, of_row};
ghost use Rattle.plan_store_lists.specs.Seats.{HasSeats};

impl<'a> View<'a> {
    ghost use Rattle.plan_store.specs.Views.{HoldsOfAny, HoldsOfPairs, HoldsOfPart, IsAny, IsCurrentRow, IsDeletedKey};
    ghost use Rattle.plan_store.specs.Views.{IsFoundAt, IsLastBefore, IsLiveRow, IsPlannedRow, ListsSet, ShowsLast};
    ghost use Rattle.plan_store.specs.Views.{ShowsNearest, needs_completed, needs_pairs, needs_planned, cp_size, ltp_size};
    ghost use Rattle.plan_store.specs.Views.{row_serial, shown};
    ghost use Rattle.plan_store.specs.Spans.{IsNextPlanned};

    /// The definitions.
    pub fn definitions(&self) -> &'a Definitions
        ensures { result.now ≡ (shown self.now).definitions }
    {
        &self.content.definitions
    }

    /// How far the plans reach; `None` before the long-term plan is created.
    pub fn bounds(&self) -> Option<Bounds>
        ensures { result ≡ (shown self.now).sets.bounds }
    {
        self.content.bounds
    }

    /// How many serials are issued.
    pub fn issued(&self) -> u32
        ensures { result ≡ (shown self.now).sets.issued }
    {
        self.content.issued
    }

    /// The lists in force.
    pub fn in_force(&self) -> &'a LinkBlocks
        ensures { result.now.items ≡ (shown self.now).in_force }
    {
        &self.content.in_force
    }

    // Whether the serial is open, or is that of the live row of the key in the current plan.
    fn needs_planned(&self, serial: Serial) -> bool
        ensures { result ≡ needs_planned self.now.key.now (shown self.now).sets.ltp
            (shown self.now).sets.cp serial }
    {
        if of_serial(self.ltp, &self.content.seats, serial).is_some() {
            return true;
        }
        match of_serial(self.cp, &self.content.seats, serial) {
            Some(current) => is_asked(self.key, &current),
            None => false,
        }
    }

    // Whether it is that of the live row of the key in history.
    fn needs_completed(&self, serial: Serial) -> bool
        ensures { result ≡ needs_completed self.now.key.now
            (look_up row_serial self.now.history.now.items) serial }
    {
        match of_serial(self.history, &self.content.seats, serial) {
            Some(row) => is_of_key(self.key, &row),
            None => false,
        }
    }

    // Whether the window shows pairs of the serial: it is open, or is that of the live row of the key.
    fn needs_pairs(&self, serial: Serial) -> bool
        ensures { result ≡ needs_pairs self.now.key.now (shown self.now).sets.ltp
            (shown self.now).sets.cp (look_up row_serial self.now.history.now.items) serial }
    {
        self.needs_planned(serial) || self.needs_completed(serial)
    }

    /// The pairs of one successor, which is open or, in a window on a key, is its live row, in whatever set that is;
    /// none of any other.
    pub fn pairs_of_successor(&self, successor: Serial) -> &'a [Pair]
        ensures rising { IsRising pair_cmp result.now }
        ensures all { (pair : PairValue) → Contains result.now pair
            ↔ (Contains (shown self.now).pairs pair × (pair.successor ≡ successor)) }
    {
        if !self.needs_pairs(successor) {
            return &[];
        }
        self.asked_of(successor)
    }

    /// The pairs of one successor that is known to be open.
    pub fn pairs_of_open(&self, successor: Serial) -> &'a [Pair]
        requires { needs_planned self.now.key.now (shown self.now).sets.ltp (shown self.now).sets.cp
            successor ≡ true }
        ensures rising { IsRising pair_cmp result.now }
        ensures all { (pair : PairValue) → Contains result.now pair
            ↔ (Contains (shown self.now).pairs pair × (pair.successor ≡ successor)) }
    {
        self.asked_of(successor)
    }

    // The pairs of one successor, which the window needs.
    fn asked_of(&self, successor: Serial) -> &'a [Pair]
        requires { needs_pairs self.now.key.now (shown self.now).sets.ltp (shown self.now).sets.cp
            (look_up row_serial self.now.history.now.items) successor ≡ true }
        ensures rising { IsRising pair_cmp result.now }
        ensures all { (pair : PairValue) → Contains result.now pair
            ↔ (Contains (shown self.now).pairs pair × (pair.successor ≡ successor)) }
    {
        self.pairs.of_successor(successor)
    }

    /// The predecessor of a pair that is shown, and its place: in a plan or in history.
    pub fn predecessor(&self, pair: &Pair) -> Option<PlacedRow>
        requires { Contains (shown self.now).pairs pair.now }
        ensures { HoldsOfPairs self.now (λ c. IsFoundAt c.sets pair.now.predecessor result) }
    {
        let serial = pair.predecessor;
        if let Some(row) = of_serial(self.ltp, &self.content.seats, serial) {
            return Some(PlacedRow {
                row,
                place: Place::LongTerm,
            });
        }
        if let Some(current) = of_serial(self.cp, &self.content.seats, serial) {
            return Some(PlacedRow {
                row: current.row,
                place: Place::Current(current.status),
            });
        }
        let row = of_serial(self.history, &self.content.seats, serial)?;
        Some(PlacedRow {
            row,
            place: Place::History,
        })
    }

    /// The rows of the long-term plan.
    pub fn ltp(&self) -> &'a RowBlocks<Row>
        ensures rows { ListsSet of_row (shown self.now).sets.ltp IsAny result.now.items }
        ensures count { HoldsOfAny self.now (λ c. AreNumbered c.sets
            → length result.now.items
            ≡ size (shown self.now).sets.ltp (shown self.now).sets.issued) }
    {
        self.ltp
    }

    /// The rows of the current plan.
    pub fn cp(&self) -> &'a RowBlocks<CurrentRow>
        ensures rows { ListsSet of_current (shown self.now).sets.cp IsAny result.now.items }
        ensures count { HoldsOfAny self.now (λ c. AreNumbered c.sets
            → length result.now.items
            ≡ size (shown self.now).sets.cp (shown self.now).sets.issued) }
    {
        self.cp
    }

    /// How many rows the long-term plan has, whichever of them the window shows.
    pub fn ltp_size(&self) -> usize
        ensures { result ≡ ltp_size self.now }
    {
        self.content.ltp.len()
    }

    /// How many rows the current plan has, whichever of them the window shows.
    pub fn cp_size(&self) -> usize
        ensures { result ≡ cp_size self.now }
    {
        self.content.cp.len()
    }

    /// The rows of history that the need names: of applications, the last before some moments.
    pub fn lasts(&self) -> &'a [Row]
        ensures { ListsSet of_row (shown self.now).sets.history IsAny result.now }
    {
        self.lasts
    }

    /// The rows of an application in the long-term plan.
    pub fn ltp_of(&self, app: &App) -> &'a [Row]
        ensures { ListsSet of_row (shown self.now).sets.ltp (λ row. row.key.app
            ≡ app.now) result.now }
    {
        self.ltp.of_app(app)
    }

    /// The rows of an application in the current plan.
    pub fn cp_of(&self, app: &App) -> &'a [CurrentRow]
        ensures { ListsSet of_current (shown self.now).sets.cp (λ current. current.row.key.app
            ≡ app.now) result.now }
    {
        self.cp.of_app(app)
    }

    /// The rows of an application in history that the need names.
    pub fn lasts_of(&self, app: &App) -> &'a [Row]
        ensures { ListsSet of_row (shown self.now).sets.history (λ row. row.key.app
            ≡ app.now) result.now }
    {
        of_app(self.lasts, app)
    }

    /// The rows of the long-term plan that arrive before the moment, as a list of their own, for the change of a daily
    /// plan. Costs a few searches for each application, and the rows that move.
    pub fn ltp_before(&self, alloc: Global, moment: Moment) -> Result<Vec<Row>, AllocError>
        ensures { IfOk result (λ rows. ListsSet of_row (shown self.now).sets.ltp (λ row.
            row.key.ia < moment) rows.items) }
    {
        arriving_before(alloc, self.ltp, moment)
    }

    /// When the next live occurrence of the application in the two plans arrives after the moment.
    pub fn next_planned(&self, app: &App, moment: Moment) -> Option<Moment>
        ensures { IsNextPlanned (shown self.now).sets app.now moment result }
    {
        next_planned(self.ltp, self.cp, app, moment)
    }

    /// The row of the long-term plan that has the key.
    pub fn ltp_row(&self, key: &Key) -> Option<Row>
        ensures { IsPlannedRow (shown self.now).sets key.now result }
    {
        first_of(with_key(self.ltp, key))
    }

    /// The row of the current plan that has the key and is not deleted.
    pub fn cp_row(&self, key: &Key) -> Option<CurrentRow>
        ensures { IsCurrentRow (shown self.now).sets key.now result }
    {
        first_live(with_key(self.cp, key))
    }

    /// The live occurrence that has the key, and its place, if the window shows the last one of its application up to
    /// it.
    pub fn live_row(&self, key: &Key) -> Option<PlacedRow>
        ensures { HoldsOfPart self.now (λ c. ShowsLast c self.now key.now.app (key.now.ia + 1)
            → IsLiveRow c.sets key.now result) }
    {
        if let Some(row) = self.ltp_row(key) {
            return Some(PlacedRow {
                row,
                place: Place::LongTerm,
            });
        }
        if let Some(current) = self.cp_row(key) {
            return Some(PlacedRow {
                row: current.row,
                place: Place::Current(current.status),
            });
        }
        let row = first_of(of_key(self.lasts, key))?;
        Some(PlacedRow {
            row,
            place: Place::History,
        })
    }

    /// Whether the window shows that an operator deleted an occurrence of the key.
    pub fn is_deleted_by_operator(&self, key: &Key) -> bool
        ensures { IsTrue result ↔ IsDeletedKey (shown self.now).sets key.now }
    {
        is_from_plan_end(self.content.bounds, key) && has_operator(with_key(self.deletions, key))
    }

    // The live occurrence of the application that arrives last before the minute.
    fn last_before(&self, app: &App, minute: u32) -> Option<Arrival>
        ensures { HoldsOfPart self.now (λ c. ShowsLast c self.now app.now minute
            → IsLastBefore c.sets app.now minute result) }
    {
        let ltp = last_of(before(self.ltp.of_app(app), minute));
        let cp = last_live(before(self.cp.of_app(app), minute));
        let history = last_of(before(of_app(self.lasts, app), minute));
        later(ltp, later(cp, history))
    }

    /// Of the live occurrences of the key's application the one that arrives last before it, where the window shows
    /// that of history.
    pub fn previous(&self, key: &Key) -> Option<Arrival>
        ensures { HoldsOfPart self.now (λ c. ShowsLast c self.now key.now.app key.now.ia
            → IsLastBefore c.sets key.now.app key.now.ia result) }
    {
        self.last_before(&key.app, key.ia.number())
    }

    /// The nearest predecessor, in an application, of the occurrence with that key: of the live occurrences of the
    /// application that arrive at or before it, the one that arrives last; in its own application only those that
    /// arrive before it count, and where there is a limit none that arrives more than so many hours before it. Of
    /// history those count that the window shows.
    pub fn nearest(&self, key: &Key, app: &App, within: Option<Within>) -> Option<Serial>
        ensures { HoldsOfPart self.now (λ c. ShowsNearest c self.now key.now app.now
            → IsNearestAnswer (LiveAt c.sets) key.now app.now within result) }
    {
        let arrival = key.ia.number();
        let limit = if *app == key.app {
            arrival
        } else {
            arrival + 1
        };
        let Some(near) = self.last_before(app, limit) else {
            return None;
        };
        if arrives_within(within, key.ia, near.ia) {
            Some(near.serial)
        } else {
            None
        }
    }
}
