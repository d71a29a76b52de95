ghost use Rattle.std.specs.Prelude.{◌≡◌, ◌↔◌, [], Contains, IfOk, OnOk, filter, map, not};
ghost use Rattle.plan_store_lists.specs.Blocks.{items_of};
ghost use Rattle.plan_store_lists.specs.Keyed.{holds_key};
ghost use Rattle.plan_store_lists.specs.Rows.{HasEachOnce};
ghost use Rattle.plan_store_lists.specs.Seats.{HasSeats, seat_cmp, seat_of};
ghost use Rattle.plan_store_lists.specs.declared.seats.Seat.{Seat as SeatValue};

use crate::blocks::{Blocks, has_item, insert_into, of_group, reserve_for};
use crate::grouped::{Grouped, group_of_serial};
use crate::keyed::Keyed;
use crate::rows::PlanRow;
use crate::search::sort;
use occurrences::{Row, Serial};
use std::alloc::{AllocError, Global};
use std::marker::Model;
use work_calendars::{App, Moment};

/// A serial, and the key of an occurrence that has it. Seats are ordered by serial, then by key.
#[derive(Clone, Copy, PartialEq, Eq, PartialOrd, Ord)]
pub struct Seat {
    /// The serial.
    pub serial: Serial,
    /// The input arrival.
    pub ia: Moment,
    /// The application.
    pub app: App,
}

impl Keyed for Seat {
    ghost use Rattle.plan_store_lists.specs.Seats.{seat_ties};

    type Key = Seat;

    ghost key_of = { λ seat. seat };

    ghost ties = { seat_ties };

    fn key(&self) -> Seat {
        *self
    }
}

impl Grouped for Seat {
    ghost use Rattle.plan_store_lists.specs.Seats.{seat_group, seat_groups_rise};
    ghost use Rattle.std.specs.FinMap.{nat_cmp-IsAntisymmetric};

    type Group = u32;

    ghost group_of = { seat_group };

    ghost group_ties = { nat_cmp-IsAntisymmetric };

    ghost rises = { seat_groups_rise };

    fn group(&self) -> u32 {
        group_of_serial(self.serial)
    }
}

/// Seats, in a block for every 256 serials. Contracts see them in rising order, each once.
#[derive(Drop)]
pub struct SeatBlocks {
    blocks: Blocks<u32, Seat>,
}

impl Model for SeatBlocks {
    ghost use Rattle.std.specs.Prelude.{List};
    ghost use Rattle.plan_store_lists.specs.declared.seats.Seat.{Seat};

    ghost Value = { List Seat };

    ghost use Rattle.plan_store_lists.specs.Blocks.{items_of};
    ghost use Rattle.plan_store_lists.specs.SeatBlocks.{AreSeatBlocks};

    ghost view = { λ s. items_of s.blocks };

    ghost invariant = { λ s. AreSeatBlocks s.blocks };
}

impl SeatBlocks {
    /// No seats.
    pub fn new(alloc: Global) -> SeatBlocks
        ensures { result ≡ [] }
    {
        SeatBlocks {
            blocks: Blocks::new(alloc),
        }
    }

    // Whether the seat is one of these.
    fn has(&self, seat: &Seat) -> bool
        ensures { result ≡ holds_key seat_cmp (λ (s : SeatValue). s) self.now seat.now }
    {
        has_item(&self.blocks, seat)
    }
}

// The seat of a row.
fn made_seat(row: &Row) -> Seat
    ensures { result ≡ seat_of row.now }
{
    Seat {
        serial: row.serial,
        ia: row.key.ia,
        app: row.key.app,
    }
}

// The seats of these rows that are not among the seats.
fn missing_seats<T: PlanRow>(
    alloc: Global,
    seats: &SeatBlocks,
    rows: &[T],
) -> Result<Vec<Seat>, AllocError>
    ensures { IfOk result (λ missing. missing.items
        ≡ filter (λ seat. not (holds_key seat_cmp (λ (s : SeatValue). s) seats.now seat))
        (map (λ x. seat_of (T.row_of x)) rows.now)) }
{
    rows.iter()
        .map(|x| made_seat(&x.row()))
        .filter(|seat| !seats.has(seat))
        .collect(alloc)
}

/// Notes the seats of these rows; if memory is refused, none of them.
pub fn note_rows<T: PlanRow>(
    alloc: Global,
    seats: &mut SeatBlocks,
    rows: &[T],
) -> Result<(), AllocError>
    requires once { HasEachOnce T.row_of rows.now }
    ensures stay { (seat : SeatValue) → Contains seats.old seat → Contains seats.new seat }
    ensures noted { OnOk result (HasSeats T.row_of rows.now seats.new) }
{
    let mut missing = missing_seats(alloc, seats, rows)?;
    sort(&mut missing);
    reserve_for(alloc, &mut seats.blocks, &missing)?;
    insert_into(&mut seats.blocks, &missing);
    Ok(())
}

/// Notes the seats of the rows of these blocks, block after block; if memory is refused, those of some blocks.
pub fn note_blocks<T: PlanRow>(
    alloc: Global,
    seats: &mut SeatBlocks,
    list: &Blocks<App, T>,
) -> Result<(), AllocError>
    requires once { HasEachOnce T.row_of (items_of list.now) }
    ensures stay { (seat : SeatValue) → Contains seats.old seat → Contains seats.new seat }
    ensures noted { OnOk result (HasSeats T.row_of (items_of list.now) seats.new) }
{
    for block in &list.blocks {
        note_rows(alloc, seats, &block.items)?;
    }
    Ok(())
}

/// The seats of a serial.
pub fn seats_of(seats: &SeatBlocks, serial: Serial) -> &[Seat]
    ensures { (seat : SeatValue) → Contains result.now seat
        ↔ (Contains seats.now seat × (seat.serial ≡ serial)) }
{
    let near = of_group(&seats.blocks, &group_of_serial(serial));
    let start = near.partition_point(|seat| seat.serial < serial);
    let rest = &near[start..];
    let count = rest.partition_point(|seat| seat.serial <= serial);
    &rest[..count]
}
