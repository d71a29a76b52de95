// Pairs of occurrences that are live and no longer open.

ghost use Rattle.std.specs.Prelude.{◌≡◌, ◌≢◌, ◌↔◌, IsTrue, IfOk, map, true};
ghost use Rattle.std.specs.List.{AllPairs, filter_map};
ghost use Rattle.external_dependencies.specs.declared.links.Link.{Link as LinkValue};
ghost use Rattle.plan_store_soundness.specs.Closed.{HaveNoRing, HaveOwnSlots, IsWithoutRing, closed_pairs, is_closed_pair};
ghost use Rattle.plan_store_soundness.specs.Closed.{is_closed_row};
ghost use Rattle.plan_store_soundness.specs.Closed.{letter, link_of, node_name, slot_at};
ghost use Rattle.plan_store_soundness.specs.Pairs.{at_serial};

use crate::depths::{all_fall, depths};
use crate::pairs::is_closed;
use crate::seats::row_of;
use external_dependencies::{Link, Links, Pair, PlacedRow, find_loop};
use occurrences::Serial;
use std::alloc::{AllocError, Global};
use std::collections::HashSet;
use work_calendars::App;

// An application of which an occurrence may have one predecessor.
#[derive(Clone, Copy, Debug, PartialEq, Eq, Hash)]
struct Slot {
    successor: Serial,
    app: App,
}

// Law: slots are equal only to themselves.
fn slot_equality()
    ensures { (a b : Slot) → (⟦<Slot as PartialEq>⟧.eq a b ≡ true) ↔ (a ≡ b) }
{}

// The slot of the pair's predecessor, if the successor is live and no longer open.
fn slot_of(table: &[Option<PlacedRow>], pair: &Pair) -> Option<Slot>
    ensures { result ≡ slot_at table.now pair.now }
{
    let successor = row_of(table, pair.successor)?;
    let predecessor = row_of(table, pair.predecessor)?;
    if is_closed(successor.place) {
        Some(Slot {
            successor: pair.successor,
            app: predecessor.row.key.app,
        })
    } else {
        None
    }
}

// The slots of the pairs' predecessors.
fn slots_of(
    alloc: Global,
    table: &[Option<PlacedRow>],
    pairs: &[Pair],
) -> Result<Vec<Slot>, AllocError>
    ensures { IfOk result (λ slots. slots.items ≡ filter_map (slot_at table.now) pairs.now) }
{
    pairs
        .iter()
        .filter_map(|pair| slot_of(table, pair))
        .collect(alloc)
}

// Whether no slot appears twice.
fn slots_differ(alloc: Global, slots: &[Slot]) -> Result<bool, AllocError>
    ensures { IfOk result (λ b. IsTrue b ↔ AllPairs (λ x y. x ≢ y) slots.now) }
{
    let distinct: HashSet<Slot> = slots.iter().copied().collect(alloc)?;
    slot_equality();
    Ok(distinct.len() == slots.len())
}

// Whether an occurrence that is live and no longer open has at most one predecessor of each application.
pub(crate) fn have_own_slots(
    alloc: Global,
    table: &[Option<PlacedRow>],
    pairs: &[Pair],
) -> Result<bool, AllocError>
    ensures { IfOk result (λ b. IsTrue b ↔ HaveOwnSlots table.now pairs.now) }
{
    let slots = slots_of(alloc, table, pairs)?;
    slots_differ(alloc, &slots)
}

// Whether the serial has a row that is live and no longer open.
fn is_closed_row(row: &Option<PlacedRow>) -> bool
    ensures { result ≡ is_closed_row row.now }
{
    match row {
        Some(placed) => is_closed(placed.place),
        None => false,
    }
}

// Whether both ends of the pair are so.
fn is_closed_pair(table: &[Option<PlacedRow>], pair: &Pair) -> bool
    ensures { result ≡ is_closed_pair table.now pair.now }
{
    is_closed_row(&row_of(table, pair.successor)) && is_closed_row(&row_of(table, pair.predecessor))
}

// A letter for each remainder of 26.
fn letter(number: u32) -> u8
    ensures { result ≡ letter number }
{
    b'A' + (number % 26) as u8
}

// A name that no other serial has.
fn node_name(serial: Serial) -> App
    ensures { result ≡ node_name serial }
{
    let first = serial.get();
    let second = first / 26;
    let third = second / 26;
    let fourth = third / 26;
    let fifth = fourth / 26;
    let sixth = fifth / 26;
    let letters = [
        letter(first),
        letter(second),
        letter(third),
        letter(fourth),
        letter(fifth),
        letter(sixth),
        b'A' + (sixth / 26) as u8,
    ];
    match std::str::from_utf8(&letters) {
        Ok(text) => match App::from_text(text) {
            Some(name) => name,
            None => unreachable!(),
        },
        Err(_) => unreachable!(),
    }
}

// The pair as a link between the names of its serials.
fn link_of(pair: &Pair) -> Link
    ensures { result ≡ link_of pair.now }
{
    Link {
        app: node_name(pair.successor),
        predecessor: node_name(pair.predecessor),
        within: None,
    }
}

// The pairs both of whose ends are live and no longer open.
fn closed_pairs(
    alloc: Global,
    table: &[Option<PlacedRow>],
    pairs: &[Pair],
) -> Result<Vec<Pair>, AllocError>
    ensures { IfOk result (λ closed. closed.items ≡ closed_pairs table.now pairs.now) }
{
    pairs
        .iter()
        .copied()
        .filter(|pair| is_closed_pair(table, pair))
        .collect(alloc)
}

// The pairs as links.
fn links_of(alloc: Global, pairs: &[Pair]) -> Result<Vec<Link>, AllocError>
    ensures { IfOk result (λ links. links.items ≡ map link_of pairs.now) }
{
    pairs.iter().map(|pair| link_of(pair)).collect(alloc)
}

// Whether these pairs have no ring.
fn is_without_ring(alloc: Global, pairs: &[Pair]) -> Result<bool, AllocError>
    ensures { IfOk result (λ b. IsTrue b ↔ IsWithoutRing pairs.now) }
{
    let links = Links::from_vec(links_of(alloc, pairs)?);
    match find_loop(alloc, &links)? {
        None => Ok(true),
        Some(_) => Ok(false),
    }
}

// Whether such pairs have no ring. If numbers are found that fall along them, no ring is searched for.
pub(crate) fn have_no_ring(
    alloc: Global,
    table: &[Option<PlacedRow>],
    pairs: &[Pair],
) -> Result<bool, AllocError>
    ensures { IfOk result (λ b. IsTrue b ↔ HaveNoRing table.now pairs.now) }
{
    let closed = closed_pairs(alloc, table, pairs)?;
    let depths = depths(alloc, table.len(), &closed)?;
    if all_fall(&depths, &closed) {
        return Ok(true);
    }
    is_without_ring(alloc, &closed)
}
