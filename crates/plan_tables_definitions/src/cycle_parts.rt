// Run cycles of one application, read from their rows and those of their offsets, both without the application.

ghost use Rattle.std.specs.Prelude.{◌≡◌, ◌<◌, ◌^◌, ℕ, ℤ, List, IfOk, IfSome, IsTrue, length};
ghost use Rattle.std.specs.Prelude.{◌↔◌, ⊤, Option};
ghost use Rattle.sqlite.specs.Order.{Row as Values, column};
ghost use Rattle.sqlite.specs.declared.types.Value.TheVariants.{Text};
ghost use Rattle.run_cycles.specs.Offset.{IsOffset};
ghost use Rattle.plan_tables_definitions.specs.CycleParts.{IsPartRow, IsReadPart, IsReadRow, IsSoundPart, offset_tail};
ghost use Rattle.plan_tables_definitions.specs.CycleParts.{part_named, read_part_named};
ghost use Rattle.plan_tables_definitions.specs.DraftedCycles.{IsReadableCycle, told_values};
ghost use Rattle.plan_tables_definitions.specs.declared.decoded_cycles.DecodedCycle.{DecodedCycle as DecodedValue};
ghost use Rattle.plan_tables_definitions.specs.Gathering.{Joins, Within};
ghost use Rattle.plan_tables_definitions.specs.Placed.{IsRowOfList, IsPlaced};

use crate::columns::{integer_at, number_at};
use crate::decoded_cycles::{DecodedCycle, told_at};
use crate::gathering::Draft;
use crate::places::Places;
use run_cycles::Offsets;
use sqlite::types::ValueRef;
use sqlite_value::row::Row;
use std::alloc::{AllocError, Global};
use work_calendars::Name;

/// A run cycle without its name.
#[derive(Drop)]
pub(crate) struct CyclePart {
    /// What its row encodes.
    pub(crate) told: DecodedCycle,
    /// Its offsets.
    pub(crate) offsets: Offsets,
}

// The place and the offset that a row of this run cycle encodes.
fn offset_at(row: &Row, name: &Name) -> Option<(u32, i16)>
    requires { column row.now 0 ≡ Text name.now }
    ensures value { IfSome result (λ e. row.now ≡ offset_tail name.now e.0 e.1) }
    ensures found { (place : ℕ) (k : ℤ) → place < 2 ^ 32 → IsOffset k
        → row.now ≡ offset_tail name.now place k
        → result ≡ Some (place, k) }
{
    if row.len() != 3 {
        return None;
    }
    let place = number_at(row, 1)?;
    let k = i16::try_from(integer_at(row, 2)?).ok()?;
    Some((place, k))
}

// Puts the offset at its place. Returns false if another one is there.
fn list_offset(offsets: &mut Places<i16>, place: usize, k: i16) -> Result<bool, AllocError>
    requires { place < 2 ^ 32 }
    ensures taken { IfOk result (λ b. (name : List ℕ) → IsTrue b
        → Joins (IsPlaced (offset_tail name) offsets.old)
        (offset_tail name place k) (IsPlaced (offset_tail name) offsets.new)) }
    ensures refused { IfOk result (λ b. (d : List ℤ) (name : List ℕ)
        → IsRowOfList (offset_tail name) d (offset_tail name place k)
        → Within (IsPlaced (offset_tail name) offsets.old) (IsRowOfList (offset_tail name) d)
        → IsTrue b) }
{
    match offsets.get(place) {
        Some(other) => Ok(other == k),
        None => {
            offsets.put(place, k)?;
            Ok(true)
        }
    }
}

// Whether the row begins with this name.
fn is_of(row: &Row, name: &Name) -> bool
    ensures { IsTrue result ↔ (column row.now 0 ≡ Text name.now) }
{
    match row.get(0) {
        ValueRef::Text(text) => text == name.as_bytes(),
        _ => false,
    }
}

// Keeps the row. Returns false if another row of the name is kept.
fn keep_row(kept: &mut Row, name: &Name, row: &Row) -> Result<bool, AllocError>
    requires long { length row.now ≡ 9 }
    requires named { column row.now 0 ≡ Text name.now }
    ensures taken { IfOk result (λ b. IsTrue b
        → Joins (IsReadRow name.now kept.old) row.now (IsReadRow name.now kept.new)) }
    ensures refused { IfOk result (λ b. Within (IsReadRow name.now kept.old) (λ v. v ≡ row.now)
        → IsTrue b) }
{
    if kept.len() == 9 && is_of(kept, name) {
        return Ok(kept.is_same(row));
    }
    kept.copy_from(row)?;
    Ok(true)
}

// What the row that was kept encodes.
fn told_of(row: &Row, name: &Name) -> Option<DecodedCycle>
    ensures value { IfSome result (λ t. row.now ≡ told_values name.now t) }
    ensures found { (t : DecodedValue) → IsReadableCycle t → row.now ≡ told_values name.now t
        → result ≡ Some t }
{
    if is_of(row, name) {
        told_at(row, name)
    } else {
        None
    }
}

/// What was decoded of a run cycle so far: its row, if one was read, and its offsets.
#[derive(Drop)]
pub(crate) struct PartDraft {
    row: Row,
    offsets: Places<i16>,
}

impl Draft for PartDraft {
    type Of = CyclePart;

    ghost IsRow = { IsPartRow };

    ghost IsSound = { IsSoundPart };

    ghost IsTold = { λ _. ⊤ };

    ghost IsRead = { λ name x. IsReadPart name x.row x.offsets };

    fn begin(alloc: Global) -> PartDraft {
        PartDraft {
            row: Row::new(alloc),
            offsets: Places::new(alloc),
        }
    }

    fn join(&mut self, name: &Name, row: &Row) -> Result<bool, AllocError> {
        if row.len() == 9 {
            return keep_row(&mut self.row, name, row);
        }
        let Some((place, k)) = offset_at(row, name) else {
            return Ok(false);
        };
        list_offset(&mut self.offsets, place as usize, k)
    }

    fn finish(&self, alloc: Global, name: &Name) -> Result<Option<CyclePart>, AllocError> {
        let Some(told) = told_of(&self.row, name) else {
            return Ok(None);
        };
        let Some(items) = self.offsets.listed(alloc)? else {
            return Ok(None);
        };
        match Offsets::from_vec(items) {
            Some(offsets) => Ok(Some(CyclePart { told, offsets })),
            None => Ok(None),
        }
    }

    ghost named = { part_named };

    ghost read_named = { λ name x v is. read_part_named name x.row x.offsets v is };
}
