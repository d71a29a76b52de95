// Rows of periods.

ghost use Rattle.std.specs.Prelude.{◌≡◌, ◌↔◌, ◌<◌, ◌^◌, ℕ, List, [], ◌∷◌, length, map, IfOk, IfSome, IsSome, IsTrue};
ghost use Rattle.std.specs.Prelude.{OnOk};
ghost use Rattle.sqlite.specs.Order.{column};
ghost use Rattle.sqlite.specs.declared.types.Value.TheVariants.{Text};
ghost use Rattle.work_calendars.specs.Day.{IsDay};
ghost use Rattle.plan_periods.specs.Period.{Entry, IsSoundPeriod};
ghost use Rattle.plan_periods.specs.declared.periods.Period.{Period as PeriodValue};
ghost use Rattle.plan_tables_content.specs.Content.{AreEach, ByName as Defined, HasEntry};
ghost use Rattle.plan_tables_content.specs.Facts.{IsPeriodRow, entry_values};
ghost use Rattle.plan_tables_definitions.specs.Adding.{Adds, HaveOwnKeys, IsOfPlace};
ghost use Rattle.plan_tables_definitions.specs.DraftedPeriods.{AreOfDays, IsOfDays, IsReadable, LetteredEntry};
ghost use Rattle.plan_tables_definitions.specs.DraftedPeriods.{IsSoundPeriodOfDays};
ghost use Rattle.plan_tables_definitions.specs.DraftedPeriods.{entries_of, entry_named, lettered_values, listed_entry};
ghost use Rattle.plan_tables_definitions.specs.DraftedPeriods.{period_named};
ghost use Rattle.plan_tables_definitions.specs.Gathering.{AreSound, Joins, Within};
ghost use Rattle.plan_tables_definitions.specs.Parts.{IsListedRow};
ghost use Rattle.plan_tables_definitions.specs.Placed.{IsRowOfList, IsPlaced};
ghost use Rattle.plan_tables_definitions.specs.Storing.{AreRowsOf};

use crate::cells::{number, optional_day, optional_number, row_of};
use crate::columns::{day_at, letter_at, number_at, optional_number_at};
use crate::encoding::{Encoding, rows_of};
use crate::gathering::{Draft, gathered};
use crate::places::Places;
use app_definitions::{ByName, DefinedPeriod};
use plan_periods::{Origins, Period};
use sqlite::types::ValueRef;
use sqlite_value::row::Row;
use std::alloc::{AllocError, Global};
use work_calendars::{Day, Name};

// The row of a period of intervals one after another.
fn interval_row(
    alloc: Global,
    name: &Name,
    letter: &[u8],
    origin: Day,
    interval: u16,
) -> Result<Row, AllocError>
    ensures { IfOk result (λ row. row ≡ entry_values name.now 0 letter.now origin (Some interval)) }
{
    row_of(
        alloc,
        &[
            ValueRef::Text(name.as_bytes()),
            number(0),
            ValueRef::Text(letter),
            number(origin.number()),
            optional_number(Some(u32::from(interval))),
        ],
    )
}

// The row of an origin of a period that lists them.
fn listed_row(
    alloc: Global,
    name: &Name,
    place: usize,
    entry: &(Day, Option<Day>),
) -> Result<Row, AllocError>
    requires { place < 2 ^ 63 }
    ensures { IfOk result (IsListedRow name.now place entry.now) }
{
    row_of(
        alloc,
        &[
            ValueRef::Text(name.as_bytes()),
            ValueRef::Int(place as i64),
            ValueRef::Text(b"N"),
            number(entry.0.number()),
            optional_day(&entry.1),
        ],
    )
}

// Appends the rows of these origins.
fn push_listed(
    alloc: Global,
    rows: &mut Vec<Row>,
    name: &Name,
    entries: &[(Day, Option<Day>)],
) -> Result<(), AllocError>
    ensures { OnOk result (Adds 2
        (IsOfPlace (IsListedRow name.now) entries.now (length entries.now))
        rows.old.items rows.new.items) }
{
    for place in 0..entries.len() {
        let row = listed_row(alloc, name, place, &entries[place])?;
        rows.push(row)?;
    }
    Ok(())
}

struct PeriodRows;

impl Encoding for PeriodRows {
    type Of = DefinedPeriod;

    ghost IsRow = { IsPeriodRow };

    ghost cells = { 1 };

    ghost named = { period_named };

    fn push(
        alloc: Global,
        rows: &mut Vec<Row>,
        name: &Name,
        definition: &DefinedPeriod,
    ) -> Result<(), AllocError> {
        push_period(alloc, rows, name, definition.period())
    }
}

// Appends the row of the period, or the rows of its origins.
fn push_period(
    alloc: Global,
    rows: &mut Vec<Row>,
    name: &Name,
    period: &Period,
) -> Result<(), AllocError>
    ensures { OnOk result
        (Adds 2 (IsPeriodRow name.now period.now) rows.old.items rows.new.items) }
{
    let row = match period {
        Period::All { origin, interval } => interval_row(alloc, name, b"A", *origin, *interval)?,
        Period::Work { origin, interval } => interval_row(alloc, name, b"W", *origin, *interval)?,
        Period::Listed(origins) => return push_listed(alloc, rows, name, origins.as_slice()),
    };
    rows.push(row)?;
    Ok(())
}

/// The rows of the periods in the table `plan_period`.
pub fn period_rows(alloc: Global, periods: &ByName<DefinedPeriod>) -> Result<Vec<Row>, AllocError>
    ensures rows { IfOk result (λ rows. AreRowsOf IsPeriodRow rows.items periods.now) }
    ensures keys { IfOk result (λ rows. HaveOwnKeys 2 rows.items) }
{
    rows_of::<PeriodRows>(alloc, periods)
}

// An entry of a period as its row encodes it: the letter of the period's type, the origin, and the interval or the
// end.
type Lettered = (u8, Day, Option<u32>);

// The place and the entry that a row of this period encodes.
fn entry_at(row: &Row, name: &Name) -> Option<(u32, Lettered)>
    requires { column row.now 0 ≡ Text name.now }
    ensures value { IfSome result (λ e. row.now ≡ lettered_values name.now e.0 e.1) }
    ensures found { (place : ℕ) (entry : LetteredEntry) → place < 2 ^ 32 → IsReadable entry
        → row.now ≡ lettered_values name.now place entry → result ≡ Some (place, entry) }
{
    if row.len() != 5 {
        return None;
    }
    let place = number_at(row, 1)?;
    let letter = letter_at(row, 2)?;
    let origin = day_at(row, 3)?;
    let second = optional_number_at(row, 4)?;
    Some((place, (letter, origin, second)))
}

fn is_same_number(number: Option<u32>, other: Option<u32>) -> bool
    ensures { IsTrue result ↔ (number ≡ other) }
{
    match (number, other) {
        (Some(number), Some(other)) => number == other,
        (None, None) => true,
        _ => false,
    }
}

fn is_same(entry: &Lettered, other: &Lettered) -> bool
    ensures { IsTrue result ↔ (entry.now ≡ other.now) }
{
    entry.0 == other.0 && entry.1.number() == other.1.number() && is_same_number(entry.2, other.2)
}

// Puts the entry at its place. Returns false if another one is there.
fn list_entry(
    entries: &mut Places<Lettered>,
    place: usize,
    entry: Lettered,
) -> Result<bool, AllocError>
    requires { place < 2 ^ 32 }
    ensures taken { IfOk result (λ b. (name : List ℕ) → IsTrue b
        → Joins (IsPlaced (lettered_values name) entries.old)
        (lettered_values name place entry) (IsPlaced (lettered_values name) entries.new)) }
    ensures refused { IfOk result (λ b. (d : PeriodValue) (name : List ℕ)
        → IsRowOfList (lettered_values name) (entries_of d) (lettered_values name place entry)
        → Within (IsPlaced (lettered_values name) entries.old)
        (IsRowOfList (lettered_values name) (entries_of d))
        → IsTrue b) }
{
    match entries.get(place) {
        Some(other) => Ok(is_same(&other, &entry)),
        None => {
            entries.put(place, entry)?;
            Ok(true)
        }
    }
}

// The origin and the length of the intervals, if these are the one entry of a period of that letter.
fn interval_of(entries: &[Lettered], letter: u8) -> Option<(Day, u16)>
    ensures value { IfSome result (λ r. entries.now ≡ (letter, r.0, Some r.1) ∷ []) }
    ensures found { (origin interval : ℕ) → interval < 2 ^ 16
        → entries.now ≡ (letter, origin, Some interval) ∷ [] → result ≡ Some (origin, interval) }
{
    if entries.len() != 1 || entries[0].0 != letter {
        return None;
    }
    let interval = u16::try_from(entries[0].2?).ok()?;
    Some((entries[0].1, interval))
}

// The origin and its end, or none, if the letter is that of a period that lists them.
fn origin_of(entry: &Lettered) -> Option<(Day, Option<Day>)>
    ensures value { IfSome result (λ e. entry.now ≡ listed_entry e) }
    ensures found { (e : Entry) → IfSome e.1 IsDay → entry.now ≡ listed_entry e → result ≡ Some e }
{
    if entry.0 != b'N' {
        return None;
    }
    match entry.2 {
        Some(number) => match Day::from_number(number) {
            Some(end) => Some((entry.1, Some(end))),
            None => None,
        },
        None => Some((entry.1, None)),
    }
}

// The origins that are listed by these entries.
fn origins_of(
    alloc: Global,
    entries: &[Lettered],
) -> Result<Option<Vec<(Day, Option<Day>)>>, AllocError>
    ensures made { IfOk result (λ found. IfSome found (λ es.
        map listed_entry es.items ≡ entries.now)) }
    ensures found { IfOk result (λ found. (es : List Entry) → AreOfDays es
        → map listed_entry es ≡ entries.now → IsSome found) }
{
    let mut origins = Vec::new(alloc);
    for entry in entries {
        match origin_of(entry) {
            Some(origin) => origins.push(origin)?,
            None => return Ok(None),
        }
    }
    Ok(Some(origins))
}

// The period with these entries.
fn period_of(alloc: Global, entries: &[Lettered]) -> Result<Option<Period>, AllocError>
    ensures made { IfOk result (λ found. IfSome found (λ p. entries_of p ≡ entries.now)) }
    ensures found { IfOk result (λ found. (p : PeriodValue) → IsSoundPeriod p → IsOfDays p
        → entries_of p ≡ entries.now → IsSome found) }
{
    if let Some((origin, interval)) = interval_of(entries, b'A') {
        return Ok(Some(Period::All { origin, interval }));
    }
    if let Some((origin, interval)) = interval_of(entries, b'W') {
        return Ok(Some(Period::Work { origin, interval }));
    }
    match origins_of(alloc, entries)? {
        Some(origins) => Ok(Some(Period::Listed(Origins::new(origins)))),
        None => Ok(None),
    }
}

// The same, if it has no fault.
fn defined_of(alloc: Global, entries: &[Lettered]) -> Result<Option<DefinedPeriod>, AllocError>
    ensures made { IfOk result (λ found. IfSome found (λ p. entries_of p ≡ entries.now)) }
    ensures found { IfOk result (λ found. (p : PeriodValue) → IsSoundPeriod p → IsOfDays p
        → entries_of p ≡ entries.now → IsSome found) }
{
    match period_of(alloc, entries)? {
        Some(period) => Ok(DefinedPeriod::from_period(period).ok()),
        None => Ok(None),
    }
}

// The entries that the rows encode.
#[derive(Drop)]
struct PeriodDraft {
    entries: Places<Lettered>,
}

impl Draft for PeriodDraft {
    type Of = DefinedPeriod;

    ghost IsRow = { IsPeriodRow };

    ghost IsSound = { IsSoundPeriodOfDays };

    ghost IsTold = { HasEntry };

    ghost IsRead = { λ name x. IsPlaced (lettered_values name) x.entries };

    fn begin(alloc: Global) -> PeriodDraft {
        PeriodDraft {
            entries: Places::new(alloc),
        }
    }

    fn join(&mut self, name: &Name, row: &Row) -> Result<bool, AllocError> {
        let Some((place, entry)) = entry_at(row, name) else {
            return Ok(false);
        };
        list_entry(&mut self.entries, place as usize, entry)
    }

    fn finish(&self, alloc: Global, _name: &Name) -> Result<Option<DefinedPeriod>, AllocError> {
        match self.entries.listed(alloc)? {
            Some(entries) => defined_of(alloc, &entries),
            None => Ok(None),
        }
    }

    ghost named = { period_named };

    ghost read_named = { λ name x v is. entry_named name x.entries v is };
}

/// The periods that have exactly these rows, or none where no sound ones have.
pub(crate) fn read_periods(
    alloc: Global,
    rows: &[Row],
) -> Result<Option<ByName<DefinedPeriod>>, AllocError>
    ensures made { IfOk result (λ found. IfSome found (AreRowsOf IsPeriodRow rows.now)) }
    ensures told { IfOk result (λ found. IfSome found (AreEach HasEntry)) }
    ensures found { IfOk result (λ found. (all : Defined PeriodValue)
        → AreSound IsSoundPeriodOfDays all
        → AreRowsOf IsPeriodRow rows.now all → IsSome found) }
{
    gathered::<PeriodDraft>(alloc, rows)
}
