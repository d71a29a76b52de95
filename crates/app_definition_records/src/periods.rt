// Periods.

ghost use Rattle.std.specs.Prelude.{◌≡◌, ◌↔◌, ◌≤◌, [], ◌∷◌, ◌++◌, Option, IsTrue, IsSome, IfSome};
ghost use Rattle.std.specs.Prelude.{IsOk, IfOk, IfErr, OnErr, false};
ghost use Rattle.csv.specs.Records.{fields_of};
ghost use Rattle.plan_periods.specs.Fault.{IsLeastFault};
ghost use Rattle.plan_periods.specs.Period.{Entry, IsSoundPeriod};
ghost use Rattle.work_calendars.specs.Spelling.{SpellsDay};
ghost use Rattle.app_definition_records.specs.Fields.{field, number_value, IsDayText};
ghost use Rattle.app_definition_records.specs.Periods.{FitsPeriod, IsPeriodOf, GivesEntry, HasInterval, IsLater};
ghost use Rattle.app_definition_records.specs.FieldCounts.{HasPeriodFields};
ghost use Rattle.app_definition_records.specs.declared.columns.TheConstants.{PERIOD_ORIGIN, PERIOD_LENGTH};

use crate::by_name::Definition;
use crate::columns::{NAME, PERIOD_FIELDS, PERIOD_LENGTH, PERIOD_ORIGIN, PERIOD_TYPE};
use crate::fields::{day_of, field_at, number_of, optional_day_of, short_of};
use csv::ByteRecord;
use plan_periods::{MAX_INTERVAL, Origins, Period, PeriodFault};
use std::alloc::{AllocError, Global};
use std::marker::Model;
use work_calendars::Day;

/// A period without a fault. Contracts see the period.
#[derive(Drop)]
pub struct DefinedPeriod {
    period: Period,
}

impl Model for DefinedPeriod {
    ghost use Rattle.plan_periods.specs.declared.periods.Period.{Period};
    ghost use Rattle.plan_periods.specs.contracts.periods.Period as contract;
    ghost use Rattle.plan_periods.specs.Period.{IsSoundPeriod};

    ghost Value = { Period };

    ghost coded = { contract.the_row.coded };

    ghost view = { λ p. p.period };

    ghost invariant = { λ p. IsSoundPeriod p.period };
}

impl DefinedPeriod {
    /// The period, or its fault of least number.
    pub fn from_period(period: Period) -> Result<DefinedPeriod, PeriodFault>
        ensures valid { IsOk result ↔ IsSoundPeriod period }
        ensures value { IfOk result (λ p. p ≡ period) }
        ensures fault { IfErr result (IsLeastFault period) }
    {
        period.check()?;
        Ok(DefinedPeriod { period })
    }

    /// The period.
    pub fn period(&self) -> &Period
        ensures value { result.now ≡ self.now }
        ensures sound { IsSoundPeriod result.now }
    {
        &self.period
    }
}

impl Clone for DefinedPeriod {
    ghost is_clone = { λ old new. new ≡ old };

    fn clone(&self) -> Result<DefinedPeriod, AllocError> {
        Ok(DefinedPeriod {
            period: self.period.clone()?,
        })
    }
}

// The origin and the interval that a record of type A or W gives.
fn interval_of(row: &ByteRecord) -> Option<(Day, u16)>
    ensures valid { IsSome result
        ↔ (IsDayText (field (fields_of row.now) PERIOD_ORIGIN) × HasInterval (fields_of row.now)) }
    ensures origin { IfSome result (λ p. SpellsDay (field (fields_of row.now) PERIOD_ORIGIN) p.0) }
    ensures interval { IfSome result (λ p. p.1
        ≡ number_value (field (fields_of row.now) PERIOD_LENGTH)) }
    ensures in_range { IfSome result (λ p. (1 ≤ p.1) × (p.1 ≤ MAX_INTERVAL)) }
{
    let origin = day_of(field_at(row, PERIOD_ORIGIN))?;
    let interval = number_of(field_at(row, PERIOD_LENGTH), MAX_INTERVAL)?;
    if interval < 1 {
        return None;
    }
    Some((origin, interval))
}

// Whether the end, if there is one, is the origin or later.
fn ends_from(origin: Day, end: &Option<Day>) -> bool
    ensures { IsTrue result ↔ IfSome end.now (λ last. origin ≤ last) }
{
    match end {
        Some(last) => origin.number() <= last.number(),
        None => true,
    }
}

// The origin and the end, or none, that a record of type N gives.
fn entry_of(row: &ByteRecord) -> Option<(Day, Option<Day>)>
    ensures valid { IsSome result ↔ ((e : Entry) × GivesEntry (fields_of row.now) e) }
    ensures value { IfSome result (GivesEntry (fields_of row.now)) }
{
    let origin = day_of(field_at(row, PERIOD_ORIGIN))?;
    let end = optional_day_of(field_at(row, PERIOD_LENGTH))?;
    if ends_from(origin, &end) {
        Some((origin, end))
    } else {
        None
    }
}

impl Definition for DefinedPeriod {
    ghost HasFields = { HasPeriodFields };

    ghost FitsName = { FitsPeriod };

    ghost IsMadeOf = { IsPeriodOf };

    fn has_fields(count: usize) -> bool {
        count == PERIOD_FIELDS
    }

    fn begin(alloc: Global, row: &ByteRecord) -> Result<Option<DefinedPeriod>, AllocError> {
        if short_of(field_at(row, NAME)).is_none() {
            return Ok(None);
        }
        match field_at(row, PERIOD_TYPE) {
            b"A" => match interval_of(row) {
                Some((origin, interval)) => Ok(Some(DefinedPeriod {
                    period: Period::All { origin, interval },
                })),
                None => Ok(None),
            },
            b"W" => match interval_of(row) {
                Some((origin, interval)) => Ok(Some(DefinedPeriod {
                    period: Period::Work { origin, interval },
                })),
                None => Ok(None),
            },
            b"N" => match entry_of(row) {
                Some(entry) => Ok(Some(DefinedPeriod {
                    period: Period::Listed(origins_of(alloc, entry)?),
                })),
                None => Ok(None),
            },
            _ => Ok(None),
        }
    }

    fn copy(&self) -> Result<DefinedPeriod, AllocError> {
        self.clone()
    }

    fn join(&mut self, row: &ByteRecord) -> Result<bool, AllocError> {
        if field_at(row, PERIOD_TYPE) != b"N".as_slice() {
            return Ok(false);
        }
        let Some(entry) = entry_of(row) else {
            return Ok(false);
        };
        let Period::Listed(origins) = &mut self.period else {
            return Ok(false);
        };
        push_later(origins, entry)
    }
}

// The one origin, with its end or none.
fn origins_of(alloc: Global, entry: (Day, Option<Day>)) -> Result<Origins, AllocError>
    ensures { IfOk result (λ origins. origins ≡ entry ∷ []) }
{
    let mut entries = Vec::new(alloc);
    entries.push(entry)?;
    Ok(Origins::new(entries))
}

// Whether the entry's origin is later than that of the last of these.
fn is_later(entries: &[(Day, Option<Day>)], entry: &(Day, Option<Day>)) -> bool
    ensures { IsTrue result ↔ IsLater entries.now entry.now }
{
    if entries.is_empty() {
        return true;
    }
    entries[entries.len() - 1].0.number() < entry.0.number()
}

// Appends the entry, unless its origin isn't later than those of the others.
fn push_later(origins: &mut Origins, entry: (Day, Option<Day>)) -> Result<bool, AllocError>
    ensures later { IfOk result (λ taken. IsTrue taken ↔ IsLater origins.old entry) }
    ensures pushed { IfOk result (λ taken. IsTrue taken → origins.new ≡ origins.old ++ entry ∷ []) }
    ensures refused { IfOk result (λ taken. taken ≡ false → origins.new ≡ origins.old) }
    ensures err { OnErr result (origins.new ≡ origins.old) }
{
    if !is_later(origins.as_slice(), &entry) {
        return Ok(false);
    }
    origins.push(entry)?;
    Ok(true)
}
