// Run cycles.

ghost use Rattle.std.specs.Prelude.{◌≡◌, ◌↔◌, ◌<◌, ◌≤ℤ◌, pos, List, ℤ, map, length, IsTrue, IsSome};
ghost use Rattle.std.specs.Prelude.{IfSome, IfOk, IfErr};
ghost use Rattle.std.specs.List.{HoldsAt};
ghost use Rattle.csv.specs.Records.{fields_of};
ghost use Rattle.run_cycles.specs.declared.offsets.TheConstants.{MAX_OFFSET};
ghost use Rattle.run_cycles.specs.declared.cycles.Deadline.{Deadline as DeadlineValue};
ghost use Rattle.run_cycles.specs.declared.cycles.CycleType.{CycleType as CycleTypeValue};
ghost use Rattle.run_cycles.specs.declared.rules.Rule.{Rule as RuleValue};
ghost use Rattle.app_definition_records.specs.Fields.{field, number_value};
ghost use Rattle.app_definition_records.specs.CycleRecords.{rule_text, IsDistanceText, IsOffsetText, offset_value};
ghost use Rattle.app_definition_records.specs.CycleRecords.{pieces_of, SpellsOffsets, SpellsDeadline, SpellsType};
ghost use Rattle.app_definition_records.specs.CycleRecords.{SpellsRunCycle, IsRunCycleText, FitsRunCycle, AreRunCyclesOf};
ghost use Rattle.app_definition_records.specs.Rising.{AreRising, IsPlaceFor};
ghost use Rattle.app_definition_records.specs.declared.columns.TheConstants.{CYCLE_OFFSETS};
ghost use Rattle.app_definition_records.specs.FieldCounts.{HasCycleFields};

use crate::by_name::Definition;
use crate::columns::{
    CYCLE_DEADLINE_DAY, CYCLE_DEADLINE_TIME, CYCLE_FIELDS, CYCLE_IA, CYCLE_IN_EFFECT, CYCLE_NAME,
    CYCLE_OFFSETS, CYCLE_OUT_EFFECT, CYCLE_PERIOD, CYCLE_RULE, CYCLE_TYPE,
};
use crate::fields::{day_of, field_at, minute_of, number_of, optional_day_of, short_of};
use csv::ByteRecord;
use run_cycles::{CycleType, Deadline, MAX_DEADLINE_DAYS, MAX_OFFSET, Offsets, Rule, RunCycle};
use std::alloc::{AllocError, Global};
use std::marker::Model;
use work_calendars::Short;

/// The run cycles of an application in byte order of their names, no two of one name. Contracts see the list.
#[derive(Drop)]
pub struct RunCycles {
    cycles: Vec<RunCycle>,
}

impl Model for RunCycles {
    ghost use Rattle.std.specs.Prelude.{List};
    ghost use Rattle.run_cycles.specs.declared.cycles.RunCycle.{RunCycle as RunCycleValue};
    ghost use Rattle.app_definition_records.specs.Rising.{AreRising};

    ghost Value = { List RunCycleValue };

    ghost view = { λ r. r.cycles.items };

    ghost invariant = { λ r. AreRising (λ cycle. cycle.name) r.cycles.items };
}

impl RunCycles {
    ghost use Rattle.run_cycles.specs.Occurrence.{HaveOwnNames};
    ghost use Rattle.app_definition_records.specs.Rising.{AreRising};

    /// These run cycles, or none where they aren't in byte order of their names, no two of one name.
    pub fn from_vec(cycles: Vec<RunCycle>) -> Option<RunCycles>
        ensures valid { IsSome result ↔ AreRising (λ cycle. cycle.name) cycles.items }
        ensures value { IfSome result (λ r. r ≡ cycles.items) }
    {
        if !is_rising(&cycles) {
            return None;
        }
        Some(RunCycles { cycles })
    }

    /// The run cycles as a vector.
    pub fn into_vec(self) -> Vec<RunCycle>
        ensures { result.items ≡ self }
    {
        self.cycles
    }

    /// The run cycles, in byte order of their names, no two of one name.
    pub fn as_slice(&self) -> &[RunCycle]
        ensures value { result.now ≡ self.now }
        ensures rising { AreRising (λ cycle. cycle.name) result.now }
        ensures own_names { HaveOwnNames result.now }
    {
        &self.cycles
    }
}

impl Clone for RunCycles {
    ghost is_clone = { λ old new. new ≡ old };

    fn clone(&self) -> Result<RunCycles, AllocError> {
        Ok(RunCycles {
            cycles: self.cycles.clone()?,
        })
    }
}

// The distance from 0 that these digits spell.
fn distance_of(digits: &[u8]) -> Option<i16>
    ensures valid { IsSome result ↔ IsDistanceText digits.now }
    ensures value { IfSome result (λ k. k ≡ pos (number_value digits.now)) }
    ensures within { IfSome result (λ k. k ≤ℤ pos MAX_OFFSET) }
{
    let distance = number_of(digits, MAX_OFFSET)?;
    if distance == 0 {
        return None;
    }
    Some(distance as i16)
}

// The offset that these bytes spell.
fn offset_of(bytes: &[u8]) -> Option<i16>
    ensures valid { IsSome result ↔ IsOffsetText bytes.now }
    ensures value { IfSome result (λ k. k ≡ offset_value bytes.now) }
{
    match bytes {
        [b'-', digits @ ..] => Some(-distance_of(digits)?),
        _ => distance_of(bytes),
    }
}

// The pieces between the blanks of a text.
fn cut(alloc: Global, bytes: &[u8]) -> Result<Vec<&[u8]>, AllocError>
    ensures { IfOk result (λ v. map (λ piece. piece.now) v.items ≡ pieces_of bytes.now) }
{
    bytes.split(|byte| *byte == b' ').collect(alloc)
}

// The offsets that these bytes spell, separated by one blank each.
fn offsets_of(alloc: Global, bytes: &[u8]) -> Result<Option<Offsets>, AllocError>
    ensures valid { IfOk result (λ o. IsSome o ↔ ((ks : List ℤ) × SpellsOffsets bytes.now ks)) }
    ensures value { IfOk result (λ o. IfSome o (SpellsOffsets bytes.now)) }
{
    let pieces = cut(alloc, bytes)?;
    let mut items = Vec::new(alloc);
    for piece in &pieces {
        match offset_of(piece) {
            Some(offset) => items.push(offset)?,
            None => return Ok(None),
        }
    }
    Ok(Offsets::from_vec(items))
}

// The rule that this letter names.
fn rule_of(letter: &[u8]) -> Option<Rule>
    ensures valid { IsSome result ↔ ((rule : RuleValue) × (letter.now ≡ rule_text rule)) }
    ensures value { IfSome result (λ rule. letter.now ≡ rule_text rule) }
{
    match letter {
        b"E" => Some(Rule::WorkDaysOnly),
        b"1" => Some(Rule::Before),
        b"2" => Some(Rule::After),
        b"3" => Some(Rule::Same),
        b"4" => Some(Rule::Skip),
        _ => None,
    }
}

// The deadline that these two fields spell.
fn deadline_of(day: &[u8], time: &[u8]) -> Option<Deadline>
    ensures valid { IsSome result ↔ ((deadline : DeadlineValue)
        × SpellsDeadline day.now time.now deadline) }
    ensures value { IfSome result (SpellsDeadline day.now time.now) }
{
    let days = number_of(day, MAX_DEADLINE_DAYS as u16)? as u8;
    let time = minute_of(time)?;
    Some(Deadline { days, time })
}

// The type that this letter and the two fields of the deadline spell.
fn type_of(letter: &[u8], day: &[u8], time: &[u8]) -> Option<CycleType>
    ensures valid { IsSome result ↔ ((kind : CycleTypeValue)
        × SpellsType letter.now day.now time.now kind) }
    ensures value { IfSome result (SpellsType letter.now day.now time.now) }
{
    match letter {
        b"N" => Some(CycleType::Normal(deadline_of(day, time)?)),
        b"X" if day.is_empty() && time.is_empty() => Some(CycleType::Negative(None)),
        b"X" => Some(CycleType::Negative(Some(deadline_of(day, time)?))),
        _ => None,
    }
}

// The run cycle that a record spells, with the offsets that it spells.
fn run_cycle_with(row: &ByteRecord, offsets: Offsets) -> Option<RunCycle>
    requires { SpellsOffsets (field (fields_of row.now) CYCLE_OFFSETS) offsets }
    ensures valid { IsSome result ↔ IsRunCycleText (fields_of row.now) }
    ensures value { IfSome result (SpellsRunCycle (fields_of row.now)) }
{
    let name = short_of(field_at(row, CYCLE_NAME))?;
    let kind = type_of(
        field_at(row, CYCLE_TYPE),
        field_at(row, CYCLE_DEADLINE_DAY),
        field_at(row, CYCLE_DEADLINE_TIME),
    )?;
    let period = short_of(field_at(row, CYCLE_PERIOD))?;
    let rule = rule_of(field_at(row, CYCLE_RULE))?;
    let in_effect = day_of(field_at(row, CYCLE_IN_EFFECT))?;
    let out_effect = optional_day_of(field_at(row, CYCLE_OUT_EFFECT))?;
    let ia = minute_of(field_at(row, CYCLE_IA))?;
    Some(RunCycle {
        name,
        kind,
        period,
        rule,
        offsets,
        in_effect,
        out_effect,
        ia,
    })
}

// The run cycle that a record spells, or none where it spells none.
fn run_cycle_of(alloc: Global, row: &ByteRecord) -> Result<Option<RunCycle>, AllocError>
    ensures valid { IfOk result (λ c. IsSome c ↔ IsRunCycleText (fields_of row.now)) }
    ensures value { IfOk result (λ c. IfSome c (SpellsRunCycle (fields_of row.now))) }
{
    let Some(offsets) = offsets_of(alloc, field_at(row, CYCLE_OFFSETS))? else {
        return Ok(None);
    };
    Ok(run_cycle_with(row, offsets))
}

// Whether the run cycles are in byte order of their names, no two of one name.
fn is_rising(cycles: &[RunCycle]) -> bool
    ensures { IsTrue result ↔ AreRising (λ cycle. cycle.name) cycles.now }
{
    for i in 1..cycles.len() {
        if cycles[i - 1].name >= cycles[i].name {
            return false;
        }
    }
    true
}

// The place of the run cycle of this name, or else the place where one of this name would be inserted.
fn place_of(cycles: &[RunCycle], name: &Short) -> Result<usize, usize>
    requires { AreRising (λ cycle. cycle.name) cycles.now }
    ensures found { IfOk result (λ k. (k < length cycles.now)
        × HoldsAt (λ cycle. cycle.name ≡ name.now) cycles.now k) }
    ensures free { IfErr result (IsPlaceFor (λ cycle. cycle.name) cycles.now name.now) }
{
    cycles.binary_search_by_key(name, |cycle| cycle.name)
}

impl Definition for RunCycles {
    ghost HasFields = { HasCycleFields };

    ghost FitsName = { FitsRunCycle };

    ghost IsMadeOf = { AreRunCyclesOf };

    fn has_fields(count: usize) -> bool {
        count == CYCLE_FIELDS
    }

    fn begin(alloc: Global, row: &ByteRecord) -> Result<Option<RunCycles>, AllocError> {
        let Some(cycle) = run_cycle_of(alloc, row)? else {
            return Ok(None);
        };
        let mut cycles = Vec::new(alloc);
        cycles.push(cycle)?;
        Ok(Some(RunCycles { cycles }))
    }

    fn copy(&self) -> Result<RunCycles, AllocError> {
        self.clone()
    }

    fn join(&mut self, row: &ByteRecord) -> Result<bool, AllocError> {
        let alloc = *self.cycles.allocator();
        let Some(cycle) = run_cycle_of(alloc, row)? else {
            return Ok(false);
        };
        match place_of(&self.cycles, &cycle.name) {
            Ok(_) => Ok(false),
            Err(place) => {
                self.cycles.insert(place, cycle)?;
                Ok(true)
            }
        }
    }
}
