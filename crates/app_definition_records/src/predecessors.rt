// The predecessors of applications.

ghost use Rattle.std.specs.Prelude.{◌≡◌, ◌↔◌, ◌<◌, [], ◌∷◌, length, IsTrue, IsSome, IfSome, IfOk};
ghost use Rattle.std.specs.Prelude.{IfErr};
ghost use Rattle.std.specs.List.{HoldsAt};
ghost use Rattle.csv.specs.Records.{fields_of};
ghost use Rattle.app_definition_records.specs.FieldCounts.{HasPredecessorFields};
ghost use Rattle.app_definition_records.specs.Fields.{IsEmptyOr};
ghost use Rattle.app_definition_records.specs.Predecessors.{ArePredecessorsOf, FitsPredecessors, IsPredecessorRecord};
ghost use Rattle.app_definition_records.specs.Predecessors.{IsWithinText, predecessor_of, within_of};
ghost use Rattle.app_definition_records.specs.Rising.{AreRising, IsPlaceFor};

use crate::by_name::Definition;
use crate::columns::{
    LIMITED_PREDECESSOR_FIELDS, PREDECESSOR, PREDECESSOR_FIELDS, PREDECESSOR_WITHIN,
};
use crate::fields::{field_at, name_of, number_of};
use csv::ByteRecord;
use std::alloc::{AllocError, Global};
use std::marker::Model;
use work_calendars::{MAX_WITHIN, Name, Within};

/// A predecessor in the list of an application.
#[derive(Clone, Copy, Debug, PartialEq, Eq, Hash)]
pub struct Predecessor {
    /// The application that the list names.
    pub name: Name,
    /// The most hours from its arrival to that of the occurrence that follows it; `None` where there is no limit.
    pub within: Option<Within>,
}

/// The predecessors of an application in byte order of their names, no two of one name. Contracts see the list.
#[derive(Drop)]
pub struct Predecessors {
    listed: Vec<Predecessor>,
}

impl Model for Predecessors {
    ghost use Rattle.std.specs.Prelude.{List};
    ghost use Rattle.app_definition_records.specs.Rising.{AreRising};
    ghost use Rattle.app_definition_records.specs.declared.predecessors.Predecessor.{Predecessor as PredecessorValue};

    ghost Value = { List PredecessorValue };

    ghost view = { λ p. p.listed.items };

    ghost invariant = { λ p. AreRising (λ listed. listed.name) p.listed.items };
}

impl Predecessors {
    /// These predecessors, or none where they aren't in byte order of their names, no two of one name.
    pub fn from_vec(listed: Vec<Predecessor>) -> Option<Predecessors>
        ensures valid { IsSome result ↔ AreRising (λ p. p.name) listed.items }
        ensures value { IfSome result (λ p. p ≡ listed.items) }
    {
        if !is_rising(&listed) {
            return None;
        }
        Some(Predecessors { listed })
    }

    /// The predecessors as a vector.
    pub fn into_vec(self) -> Vec<Predecessor>
        ensures { result.items ≡ self }
    {
        self.listed
    }

    /// The predecessors, in byte order of their names, no two of one name.
    pub fn as_slice(&self) -> &[Predecessor]
        ensures value { result.now ≡ self.now }
        ensures rising { AreRising (λ p. p.name) result.now }
    {
        &self.listed
    }
}

impl Clone for Predecessors {
    ghost is_clone = { λ old new. new ≡ old };

    fn clone(&self) -> Result<Predecessors, AllocError> {
        Ok(Predecessors {
            listed: self.listed.clone()?,
        })
    }
}

// Whether the names are in byte order, each once.
fn is_rising(listed: &[Predecessor]) -> bool
    ensures { IsTrue result ↔ AreRising (λ p. p.name) listed.now }
{
    for i in 1..listed.len() {
        if listed[i - 1].name >= listed[i].name {
            return false;
        }
    }
    true
}

// The place of this name, or else the place where it would be inserted.
fn place_of(listed: &[Predecessor], name: &Name) -> Result<usize, usize>
    requires { AreRising (λ p. p.name) listed.now }
    ensures found { IfOk result (λ k. (k < length listed.now)
        × HoldsAt (λ p. p.name ≡ name.now) listed.now k) }
    ensures free { IfErr result (IsPlaceFor (λ p. p.name) listed.now name.now) }
{
    listed.binary_search_by_key(name, |listed| listed.name)
}

// The limit that these bytes spell, or no limit where there are none.
fn limit_of(bytes: &[u8]) -> Option<Option<Within>>
    ensures valid { IsSome result ↔ IsEmptyOr IsWithinText bytes.now }
    ensures value { IfSome result (λ o. o ≡ within_of bytes.now) }
{
    if bytes.is_empty() {
        return Some(None);
    }
    let hours = number_of(bytes, MAX_WITHIN)?;
    Some(Some(Within::from_hours(hours as u32)?))
}

// The predecessor that a record gives, or none where its name or its limit is faulty.
fn predecessor_of(row: &ByteRecord) -> Option<Predecessor>
    ensures valid { IsSome result ↔ IsPredecessorRecord (fields_of row.now) }
    ensures value { IfSome result (λ p. p ≡ predecessor_of (fields_of row.now)) }
{
    let name = name_of(field_at(row, PREDECESSOR))?;
    let within = limit_of(field_at(row, PREDECESSOR_WITHIN))?;
    Some(Predecessor { name, within })
}

// The one predecessor.
fn only(alloc: Global, predecessor: Predecessor) -> Result<Predecessors, AllocError>
    ensures { IfOk result (λ p. p ≡ predecessor ∷ []) }
{
    let listed = vec![in alloc; predecessor]?;
    Ok(Predecessors { listed })
}

impl Definition for Predecessors {
    ghost HasFields = { HasPredecessorFields };

    ghost FitsName = { FitsPredecessors };

    ghost IsMadeOf = { ArePredecessorsOf };

    fn has_fields(count: usize) -> bool {
        count == PREDECESSOR_FIELDS || count == LIMITED_PREDECESSOR_FIELDS
    }

    fn begin(alloc: Global, row: &ByteRecord) -> Result<Option<Predecessors>, AllocError> {
        match predecessor_of(row) {
            Some(predecessor) => Ok(Some(only(alloc, predecessor)?)),
            None => Ok(None),
        }
    }

    fn copy(&self) -> Result<Predecessors, AllocError> {
        self.clone()
    }

    fn join(&mut self, row: &ByteRecord) -> Result<bool, AllocError> {
        let Some(predecessor) = predecessor_of(row) else {
            return Ok(false);
        };
        match place_of(&self.listed, &predecessor.name) {
            Ok(_) => Ok(false),
            Err(place) => {
                self.listed.insert(place, predecessor)?;
                Ok(true)
            }
        }
    }
}
