// Definitions by name.

ghost use Rattle.std.specs.Prelude.{◌≡◌, ◌≢◌, ◌↔◌, ℕ, [], length, IsTrue, IsSome, IfOk, OnOk, OnErr};
ghost use Rattle.std.specs.Prelude.{IfSome};
ghost use Rattle.std.specs.Option.{option_copied};
ghost use Rattle.std.specs.FinMap as map;
ghost use Rattle.csv.specs.Records.{fields_of};
ghost use Rattle.app_definition_records.specs.ByName.{AreEntriesOf, AreGivenBy, AreNamesOf, Begins, FitsKind, HaveOwnNames};
ghost use Rattle.app_definition_records.specs.ByName.{IsAsLong, Joins, overlaid};
ghost use Rattle.app_definition_records.specs.ByName.{AllStand, replaced, restored, with_one};
ghost use Rattle.app_definition_records.specs.Rising.{AreRising};
ghost use Rattle.app_definition_records.specs.Records.{Record, Records};

use crate::columns::NAME;
use crate::fields::{field_at, name_of};
use csv::ByteRecord;
use indexmap::IndexMap;
use indexmap::map::Iter;
use std::alloc::{AllocError, Global};
use std::marker::Model;
use work_calendars::Name;

/// A definition of one name, which one record begins and further ones may join.
pub trait Definition: Drop {
    /// A record of this kind may have so many fields.
    ghost HasFields: { ℕ → Type 0 };

    /// A record is good after the earlier records about its name.
    ghost FitsName: { Records → Record → Type 0 };

    /// The definition is the one that these records make.
    ghost IsMadeOf: { Self → Records → Type 0 };

    /// Whether a record may have so many fields.
    fn has_fields(count: usize) -> bool
        ensures { IsTrue result ↔ HasFields count };

    /// The definition that the first record about a name begins, or none where the record is faulty.
    fn begin(alloc: Global, row: &ByteRecord) -> Result<Option<Self>, AllocError>
        requires { HasFields (length (fields_of row.now)) }
        ensures { IfOk result (Begins FitsName IsMadeOf (fields_of row.now)) };

    /// An owned copy.
    fn copy(&self) -> Result<Self, AllocError>
        ensures copied { IfOk result (λ d. d ≡ self.now) };

    /// Adds a further record about the name, or returns that it is faulty.
    fn join(&mut self, row: &ByteRecord) -> Result<bool, AllocError>
        requires { HasFields (length (fields_of row.now)) }
        ensures { (before : Records) → before ≢ [] → IsMadeOf self.old before
            → IfOk result (Joins FitsName IsMadeOf before (fields_of row.now) self.new) };
}

/// Definitions of one kind by name. Contracts see the map from names to definitions.
#[derive(Drop)]
pub struct ByName<D> {
    by_name: IndexMap<Name, D>,
}

impl<D> Model for ByName<D> {
    ghost use Rattle.std.specs.Ordering.{nat_cmp};
    ghost use Rattle.std.specs.Cmp.Lexicographic.{slice_cmp};
    ghost use Rattle.std.specs.FinMap as map;
    ghost use Rattle.std.specs.Coded.{coded_ℕ, coded_list};

    ghost Value = { map.FinMap (slice_cmp nat_cmp) D };

    ghost coded = { map.code (coded_list coded_ℕ) D.code };

    ghost view = { λ a. map.from_entries a.by_name.entries };
}

impl<D> ByName<D> {
    /// No definitions.
    pub fn new(alloc: Global) -> Self
        ensures { result ≡ map.empty }
    {
        ByName {
            by_name: IndexMap::new(alloc),
        }
    }

    /// The definitions with these names, or none where two have one name.
    pub fn from_vec(alloc: Global, entries: Vec<(Name, D)>) -> Result<Option<ByName<D>>, AllocError>
    where
        D: Drop,
        ensures valid { IfOk result (λ made. IsSome made ↔ HaveOwnNames entries.items) }
        ensures value { IfOk result (λ made. IfSome made (AreEntriesOf entries.items)) }
    {
        let mut by_name = IndexMap::new(alloc);
        for (name, definition) in entries {
            if by_name.insert(name, definition)?.is_some() {
                return Ok(None);
            }
        }
        Ok(Some(ByName { by_name }))
    }

    /// The definitions with their names, in byte order of these.
    pub fn into_vec(mut self, alloc: Global) -> Result<Vec<(Name, D)>, AllocError>
    where
        D: Drop,
        ensures entries { IfOk result (λ entries. AreEntriesOf entries.items self) }
        ensures rising { IfOk result (λ entries. AreRising (λ entry. entry.0) entries.items) }
    {
        self.by_name.sort_unstable_keys()?;
        self.by_name.into_iter().collect(alloc)
    }

    /// The definition of this name.
    pub fn get(&self, name: &Name) -> Option<&D>
        ensures { option_copied result ≡ map.get self.now name.now }
    {
        self.by_name.get(name)
    }

    /// Puts the definition under the name, in place of the one that is there.
    pub fn insert(&mut self, name: Name, definition: D) -> Result<(), AllocError>
    where
        D: Drop,
        ensures ok { OnOk result (self.new ≡ map.insert self.old name definition) }
        ensures err { OnErr result (self.new ≡ self.old) }
    {
        let _replaced = self.by_name.insert(name, definition)?;
        Ok(())
    }

    /// The definitions with their names, in no order.
    pub fn iter(&self) -> Iter<'_, Name, D>
        ensures { AreEntriesOf result self.now }
    {
        self.by_name.iter()
    }

    /// The names that have a definition, in byte order, each once.
    pub fn names(&self, alloc: Global) -> Result<Vec<Name>, AllocError>
        ensures { IfOk result (λ names. AreNamesOf names.items self.now) }
    {
        let mut names = Vec::new(alloc);
        for (name, _definition) in self.iter() {
            names.push(*name)?;
        }
        names.sort_unstable();
        Ok(names)
    }

    /// How many names have a definition.
    pub fn len(&self) -> usize
        ensures { result ≡ map.len self.now }
    {
        self.by_name.len()
    }

    /// Merges another map: its definitions replace those of the same names. Returns how many it has.
    pub fn append(&mut self, mut more: ByName<D>) -> Result<usize, AllocError>
    where
        D: Drop,
        ensures ok { OnOk result (self.new ≡ overlaid self.old more) }
        ensures counted { IfOk result (λ n. n ≡ map.len more) }
        ensures err { OnErr result (self.new ≡ self.old) }
    {
        let count = more.by_name.len();
        self.by_name.append(&mut more.by_name)?;
        Ok(count)
    }

    /// Removes the definition of this name, and returns whether there was one.
    pub fn remove(&mut self, name: &Name) -> bool
    where
        D: Drop,
        ensures found { IsTrue result ↔ IsSome (map.get self.old name.now) }
        ensures removed { self.new ≡ map.remove self.old name.now }
    {
        self.by_name.swap_remove(name).is_some()
    }
}

impl<D: Definition> Clone for ByName<D> {
    ghost is_clone = { λ old new. new ≡ old };

    fn clone(&self) -> Result<ByName<D>, AllocError> {
        let mut by_name = IndexMap::new(*self.by_name.allocator());
        for (name, definition) in self.iter() {
            by_name.insert(*name, definition.copy()?)?;
        }
        Ok(ByName { by_name })
    }
}

impl<D: Definition> ByName<D> {
    /// For each name of these definitions, a copy of what this map has under it, or none if it has nothing.
    pub fn replaced_by(&self, more: &ByName<D>) -> Result<ByName<Option<D>>, AllocError>
        ensures { IfOk result (λ was. was ≡ replaced self.now more.now) }
    {
        let mut was = ByName::new(*self.by_name.allocator());
        for (name, _definition) in more.iter() {
            was.insert(*name, self.copy_of(name)?)?;
        }
        Ok(was)
    }

    // A copy of the definition of this name, if it has one.
    fn copy_of(&self, name: &Name) -> Result<Option<D>, AllocError>
        ensures { IfOk result (λ copy. copy ≡ map.get self.now name.now) }
    {
        match self.get(name) {
            Some(definition) => Ok(Some(definition.copy()?)),
            None => Ok(None),
        }
    }

    /// Restores what was noted of names that have a definition: the definition of each, or none. Allocates no memory.
    pub fn put_back(&mut self, was: ByName<Option<D>>)
        requires { AllStand was self.old }
        ensures { self.new ≡ restored was self.old }
    {
        for (name, definition) in was.by_name {
            self.put_one(&name, definition);
        }
    }

    // Puts this definition, or none, in place of the one that the name has.
    fn put_one(&mut self, name: &Name, definition: Option<D>)
        requires { IsSome (map.get self.old name.now) }
        ensures { self.new ≡ with_one name.now definition self.old }
    {
        match definition {
            Some(definition) => {
                if let Some(place) = self.by_name.get_mut(name) {
                    *place = definition;
                }
            }
            None => {
                self.remove(name);
            }
        }
    }

    /// Adds the next record of a block, which is as long as the first one, or returns that it is faulty.
    pub(crate) fn gather(&mut self, alloc: Global, row: &ByteRecord) -> Result<bool, AllocError>
        ensures { (before : Records) → AreGivenBy D.IsMadeOf self.old before
            → IsAsLong before (fields_of row.now) → IfOk result
            (Joins (FitsKind D.HasFields D.FitsName) (AreGivenBy D.IsMadeOf) before (fields_of row.now) self.new) }
    {
        if !D::has_fields(row.len()) {
            return Ok(false);
        }
        let Some(name) = name_of(field_at(row, NAME)) else {
            return Ok(false);
        };
        if let Some(definition) = self.by_name.get_mut(&name) {
            return definition.join(row);
        }
        let Some(definition) = D::begin(alloc, row)? else {
            return Ok(false);
        };
        self.by_name.insert(name, definition)?;
        Ok(true)
    }
}
