// Indexes of work days by calendar.

ghost use Rattle.std.specs.Prelude.{◌≡◌, ℕ, IfOk, OnErr, OnOk, option_copied};
ghost use Rattle.std.specs.FinMap as map;
ghost use Rattle.work_calendars.specs.WorkIndex.{is_work_in};
ghost use Rattle.app_definitions.specs.declared.definitions.Definitions.{Definitions as DefinitionsValue};
ghost use Rattle.app_occurrences.specs.NamedOccurrences.{AreIndexesOf, HoldsAlso, work_in};

use app_definitions::{ByName, Definitions};
use std::alloc::{AllocError, Global};
use std::marker::Model;
use work_calendars::{Calendar, Name, WorkIndex};

/// Indexes of work days by the names of their calendars, each built once. Contracts see the map from names to indexes.
#[derive(Drop)]
pub struct WorkIndexes {
    by_name: ByName<WorkIndex>,
}

impl Model for WorkIndexes {
    ghost use Rattle.std.specs.Prelude.{Bool, List};
    ghost use Rattle.std.specs.Ordering.{nat_cmp};
    ghost use Rattle.std.specs.Cmp.Lexicographic.{slice_cmp};
    ghost use Rattle.std.specs.FinMap as map;
    ghost use Rattle.std.specs.Coded.{coded_ℕ, coded_bool, coded_list};

    ghost Value = { map.FinMap (slice_cmp nat_cmp) (List Bool) };

    ghost coded = { map.code (coded_list coded_ℕ) (coded_list coded_bool) };

    ghost view = { λ w. w.by_name };
}

/// The index of the work days of the calendar of that name.
pub fn work_index(alloc: Global, all: &Definitions, name: &Name) -> Result<WorkIndex, AllocError>
    ensures { IfOk result (λ index. (d : ℕ) → is_work_in index d ≡ work_in all.now name.now d) }
{
    match all.calendars.get(name) {
        Some(calendar) => WorkIndex::build(alloc, calendar),
        None => WorkIndex::build(alloc, &Calendar::new(alloc)),
    }
}

impl WorkIndexes {
    /// No indexes, which agrees with any definitions.
    pub fn new(alloc: Global) -> WorkIndexes
        ensures empty { result ≡ map.empty }
        ensures indexes { (all : DefinitionsValue) → AreIndexesOf all result }
    {
        WorkIndexes {
            by_name: ByName::new(alloc),
        }
    }

    /// The index of the calendar of this name, if it is held.
    pub fn get(&self, name: &Name) -> Option<&WorkIndex>
        ensures { option_copied result ≡ map.get self.now name.now }
    {
        self.by_name.get(name)
    }

    /// Holds an index of the calendar of this name from now on, and builds it where none is held yet. Where memory is
    /// refused, nothing changes.
    pub fn hold(&mut self, alloc: Global, all: &Definitions, name: &Name) -> Result<(), AllocError>
        requires { AreIndexesOf all.now self.old }
        ensures held { OnOk result (HoldsAlso self.old self.new name.now) }
        ensures indexes { AreIndexesOf all.now self.new }
        ensures err { OnErr result (self.new ≡ self.old) }
    {
        if self.by_name.get(name).is_none() {
            let index = work_index(alloc, all, name)?;
            self.by_name.insert(*name, index)?;
        }
        Ok(())
    }
}
