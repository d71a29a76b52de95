// What was read of each name so far.

ghost use Rattle.std.specs.Prelude.{◌≡◌, OnOk, IfOk};
ghost use Rattle.std.specs.FinMap as map;
ghost use Rattle.app_definition_records.specs.ByName.{AreEntriesOf};

use indexmap::IndexMap;
use std::alloc::{AllocError, Global};
use std::marker::Model;
use work_calendars::Name;

/// What was read of each name so far. Contracts see the map from names to it.
#[derive(Drop)]
pub(crate) struct Drafts<D> {
    by_name: IndexMap<Name, D>,
}

impl<D> Model for Drafts<D> {
    ghost use Rattle.std.specs.Ordering.{nat_cmp};
    ghost use Rattle.std.specs.Cmp.Lexicographic.{slice_cmp};
    ghost use Rattle.std.specs.FinMap as map;
    ghost use Rattle.std.specs.Coded.{coded_ℕ, coded_list};

    ghost Value = { map.FinMap (slice_cmp nat_cmp) D };

    ghost coded = { map.code (coded_list coded_ℕ) D.code };

    ghost view = { λ a. map.from_entries a.by_name.entries };
}

impl<D> Drafts<D> {
    /// Nothing was read.
    pub(crate) fn new(alloc: Global) -> Self
        ensures { result ≡ map.empty }
    {
        Drafts {
            by_name: IndexMap::new(alloc),
        }
    }

    /// Takes out what was read of this name.
    pub(crate) fn take(&mut self, name: &Name) -> Option<D>
    where
        D: Drop,
        ensures taken { result ≡ map.get self.old name.now }
        ensures removed { self.new ≡ map.remove self.old name.now }
    {
        self.by_name.swap_remove(name)
    }

    /// Puts in what was read of this name.
    pub(crate) fn put(&mut self, name: Name, draft: D) -> Result<(), AllocError>
    where
        D: Drop,
        ensures { OnOk result (self.new ≡ map.insert self.old name draft) }
    {
        let _replaced = self.by_name.insert(name, draft)?;
        Ok(())
    }

    /// All that was read, with the names.
    pub(crate) fn into_vec(self, alloc: Global) -> Result<Vec<(Name, D)>, AllocError>
    where
        D: Drop,
        ensures { IfOk result (λ entries. AreEntriesOf entries.items self) }
    {
        self.by_name.into_iter().collect(alloc)
    }
}
