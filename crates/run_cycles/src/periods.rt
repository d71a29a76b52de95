ghost use Rattle.std.specs.Prelude.{◌≡◌, ◌↔◌, IsTrue, IsSome, IfSome, OnOk, OnErr, option_copied};
ghost use Rattle.std.specs.FinMap as map;
ghost use Rattle.plan_periods.specs.Period.{IsSoundPeriod};

use indexmap::IndexMap;
use plan_periods::Period;
use std::alloc::{AllocError, Global};
use std::marker::Model;
use work_calendars::Short;

/// Periods by name, each of them sound. Contracts see the finite map from names to periods.
#[derive(Drop)]
pub struct Periods {
    by_name: IndexMap<Short, Period>,
}

impl Model for Periods {
    ghost use Rattle.std.specs.Ordering.{nat_cmp};
    ghost use Rattle.std.specs.Cmp.Lexicographic.{slice_cmp};
    ghost use Rattle.std.specs.FinMap as map;
    ghost use Rattle.std.specs.Coded.{coded_list, coded_ℕ};
    ghost use Rattle.std.specs.Prelude.{All};
    ghost use Rattle.plan_periods.specs.declared.periods.Period.{Period};
    ghost use Rattle.plan_periods.specs.contracts.periods.Period as period;
    ghost use Rattle.plan_periods.specs.Period.{IsSoundPeriod};
    ghost use Rattle.indexmap.specs.IndexMap.{values};

    ghost Value = { map.FinMap (slice_cmp nat_cmp) Period };

    ghost coded = { map.code (coded_list coded_ℕ) period.the_row.coded };

    ghost view = { λ p. map.from_entries p.by_name.entries };

    ghost invariant = { λ p. All IsSoundPeriod (values p.by_name) };
}

impl Periods {
    /// No periods.
    pub fn new(alloc: Global) -> Periods
        ensures { result ≡ map.empty }
    {
        Periods {
            by_name: IndexMap::new(alloc),
        }
    }

    /// The period of this name.
    pub fn get(&self, name: &Short) -> Option<&Period>
        ensures value { option_copied result ≡ map.get self.now name.now }
        ensures sound { IfSome result (λ p. IsSoundPeriod p.now) }
    {
        self.by_name.get(name)
    }

    /// Puts the period under the name, in place of one that is there.
    pub fn insert(&mut self, name: Short, period: Period) -> Result<(), AllocError>
        requires { IsSoundPeriod period }
        ensures ok { OnOk result (self.new ≡ map.insert self.old name period) }
        ensures err { OnErr result (self.new ≡ self.old) }
    {
        let _replaced = self.by_name.insert(name, period)?;
        Ok(())
    }

    /// Removes the period of this name, and returns whether there was one. Allocates no memory.
    pub fn remove(&mut self, name: &Short) -> bool
        ensures found { IsTrue result ↔ IsSome (map.get self.old name.now) }
        ensures removed { self.new ≡ map.remove self.old name.now }
    {
        self.by_name.shift_remove(name).is_some()
    }
}
