// The arrivals of rows that are stored elsewhere, in blocks: one for each application.

ghost use Rattle.std.specs.Prelude.{◌≡◌, ◌↔◌, ◌⊎◌, [], Contains, OnErr, OnOk};
ghost use Rattle.external_dependencies.specs.Arrival.{arrival_cmp};
ghost use Rattle.external_dependencies.specs.Nearest.{arrival_of};
ghost use Rattle.external_dependencies.specs.declared.live.Arrival.{Arrival as ArrivalValue};
ghost use Rattle.plan_store_lists.specs.Keyed.{HasKey, IsKeyed};

use crate::blocks::{Blocks, has_item, insert_into, of_group, reserve_for};
use crate::grouped::Grouped;
use crate::keyed::Keyed;
use crate::row_lists::RowBlocks;
use crate::rows::{PlanRow, arrival};
use external_dependencies::Arrival;
use std::alloc::{AllocError, Global};
use std::marker::Model;
use work_calendars::App;

impl Keyed for Arrival {
    ghost use Rattle.external_dependencies.proofs.NearestLemmas.{arrival_ties};

    type Key = Arrival;

    ghost key_of = { λ arrival. arrival };

    ghost ties = { arrival_ties };

    fn key(&self) -> Arrival {
        *self
    }
}

impl Grouped for Arrival {
    ghost use Rattle.external_dependencies.proofs.OrderLemmas.{name_ties};
    ghost use Rattle.plan_store_lists.specs.ArrivalBlocks.{arrivals_rise};

    type Group = App;

    ghost group_of = { λ arrival. arrival.app };

    ghost group_ties = { name_ties };

    ghost rises = { arrivals_rise };

    fn group(&self) -> App {
        self.app
    }
}

/// Arrivals, in a block for each application. Contracts see them in rising order, each once.
#[derive(Drop)]
pub struct ArrivalBlocks {
    blocks: Blocks<App, Arrival>,
}

impl Model for ArrivalBlocks {
    ghost use Rattle.std.specs.Prelude.{List};
    ghost use Rattle.external_dependencies.specs.declared.live.Arrival.{Arrival};

    ghost Value = { List Arrival };

    ghost use Rattle.plan_store_lists.specs.ArrivalBlocks.{AreArrivalBlocks};
    ghost use Rattle.plan_store_lists.specs.Blocks.{items_of};

    ghost view = { λ s. items_of s.blocks };

    ghost invariant = { λ s. AreArrivalBlocks s.blocks };
}

impl ArrivalBlocks {
    /// No arrivals.
    pub fn new(alloc: Global) -> ArrivalBlocks
        ensures { result ≡ [] }
    {
        ArrivalBlocks {
            blocks: Blocks::new(alloc),
        }
    }

    /// The arrivals of an application.
    pub fn of_app(&self, app: &App) -> &[Arrival]
        ensures keyed { IsKeyed arrival_cmp (λ (a : ArrivalValue). a) result.now }
        ensures all { (arrival : ArrivalValue) → Contains result.now arrival
            ↔ (Contains self.now arrival × (arrival.app ≡ app.now)) }
    {
        of_group(&self.blocks, app)
    }

    // Notes one arrival.
    fn note_one(&mut self, alloc: Global, arrival: Arrival) -> Result<(), AllocError>
        ensures noted { OnOk result ((a : ArrivalValue) → Contains self.new a
            ↔ (Contains self.old a ⊎ (arrival ≡ a))) }
        ensures same { OnErr result (self.new ≡ self.old) }
    {
        if has_item(&self.blocks, &arrival) {
            return Ok(());
        }
        let own = [arrival];
        reserve_for(alloc, &mut self.blocks, &own)?;
        insert_into(&mut self.blocks, &own);
        Ok(())
    }

    /// Notes the arrivals of these rows; if memory is refused, those of the first of them.
    pub fn note<T: PlanRow>(&mut self, alloc: Global, rows: &[T]) -> Result<(), AllocError>
        ensures stay { (a : ArrivalValue) → Contains self.old a → Contains self.new a }
        ensures come { (a : ArrivalValue) → Contains self.new a → Contains self.old a
            ⊎ HasKey (λ x. arrival_of (T.row_of x)) rows.now a }
        ensures noted { OnOk result ((x : T) → Contains rows.now x
            → Contains self.new (arrival_of (T.row_of x))) }
    {
        for x in rows {
            self.note_one(alloc, arrival(&x.row()))?;
        }
        Ok(())
    }

    /// Notes the arrivals of all rows of a set; if memory is refused, those of the first of them.
    pub fn note_all<T: PlanRow>(
        &mut self,
        alloc: Global,
        list: &RowBlocks<T>,
    ) -> Result<(), AllocError>
        ensures stay { (a : ArrivalValue) → Contains self.old a → Contains self.new a }
        ensures come { (a : ArrivalValue) → Contains self.new a → Contains self.old a
            ⊎ HasKey (λ x. arrival_of (T.row_of x)) list.now.items a }
        ensures noted { OnOk result ((x : T) → Contains list.now.items x
            → Contains self.new (arrival_of (T.row_of x))) }
    {
        let blocks = list.blocks();
        for block in blocks {
            self.note(alloc, block.items())?;
        }
        Ok(())
    }
}
