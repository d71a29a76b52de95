ghost use Rattle.planner_machine.specs.Sound.{IsSound};
ghost use Rattle.plan_store.specs.Contents.{content_of};

use crate::changes::Change;
use crate::contents::Content;
use crate::listings::{ListFault, RowSink, What};
use crate::stores::{Need, PlanStore, StoreFault};
use crate::views::View;
use app_definitions::Definitions;
use external_dependencies::Links;
use planner_machine::{Bounds, Job, empty_content_is_sound};
use std::alloc::Global;
use work_calendars::App;

/// A store that keeps its content in memory. Its device never fails.
#[derive(Drop)]
pub struct ListStore {
    content: Content,
    ghost sound: { ∥ IsSound (content_of content) ∥₁ },
}

impl ListStore {
    ghost use Rattle.std.specs.Prelude.{◌≡◌, IfErr, OnOk, option_copied};
    ghost use Rattle.planner_machine.specs.Content.{nothing_known};
    ghost use Rattle.plan_store.specs.Lists.{listed};
    ghost use Rattle.plan_store.specs.Views.{IsFilled, Shows};

    /// A store before its first statement.
    pub fn new(alloc: Global) -> ListStore
        ensures empty { listed result ≡ nothing_known }
        ensures sound { IsSound (listed result) }
    {
        empty_content_is_sound();
        ListStore {
            content: Content::new(alloc),
        }
    }

    /// The content as a value.
    pub fn content(&self) -> &Content
        ensures { content_of result.now ≡ listed self.now }
    {
        &self.content
    }

    fn fill_window(&mut self, alloc: Global, need: &Need) -> Result<(), StoreFault>
        ensures same { listed self.new ≡ listed self.old }
        ensures filled { OnOk result (IsFilled need.now self.new.content) }
        ensures memory { IfErr result (λ fault. fault ≡ StoreFault.Memory) }
    {
        self.content.fill_window(alloc, need)?;
        Ok(())
    }

    fn filled_window(&self, need: &Need) -> View<'_>
        requires { IsFilled need.now self.now.content }
        ensures { Shows need.now result (listed self.now) }
    {
        self.content.window(need)
    }

    fn kept_job(&self, number: u64) -> Option<&Job>
        ensures { option_copied result ≡ (listed self.now).jobs number }
    {
        self.content.job(number)
    }
}

impl PlanStore for ListStore {
    ghost use Rattle.std.specs.Prelude.{◌≡◌, ⊤, Ok};
    ghost use Rattle.app_definition_soundness.proofs.SoundAgain.{sound_again};
    ghost use Rattle.plan_store.specs.Lists.{listed};

    ghost content = { listed };

    ghost is_honest = { λ _. ⊤ };

    ghost failures = { λ _. 0 };

    ghost may_leave = { λ store c. c ≡ listed store };

    ghost is_clean = { λ _. ⊤ };

    ghost is_whole = { λ _. ⊤ };

    // lists have no device that could
    ghost has_failed = { λ _ _. ⊥ };

    ghost left_is_clean = { λ _ _ _. tt };

    ghost honest_is_sound = { λ store _. sound_again (content_of store.content) store.sound };

    fn definitions(&mut self, _alloc: Global) -> Result<Definitions, StoreFault> {
        Ok(self.content.definitions.clone()?)
    }

    // It allocates no memory, so there is always an answer.
    fn bounds(&mut self) -> Result<Option<Bounds>, StoreFault>
        ensures kept { self.new ≡ self.old }
        ensures answer { result ≡ Ok self.old.content.bounds }
    {
        Ok(self.content.bounds)
    }

    fn links(&mut self, alloc: Global) -> Result<Links, StoreFault> {
        Ok(self.content.in_force.to_links(alloc)?)
    }

    fn read_window<'a>(&'a mut self, alloc: Global, need: Need) -> Result<View<'a>, StoreFault> {
        self.fill_window(alloc, &need)?;
        Ok(self.filled_window(&need))
    }

    fn job<'a>(&'a mut self, _alloc: Global, number: u64) -> Result<Option<&'a Job>, StoreFault> {
        Ok(self.kept_job(number))
    }

    fn rows_to<K: RowSink>(
        &mut self,
        alloc: Global,
        what: What,
        app: Option<&App>,
        sink: &mut K,
    ) -> Result<usize, ListFault> {
        self.content.rows_to(alloc, what, app, sink)
    }

    fn apply(&mut self, alloc: Global, change: Change) -> Result<(), StoreFault> {
        self.content.apply(alloc, change)?;
        Ok(())
    }
}
