//! Changes of one occurrence.
ghost use Rattle.plan_store.specs.declared.stores.Need.TheVariants as need;
ghost use Rattle.planner_cli.specs.Changes.{key_change};

use crate::decisions::Decide;
use occurrences::{Key, Refusal};
use plan_store::{Need, Verdict, View};
use planner_cli_stream::KeyAct;
use std::alloc::{AllocError, Global};
use work_calendars::Moment;

/// To do something to the occurrence of a key.
#[derive(Clone, Copy, Debug, PartialEq, Eq)]
pub struct OnKey {
    /// The key.
    pub key: Key,
    /// What is done to it.
    pub act: KeyAct,
}

impl Decide for OnKey {
    ghost change = { λ on. key_change on.key on.act };

    ghost is_end = { λ on c end. Unit {0} };

    ghost sees = { λ on end. need.Key on.key };

    fn looks_ahead(&self) -> bool {
        false
    }

    fn early(&self, _view: &View<'_>) -> Option<Refusal> {
        None
    }

    fn end(&self, _alloc: Global, _view: &View<'_>) -> Result<Option<Moment>, AllocError> {
        Ok(None)
    }

    fn need(&self, _end: Option<Moment>) -> Need {
        Need::Key(self.key)
    }

    fn decide(
        self,
        alloc: Global,
        view: &View<'_>,
        _end: Option<Moment>,
    ) -> Result<Verdict, AllocError> {
        match self.act {
            KeyAct::Add => long_term_plan::add(alloc, view, &self.key),
            KeyAct::Delete => long_term_plan::delete(alloc, view, &self.key),
            KeyAct::AddCurrent => daily_planning::cp_add(alloc, view, &self.key),
            KeyAct::Act(action) => daily_planning::cp_action(alloc, view, &self.key, action),
        }
    }
}
