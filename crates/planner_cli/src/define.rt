//! `define` and `undefine`: the definitions change, and the plans stay.
ghost use Rattle.std.specs.Prelude.{◌↔◌, IsTrue};
ghost use Rattle.app_definitions.specs.Definitions.{IsDefined};
ghost use Rattle.planner_machine.specs.Statement as statement;
ghost use Rattle.plan_store.specs.declared.stores.Need.TheVariants.{Definitions as DefinitionsNeed};

use crate::decisions::Decide;
use app_definitions::{Block, Definitions, Kind};
use occurrences::{Refusal, Reply};
use plan_store::{Change, DefinitionChange, Need, Verdict, View};
use std::alloc::{AllocError, Global};
use work_calendars::{Moment, Name};

/// `define` with a block that was read: to merge it.
#[derive(Drop)]
pub struct Merge {
    /// What the block defines.
    pub block: Block,
}

impl Decide for Merge {
    ghost change = { λ merge. statement.Define merge.block };

    ghost is_end = { λ merge c end. Unit {0} };

    ghost sees = { λ merge end. DefinitionsNeed };

    fn looks_ahead(&self) -> bool {
        false
    }

    fn early(&self, _view: &View<'_>) -> Option<Refusal> {
        None
    }

    fn end(&self, _alloc: Global, _view: &View<'_>) -> Result<Option<Moment>, AllocError> {
        Ok(None)
    }

    fn need(&self, _end: Option<Moment>) -> Need {
        Need::Definitions
    }

    fn decide(
        self,
        alloc: Global,
        _view: &View<'_>,
        _end: Option<Moment>,
    ) -> Result<Verdict, AllocError> {
        let names = self.block.len();
        let mut change = Change::none(alloc);
        change.definitions = DefinitionChange::Merged(self.block);
        Ok(Verdict::Done(change, Reply::Defined { names }))
    }
}

/// `undefine`: to remove the definition of a name. Refused if there is none (13).
#[derive(Clone, Copy, Debug, PartialEq, Eq)]
pub struct Undefine {
    /// The kind of the definition.
    pub kind: Kind,
    /// The name.
    pub name: Name,
}

impl Decide for Undefine {
    ghost change = { λ undefine. statement.Undefine undefine.kind undefine.name };

    ghost is_end = { λ undefine c end. Unit {0} };

    ghost sees = { λ undefine end. DefinitionsNeed };

    fn looks_ahead(&self) -> bool {
        false
    }

    fn early(&self, _view: &View<'_>) -> Option<Refusal> {
        None
    }

    fn end(&self, _alloc: Global, _view: &View<'_>) -> Result<Option<Moment>, AllocError> {
        Ok(None)
    }

    fn need(&self, _end: Option<Moment>) -> Need {
        Need::Definitions
    }

    fn decide(
        self,
        alloc: Global,
        view: &View<'_>,
        _end: Option<Moment>,
    ) -> Result<Verdict, AllocError> {
        if !is_defined(view.definitions(), self.kind, &self.name) {
            return Ok(Verdict::Refused(Refusal::NotDefined));
        }
        let mut change = Change::none(alloc);
        change.definitions = DefinitionChange::Removed {
            kind: self.kind,
            name: self.name,
        };
        Ok(Verdict::Done(change, Reply::Undefined))
    }
}

// Whether a name of that kind is defined.
fn is_defined(all: &Definitions, kind: Kind, name: &Name) -> bool
    ensures { IsTrue result ↔ IsDefined all.now kind name.now }
{
    match kind {
        Kind::Applications => all.applications.get(name).is_some(),
        Kind::Calendars => all.calendars.get(name).is_some(),
        Kind::Periods => all.periods.get(name).is_some(),
        Kind::Predecessors => all.predecessors.get(name).is_some(),
        Kind::RunCycles => all.run_cycles.get(name).is_some(),
        Kind::Options => false,
    }
}
