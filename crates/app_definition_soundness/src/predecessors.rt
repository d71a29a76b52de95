// Lists of predecessors.

ghost use Rattle.std.specs.Prelude.{◌↔◌, IsTrue};
ghost use Rattle.app_definition_records.specs.Predecessors.{ArePredecessorsOf, FitsPredecessors};
ghost use Rattle.app_definition_records.specs.FieldCounts.{HasPredecessorFields};
ghost use Rattle.app_definition_soundness.specs.Given.{IsGiven};
ghost use Rattle.app_definition_soundness.specs.Values.{ArePredecessorValues};

use crate::given::Given;
use crate::names::{all_limits, all_named, is_name};
use app_definitions::{Predecessor, Predecessors};
use std::alloc::{AllocError, Global};
use work_calendars::Name;

fn are_predecessors(name: &Name, listed: &[Predecessor]) -> bool
    ensures { IsTrue result ↔ ArePredecessorValues name.now listed.now }
{
    is_name(name) && !listed.is_empty() && all_named(listed) && all_limits(listed)
}

impl Given for Predecessors {
    ghost IsGiven = { IsGiven HasPredecessorFields FitsPredecessors ArePredecessorsOf };

    fn is_given(&self, _alloc: Global, name: &Name) -> Result<bool, AllocError> {
        Ok(are_predecessors(name, self.as_slice()))
    }
}
