// All definitions.

ghost use Rattle.std.specs.Prelude.{◌↔◌, IsTrue, IfOk};
ghost use Rattle.planner_machine.specs.Sound.{AreDefinitions};

use crate::given::all_given;
use crate::names::is_name;
use app_definitions::Definitions;
use std::alloc::{AllocError, Global};

/// Whether the definitions are such as data blocks give, one name at a time: each calendar lists something, the names
/// of periods are short, no list of predecessors or run cycles is empty, and no deadline lies more than
/// `MAX_DEADLINE_DAYS` after its input arrival. The types ensure all else that a block requires. Looks at each
/// definition once.
pub fn are_definitions(alloc: Global, definitions: &Definitions) -> Result<bool, AllocError>
    ensures { IfOk result (λ b. IsTrue b ↔ AreDefinitions definitions.now) }
{
    let applications = all_given(alloc, &definitions.applications)?;
    if !applications {
        return Ok(false);
    }
    let calendars = all_given(alloc, &definitions.calendars)?;
    if !calendars {
        return Ok(false);
    }
    let periods = all_given(alloc, &definitions.periods)?;
    if !periods {
        return Ok(false);
    }
    let predecessors = all_given(alloc, &definitions.predecessors)?;
    if !predecessors {
        return Ok(false);
    }
    let run_cycles = all_given(alloc, &definitions.run_cycles)?;
    if !run_cycles {
        return Ok(false);
    }
    Ok(is_name(&definitions.options.default_calendar))
}
