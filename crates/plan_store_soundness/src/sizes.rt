ghost use Rattle.std.specs.Prelude.{◌≤◌, ◌↔◌, IsTrue};
ghost use Rattle.occurrences.specs.declared.serial.TheConstants.{GREATEST_SERIAL};
ghost use Rattle.planner_machine.specs.declared.limits.TheConstants.{MOST_PLANNED_ROWS};
ghost use Rattle.planner_machine.specs.Sound.{AreNumbered, HaveSizes};
ghost use Rattle.plan_store.specs.Contents.{content_of};

use occurrences::GREATEST_SERIAL;
use plan_store::Content;
use planner_machine::MOST_PLANNED_ROWS;

// Whether so many rows, and so many serials, are no more than there may be.
fn are_sizes(rows: usize, issued: u32) -> bool
    ensures { IsTrue result ↔ ((rows ≤ MOST_PLANNED_ROWS) × (issued ≤ GREATEST_SERIAL)) }
{
    rows <= MOST_PLANNED_ROWS && issued <= GREATEST_SERIAL
}

/// Whether the long-term plan and the current plan together have no more rows than they may, and no more serials are
/// issued than there are.
pub(crate) fn has_sizes(content: &Content) -> bool
    ensures { AreNumbered (content_of content.now).sets → IsTrue result
        ↔ HaveSizes (content_of content.now).sets }
{
    are_sizes(content.ltp.len() + content.cp.len(), content.issued)
}
