//! What a run begins with, and who is notified of it.

ghost use Rattle.std.specs.Prelude.{◌≡◌, ◌↔◌, IsTrue, Some};
ghost use Rattle.plan_migrations.specs.declared.versions.TheConstants.{FIRST_VERSION};
ghost use Rattle.plan_files.specs.StartingPlan.{begun_of};
ghost use Rattle.plan_files.specs.declared.openings.StartingPlan.{StartingPlan as BegunValue};

use plan_migrations::FIRST_VERSION;

/// What a run begins with.
#[derive(Clone, Copy, Debug, PartialEq, Eq)]
pub enum StartingPlan {
    /// The plan that the files held.
    AsItWas,
    /// A new plan, because they held none.
    New,
    /// The plan that they held, whose tables were of schema 1 and are replaced.
    Migrated {
        /// Whether a user had made an index on one of the two tables that were made anew. It is gone.
        lost_index: bool,
    },
}

/// Is notified when a plan is open, and gives the reader of the stream then: so nothing is read of it before.
pub trait Opening<R> {
    // it was notified of this, and gave this reader
    ghost reports: { Self → BegunValue → R → Type 0 };

    /// The plan is open. This gives the reader of its stream.
    fn opened(self, begun: StartingPlan) -> R
        ensures { reports self begun result };
}

/// Whether that is the version of schema 1.
pub(crate) fn is_first(version: Option<u32>) -> bool
    ensures { IsTrue result ↔ (version ≡ Some FIRST_VERSION) }
{
    match version {
        Some(found) => found == FIRST_VERSION,
        None => false,
    }
}

/// What a run begins with over a plan that was migrated or not, over tables that have or lack `plan_meta`, and that had
/// an index which a migration loses, or had none.
pub(crate) fn starting_plan(was_first: bool, has_meta: bool, lost_index: bool) -> StartingPlan
    ensures { result ≡ begun_of was_first has_meta lost_index }
{
    match (was_first, has_meta) {
        (true, _) => StartingPlan::Migrated { lost_index },
        (false, true) => StartingPlan::AsItWas,
        (false, false) => StartingPlan::New,
    }
}
