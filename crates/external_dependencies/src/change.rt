ghost use Rattle.std.specs.Prelude.{IfOk};
ghost use Rattle.external_dependencies.specs.Change.{Leads};

use crate::pairs::Pairs;
use std::alloc::{AllocError, Global};

/// What leads from some pairs to others.
#[derive(Drop)]
pub struct PairChange {
    /// The pairs that go.
    pub removed: Pairs,
    /// The pairs that come.
    pub added: Pairs,
}

impl PairChange {
    /// The change from the first pairs to the second: what only the first have goes, what only the second have comes.
    pub fn between(alloc: Global, old: &Pairs, new: &Pairs) -> Result<PairChange, AllocError>
        ensures { IfOk result (Leads old.now new.now) }
    {
        Ok(PairChange {
            removed: old.without(alloc, new)?,
            added: new.without(alloc, old)?,
        })
    }
}
