//! Laws of the definitions: each is the contract of a function that does nothing.

ghost use Rattle.app_definitions.specs.Laws.{IsFaultyOnce, MergeIsRolledBack, ReadsAsOne, ReadsOrIsFaulty};

/// A text reads as one block of a kind at most.
pub fn reads_as_one()
    ensures { ReadsAsOne }
{}

/// No text reads as a block and is faulty.
pub fn reads_or_is_faulty()
    ensures { ReadsOrIsFaulty }
{}

/// A text is faulty at one record at most.
pub fn is_faulty_once()
    ensures { IsFaultyOnce }
{}

/// Once a block is merged, what its names had before can be restored, and then the definitions are those before the
/// merge.
pub fn merge_is_rolled_back()
    ensures { MergeIsRolledBack }
{}
