// What the tables of a content accept.

ghost use Rattle.plan_tables_constraints.specs.Accepted.{FittingIsAccepted};

/// The tables of a content accept a change that fits it if the content after it is sound, as a planner's content
/// always is: if the change adds each pair once, and there is room for what it puts, then they accept each of its
/// rows.
pub fn fitting_changes_are_accepted()
    ensures { FittingIsAccepted }
{}
