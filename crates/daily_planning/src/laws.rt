// Laws of the current plan: each function has no body, and its contract is the law.
ghost use Rattle.daily_planning.specs.Statuses.{StatusChangesLeavePairs};

/// Law: on sound content a start, a completion and a failure change no pair.
pub fn status_changes_leave_pairs()
    ensures { StatusChangesLeavePairs }
{}
