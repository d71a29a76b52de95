ghost use Rattle.occurrences.specs.Limits.{AreLimits};

/// Law: each limit has the value that the page of limits states.
pub fn limits_hold()
    ensures { AreLimits }
{}
