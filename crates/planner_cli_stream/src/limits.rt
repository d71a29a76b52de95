//! The limits of lines and blocks, in figures.
ghost use Rattle.planner_cli_stream.specs.Limits.{AreLimits};

/// Law: each limit has the value that the page of limits states.
pub fn limits_hold()
    ensures { AreLimits }
{}
