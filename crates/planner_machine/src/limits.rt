ghost use Rattle.planner_machine.specs.Limits.{AreLimits};

/// The most rows that the long-term plan and the current plan have together.
pub const MOST_PLANNED_ROWS: usize = 200_000;

/// The most days from the first to the last of a window; a question for days counts both ends.
pub const LONGEST_WINDOW: u32 = 1461;

/// The greatest number of a job.
pub const GREATEST_JOB: u64 = 999_999_999;

/// Law: each limit has the value that the page of limits states.
pub fn limits_hold()
    ensures { AreLimits }
{}
