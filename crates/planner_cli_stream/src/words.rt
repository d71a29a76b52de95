//! Words without an option: kinds of definitions, functions of a trial, what is listed; and which days are counted.

/// A kind of definitions, as a statement names it.
#[derive(Clone, Copy, Debug, PartialEq, Eq)]
pub enum KindWord {
    /// `calendars`
    Calendars,
    /// `periods`
    Periods,
    /// `applications`
    Applications,
    /// `run-cycles`
    RunCycles,
    /// `predecessors`
    Predecessors,
    /// `options`
    Options,
}

impl KindWord {
    ghost use Rattle.std.specs.Prelude.{◌≡◌, ◌≢◌, IfSome, IfNone};
    ghost use Rattle.planner_cli_stream.specs.Words.{kind_text};

    /// The kind that the word names.
    pub fn from_text(text: &str) -> Option<KindWord>
        ensures some { IfSome result (λ kind. text.now ≡ kind_text kind) }
        ensures none { IfNone result ((kind : KindWord) → text.now ≢ kind_text kind) }
    {
        match text {
            "calendars" => Some(KindWord::Calendars),
            "periods" => Some(KindWord::Periods),
            "applications" => Some(KindWord::Applications),
            "run-cycles" => Some(KindWord::RunCycles),
            "predecessors" => Some(KindWord::Predecessors),
            "options" => Some(KindWord::Options),
            _ => None,
        }
    }
}

/// The function that a trial shows.
#[derive(Clone, Copy, Debug, PartialEq, Eq)]
pub enum FunctionWord {
    /// `create`
    Create,
    /// `extend`
    Extend,
    /// `modify-all`
    ModifyAll,
    /// `modify-one`
    ModifyOne,
    /// `replan`
    Replan,
}

impl FunctionWord {
    ghost use Rattle.std.specs.Prelude.{◌≡◌, ◌≢◌, IfSome, IfNone};
    ghost use Rattle.planner_cli_stream.specs.Words.{function_text};

    /// The function that the word names.
    pub fn from_text(text: &str) -> Option<FunctionWord>
        ensures some { IfSome result (λ function. text.now ≡ function_text function) }
        ensures none { IfNone result ((function : FunctionWord)
            → text.now ≢ function_text function) }
    {
        match text {
            "create" => Some(FunctionWord::Create),
            "extend" => Some(FunctionWord::Extend),
            "modify-all" => Some(FunctionWord::ModifyAll),
            "modify-one" => Some(FunctionWord::ModifyOne),
            "replan" => Some(FunctionWord::Replan),
            _ => None,
        }
    }
}

/// Which days an extension counts.
#[derive(Clone, Copy, Debug, PartialEq, Eq)]
pub enum CountWord {
    /// `A`: all days.
    AllDays,
    /// `W`: work days.
    WorkDays,
}

impl CountWord {
    ghost use Rattle.std.specs.Prelude.{◌≡◌, ◌≢◌, IfSome, IfNone};
    ghost use Rattle.planner_cli_stream.specs.Words.{count_text};

    /// The days that the word names.
    pub fn from_text(text: &str) -> Option<CountWord>
        ensures some { IfSome result (λ count. text.now ≡ count_text count) }
        ensures none { IfNone result ((count : CountWord) → text.now ≢ count_text count) }
    {
        match text {
            "A" => Some(CountWord::AllDays),
            "W" => Some(CountWord::WorkDays),
            _ => None,
        }
    }
}

/// What `list` lists.
#[derive(Clone, Copy, Debug, PartialEq, Eq)]
pub enum WhatWord {
    /// `ltp`: the long-term plan.
    Ltp,
    /// `cp`: the current plan.
    Cp,
    /// `history`: occurrences that were completed.
    History,
    /// `deletions`: occurrences that were deleted or withdrawn.
    Deletions,
    /// `dependencies`: pairs of a successor and its predecessor.
    Dependencies,
    /// `links`: the predecessor lists in force.
    Links,
}

impl WhatWord {
    ghost use Rattle.std.specs.Prelude.{◌≡◌, ◌≢◌, IfSome, IfNone};
    ghost use Rattle.planner_cli_stream.specs.Words.{what_text};

    /// What the word names.
    pub fn from_text(text: &str) -> Option<WhatWord>
        ensures some { IfSome result (λ what. text.now ≡ what_text what) }
        ensures none { IfNone result ((what : WhatWord) → text.now ≢ what_text what) }
    {
        match text {
            "ltp" => Some(WhatWord::Ltp),
            "cp" => Some(WhatWord::Cp),
            "history" => Some(WhatWord::History),
            "deletions" => Some(WhatWord::Deletions),
            "dependencies" => Some(WhatWord::Dependencies),
            "links" => Some(WhatWord::Links),
            _ => None,
        }
    }
}
