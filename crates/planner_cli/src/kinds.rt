//! Kinds of definitions, listings, and the days of an extension, as a statement names them.
ghost use Rattle.std.specs.Prelude.{◌≡◌};
ghost use Rattle.planner_cli.specs.Kinds.{count_of, definitions_kind, what_of};

use app_definitions::Kind;
use plan_store::What;
use planner_cli_stream::{CountWord, KindWord, WhatWord};
use planner_machine::Count;

/// The kind of definitions that a statement's word names.
pub fn definitions_kind(word: KindWord) -> Kind
    ensures { result ≡ definitions_kind word }
{
    match word {
        KindWord::Calendars => Kind::Calendars,
        KindWord::Periods => Kind::Periods,
        KindWord::Applications => Kind::Applications,
        KindWord::RunCycles => Kind::RunCycles,
        KindWord::Predecessors => Kind::Predecessors,
        KindWord::Options => Kind::Options,
    }
}

/// The listing that a statement's word names.
pub fn what_of(word: WhatWord) -> What
    ensures { result ≡ what_of word }
{
    match word {
        WhatWord::Ltp => What::Ltp,
        WhatWord::Cp => What::Cp,
        WhatWord::History => What::History,
        WhatWord::Deletions => What::Deletions,
        WhatWord::Dependencies => What::Dependencies,
        WhatWord::Links => What::Links,
    }
}

/// The days that a statement's word counts.
pub fn count_of(word: CountWord) -> Count
    ensures { result ≡ count_of word }
{
    match word {
        CountWord::AllDays => Count::AllDays,
        CountWord::WorkDays => Count::WorkDays,
    }
}
