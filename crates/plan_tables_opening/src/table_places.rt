// Tables by their places.

ghost use Rattle.std.specs.Prelude.{◌≡◌};
ghost use Rattle.plan_tables_schema.specs.Schema.{table_of};

use plan_tables_schema::Table;

// The places, in the order in which the tables are made.
pub(crate) const META: usize = 0;

pub(crate) const CALENDAR_ENTRY: usize = 1;

pub(crate) const PERIOD: usize = 2;

pub(crate) const APPLICATION: usize = 3;

pub(crate) const RUN_CYCLE: usize = 4;

pub(crate) const OFFSET: usize = 5;

pub(crate) const PREDECESSOR: usize = 6;

pub(crate) const LINK_IN_FORCE: usize = 7;

pub(crate) const LONG_TERM: usize = 8;

pub(crate) const CURRENT: usize = 9;

pub(crate) const HISTORY: usize = 10;

pub(crate) const DELETION: usize = 11;

pub(crate) const DEPENDENCY: usize = 12;

pub(crate) const JOB: usize = 13;

/// The table at the place.
pub(crate) fn table_at(place: usize) -> Table
    ensures { result ≡ table_of place }
{
    match place {
        META => Table::Meta,
        CALENDAR_ENTRY => Table::CalendarEntry,
        PERIOD => Table::Period,
        APPLICATION => Table::Application,
        RUN_CYCLE => Table::RunCycle,
        OFFSET => Table::Offset,
        PREDECESSOR => Table::Predecessor,
        LINK_IN_FORCE => Table::LinkInForce,
        LONG_TERM => Table::LongTerm,
        CURRENT => Table::Current,
        HISTORY => Table::History,
        DELETION => Table::Deletion,
        DEPENDENCY => Table::Dependency,
        _ => Table::Job,
    }
}
