// The texts that show the rowids of tables.

ghost use Rattle.std.specs.Prelude.{◌≡◌};
ghost use Rattle.plan_tables_opening.specs.Rowids.{rowid_sql};

use plan_tables_schema::Table;

/// The text that shows the rowids of the table.
pub fn rowid_text(table: Table) -> &'static str
    ensures { result.now ≡ rowid_sql table }
{
    match table {
        Table::Meta => "SELECT rowid FROM plan_meta",
        Table::CalendarEntry => "SELECT rowid FROM calendar_entry",
        Table::Period => "SELECT rowid FROM plan_period",
        Table::Application => "SELECT rowid FROM application",
        Table::RunCycle => "SELECT rowid FROM run_cycle",
        Table::Offset => "SELECT rowid FROM run_cycle_offset",
        Table::Predecessor => "SELECT rowid FROM predecessor",
        Table::LinkInForce => "SELECT rowid FROM link_in_force",
        Table::LongTerm => "SELECT rowid FROM ltp_row",
        Table::Current => "SELECT rowid FROM cp_row",
        Table::History => "SELECT rowid FROM history_row",
        Table::Deletion => "SELECT rowid FROM deletion_row",
        Table::Dependency => "SELECT rowid FROM dependency",
        Table::Job => "SELECT rowid FROM job",
    }
}
