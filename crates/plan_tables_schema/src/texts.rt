// The texts of the statements.

ghost use Rattle.std.specs.Prelude.{◌≡◌};
ghost use Rattle.plan_tables_schema.specs.Texts.{create_sql, delete_sql, insert_sql, select_sql, several_sql};

use crate::tables::Table;

/// The text that makes the table.
pub fn create_text(table: Table) -> &'static str
    ensures { result.now ≡ create_sql table }
{
    match table {
        Table::Meta => {
            "CREATE TABLE plan_meta (id INTEGER PRIMARY KEY CHECK (id = 1), version INTEGER NOT NULL, \
             created INTEGER NOT NULL, first_day INTEGER NOT NULL, last_day INTEGER NOT NULL, plan_end \
             INTEGER NOT NULL, issued INTEGER NOT NULL, default_calendar TEXT NOT NULL, max_hours \
             INTEGER NOT NULL) STRICT"
        }
        Table::CalendarEntry => {
            "CREATE TABLE calendar_entry (calendar TEXT NOT NULL, kind INTEGER NOT NULL, day INTEGER NOT \
             NULL, work INTEGER NOT NULL, PRIMARY KEY (calendar, kind, day)) STRICT"
        }
        Table::Period => {
            "CREATE TABLE plan_period (name TEXT NOT NULL, seq INTEGER NOT NULL, type TEXT NOT NULL, \
             origin INTEGER NOT NULL, second INTEGER, PRIMARY KEY (name, seq)) STRICT"
        }
        Table::Application => {
            "CREATE TABLE application (name TEXT NOT NULL, active INTEGER NOT NULL, calendar TEXT, \
             PRIMARY KEY (name)) STRICT"
        }
        Table::RunCycle => {
            "CREATE TABLE run_cycle (app TEXT NOT NULL, name TEXT NOT NULL, type TEXT NOT NULL, period \
             TEXT NOT NULL, rule TEXT NOT NULL, in_effect INTEGER NOT NULL, out_effect INTEGER, ia \
             INTEGER NOT NULL, deadline_day INTEGER, deadline_time INTEGER, PRIMARY KEY (app, name)) \
             STRICT"
        }
        Table::Offset => {
            "CREATE TABLE run_cycle_offset (app TEXT NOT NULL, name TEXT NOT NULL, seq INTEGER NOT NULL, \
             k INTEGER NOT NULL, PRIMARY KEY (app, name, seq), FOREIGN KEY (app, name) REFERENCES \
             run_cycle ON DELETE CASCADE) STRICT"
        }
        Table::Predecessor => {
            "CREATE TABLE predecessor (app TEXT NOT NULL, pred TEXT NOT NULL, within INTEGER, PRIMARY KEY \
             (app, pred)) STRICT"
        }
        Table::LinkInForce => {
            "CREATE TABLE link_in_force (app TEXT NOT NULL, pred TEXT NOT NULL, within INTEGER, PRIMARY KEY \
             (app, pred)) STRICT"
        }
        Table::LongTerm => {
            "CREATE TABLE ltp_row (serial INTEGER PRIMARY KEY, app TEXT NOT NULL, ia INTEGER NOT NULL, \
             deadline INTEGER NOT NULL, run_cycle TEXT, UNIQUE (app, ia)) STRICT"
        }
        Table::Current => {
            "CREATE TABLE cp_row (serial INTEGER PRIMARY KEY, app TEXT NOT NULL, ia INTEGER NOT NULL, \
             deadline INTEGER NOT NULL, run_cycle TEXT, status TEXT NOT NULL) STRICT"
        }
        Table::History => {
            "CREATE TABLE history_row (serial INTEGER PRIMARY KEY, app TEXT NOT NULL, ia INTEGER NOT \
             NULL, deadline INTEGER NOT NULL, run_cycle TEXT, UNIQUE (app, ia)) STRICT"
        }
        Table::Deletion => {
            "CREATE TABLE deletion_row (serial INTEGER PRIMARY KEY, app TEXT NOT NULL, ia INTEGER NOT \
             NULL, deadline INTEGER NOT NULL, run_cycle TEXT, reason TEXT NOT NULL) STRICT"
        }
        Table::Dependency => {
            "CREATE TABLE dependency (successor INTEGER NOT NULL, predecessor INTEGER NOT NULL, PRIMARY \
             KEY (successor, predecessor)) STRICT"
        }
        Table::Job => {
            "CREATE TABLE job (number INTEGER PRIMARY KEY, body BLOB NOT NULL, reply TEXT NOT NULL) STRICT"
        }
    }
}

/// The text that inserts a row into the table.
pub(crate) fn insert_text(table: Table) -> &'static str
    ensures { result.now ≡ insert_sql table }
{
    match table {
        Table::Meta => {
            "INSERT INTO plan_meta (id, version, created, first_day, last_day, plan_end, issued, \
             default_calendar, max_hours) VALUES (?1, ?2, ?3, ?4, ?5, ?6, ?7, ?8, ?9)"
        }
        Table::CalendarEntry => {
            "INSERT INTO calendar_entry (calendar, kind, day, work) VALUES (?1, ?2, ?3, ?4)"
        }
        Table::Period => {
            "INSERT INTO plan_period (name, seq, type, origin, second) VALUES (?1, ?2, ?3, ?4, ?5)"
        }
        Table::Application => {
            "INSERT INTO application (name, active, calendar) VALUES (?1, ?2, ?3)"
        }
        Table::RunCycle => {
            "INSERT INTO run_cycle (app, name, type, period, rule, in_effect, out_effect, ia, \
             deadline_day, deadline_time) VALUES (?1, ?2, ?3, ?4, ?5, ?6, ?7, ?8, ?9, ?10)"
        }
        Table::Offset => {
            "INSERT INTO run_cycle_offset (app, name, seq, k) VALUES (?1, ?2, ?3, ?4)"
        }
        Table::Predecessor => { "INSERT INTO predecessor (app, pred, within) VALUES (?1, ?2, ?3)" }
        Table::LinkInForce => {
            "INSERT INTO link_in_force (app, pred, within) VALUES (?1, ?2, ?3)"
        }
        Table::LongTerm => {
            "INSERT INTO ltp_row (serial, app, ia, deadline, run_cycle) VALUES (?1, ?2, ?3, ?4, ?5)"
        }
        Table::Current => {
            "INSERT INTO cp_row (serial, app, ia, deadline, run_cycle, status) VALUES (?1, ?2, ?3, ?4, ?5, ?6)"
        }
        Table::History => {
            "INSERT INTO history_row (serial, app, ia, deadline, run_cycle) VALUES (?1, ?2, ?3, ?4, ?5)"
        }
        Table::Deletion => {
            "INSERT INTO deletion_row (serial, app, ia, deadline, run_cycle, reason) VALUES (?1, ?2, ?3, \
             ?4, ?5, ?6)"
        }
        Table::Dependency => { "INSERT INTO dependency (successor, predecessor) VALUES (?1, ?2)" }
        Table::Job => { "INSERT INTO job (number, body, reply) VALUES (?1, ?2, ?3)" }
    }
}

/// The text that inserts several rows into the table; one row if the table gets few.
pub(crate) fn several_text(table: Table) -> &'static str
    ensures { result.now ≡ several_sql table }
{
    match table {
        Table::LongTerm => {
            "INSERT INTO ltp_row (serial, app, ia, deadline, run_cycle) VALUES (?1, ?2, ?3, ?4, ?5), \
             (?6, ?7, ?8, ?9, ?10), (?11, ?12, ?13, ?14, ?15)"
        }
        Table::Current => {
            "INSERT INTO cp_row (serial, app, ia, deadline, run_cycle, status) VALUES (?1, ?2, ?3, ?4, \
             ?5, ?6), (?7, ?8, ?9, ?10, ?11, ?12), (?13, ?14, ?15, ?16, ?17, ?18)"
        }
        Table::History => {
            "INSERT INTO history_row (serial, app, ia, deadline, run_cycle) VALUES (?1, ?2, ?3, ?4, ?5), \
             (?6, ?7, ?8, ?9, ?10), (?11, ?12, ?13, ?14, ?15)"
        }
        Table::Deletion => {
            "INSERT INTO deletion_row (serial, app, ia, deadline, run_cycle, reason) VALUES (?1, ?2, ?3, \
             ?4, ?5, ?6), (?7, ?8, ?9, ?10, ?11, ?12), (?13, ?14, ?15, ?16, ?17, ?18)"
        }
        Table::Dependency => {
            "INSERT INTO dependency (successor, predecessor) VALUES (?1, ?2), (?3, ?4), (?5, ?6), (?7, \
             ?8), (?9, ?10), (?11, ?12), (?13, ?14), (?15, ?16), (?17, ?18)"
        }
        table => insert_text(table),
    }
}

/// The text that deletes the rows of a key.
pub(crate) fn delete_text(table: Table) -> &'static str
    ensures { result.now ≡ delete_sql table }
{
    match table {
        Table::Meta => { "DELETE FROM plan_meta WHERE id = ?1" }
        Table::CalendarEntry => { "DELETE FROM calendar_entry WHERE calendar = ?1" }
        Table::Period => { "DELETE FROM plan_period WHERE name = ?1" }
        Table::Application => { "DELETE FROM application WHERE name = ?1" }
        Table::RunCycle => { "DELETE FROM run_cycle WHERE app = ?1" }
        Table::Offset => { "DELETE FROM run_cycle_offset WHERE app = ?1" }
        Table::Predecessor => { "DELETE FROM predecessor WHERE app = ?1" }
        Table::LinkInForce => { "DELETE FROM link_in_force WHERE app = ?1 AND pred = ?2" }
        Table::LongTerm => { "DELETE FROM ltp_row WHERE serial = ?1" }
        Table::Current => { "DELETE FROM cp_row WHERE serial = ?1" }
        Table::History => { "DELETE FROM history_row WHERE serial = ?1" }
        Table::Deletion => { "DELETE FROM deletion_row WHERE serial = ?1" }
        Table::Dependency => { "DELETE FROM dependency WHERE successor = ?1 AND predecessor = ?2" }
        Table::Job => { "DELETE FROM job WHERE number = ?1" }
    }
}

/// The text that selects all rows of the table.
pub fn select_text(table: Table) -> &'static str
    ensures { result.now ≡ select_sql table }
{
    match table {
        Table::Meta => {
            "SELECT id, version, created, first_day, last_day, plan_end, issued, default_calendar, \
             max_hours FROM plan_meta"
        }
        Table::CalendarEntry => { "SELECT calendar, kind, day, work FROM calendar_entry" }
        Table::Period => { "SELECT name, seq, type, origin, second FROM plan_period" }
        Table::Application => { "SELECT name, active, calendar FROM application" }
        Table::RunCycle => {
            "SELECT app, name, type, period, rule, in_effect, out_effect, ia, deadline_day, \
             deadline_time FROM run_cycle"
        }
        Table::Offset => { "SELECT app, name, seq, k FROM run_cycle_offset" }
        Table::Predecessor => { "SELECT app, pred, within FROM predecessor" }
        Table::LinkInForce => { "SELECT app, pred, within FROM link_in_force" }
        Table::LongTerm => { "SELECT serial, app, ia, deadline, run_cycle FROM ltp_row" }
        Table::Current => { "SELECT serial, app, ia, deadline, run_cycle, status FROM cp_row" }
        Table::History => { "SELECT serial, app, ia, deadline, run_cycle FROM history_row" }
        Table::Deletion => {
            "SELECT serial, app, ia, deadline, run_cycle, reason FROM deletion_row"
        }
        Table::Dependency => { "SELECT successor, predecessor FROM dependency" }
        Table::Job => { "SELECT number, body, reply FROM job" }
    }
}
