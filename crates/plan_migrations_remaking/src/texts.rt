// The texts of the statements.

ghost use Rattle.std.specs.Prelude.{◌≡◌};
ghost use Rattle.plan_tables_schema.specs.Texts.{delete_sql};
ghost use Rattle.plan_tables_schema.specs.declared.tables.Table.TheVariants.{LinkInForce, Meta, Predecessor};
ghost use Rattle.plan_migrations_remaking.specs.FirstTexts.{drop_sql, first_create_sql, first_select_sql};

use plan_tables_schema::{Table, create_text, select_text};

/// The text that makes the table of schema 1.
pub(crate) fn first_create_text(table: Table) -> &'static str
    ensures { result.now ≡ first_create_sql table }
{
    match table {
        Table::Predecessor => {
            "CREATE TABLE predecessor (app TEXT NOT NULL, pred TEXT NOT NULL, PRIMARY KEY (app, pred)) STRICT"
        }
        Table::LinkInForce => {
            "CREATE TABLE link_in_force (app TEXT NOT NULL, pred TEXT NOT NULL, PRIMARY KEY (app, pred)) STRICT"
        }
        _ => create_text(table),
    }
}

/// The text that selects all rows of the table of schema 1.
pub fn first_select_text(table: Table) -> &'static str
    ensures { result.now ≡ first_select_sql table }
{
    match table {
        Table::Predecessor => "SELECT app, pred FROM predecessor",
        Table::LinkInForce => "SELECT app, pred FROM link_in_force",
        _ => select_text(table),
    }
}

/// The text that drops the lists of predecessors.
pub(crate) fn drop_predecessors_text() -> &'static str
    ensures { result.now ≡ drop_sql Predecessor }
{
    "DROP TABLE predecessor"
}

/// The text that drops the lists in force.
pub(crate) fn drop_links_text() -> &'static str
    ensures { result.now ≡ drop_sql LinkInForce }
{
    "DROP TABLE link_in_force"
}

/// The text that deletes the row of `plan_meta`.
pub(crate) fn delete_meta_text() -> &'static str
    ensures { result.now ≡ delete_sql Meta }
{
    "DELETE FROM plan_meta WHERE id = ?1"
}
