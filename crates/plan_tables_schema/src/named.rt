// Tables that are found by their names.

ghost use Rattle.std.specs.Prelude.{◌≡◌, option_copied};
ghost use Rattle.plan_tables_schema.specs.Named.{first_named};

use sqlite_schema::schema::Table;

/// The first table of the name.
pub fn first_named<'a>(tables: &'a [Table], name: &[u8]) -> Option<&'a Table>
    ensures { option_copied result ≡ first_named tables.now name.now }
{
    tables.iter().find(|t| t.is_named(name))
}
