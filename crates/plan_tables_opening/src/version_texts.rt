// The query for the version of a plan.

ghost use Rattle.std.specs.Prelude.{◌≡◌};
ghost use Rattle.plan_tables_opening.specs.Foreign.{version_sql};

/// The query for the version of a plan alone: it is shown in the second column too, as in a row of the table.
pub fn version_text() -> &'static str
    ensures { result.now ≡ version_sql }
{
    "SELECT version, version FROM plan_meta"
}
