ghost use Rattle.std.specs.Prelude.{◌≡◌, ℕ, List};
ghost use Rattle.planner_cli_stream.specs.Statement.{IsLineOf};
ghost use Rattle.planner_cli_stream.specs.declared.statements.Statement.{Statement};

/// No line is two statements.
pub fn one_statement_per_line()
    ensures { (line : List ℕ) (s t : Statement) → IsLineOf s line → IsLineOf t line → s ≡ t }
{}
