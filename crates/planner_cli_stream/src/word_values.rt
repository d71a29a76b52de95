ghost use Rattle.std.specs.Prelude.{◌≡◌, option_map};
ghost use Rattle.planner_cli_stream.specs.Grammar.{value_in};

use clap::ArgMatches;
use std::marker::Model;

/// What a statement's words say: the value of each option that was used, and the plain word under
/// its name. A contract sees a list of pairs of a name and its value, in the order of the words.
#[derive(Debug, Drop)]
pub struct Values<'a> {
    matches: ArgMatches<'a>,
}

impl<'a> Model for Values<'a> {
    ghost use Rattle.std.specs.Prelude.{List, ℕ, IsTrue};

    ghost Value = { List (List ℕ × List ℕ) };

    ghost use Rattle.clap.specs.Words.{found_of, rows_of};
    ghost use Rattle.planner_cli_stream.specs.WordValues.{all_have_values, uses_in};

    ghost view = { λ v. uses_in (rows_of (found_of v.matches)) };

    ghost invariant = { λ v. IsTrue (all_have_values (rows_of (found_of v.matches))) };
}

impl<'a> Values<'a> {
    ghost use Rattle.std.specs.Prelude.{◌≡◌, IsTrue};
    ghost use Rattle.clap.specs.Words.{found_of, rows_of};
    ghost use Rattle.planner_cli_stream.specs.WordValues.{all_have_values, uses_in};

    pub(crate) fn new(matches: ArgMatches<'a>) -> Values<'a>
        requires { IsTrue (all_have_values (rows_of (found_of matches))) }
        ensures { result ≡ uses_in (rows_of (found_of matches.entry)) }
    {
        Values { matches }
    }

    ghost use Rattle.std.specs.Prelude.{option_map};
    ghost use Rattle.planner_cli_stream.specs.Grammar.{value_in};

    /// The value of the option `name`, or the plain word of that name: `None` where it was not used.
    pub fn get(&self, name: &str) -> Option<&'a str>
        ensures { option_map (λ s. s.now) result ≡ value_in self.now name.now }
    {
        self.matches.get_str(name)
    }
}
