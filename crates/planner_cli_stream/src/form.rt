ghost use Rattle.std.specs.Prelude.{◌≡◌, IfOk, true, false};
ghost use Rattle.std.specs.List.{list_any};
ghost use Rattle.planner_cli_stream.specs.Grammar.{is_stray as is_stray_word, reading_of};
ghost use Rattle.planner_cli_stream.specs.Form.{layout_of, texts};
ghost use Rattle.planner_cli_stream.specs.Command.{app_for, option_rule, word_rule};
ghost use Rattle.clap.specs.Words.{app_of, rule_of};

use crate::Values;
use clap::error::ErrorKind;
use clap::{Arg, ArgAction, Command};
use std::alloc::{AllocError, Global};

/// What may follow a statement's name: required options and optional ones, each with one value and used at most once,
/// and one plain word under a name of its own, or none.
#[derive(Clone, Copy, Debug)]
pub struct Form<'f> {
    pub required: &'f [&'static str],
    pub optional: &'f [&'static str],
    pub word: Option<&'static str>,
}

impl Form<'_> {
    /// What the words say if they are in the grammar of the form, else `None`. An `Err` means only that memory was
    /// refused.
    pub fn read<'a>(
        &self,
        alloc: Global,
        words: &'a [&'a str],
    ) -> Result<Option<Values<'a>>, AllocError>
        ensures { IfOk result (λ values. values ≡ reading_of (layout_of self.now)
            (texts words.now)) }
    {
        if has_stray(words) {
            return Ok(None);
        }
        let command = command_of(alloc, self)?;
        match command.try_get_matches_from(words) {
            Ok(matches) => Ok(Some(Values::new(matches))),
            Err(error) => match error.kind() {
                ErrorKind::OutOfMemory => Err(AllocError),
                _ => Ok(None),
            },
        }
    }
}

// The word is `-`, `--` or begins with a single hyphen.
fn is_stray(word: &str) -> bool
    ensures { result ≡ is_stray_word word.now }
{
    match word.as_bytes() {
        [b'-', b'-', _, ..] => false,
        [b'-', ..] => true,
        _ => false,
    }
}

fn has_stray(words: &[&str]) -> bool
    ensures { result ≡ list_any (λ w. is_stray_word w.now) words.now }
{
    words.iter().any(|word| is_stray(word))
}

fn option_arg<'a>(alloc: Global, name: &'a str, is_required: bool) -> Arg<'a>
    ensures rule { rule_of result ≡ option_rule (name.now, is_required) }
    ensures local { result.global ≡ false }
{
    Arg::new(alloc, name)
        .long(name)
        .required(is_required)
        .action(ArgAction::Set)
}

fn word_arg<'a>(alloc: Global, name: &'a str) -> Arg<'a>
    ensures rule { rule_of result ≡ word_rule name.now }
    ensures local { result.global ≡ false }
{
    Arg::new(alloc, name).required(true).action(ArgAction::Set)
}

fn command_of<'a>(alloc: Global, form: &Form<'_>) -> Result<Command<'a>, AllocError>
    ensures { IfOk result (λ c. app_of c ≡ app_for (layout_of form.now)) }
{
    let mut command = Command::new(alloc, "statement")
        .no_binary_name(true)
        .disable_help_flag(true);
    if let Some(name) = form.word {
        command = command.arg(word_arg(alloc, name))?;
    }
    for required in form.required {
        command = command.arg(option_arg(alloc, required, true))?;
    }
    for optional in form.optional {
        command = command.arg(option_arg(alloc, optional, false))?;
    }
    Ok(command)
}
