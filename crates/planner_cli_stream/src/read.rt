//! Lines are read as statements.
ghost use Rattle.std.specs.Prelude.{◌≡◌, IfOk};
ghost use Rattle.planner_cli_stream.specs.Statement.{Reads, change_of, create_of, daily_trial_of, extend_of};
ghost use Rattle.planner_cli_stream.specs.Statement.{daily_extend_of, fits_kind, key_in, list_of, modify_one_of};
ghost use Rattle.planner_cli_stream.specs.Statement.{on_key_of, plan_trial_of, statement_of, undefine_of};

use crate::arguments::Arguments;
use crate::values::arguments_in;
use crate::{
    ChangeStatement, DailyFunction, FunctionWord, KeyAct, KindWord, PlanFunction, Statement, Verb,
    is_line_text, words_in,
};
use occurrences::Key;
use std::alloc::{AllocError, Global};
use work_calendars::{LONGEST_SHORT_NAME, Name};

/// The statement that the line is, or `None` where it is no statement: a name that is not among the statements', an
/// option that is unknown, missing or doubled, a value that is not of its form, a word too many, a request for help.
/// An `Err` means only that memory was refused.
pub fn read_statement(alloc: Global, line: &[u8]) -> Result<Option<Statement>, AllocError>
    ensures { IfOk result (Reads line.now) }
{
    if !is_line_text(line) {
        return Ok(None);
    }
    let words = words_in(alloc, line)?;
    let Some((name, after)) = words.as_slice().split_first() else {
        return Ok(None);
    };
    let Some(verb) = Verb::from_text(name) else {
        return Ok(None);
    };
    match verb.form().read(alloc, after)? {
        Some(values) => Ok(statement_of(verb, &arguments_in(&values))),
        None => Ok(None),
    }
}

/// The statement of that name that the values make.
fn statement_of(verb: Verb, a: &Arguments) -> Option<Statement>
    ensures { result ≡ statement_of verb a.now }
{
    match verb {
        Verb::Define => Some(Statement::Define {
            kind: a.kind?,
            job: a.job?,
        }),
        Verb::Days => Some(Statement::Days {
            app: a.app?,
            from: a.from?,
            to: a.to?,
        }),
        Verb::LtpTrial => Some(Statement::PlanTrial(plan_trial_of(a, a.function?)?)),
        Verb::DpTrial => Some(Statement::DailyTrial(daily_trial_of(a, a.function?)?)),
        Verb::List => list_of(a),
        Verb::Undefine
        | Verb::LtpCreate
        | Verb::LtpExtend
        | Verb::LtpModifyAll
        | Verb::LtpModifyOne
        | Verb::DpExtend
        | Verb::DpReplan
        | Verb::OnKey(_) => Some(Statement::Change {
            change: change_of(verb, a)?,
            job: a.job?,
        }),
    }
}

/// The change of that name that the values make; none if no change has the name.
fn change_of(verb: Verb, a: &Arguments) -> Option<ChangeStatement>
    ensures { result ≡ change_of verb a.now }
{
    match verb {
        Verb::Undefine => undefine_of(a),
        Verb::LtpCreate => Some(ChangeStatement::Plan(create_of(a)?)),
        Verb::LtpExtend => Some(ChangeStatement::Plan(extend_of(a)?)),
        Verb::LtpModifyAll => Some(ChangeStatement::Plan(PlanFunction::ModifyAll)),
        Verb::LtpModifyOne => Some(ChangeStatement::Plan(modify_one_of(a)?)),
        Verb::DpExtend => Some(ChangeStatement::Daily(daily_extend_of(a)?)),
        Verb::DpReplan => Some(ChangeStatement::Daily(DailyFunction::Replan)),
        Verb::OnKey(act) => on_key_of(a, act),
        Verb::Define | Verb::Days | Verb::LtpTrial | Verb::DpTrial | Verb::List => None,
    }
}

/// `undefine`, with a name that fits its kind.
fn undefine_of(a: &Arguments) -> Option<ChangeStatement>
    ensures { result ≡ undefine_of a.now }
{
    let (kind, name) = (a.kind?, a.name?);
    if fits_kind(kind, &name) {
        Some(ChangeStatement::Undefine { kind, name })
    } else {
        None
    }
}

/// Whether a name fits that kind of definition.
fn fits_kind(kind: KindWord, name: &Name) -> bool
    ensures { result ≡ fits_kind kind name.now }
{
    match kind {
        KindWord::Options => false,
        KindWord::Periods => name.as_bytes().len() <= LONGEST_SHORT_NAME,
        KindWord::Calendars
        | KindWord::Applications
        | KindWord::RunCycles
        | KindWord::Predecessors => true,
    }
}

/// `create`, from one day to another.
fn create_of(a: &Arguments) -> Option<PlanFunction>
    ensures { result ≡ create_of a.now }
{
    Some(PlanFunction::Create {
        from: a.from?,
        to: a.to?,
    })
}

/// `extend`, to a day.
fn extend_of(a: &Arguments) -> Option<PlanFunction>
    ensures { result ≡ extend_of a.now }
{
    Some(PlanFunction::Extend { to: a.to? })
}

/// `modify-one`, for an application.
fn modify_one_of(a: &Arguments) -> Option<PlanFunction>
    ensures { result ≡ modify_one_of a.now }
{
    Some(PlanFunction::ModifyOne { app: a.app? })
}

/// `extend` of a daily plan, to a moment or by days.
fn daily_extend_of(a: &Arguments) -> Option<DailyFunction>
    ensures { result ≡ daily_extend_of a.now }
{
    if a.has_days || a.has_count {
        if a.has_to {
            return None;
        }
        return Some(DailyFunction::ExtendBy {
            days: a.days?,
            count: a.count?,
        });
    }
    Some(DailyFunction::Extend { to: a.to_moment? })
}

/// The occurrence that the values name.
fn key_in(a: &Arguments) -> Option<Key>
    ensures { result ≡ key_in a.now }
{
    Some(Key {
        ia: a.ia?,
        app: a.app?,
    })
}

/// A change of the occurrence that the values name.
fn on_key_of(a: &Arguments, act: KeyAct) -> Option<ChangeStatement>
    ensures { result ≡ on_key_of a.now act }
{
    Some(ChangeStatement::OnKey {
        key: key_in(a)?,
        act,
    })
}

/// The function of `ltp-trial`, with the options that it accepts and no others.
fn plan_trial_of(a: &Arguments, function: FunctionWord) -> Option<PlanFunction>
    ensures { result ≡ plan_trial_of a.now function }
{
    match function {
        FunctionWord::Create if !a.has_app => create_of(a),
        FunctionWord::Extend if !(a.has_from || a.has_app) => extend_of(a),
        FunctionWord::ModifyAll if !(a.has_from || a.has_to || a.has_app) => {
            Some(PlanFunction::ModifyAll)
        }
        FunctionWord::ModifyOne if !(a.has_from || a.has_to) => modify_one_of(a),
        FunctionWord::Create
        | FunctionWord::Extend
        | FunctionWord::ModifyAll
        | FunctionWord::ModifyOne
        | FunctionWord::Replan => None,
    }
}

/// The function of `dp-trial`, with the options that it accepts and no others.
fn daily_trial_of(a: &Arguments, function: FunctionWord) -> Option<DailyFunction>
    ensures { result ≡ daily_trial_of a.now function }
{
    match function {
        FunctionWord::Extend => daily_extend_of(a),
        FunctionWord::Replan if !(a.has_to || a.has_days || a.has_count) => {
            Some(DailyFunction::Replan)
        }
        FunctionWord::Create
        | FunctionWord::ModifyAll
        | FunctionWord::ModifyOne
        | FunctionWord::Replan => None,
    }
}

/// `list`, with its option if that is there.
fn list_of(a: &Arguments) -> Option<Statement>
    ensures { result ≡ list_of a.now }
{
    let what = a.what?;
    if a.has_app {
        Some(Statement::ListApp { what, app: a.app? })
    } else {
        Some(Statement::List { what })
    }
}
